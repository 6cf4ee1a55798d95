//! Copies of queries.
ghost use Rattle.std.specs.Prelude.{◌≡◌, IfOk, map};
ghost use Rattle.std.specs.Arc.{arc_str_bytes};
ghost use Rattle.clip_grammar.specs.Tree.{tree_of};

use clip_grammar::query::Query;
use clip_words::NoMemory;
use std::alloc::Global;
use std::sync::ArcStr;

/// A copy of a list of words. Their texts are shared.
fn copied_words(alloc: Global, words: &[ArcStr]) -> Result<Vec<ArcStr>, NoMemory>
    ensures { IfOk result (λ copy. map arc_str_bytes copy.items ≡ map arc_str_bytes words.now) }
{
    let mut copy = Vec::new(alloc);
    for word in words {
        copy.push(word.clone()?)?;
    }
    Ok(copy)
}

/// A copy of a query. Texts are shared, but for the ends of ranges.
pub(crate) fn copy_query(alloc: Global, query: &Query) -> Result<Query, NoMemory>
    ensures { IfOk result (λ copy. tree_of copy ≡ tree_of query.now) }
{
    match query {
        Query::Term { field, word } => Ok(Query::Term {
            field: field.clone()?,
            word: word.clone()?,
        }),
        Query::Phrase { field, words } => Ok(Query::Phrase {
            field: field.clone()?,
            words: copied_words(alloc, words)?,
        }),
        Query::Prefix { field, front } => Ok(Query::Prefix {
            field: field.clone()?,
            front: front.clone()?,
        }),
        Query::Span { field, low, high } => Ok(Query::Span {
            field: field.clone()?,
            low: low.clone()?,
            high: high.clone()?,
        }),
        Query::All => Ok(Query::All),
        Query::Group(clauses) => {
            let mut copies = Vec::new(alloc);
            for (occur, child) in clauses {
                copies.push((*occur, copy_query(alloc, child)?))?;
            }
            Ok(Query::Group(copies))
        }
    }
}
