//! Near and order: whether two words, phrases or prefixes stand close to each other in a field of an article, and the
//! query of the profile that misses no such article.
//!
//! The profile has no query for it. So a caller registers the wider query, and filters the alerts that it gives: what
//! is left is what the near asks for.
#![tactic(auto)]

ghost use Rattle.std.specs.Prelude.{◌≡◌, ℕ, Bool, ◌&&◌, true, false, IfOk, OnOk, OnErr};
ghost use Rattle.clip_grammar.specs.Tree.{tree_of};
ghost use Rattle.clip_meaning.specs.Article.{Fields};
ghost use Rattle.clip_meaning.specs.Meaning.{holds};
ghost use Rattle.clip_near.specs.Near.{near_holds, has_places, wider_of};

mod place;
#[cfg(test)]
mod tests;

use crate::place::{field_of, is_followed};
use clip_grammar::query::{Occur, Query};
use clip_meaning::Article;
use clip_words::NoMemory;
use std::alloc::Global;
use thiserror::Error;

/// A query is no word, phrase or prefix: it asks for a range, for every article, or by several clauses.
#[derive(Clone, Copy, Debug, PartialEq, Eq, Error)]
#[error("no word, phrase or prefix")]
pub struct NoPlaces;

/// Whether a word, a phrase or a prefix stands near another in an article, as in Lucene's span near query.
///
/// Each stands where its words do: a word and a prefix at one word of their field, a phrase at as many as it has. The
/// queries are near where a place of the first and a place of the second are in one field, have no word in common, and
/// at most `between` words stand between the end of the one and the start of the other; 0 where they are next to each
/// other. Where `ordered`, the place of the first is before that of the second. Groups around a query whose only
/// clause must or may hold, as parentheses make, are looked through.
///
/// Takes no memory. Cost: one walk over the words of the field, two where not `ordered`; at each of them a look whether
/// either query stands there, which for a phrase takes up to as many words as it has. How often both stand in the field
/// makes no difference.
///
/// # Errors
///
/// `NoPlaces` where either query is no word, phrase or prefix.
#[tactic(auto, unfolding(crate::specs::Near::near_holds))]
pub fn near_holds(
    first: &Query,
    second: &Query,
    between: usize,
    ordered: bool,
    article: &Article,
) -> Result<bool, NoPlaces>
    ensures near { IfOk result (λ held. held
        ≡ near_holds (tree_of first.now) (tree_of second.now) between ordered article.now.fields) }
    ensures taken { OnOk result ((has_places (tree_of first.now) && has_places (tree_of second.now)) ≡ true) }
    ensures refused { OnErr result ((has_places (tree_of first.now) && has_places (tree_of second.now)) ≡ false) }
{
    let first = first.bare();
    let second = second.bare();
    let Some(field) = field_of(first) else {
        return Err(NoPlaces);
    };
    let Some(other) = field_of(second) else {
        return Err(NoPlaces);
    };
    if field != other {
        return Ok(false);
    }
    let words = article.field(field);
    if is_followed(between, first, second, words) {
        return Ok(true);
    }
    Ok(!ordered && is_followed(between, second, first, words))
}

/// The query that both hold, `+first +second`. It holds of each article in which they are near, whatever lies between
/// them and in whatever order: so a filter by `near_holds` after it misses nothing.
///
/// `NoMemory` where an allocation failed. Constant time.
pub fn wider(alloc: Global, first: Query, second: Query) -> Result<Query, NoMemory>
    ensures both { IfOk result (λ query. tree_of query ≡ wider_of (tree_of first) (tree_of second)) }
    ensures misses_nothing { IfOk result (λ query. (between : ℕ) (ordered : Bool) (fields : Fields)
        → near_holds (tree_of first) (tree_of second) between ordered fields ≡ true
        → holds (tree_of query) fields ≡ true) }
{
    let mut clauses = Vec::with_capacity(alloc, 2)?;
    clauses.push((Occur::Must, first))?;
    clauses.push((Occur::Must, second))?;
    Ok(Query::Group(clauses))
}
