//! Queries written as JSON.
ghost use Rattle.std.specs.Prelude.{◌≡◌, [], ◌∷◌, ◌++◌, codes, map};
ghost use Rattle.std.specs.Arc.{arc_str_bytes};
ghost use Rattle.json.specs.Token as token;
ghost use Rattle.serde_json.specs.Data.{string};
ghost use Rattle.clip_grammar.specs.Tree.{tree_of, end_of};
ghost use Rattle.clip_protocol.specs.Request.{array_of};
ghost use Rattle.clip_protocol.specs.Steps.Printing.{Appends, data_tokens};
ghost use Rattle.clip_explain_lines.specs.TreeData.{end_data, leaf_data, limit_data, occur_word, tree_data};

use crate::writing::{Member, write_object, write_text};
use clip_grammar::query::{Bound, Occur, Query};
use clip_words::NoMemory;
use json::Writer;
use std::sync::ArcStr;

/// The word for how a clause counts.
fn occur_word(occur: Occur) -> &'static str
    ensures { result.now ≡ occur_word occur }
{
    match occur {
        Occur::Must => "must",
        Occur::Should => "should",
        Occur::MustNot => "must_not",
    }
}

/// Writes an end that a range has.
fn write_limit(out: &mut Writer, included: bool, text: &str) -> Result<(), NoMemory>
    ensures { Appends result out.old out.new (data_tokens (limit_data included text.now)) }
{
    write_object(
        out,
        &[
            Member::Flag("included", included),
            Member::Text("text", text),
        ],
    )
}

/// Writes an end of a range.
fn write_end(out: &mut Writer, end: &Bound) -> Result<(), NoMemory>
    ensures { Appends result out.old out.new (data_tokens (end_data (end_of end.now))) }
{
    match end {
        Bound::Free => Ok(out.null()?),
        Bound::With(text) => write_limit(out, true, text),
        Bound::Without(text) => write_limit(out, false, text),
    }
}

/// Writes the beginning of a leaf of this kind, up to its field.
fn begin_leaf(out: &mut Writer, kind: &str, field: &str) -> Result<(), NoMemory>
    ensures { Appends result out.old out.new
        (token.begin_object ∷ token.key kind.now ∷ token.begin_object ∷ token.key (codes "field")
        ∷ token.string field.now ∷ []) }
{
    out.begin_object()?;
    out.key(kind)?;
    out.begin_object()?;
    write_text(out, "field", field)
}

/// Writes a leaf of this kind that has one text.
fn write_leaf(
    out: &mut Writer,
    kind: &str,
    field: &str,
    name: &str,
    text: &str,
) -> Result<(), NoMemory>
    ensures { Appends result out.old out.new
        (data_tokens (leaf_data kind.now field.now ((name.now, string text.now) ∷ []))) }
{
    begin_leaf(out, kind, field)?;
    write_text(out, name, text)?;
    out.end_object()?;
    out.end_object()?;
    Ok(())
}

/// Writes words as an array.
fn write_words(out: &mut Writer, words: &[ArcStr]) -> Result<(), NoMemory>
    ensures { Appends result out.old out.new
        (data_tokens (array_of (map string (map arc_str_bytes words.now)))) }
{
    out.begin_array()?;
    for word in words {
        out.string(word)?;
    }
    out.end_array()?;
    Ok(())
}

/// Writes a phrase.
fn write_phrase(out: &mut Writer, field: &str, words: &[ArcStr]) -> Result<(), NoMemory>
    ensures { Appends result out.old out.new (data_tokens (leaf_data (codes "phrase") field.now
        ((codes "words", array_of (map string (map arc_str_bytes words.now))) ∷ []))) }
{
    begin_leaf(out, "phrase", field)?;
    out.key("words")?;
    write_words(out, words)?;
    out.end_object()?;
    out.end_object()?;
    Ok(())
}

/// Writes a member that is an end of a range.
fn write_end_member(out: &mut Writer, name: &str, end: &Bound) -> Result<(), NoMemory>
    ensures { Appends result out.old out.new (token.key name.now ∷ data_tokens (end_data (end_of end.now))) }
{
    out.key(name)?;
    write_end(out, end)
}

/// Writes a range.
fn write_range(out: &mut Writer, field: &str, low: &Bound, high: &Bound) -> Result<(), NoMemory>
    ensures { Appends result out.old out.new (data_tokens (leaf_data (codes "range") field.now
        ((codes "high", end_data (end_of high.now)) ∷ (codes "low", end_data (end_of low.now)) ∷ []))) }
{
    begin_leaf(out, "range", field)?;
    write_end_member(out, "high", high)?;
    write_end_member(out, "low", low)?;
    out.end_object()?;
    out.end_object()?;
    Ok(())
}

/// Writes the beginning of a clause, up to its tree.
fn begin_clause(out: &mut Writer, occur: Occur) -> Result<(), NoMemory>
    ensures { Appends result out.old out.new (token.begin_object ∷ token.key (codes "occur")
        ∷ token.string (occur_word occur) ∷ token.key (codes "tree") ∷ []) }
{
    out.begin_object()?;
    write_text(out, "occur", occur_word(occur))?;
    out.key("tree")?;
    Ok(())
}

/// Writes the tree of a query. It recurses as deep as the query's groups nest.
pub fn write_tree(out: &mut Writer, query: &Query) -> Result<(), NoMemory>
    ensures { Appends result out.old out.new (data_tokens (tree_data (tree_of query.now))) }
{
    match query {
        Query::Term { field, word } => write_leaf(out, "term", field, "word", word),
        Query::Phrase { field, words } => write_phrase(out, field, words),
        Query::Prefix { field, front } => write_leaf(out, "prefix", field, "front", front),
        Query::Span { field, low, high } => write_range(out, field, low, high),
        Query::All => Ok(out.string("all")?),
        Query::Group(clauses) => {
            out.begin_array()?;
            for (occur, child) in clauses {
                begin_clause(out, *occur)?;
                write_tree(out, child)?;
                out.end_object()?;
            }
            out.end_array()?;
            Ok(())
        }
    }
}
