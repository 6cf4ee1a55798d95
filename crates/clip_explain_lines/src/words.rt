//! The words of a query.
ghost use Rattle.std.specs.Prelude.{◌≡◌, map, flat_map};
ghost use Rattle.std.specs.Arc.{arc_str_bytes};
ghost use Rattle.serde_json.specs.Data.{string};
ghost use Rattle.clip_grammar.specs.Tree.{tree_of};
ghost use Rattle.clip_protocol.specs.Request.{array_of};
ghost use Rattle.clip_protocol.specs.Steps.Printing.{Appends, data_tokens};
ghost use Rattle.clip_explain_lines.specs.TreeData.{words_in};

use clip_grammar::query::Query;
use clip_words::NoMemory;
use json::Writer;
use std::sync::ArcStr;

/// Writes words, one after the other.
fn write_each(out: &mut Writer, words: &[ArcStr]) -> Result<(), NoMemory>
    ensures { Appends result out.old out.new (flat_map data_tokens (map string (map arc_str_bytes words.now))) }
{
    for word in words {
        out.string(word)?;
    }
    Ok(())
}

/// Writes the words and prefixes of a query, one after the other. It recurses as deep as the query's groups nest.
fn write_words_in(out: &mut Writer, query: &Query) -> Result<(), NoMemory>
    ensures { Appends result out.old out.new (flat_map data_tokens (map string (words_in (tree_of query.now)))) }
{
    match query {
        Query::Term { field: _, word } => Ok(out.string(word)?),
        Query::Phrase { field: _, words } => write_each(out, words),
        Query::Prefix { field: _, front } => Ok(out.string(front)?),
        Query::Span {
            field: _,
            low: _,
            high: _,
        } => Ok(()),
        Query::All => Ok(()),
        Query::Group(clauses) => {
            for (_, child) in clauses {
                write_words_in(out, child)?;
            }
            Ok(())
        }
    }
}

/// Writes the words and prefixes of a query as an array.
pub fn write_words(out: &mut Writer, query: &Query) -> Result<(), NoMemory>
    ensures { Appends result out.old out.new (data_tokens (array_of (map string (words_in (tree_of query.now))))) }
{
    out.begin_array()?;
    write_words_in(out, query)?;
    out.end_array()?;
    Ok(())
}
