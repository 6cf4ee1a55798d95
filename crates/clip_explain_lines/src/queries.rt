//! What is told of a query's text.
ghost use Rattle.std.specs.Prelude.{◌≡◌, ◌∷◌, [], codes, map, IfOk};
ghost use Rattle.json.specs.Token as token;
ghost use Rattle.json.specs.Token.{key};
ghost use Rattle.serde_json.specs.Written.{compact_text};
ghost use Rattle.serde_json.specs.Data.{string};
ghost use Rattle.clip_grammar.specs.Tree.{tree_of};
ghost use Rattle.clip_explain.specs.Spelling.{spelling};
ghost use Rattle.clip_protocol.specs.Request.{array_of};
ghost use Rattle.clip_protocol.specs.Steps.Printing.{Appends, data_tokens};
ghost use Rattle.clip_explain_lines.specs.TreeData.{tree_data, words_in};
ghost use Rattle.clip_explain_lines.specs.Steps.Members.{first_tokens, last_tokens_of, middle_tokens};
ghost use Rattle.clip_explain_lines.specs.Told.{Tells, query_data, remark_data};

use crate::faults::{fault_says, fault_text};
use crate::keys::write_keys;
use crate::remarked::write_remarks;
use crate::sentence::sentence;
use crate::tree::write_tree;
use crate::words::write_words;
use crate::writing::{Member, begin_object, end_object, write_members, write_text};
use clip_explain::{Explained, Explanation, explain, spell};
use clip_grammar::query::Query;
use clip_remarks::{Remark, remarks};
use clip_words::NoMemory;
use json::Writer;
use std::alloc::Global;

/// Writes the members `always` to `nodes` of a query.
fn write_first(out: &mut Writer, told: &Explanation) -> Result<(), NoMemory>
    ensures { Appends result out.old out.new (first_tokens told.now) }
{
    write_members(out, &[Member::Flag("always", told.always)])?;
    out.key("keys")?;
    write_keys(out, &told.keys)?;
    write_members(
        out,
        &[
            Member::Flag("never", told.never),
            Member::Number("nodes", told.nodes as u64),
        ],
    )
}

/// Writes the member that spells a query.
fn write_spelling(out: &mut Writer, alloc: Global, query: &Query) -> Result<(), NoMemory>
    ensures { Appends result out.old out.new
        (key (codes "reads") ∷ token.string (spelling (tree_of query.now)) ∷ []) }
{
    let reads = spell(alloc, query)?;
    write_text(out, "reads", &reads)
}

/// Writes the member that has the remarks.
fn write_remarks_member(out: &mut Writer, remarks: &[Remark]) -> Result<(), NoMemory>
    ensures { Appends result out.old out.new
        (key (codes "remarks") ∷ data_tokens (array_of (map remark_data remarks.now))) }
{
    out.key("remarks")?;
    write_remarks(out, remarks)
}

/// Writes the members `reads` to `says` of a query.
fn write_middle(
    out: &mut Writer,
    alloc: Global,
    told: &Explanation,
    remarks: &[Remark],
    says: &str,
) -> Result<(), NoMemory>
    ensures { Appends result out.old out.new (middle_tokens told.now remarks.now says.now) }
{
    write_spelling(out, alloc, &told.query)?;
    write_remarks_member(out, remarks)?;
    write_text(out, "says", says)
}

/// Writes the member that has a query's tree.
fn write_tree_member(out: &mut Writer, query: &Query) -> Result<(), NoMemory>
    ensures { Appends result out.old out.new (key (codes "tree") ∷ data_tokens (tree_data (tree_of query.now))) }
{
    out.key("tree")?;
    write_tree(out, query)
}

/// Writes the member that has a query's words.
fn write_words_member(out: &mut Writer, query: &Query) -> Result<(), NoMemory>
    ensures { Appends result out.old out.new
        (key (codes "words") ∷ data_tokens (array_of (map string (words_in (tree_of query.now))))) }
{
    out.key("words")?;
    write_words(out, query)
}

/// Writes the members `tree` to `words` of a query.
fn write_last(out: &mut Writer, told: &Explanation) -> Result<(), NoMemory>
    ensures { Appends result out.old out.new (last_tokens_of told.now) }
{
    write_tree_member(out, &told.query)?;
    write_members(
        out,
        &[
            Member::Flag("tried_on_all", told.tried_on_all),
            Member::Number("weight", told.weight),
        ],
    )?;
    write_words_member(out, &told.query)
}

/// What is told of a query, with remarks and a sentence: JSON.
fn read_text(
    alloc: Global,
    told: &Explanation,
    remarks: &[Remark],
    says: &str,
) -> Result<Vec<u8>, NoMemory>
    ensures { IfOk result (λ text. text.items ≡ compact_text (query_data told.now remarks.now says.now)) }
{
    let mut out = begin_object(alloc)?;
    write_first(&mut out, told)?;
    write_middle(&mut out, alloc, told, remarks, says)?;
    write_last(&mut out, told)?;
    end_object(out)
}

/// What a query's text means, as compact JSON without a line feed. Of a text that is a query: how it is read, in signs,
/// as a tree and in a sentence, its words, the keys by which it is found, and what is to be remarked. Of any other
/// text: the fault, the byte at which it is, and a sentence that says what is wrong. A byte counts from 0.
///
/// `NoMemory` where an allocation failed. The cost is that of `explain`, and linear in the text that is given.
pub fn query_text(alloc: Global, query: &str) -> Result<Vec<u8>, NoMemory>
    ensures { IfOk result (λ answer. Tells query.now answer.items) }
{
    match explain(alloc, query)? {
        Explained::Read(told) => {
            let says = sentence(alloc, &told)?;
            let remarks = remarks(alloc, query)?;
            Ok(read_text(alloc, &told, &remarks, &says)?)
        }
        Explained::Refused(why) => {
            fault_text(
                alloc,
                why.at,
                why.fault,
                fault_says(query, why.at, why.fault),
            )
        }
    }
}
