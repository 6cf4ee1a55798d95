//! Replies, and their text. That of the reply to a match is made of what was found (`found_text`).
ghost use Rattle.std.specs.Prelude.{◌≡◌, [], ◌∷◌, ◌++◌, codes, IfOk, map, option_map, string_bytes};
ghost use Rattle.json.specs.Print.{print};
ghost use Rattle.json.specs.Token.{begin_object, end_object};
ghost use Rattle.serde_json.specs.Data.{Data, string};
ghost use Rattle.clip_standing.specs.Alerts.{alerts_value};
ghost use Rattle.clip_protocol.specs.Reply as reply;
ghost use Rattle.clip_protocol.specs.Reply.{number_of, printed, reply_value};
ghost use Rattle.clip_protocol.specs.Request.{object_of};
ghost use Rattle.clip_protocol.specs.Steps.Printing.{data_tokens};
ghost use Rattle.clip_protocol.specs.Steps.Views.{alerts_by_id, applied_view, reply_view};

use crate::printing::{write_alerts_of_all, write_number, write_text, write_text_or_null};
use crate::refusal::Refusal;
use clip_standing::{Alerts, Applied};
use clip_stream::Form;
use clip_words::NoMemory;
use json::Writer;
use std::alloc::Global;

/// What is answered to a line.
#[derive(Drop)]
pub enum Reply {
    /// Nothing, to a blank line.
    Nothing,
    /// The line is refused.
    Refused(Refusal),
    /// The line is refused for what its list has at this place, from 0.
    RefusedAt(Refusal, u64),
    /// So many distinct ids were registered.
    Registered(u64),
    /// So many queries were deleted.
    Deleted(u64),
    /// So many queries were there, and all are deleted.
    Cleared(u64),
    /// What the registry still held of queries that are gone is dropped.
    Purged,
    /// So many queries are registered.
    Counted(u64),
    /// The text of a query, where one is registered under the id.
    Shown(Option<String>),
    /// The word for the answer to an event of a trace.
    Stepped(&'static str),
    /// The alerts of each article of a batch of a trace.
    Finished(Vec<Alerts>),
}

/// A reply whose object has begun.
pub fn begin_reply(alloc: Global) -> Result<Writer, NoMemory>
    ensures before { IfOk result (λ out. out.before ≡ []) }
    ensures tokens { IfOk result (λ out. out.tokens ≡ begin_object ∷ []) }
{
    let mut out = Writer::new(Vec::with_capacity(alloc, 128)?);
    out.begin_object()?;
    Ok(out)
}

/// What is written of a reply, after it the end of its object, and a line feed.
pub fn line_of(mut out: Writer) -> Result<Vec<u8>, NoMemory>
    ensures { IfOk result (λ text. text.items ≡ out.before ++ print (out.tokens ++ end_object ∷ []) ++ 10 ∷ []) }
{
    out.end_object()?;
    let mut text = out.into_inner();
    text.push(b'\n')?;
    Ok(text)
}

/// The text of a reply, of which all but the end of its object is written: compact JSON, and a line feed.
fn end_reply(out: Writer) -> Result<Vec<u8>, NoMemory>
    ensures { (d : Data) → out.before ≡ [] → out.tokens ++ end_object ∷ [] ≡ data_tokens d
        → IfOk result (λ text. text.items ≡ printed d) }
{
    line_of(out)
}

/// The reply to the line of this number that gives a word under this name, which comes after `line`.
fn word_text(alloc: Global, number: u64, name: &str, word: &str) -> Result<Vec<u8>, NoMemory>
    ensures { IfOk result (λ text. text.items ≡ printed (object_of
        ((codes "line", number_of number) ∷ (name.now, string word.now) ∷ []))) }
{
    let mut out = begin_reply(alloc)?;
    out.key("line")?;
    write_number(&mut out, number)?;
    out.key(name)?;
    write_text(&mut out, word)?;
    end_reply(out)
}

/// The reply to a line that is refused for what its list has at a place.
#[tactic(auto, unfolding(crate::specs::Reply::reply_value))]
fn refused_at_text(
    alloc: Global,
    number: u64,
    reason: Refusal,
    place: u64,
) -> Result<Vec<u8>, NoMemory>
    ensures { IfOk result (λ text. text.items ≡ printed (reply_value number (reply.refused_at reason place))) }
{
    let mut out = begin_reply(alloc)?;
    out.key("line")?;
    write_number(&mut out, number)?;
    out.key("refused")?;
    write_text(&mut out, reason.word())?;
    out.key("which")?;
    write_number(&mut out, place)?;
    end_reply(out)
}

/// The reply that gives two numbers under these names, which are in byte order.
fn numbers_text(
    alloc: Global,
    first: &str,
    one: u64,
    second: &str,
    other: u64,
) -> Result<Vec<u8>, NoMemory>
    ensures { IfOk result (λ text. text.items ≡ printed (object_of
        ((first.now, number_of one) ∷ (second.now, number_of other) ∷ []))) }
{
    let mut out = begin_reply(alloc)?;
    out.key(first)?;
    write_number(&mut out, one)?;
    out.key(second)?;
    write_number(&mut out, other)?;
    end_reply(out)
}

/// The reply to a purge.
#[tactic(auto, unfolding(crate::specs::Reply::reply_value))]
fn purged_text(alloc: Global, number: u64) -> Result<Vec<u8>, NoMemory>
    ensures { IfOk result (λ text. text.items ≡ printed (reply_value number reply.purged)) }
{
    let mut out = begin_reply(alloc)?;
    out.key("line")?;
    write_number(&mut out, number)?;
    out.key("purged")?;
    out.boolean(true)?;
    end_reply(out)
}

/// The reply that shows a query's text, or that there is none.
#[tactic(auto, unfolding(crate::specs::Reply::reply_value))]
fn shown_text(alloc: Global, number: u64, text: &Option<String>) -> Result<Vec<u8>, NoMemory>
    ensures { IfOk result (λ shown. shown.items
        ≡ printed (reply_value number (reply.shown (option_map string_bytes text.now)))) }
{
    let mut out = begin_reply(alloc)?;
    out.key("line")?;
    write_number(&mut out, number)?;
    out.key("query")?;
    write_text_or_null(&mut out, text)?;
    end_reply(out)
}

/// The reply to the finish of a batch.
#[tactic(auto, unfolding(crate::specs::Reply::reply_value))]
fn finished_text(alloc: Global, number: u64, found: &[Alerts]) -> Result<Vec<u8>, NoMemory>
    ensures { IfOk result (λ text. text.items ≡ printed (reply_value number
        (reply.finished (map alerts_by_id (map alerts_value found.now))))) }
{
    let mut out = begin_reply(alloc)?;
    out.key("alerts")?;
    write_alerts_of_all(&mut out, alloc, Form::Plain, found)?;
    out.key("line")?;
    write_number(&mut out, number)?;
    end_reply(out)
}

/// The reply to a command that was accepted.
pub fn accepted(applied: Applied) -> Reply
    ensures { reply_view result ≡ applied_view applied }
{
    match applied {
        Applied::Registered(count) => Reply::Registered(count),
        Applied::Deleted(count) => Reply::Deleted(count),
        Applied::Cleared(count) => Reply::Cleared(count),
    }
}

impl Reply {
    ghost use Rattle.std.specs.Prelude.{◌≡◌, IfOk};
    ghost use Rattle.clip_protocol.specs.Reply.{reply_text};
    ghost use Rattle.clip_protocol.specs.Steps.Views.{reply_view};

    /// The text of the reply to the line of this number: compact JSON and a line feed, or nothing.
    ///
    /// `NoMemory` where an allocation failed. Its cost is linear in the text, which is written token by token and
    /// allocates only as it grows.
    #[tactic(auto, unfolding(crate::specs::Reply::reply_value))]
    pub fn text(self, alloc: Global, number: u64) -> Result<Vec<u8>, NoMemory>
        ensures { IfOk result (λ text. text.items ≡ reply_text number (reply_view self)) }
    {
        match self {
            Reply::Nothing => Ok(Vec::new(alloc)),
            Reply::Refused(reason) => word_text(alloc, number, "refused", reason.word()),
            Reply::RefusedAt(reason, place) => refused_at_text(alloc, number, reason, place),
            Reply::Registered(count) => numbers_text(alloc, "line", number, "registered", count),
            Reply::Deleted(count) => numbers_text(alloc, "deleted", count, "line", number),
            Reply::Cleared(count) => numbers_text(alloc, "cleared", count, "line", number),
            Reply::Purged => purged_text(alloc, number),
            Reply::Counted(count) => numbers_text(alloc, "count", count, "line", number),
            Reply::Shown(text) => shown_text(alloc, number, &text),
            Reply::Stepped(word) => word_text(alloc, number, "step", word),
            Reply::Finished(found) => finished_text(alloc, number, &found),
        }
    }
}
