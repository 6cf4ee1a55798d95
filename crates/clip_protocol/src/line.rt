//! Lines: what each says by itself.
ghost use Rattle.std.specs.Prelude.{◌≡◌, map, string_bytes};
ghost use Rattle.std.specs.List.{list_all};
ghost use Rattle.clip_words.specs.Ids.{is_id};
ghost use Rattle.serde_json.specs.View.{view};
ghost use Rattle.clip_protocol.specs.LineMeaning.{is_blank, is_blank_byte as blank_byte, json_of};
ghost use Rattle.clip_protocol.specs.Request.{delete, register, within};
ghost use Rattle.clip_protocol.specs.Steps.Outline.{ReadsAs};
ghost use Rattle.clip_protocol.specs.Steps.Saying.{ReadsValue, line_value};
ghost use Rattle.clip_protocol.specs.Steps.Views.{listing_view};

use crate::judged::{JudgedDraft, judge_drafts};
use crate::refusal::{LIMITED, Refusal, Unread};
use crate::request::{Listing, Request};
use clip_model::MOST_LISTED;
use clip_stream::MOST_LINE_BYTES;
use clip_words::{NoMemory, are_ids, is_id};
use serde_json::Value;
use std::alloc::Global;

/// What a line says by itself, before any history.
#[derive(Drop)]
pub enum Line {
    /// Nothing.
    Blank,
    /// It is refused, whatever was registered.
    Refused(Refusal),
    /// Register these queries.
    Register(Vec<Listing>),
    /// Delete the queries under these ids.
    Delete(Vec<String>),
    /// Delete all queries.
    Clear,
    /// Drop what the registry still holds of queries that are gone.
    Purge,
    /// Count the registered queries.
    Count,
    /// Show the text of the query under this id.
    Show(String),
    /// Match the articles that these drafts are.
    Match(Vec<JudgedDraft>),
}

/// Whether a byte is a space, a tab or a carriage return.
fn is_blank_byte(byte: u8) -> bool
    ensures { result ≡ blank_byte byte }
{
    byte == b' ' || byte == b'\t' || byte == b'\r'
}

/// Whether a line holds only such bytes.
pub fn is_blank(line: &[u8]) -> bool
    ensures { result ≡ is_blank line.now }
{
    line.iter().all(|byte| is_blank_byte(*byte))
}

/// The value that the bytes are, as `serde_json` reads them.
#[tactic(auto, unfolding(crate::specs::LineMeaning::json_of))]
pub fn json_of(alloc: Global, line: &[u8]) -> Result<Value, Unread>
    ensures { ReadsAs Refusal.Json view (json_of line.now) result }
{
    match Value::from_slice(alloc, line) {
        Ok(value) => Ok(value),
        Err(error) => {
            if error.is_memory() {
                Err(Unread::NoMemory)
            } else {
                Err(Unread::Refused(Refusal::Json))
            }
        }
    }
}

/// The JSON value of a line, or none where the line is blank.
///
/// `Refused` with the first that holds: `Long` where it has over 1,048,576 bytes, `Json` where `serde_json` reads no
/// value from it. `NoMemory` where an allocation failed. Its cost is the reading of the value.
#[tactic(auto, unfolding(crate::specs::Steps::Saying::line_value))]
pub fn read_value(alloc: Global, bytes: &[u8]) -> Result<Option<Value>, Unread>
    ensures { ReadsValue (line_value bytes.now) result }
{
    if bytes.len() > MOST_LINE_BYTES {
        return Err(Unread::Refused(Refusal::Long));
    }
    if is_blank(bytes) {
        return Ok(None);
    }
    Ok(Some(json_of(alloc, bytes)?))
}

/// Whether each query's id may be one.
fn have_ids(listings: &[Listing]) -> bool
    ensures { result ≡ list_all (λ l. is_id l.id) (map listing_view listings.now) }
{
    for listing in listings {
        if !is_id(listing.id.as_str()) {
            return false;
        }
    }
    true
}

/// Whether one register may list these queries: at most 1,024, each under an id that may be one.
pub fn may_register(listings: &[Listing]) -> bool
    ensures { result ≡ within (register (map listing_view listings.now)) }
{
    listings.len() <= MOST_LISTED && have_ids(listings)
}

/// Whether one delete may list these ids: at most 1,024, each of which may be one.
pub fn may_delete(ids: &[String]) -> bool
    ensures { result ≡ within (delete (map string_bytes ids.now)) }
{
    ids.len() <= MOST_LISTED && are_ids(ids)
}

impl Line {
    ghost use Rattle.std.specs.Prelude.{◌≡◌, IfOk, true};
    ghost use Rattle.clip_protocol.specs.Steps.Outline.{Outlines, outline, outline_of_request, is_within};
    ghost use Rattle.clip_protocol.specs.Steps.Views.{line_view, request_view};

    /// The line of a request, where it is within the limits.
    fn limited(alloc: Global, request: Request) -> Result<Line, Unread>
        ensures outline { Outlines line_view (outline_of_request (request_view request)) result }
        ensures within { IfOk result (λ line. is_within (line_view line) ≡ true) }
    {
        match request {
            Request::Register(listings) => {
                if !may_register(&listings) {
                    return Err(LIMITED);
                }
                Ok(Line::Register(listings))
            }
            Request::Delete(ids) => {
                if !may_delete(&ids) {
                    return Err(LIMITED);
                }
                Ok(Line::Delete(ids))
            }
            Request::Clear => Ok(Line::Clear),
            Request::Purge => Ok(Line::Purge),
            Request::Count => Ok(Line::Count),
            Request::Show(id) => {
                if !is_id(id.as_str()) {
                    return Err(LIMITED);
                }
                Ok(Line::Show(id))
            }
            Request::Match(drafts) => Ok(Line::Match(judge_drafts(alloc, drafts)?)),
        }
    }

    /// What the bytes say, or why they are refused.
    #[tactic(auto, using(crate::proofs::Saying::outline_by_value))]
    fn read(alloc: Global, bytes: &[u8]) -> Result<Line, Unread>
        ensures outline { Outlines line_view (outline bytes.now) result }
        ensures within { IfOk result (λ line. is_within (line_view line) ≡ true) }
    {
        match read_value(alloc, bytes)? {
            Some(value) => Line::limited(alloc, Request::of_value(alloc, value)?),
            None => Ok(Line::Blank),
        }
    }

    /// What a line says, its line feed left out. `NoMemory` where an allocation failed. Its cost is the reading of its
    /// JSON value; the articles that it lists are judged and not read.
    pub fn of_bytes(alloc: Global, bytes: &[u8]) -> Result<Line, NoMemory>
        ensures outline { IfOk result (λ line. outline bytes.now ≡ line_view line) }
        ensures within { IfOk result (λ line. is_within (line_view line) ≡ true) }
    {
        match Line::read(alloc, bytes) {
            Ok(line) => Ok(line),
            Err(Unread::Refused(reason)) => Ok(Line::Refused(reason)),
            Err(Unread::NoMemory) => Err(NoMemory),
        }
    }
}
