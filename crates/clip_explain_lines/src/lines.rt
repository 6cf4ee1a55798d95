//! What a line of the protocol would be refused for.
ghost use Rattle.std.specs.Prelude.{◌≡◌, IfOk, None, map};
ghost use Rattle.serde_json.specs.Written.{compact_text};
ghost use Rattle.clip_protocol.specs.Steps.Outline.{outline};
ghost use Rattle.clip_protocol.specs.Steps.Views.{listing_view};
ghost use Rattle.clip_cause.specs.Causes.{told_of};
ghost use Rattle.clip_explain_lines.specs.Asked as ask;
ghost use Rattle.clip_explain_lines.specs.LineTold.{LineTells, TellsOfQueries, not_refused};
ghost use Rattle.clip_explain_lines.specs.Replied.{Answers};
ghost use Rattle.clip_explain_lines.specs.Steps.LineFaults.{IsFaultOfQuery, fault_data, place_data, told_data};
ghost use Rattle.clip_explain_lines.specs.Steps.Plain.{member_of};

use crate::faults::fault_says;
use crate::refused::refused_says;
use crate::writing::{Member, object_text};
use clip_cause::{Place, Spot, explain_line, item_text};
use clip_explain::{Explained, explain};
use clip_protocol::{Line, Listing, Refusal};
use clip_stream::MOST_LINE_BYTES;
use clip_words::NoMemory;
use std::alloc::Global;

/// Why a line would be refused.
#[derive(Drop)]
pub struct LineFault {
    /// The refusal.
    pub refusal: Refusal,
    /// Where the line is wrong.
    pub place: Place,
    /// A sentence that says what is wrong there.
    pub says: &'static str,
}

/// Why the query at a place of a list is refused, if it is one of those that are.
fn fault_of_query(alloc: Global, query: &str, place: usize) -> Result<Option<LineFault>, NoMemory>
    ensures { IfOk result (λ found. IsFaultOfQuery query.now place found) }
{
    let explained = explain(alloc, query)?;
    match explained {
        Explained::Read(_) => Ok(None),
        Explained::Refused(why) => {
            let path = item_text(alloc, "queries", place, Spot::Member("query"))?;
            Ok(Some(LineFault {
                refusal: Refusal::Query,
                place: Place::Member(path),
                says: fault_says(query, why.at, why.fault),
            }))
        }
    }
}

/// Why a list of queries is refused, if it is: for the first of them whose text is no query.
fn fault_of_listings(alloc: Global, listings: &[Listing]) -> Result<Option<LineFault>, NoMemory>
    ensures { IfOk result (λ found. TellsOfQueries 0 (map listing_view listings.now) (told_data found)) }
{
    for (place, listing) in listings.iter().enumerate() {
        let found = fault_of_query(alloc, listing.query.as_str(), place)?;
        if let Some(fault) = found {
            return Ok(Some(fault));
        }
    }
    Ok(None)
}

/// Why a line is refused that is a JSON value of the right shape and within its limits: for its length, or for a query.
fn fault_of_others(alloc: Global, bytes: &[u8]) -> Result<Option<LineFault>, NoMemory>
    requires { told_of (outline bytes.now) ≡ None }
    ensures { IfOk result (λ found. LineTells bytes.now (told_data found)) }
{
    let line = Line::of_bytes(alloc, bytes)?;
    match line {
        Line::Refused(refusal) => Ok(Some(LineFault {
            refusal,
            place: Place::Byte(MOST_LINE_BYTES),
            says: refused_says(refusal),
        })),
        Line::Register(listings) => fault_of_listings(alloc, &listings),
        Line::Blank => Ok(None),
        Line::Delete(_) => Ok(None),
        Line::Clear => Ok(None),
        Line::Purge => Ok(None),
        Line::Count => Ok(None),
        Line::Show(_) => Ok(None),
        Line::Match(_) => Ok(None),
    }
}

/// Why a line would be refused, if it would be, whatever is registered and whatever listeners there are.
pub fn fault_of_line(alloc: Global, bytes: &[u8]) -> Result<Option<LineFault>, NoMemory>
    ensures { IfOk result (λ found. LineTells bytes.now (told_data found)) }
{
    let found = explain_line(alloc, bytes)?;
    match found {
        Some(cause) => Ok(Some(LineFault {
            refusal: cause.refusal,
            place: cause.place,
            says: cause.wrong.says(),
        })),
        None => fault_of_others(alloc, bytes),
    }
}

/// The member that says where a line is wrong.
fn place_member(place: &Place) -> Member<'_>
    ensures { member_of result ≡ place_data place.now }
{
    match place {
        Place::Byte(at) => Member::Number("at", *at as u64),
        Place::Member(path) => Member::Text("member", path),
    }
}

/// What is told of a line that would be refused: JSON.
fn fault_text(alloc: Global, fault: &LineFault) -> Result<Vec<u8>, NoMemory>
    ensures { IfOk result (λ text. text.items ≡ compact_text (fault_data fault.now)) }
{
    object_text(
        alloc,
        &[
            place_member(&fault.place),
            Member::Text("refused", fault.refusal.word()),
            Member::Text("says", fault.says),
        ],
    )
}

/// What is told of a line that would not be refused: JSON.
fn taken_text(alloc: Global) -> Result<Vec<u8>, NoMemory>
    ensures { IfOk result (λ text. text.items ≡ compact_text not_refused) }
{
    object_text(alloc, &[Member::Null("refused")])
}

/// What a line of the protocol, its line feed left out, would be refused for whatever is registered, as compact JSON
/// without a line feed: the refusal's word, the byte or the member at which the cause is, and a sentence; or `null` as
/// the refusal. `full` and `listener` are not told, which depend on what is registered and on the listeners.
///
/// `NoMemory` where an allocation failed. The cost is that of `explain_line` of `clip_cause`, and for a register that
/// of `explain` for each of its queries.
pub fn line_text(alloc: Global, line: &[u8]) -> Result<Vec<u8>, NoMemory>
    ensures { IfOk result (λ answer. Answers (ask.line line.now) answer.items) }
{
    let found = fault_of_line(alloc, line)?;
    match found {
        Some(fault) => fault_text(alloc, &fault),
        None => taken_text(alloc),
    }
}
