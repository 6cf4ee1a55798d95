//! The cause of a line's refusal.
ghost use Rattle.std.specs.Prelude.{◌≡◌, None, IfOk, IfSome, option_map};
ghost use Rattle.serde_json.specs.View.{view};
ghost use Rattle.clip_protocol.specs.LineMeaning.{Means, json_of, refused};
ghost use Rattle.clip_protocol.specs.Request.{value_of};
ghost use Rattle.clip_protocol.specs.Steps.Outline.{outline, outline_of_asked, outline_of_request, request_of};
ghost use Rattle.clip_protocol.specs.Steps.Saying.{line_value};
ghost use Rattle.clip_protocol.specs.Steps.Views.{request_view};
ghost use Rattle.clip_protocol.specs.declared.refusal.Refusal.TheVariants.{Json};
ghost use Rattle.clip_cause.specs.Causes.{IsCauseOf, told_by, told_of};
ghost use Rattle.clip_cause.specs.First.{IsToldAs, Tells, TellsFirst, TellsFirstOf};
ghost use Rattle.clip_cause.specs.Limits.{limit_fault};
ghost use Rattle.clip_cause.specs.Steps.Ordered.{IsOrdered};
ghost use Rattle.clip_cause.specs.Steps.Sites.{site_path};
ghost use Rattle.clip_cause.specs.Steps.Telling.{TellsOf, TellsOfLine};

use crate::cause::{LineCause, Place};
use crate::limits::limit_fault;
use crate::offset::json_fault;
use crate::shape::shape_fault;
use crate::site::{Site, site_text};
use crate::wrong::Wrong;
use clip_protocol::{Refusal, Request, Unread, read_value};
use clip_words::NoMemory;
use serde_json::Value;
use std::alloc::Global;

/// The cause of bytes that are no JSON value.
fn cause_of_bytes(alloc: Global, line: &[u8]) -> Result<LineCause, NoMemory>
    requires { json_of line.now ≡ None }
    ensures cause { IfOk result (λ c. IsCauseOf line.now c) }
    ensures refusal { IfOk result (λ c. c.refusal ≡ Json) }
{
    let (at, wrong) = json_fault(alloc, line)?;
    Ok(LineCause {
        refusal: wrong.refusal(),
        place: Place::Byte(at),
        wrong,
    })
}

/// The cause at a place in the line's value.
fn cause_at(alloc: Global, site: Site<'_>, wrong: Wrong) -> Result<LineCause, NoMemory>
    ensures { IfOk result (λ c. IsToldAs (site_path site.entry, wrong) c) }
{
    Ok(LineCause {
        refusal: wrong.refusal(),
        place: Place::Member(site_text(alloc, site)?),
        wrong,
    })
}

/// Why the request is refused, if it is beyond a limit.
fn cause_of_request(alloc: Global, request: &Request) -> Result<Option<LineCause>, NoMemory>
    requires { IsOrdered (value_of (request_view request.now)) }
    ensures told { IfOk result (λ found. TellsOf (value_of (request_view request.now))
        (outline_of_request (request_view request.now)) found) }
    ensures first { IfOk result (λ found. Tells (limit_fault (request_view request.now)) found) }
{
    match limit_fault(request) {
        Some((site, wrong)) => Ok(Some(cause_at(alloc, site, wrong)?)),
        None => Ok(None),
    }
}

/// Why a line with this value is refused, if it is.
fn cause_of_value(alloc: Global, value: Value) -> Result<Option<LineCause>, NoMemory>
    requires { IsOrdered (view value) }
    ensures told { IfOk result (λ found. TellsOf (view value) (outline_of_asked (request_of (view value))) found) }
    ensures first { IfOk result (λ found. TellsFirst (view value) found) }
{
    if let Some((site, wrong)) = shape_fault(&value) {
        return Ok(Some(cause_at(alloc, site, wrong)?));
    }
    match Request::of_value(alloc, value) {
        Ok(request) => cause_of_request(alloc, &request),
        Err(Unread::Refused(_)) => unreachable!(),
        Err(Unread::NoMemory) => Err(NoMemory),
    }
}

/// The cause of a line that is refused for this before its value is judged, where its cause is told.
fn cause_of_refused(
    alloc: Global,
    line: &[u8],
    reason: Refusal,
) -> Result<Option<LineCause>, NoMemory>
    requires { line_value line.now ≡ refused reason }
    ensures told { IfOk result (λ found. TellsOfLine line.now found) }
    ensures first { IfOk result (λ found. TellsFirstOf line.now found) }
{
    match reason {
        Refusal::Json => Ok(Some(cause_of_bytes(alloc, line)?)),
        _ => Ok(None),
    }
}

/// Why a line is refused, where its cause is told.
fn cause_of_line(alloc: Global, line: &[u8]) -> Result<Option<LineCause>, NoMemory>
    ensures told { IfOk result (λ found. TellsOfLine line.now found) }
    ensures first { IfOk result (λ found. TellsFirstOf line.now found) }
{
    match read_value(alloc, line) {
        Ok(Some(value)) => cause_of_value(alloc, value),
        Ok(None) => Ok(None),
        Err(Unread::Refused(reason)) => cause_of_refused(alloc, line, reason),
        Err(Unread::NoMemory) => Err(NoMemory),
    }
}

/// Why the program refuses a line, its line feed left out, where it does so as `json`, `shape` or `limit`: the first
/// cause in the order in which the program judges. None for each other line: one that is taken, is blank, is too long,
/// or is refused for what its queries say or for what is registered.
///
/// `NoMemory` where an allocation failed. Its cost is that of reading the line's JSON value, and where it has none, of
/// reading the line's bytes some 20 times.
pub fn explain_line(alloc: Global, line: &[u8]) -> Result<Option<LineCause>, NoMemory>
    ensures refusal { IfOk result (λ found. option_map (λ c. c.refusal) found ≡ told_of (outline line.now)) }
    ensures meaning { IfOk result (λ found. (names : _) (history : _) (m : _) → Means names history line.now m
        → told_by m ≡ option_map (λ c. c.refusal) found) }
    ensures cause { IfOk result (λ found. IfSome found (IsCauseOf line.now)) }
    ensures first { IfOk result (λ found. TellsFirstOf line.now found) }
{
    cause_of_line(alloc, line)
}
