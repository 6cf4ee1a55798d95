//! Lines of a trace: what each says.
ghost use Rattle.std.specs.Prelude.{◌≡◌, Some, None, map, string_bytes, if◌then◌else◌, true};
ghost use Rattle.std.specs.List.{list_all};
ghost use Rattle.clip_words.specs.Ids.{is_id};
ghost use Rattle.serde_json.specs.View.{view};
ghost use Rattle.clip_trace.specs.TraceRequest.{caller_of as caller_told, is_caller};
ghost use Rattle.clip_trace.specs.Steps.TraceOutline.{ReadsList};
ghost use Rattle.clip_protocol.specs.Steps.Views.{listing_view};

use crate::event::Event;
use crate::trace_operation::{TraceOperation, batch_of, number_under, split_caller};
use clip_model::MOST_CALLERS;
use clip_protocol::{
    LIMITED, ListFault, Listing, Refusal, Request, UNSHAPED, Unread, articles_of, judge_drafts,
    may_delete, may_register, read_listing, read_value,
};
use clip_standing::{Command, Standing};
use clip_words::NoMemory;
use serde_json::Value;
use std::alloc::Global;
use std::sync::Arc;

/// What a line of a trace says.
#[derive(Drop)]
pub enum TraceLine {
    /// Nothing.
    Blank,
    /// It is refused.
    Refused(Refusal),
    /// It is refused for the query at this place of its list, from 0.
    RefusedAt(Refusal, u64),
    /// Play this event.
    Event(Event),
}

/// The caller of a command, caller 1 where none is named, if it is in its range.
fn caller_of(caller: Option<u64>) -> Option<u32>
    ensures { result ≡ (if is_caller (caller_told caller) then Some (caller_told caller) else None) }
{
    let caller = caller.unwrap_or(1);
    if 0 < caller && caller <= MOST_CALLERS as u64 {
        Some(caller as u32)
    } else {
        None
    }
}

/// The standing queries of a list, or the first whose text is no query.
fn read_all(alloc: Global, listings: Vec<Listing>) -> Result<Vec<Arc<Standing>>, ListFault>
    requires { list_all (λ l. is_id l.id) (map listing_view listings.items) ≡ true }
    ensures { ReadsList (map listing_view listings.items) result }
{
    let mut all = Vec::with_capacity(alloc, listings.len())?;
    for listing in listings {
        let place = all.len() as u64;
        match read_listing(alloc, listing) {
            Ok(standing) => all.push(standing)?,
            Err(Unread::Refused(reason)) => return Err(ListFault::Refused(reason, place)),
            Err(Unread::NoMemory) => return Err(ListFault::NoMemory),
        }
    }
    Ok(all)
}

impl TraceLine {
    ghost use Rattle.std.specs.Prelude.{IfOk};
    ghost use Rattle.clip_protocol.specs.LineMeaning.{asks};
    ghost use Rattle.clip_trace.specs.TraceLine.{SaysLine, SaysRequest};
    ghost use Rattle.clip_protocol.specs.Steps.Saying.{request_said};
    ghost use Rattle.clip_protocol.specs.Steps.Views.{request_view};
    ghost use Rattle.clip_trace.specs.TraceRequest as request;
    ghost use Rattle.clip_trace.specs.TraceRequest.{trace_within};
    ghost use Rattle.clip_trace.specs.Steps.TraceOutline.{ReadsTrace, limited, said_view, trace_line};
    ghost use Rattle.clip_trace.specs.Steps.TraceOutline.{look_of, by_caller, command_of, trace_request_of};

    /// A caller registers a list of queries, each of whose ids may be one.
    fn register_all(
        alloc: Global,
        caller: u32,
        listings: Vec<Listing>,
    ) -> Result<TraceLine, NoMemory>
        requires { list_all (λ l. is_id l.id) (map listing_view listings.items) ≡ true }
        ensures { (told : _) → caller_told told ≡ caller
            → IfOk result (λ line. SaysRequest
            (request.register told (map listing_view listings.items)) (said_view line)) }
    {
        match read_all(alloc, listings) {
            Ok(standings) => Ok(TraceLine::Event(Event::Accept(
                caller,
                Command::Register(standings),
            ))),
            Err(ListFault::Refused(reason, place)) => Ok(TraceLine::RefusedAt(reason, place)),
            Err(ListFault::NoMemory) => Err(NoMemory),
        }
    }

    fn register(
        alloc: Global,
        caller: Option<u64>,
        listings: Vec<Listing>,
    ) -> Result<TraceLine, Unread>
        ensures { ReadsTrace (limited (request.register caller (map listing_view listings.items))) result }
    {
        let Some(caller) = caller_of(caller) else {
            return Err(LIMITED);
        };
        if !may_register(&listings) {
            return Err(LIMITED);
        }
        Ok(TraceLine::register_all(alloc, caller, listings)?)
    }

    fn delete(caller: Option<u64>, ids: Vec<String>) -> Result<TraceLine, Unread>
        ensures { ReadsTrace (limited (request.delete caller (map string_bytes ids.items))) result }
    {
        let Some(caller) = caller_of(caller) else {
            return Err(LIMITED);
        };
        if !may_delete(&ids) {
            return Err(LIMITED);
        }
        Ok(TraceLine::Event(Event::Accept(caller, Command::Delete(ids))))
    }

    fn clear(caller: Option<u64>) -> Result<TraceLine, Unread>
        ensures { ReadsTrace (limited (request.clear caller)) result }
    {
        match caller_of(caller) {
            Some(caller) => Ok(TraceLine::Event(Event::Accept(caller, Command::Clear))),
            None => Err(LIMITED),
        }
    }

    #[tactic(auto, unfolding(crate::specs::Steps::TraceOutline::look_of))]
    fn look(alloc: Global, value: Value) -> Result<TraceLine, Unread>
        ensures { ReadsTrace (request_said trace_within (look_of (view value))) result }
    {
        let (batch, drafts) = batch_of(alloc, value)?;
        let drafts = judge_drafts(alloc, drafts)?;
        Ok(TraceLine::Event(Event::Look(batch, articles_of(alloc, &drafts)?)))
    }

    /// What a request of a run says by this caller: a command, or a purge, which has no caller.
    fn by_caller(alloc: Global, caller: Option<u64>, request: Request) -> Result<TraceLine, Unread>
        ensures { ReadsTrace (request_said trace_within (by_caller caller (request_view request))) result }
    {
        match request {
            Request::Register(listings) => TraceLine::register(alloc, caller, listings),
            Request::Delete(ids) => TraceLine::delete(caller, ids),
            Request::Clear => TraceLine::clear(caller),
            Request::Purge => match caller {
                Some(_) => Err(UNSHAPED),
                None => Ok(TraceLine::Event(Event::Purge)),
            },
            Request::Count | Request::Show(_) | Request::Match(_) => Err(UNSHAPED),
        }
    }

    /// What an object says that asks for a request of a run, behind its caller.
    #[tactic(auto, unfolding(crate::specs::Steps::TraceOutline::command_of))]
    fn command(alloc: Global, value: Value) -> Result<TraceLine, Unread>
        ensures { ReadsTrace (request_said trace_within (command_of (view value))) result }
    {
        let Some((caller, others)) = split_caller(value) else {
            return Err(UNSHAPED);
        };
        TraceLine::by_caller(alloc, caller, Request::of_value(alloc, others)?)
    }

    /// What a value says, or why it is refused.
    #[tactic(auto, unfolding(crate::specs::Steps::TraceOutline::trace_request_of))]
    fn of_value(alloc: Global, value: Value) -> Result<TraceLine, Unread>
        ensures { ReadsTrace (request_said trace_within (trace_request_of (view value))) result }
    {
        let event = match TraceOperation::of_value(&value) {
            Some(TraceOperation::Begin) => Event::Begin(number_under(value, "merge")?),
            Some(TraceOperation::Install) => Event::Install(number_under(value, "merge")?),
            Some(TraceOperation::Look) => return TraceLine::look(alloc, value),
            Some(TraceOperation::Piece) => Event::Piece(number_under(value, "batch")?),
            Some(TraceOperation::Finish) => Event::Finish(number_under(value, "batch")?),
            None => return TraceLine::command(alloc, value),
        };
        Ok(TraceLine::Event(event))
    }

    /// What the bytes say, or why they are refused.
    fn read(alloc: Global, bytes: &[u8]) -> Result<TraceLine, Unread>
        ensures { ReadsTrace (trace_line bytes.now) result }
    {
        match read_value(alloc, bytes)? {
            Some(value) => TraceLine::of_value(alloc, value),
            None => Ok(TraceLine::Blank),
        }
    }

    /// What a line says, its line feed left out. `NoMemory` where an allocation failed. Its cost is the reading of its
    /// JSON value, and of each query and article that it lists.
    pub fn of_bytes(alloc: Global, bytes: &[u8]) -> Result<TraceLine, NoMemory>
        ensures { IfOk result (λ line. SaysLine (trace_line bytes.now) (said_view line)) }
    {
        match TraceLine::read(alloc, bytes) {
            Ok(line) => Ok(line),
            Err(Unread::Refused(reason)) => Ok(TraceLine::Refused(reason)),
            Err(Unread::NoMemory) => Err(NoMemory),
        }
    }
}
