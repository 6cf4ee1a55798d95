//! Operations of a trace, and the members beside them.
ghost use Rattle.std.specs.Prelude.{◌≡◌, map, option_map};
ghost use Rattle.serde_json.specs.View.{view};
ghost use Rattle.clip_protocol.specs.Steps.Outline.{ReadsAs};
ghost use Rattle.clip_protocol.specs.Steps.Views.{draft_view};
ghost use Rattle.clip_trace.specs.TraceRequest.{look};
ghost use Rattle.clip_trace.specs.Steps.TraceOutline.{operation_in, take_caller, split_caller};
ghost use Rattle.clip_trace.specs.Steps.TraceOutline.{number_under, look_of};

use clip_protocol::{
    Draft, Refusal, UNSHAPED, Unread, drafts_of, items_of, members_of, operation_of, take_member,
    three_members, two_members,
};
use serde_json::Value;
use std::alloc::Global;

/// The operations that a trace has beside those of a run.
#[derive(Clone, Copy)]
pub enum TraceOperation {
    /// Begin a merge under a number.
    Begin,
    /// Install the merge of a number.
    Install,
    /// Take a view for articles, as the batch of a number.
    Look,
    /// Match the next article of the batch of a number.
    Piece,
    /// Match the rest of the batch of a number, and return its alerts.
    Finish,
}

/// Each operation under its name.
const OPERATIONS: [(&str, TraceOperation); 5] = [
    ("begin", TraceOperation::Begin),
    ("install", TraceOperation::Install),
    ("look", TraceOperation::Look),
    ("piece", TraceOperation::Piece),
    ("finish", TraceOperation::Finish),
];

impl TraceOperation {
    /// The operation that an object asks for, if it is one of these.
    #[tactic(auto, unfolding(crate::specs::Steps::TraceOutline::operation_in))]
    pub fn of_value(value: &Value) -> Option<TraceOperation>
        ensures { result ≡ operation_in (view value.now) }
    {
        operation_of(value, &OPERATIONS)
    }
}

/// The caller that the first member of an object names, and the object of the other members.
fn take_caller(value: Value) -> Option<(u64, Value)>
    ensures { option_map (λ p. (p.0, view p.1)) result ≡ take_caller (view value) }
{
    let mut members = members_of(value)?;
    let caller = take_member(&mut members, "caller")?.as_u64()?;
    Some((caller, Value::Object(members)))
}

/// The caller that an object names, if it names one, and the object of its other members. None where what it names is
/// no number from 0 to 2 ^ 64 - 1, or stands behind another member.
pub fn split_caller(value: Value) -> Option<(Option<u64>, Value)>
    ensures { option_map (λ p. (p.0, view p.1)) result ≡ split_caller (view value) }
{
    if value.get("caller").is_none() {
        return Some((None, value));
    }
    let (caller, others) = take_caller(value)?;
    Some((Some(caller), others))
}

/// The number under this name, where the object has that member and the operation alone; else the refusal `Shape`.
#[tactic(auto, unfolding(crate::specs::Steps::TraceOutline::number_under))]
pub fn number_under(value: Value, name: &str) -> Result<u64, Unread>
    ensures { ReadsAs Refusal.Shape (λ n. n) (number_under name.now (view value)) result }
{
    let Some((number, _)) = two_members(value, name, "op") else {
        return Err(UNSHAPED);
    };
    match number.as_u64() {
        Some(number) => Ok(number),
        None => Err(UNSHAPED),
    }
}

/// The number of a batch, and the articles that are listed for it. `Refused` with `Shape` where the object has other
/// members or values of other types; `NoMemory` where an allocation failed.
#[tactic(auto, unfolding(crate::specs::Steps::TraceOutline::look_of))]
pub fn batch_of(alloc: Global, value: Value) -> Result<(u64, Vec<Draft>), Unread>
    ensures { ReadsAs Refusal.Shape (λ p. look p.0 (map draft_view p.1.items)) (look_of (view value)) result }
{
    let Some((articles, batch, _)) = three_members(value, "articles", "batch", "op") else {
        return Err(UNSHAPED);
    };
    let (Some(batch), Some(items)) = (batch.as_u64(), items_of(articles)) else {
        return Err(UNSHAPED);
    };
    Ok((batch, drafts_of(alloc, items)?))
}
