//! One line of a trace in, one reply out.
ghost use Rattle.std.specs.Prelude.{◌≡◌, IfOk};
ghost use Rattle.clip_trace.specs.Event.{answer_of};
ghost use Rattle.clip_trace.specs.TraceOutcome.{reply_to};
ghost use Rattle.clip_trace.specs.Steps.TraceOutline.{AnswersTraced, Responds, said_view};
ghost use Rattle.clip_protocol.specs.Steps.Views.{reply_view};

use crate::event::TraceAnswer;
use crate::trace_line::TraceLine;
use crate::tracer::Tracer;
use clip_protocol::{Refusal, Reply, accepted};
use clip_words::NoMemory;
use std::alloc::Global;

/// The reply that reports an answer.
fn reply_to(answer: TraceAnswer) -> Reply
    ensures { reply_view result ≡ reply_to (answer_of answer) }
{
    match answer {
        TraceAnswer::Unknown => Reply::Stepped("unknown"),
        TraceAnswer::Used => Reply::Stepped("used"),
        TraceAnswer::TooMany => Reply::Stepped("toomany"),
        TraceAnswer::Full => Reply::Refused(Refusal::Full),
        TraceAnswer::Accepted(applied) => accepted(applied),
        TraceAnswer::Begun => Reply::Stepped("begun"),
        TraceAnswer::Nothing => Reply::Stepped("nothing"),
        TraceAnswer::Installed => Reply::Stepped("installed"),
        TraceAnswer::Stale => Reply::Stepped("stale"),
        TraceAnswer::Purged => Reply::Stepped("purged"),
        TraceAnswer::Looked => Reply::Stepped("looked"),
        TraceAnswer::Matched => Reply::Stepped("matched"),
        TraceAnswer::Finished(found) => Reply::Finished(found),
    }
}

/// Plays the event of a line, if it has one, and returns the reply.
fn respond(tracer: &mut Tracer, line: TraceLine) -> Result<Reply, NoMemory>
    ensures { IfOk result (λ reply. Responds tracer.old tracer.new (said_view line) (reply_view reply)) }
{
    match line {
        TraceLine::Blank => Ok(Reply::Nothing),
        TraceLine::Refused(reason) => Ok(Reply::Refused(reason)),
        TraceLine::RefusedAt(reason, place) => Ok(Reply::RefusedAt(reason, place)),
        TraceLine::Event(event) => Ok(reply_to(tracer.step(event)?)),
    }
}

/// The reply to the line of this number, with its line feed, or nothing for a blank line. The event of the line is
/// played before.
///
/// `NoMemory` where an allocation failed; the event may have been played then. Its cost is the reading of the line, and
/// that of `Tracer::step`.
pub fn answer_traced(
    alloc: Global,
    tracer: &mut Tracer,
    number: u64,
    bytes: &[u8],
) -> Result<Vec<u8>, NoMemory>
    ensures { IfOk result (λ text. AnswersTraced tracer.old tracer.new number bytes.now text.items) }
{
    let line = TraceLine::of_bytes(alloc, bytes)?;
    respond(tracer, line)?.text(alloc, number)
}
