//! The run of a trace: lines in, replies out.
ghost use Rattle.std.specs.Prelude.{◌≡◌, [], IfOk, OnErr};
ghost use Rattle.clip_stream.specs.Lines.{OfInput, OfLinesRead};
ghost use Rattle.clip_front.specs.Devices.{AreFresh, IsHonest, devices_at};
ghost use Rattle.clip_trace.specs.TraceOutcome.{TracesAll, TracesFront};

use crate::trace_answer::answer_traced;
use crate::tracer::Tracer;
use clip_front::{Ended, Server, serve};
use clip_ledger::Ledger;
use clip_stream::{Flow, RunFault, Sink, Source};
use std::alloc::Global;

/// A tracer, which answers the lines of a trace, with nothing lent to it.
#[derive(Drop)]
struct TraceServer {
    alloc: Global,
    tracer: Tracer,
}

impl<W: Sink> Server<(), W> for TraceServer {
    ghost use Rattle.std.specs.Prelude.{⊤};
    ghost use Rattle.clip_trace.specs.Steps.TraceServer.{stand_at};
    ghost use Rattle.clip_trace.specs.Steps.TraceOutline.{AnswersIn, BreaksIn};

    ghost answers = { AnswersIn stand_at };

    ghost breaks_off = { BreaksIn };

    ghost is_settled = { λ s. ⊤ };

    fn answer(
        &mut self,
        _lent: &mut (),
        flow: &mut Flow<'_, W>,
        number: u64,
        bytes: &[u8],
        _has_more: bool,
    ) -> Result<(), RunFault> {
        let text = answer_traced(self.alloc, &mut self.tracer, number, bytes)?;
        flow.put(&text)
    }
}

/// Reads the events of a trace, a JSON object a line, plays them one by one, and writes the replies in the order of the
/// lines. The ledger that it returns is empty.
///
/// Before it asks the reader for more bytes, each reply to a line that was read whole is written and flushed; between
/// two reads the replies are gathered, so that the writer gets few writes. Each event is played as the lines before it
/// leave things.
///
/// The devices are to be fresh: nothing was read yet, the reader has not met its end, and no call of it or of the
/// writer has failed.
///
/// After `Ok` what was written was flushed, and no call of the reader or the writer has failed. `Read` where a read
/// failed, or 1,099,511,627,776 reads met no end, more than which are never made; `Write` where a write or a flush
/// failed, or a write took nothing; `NoMemory` where an allocation failed. After a fault nothing more is written.
///
/// Cost: the reading of each line, and for each event that of `Tracer::step`. Memory: one line and what it asks for, up
/// to 64 KiB of gathered replies and one reply more, and what the tracer holds.
pub fn run_trace<R: Source, W: Sink>(
    alloc: Global,
    reader: &mut R,
    writer: &mut W,
) -> Result<Ended, RunFault>
    requires fresh { AreFresh (devices_at R.Source W.Sink reader.old writer.old) }

    // What was written and flushed is the replies to the lines of the input, by answers that are due, and the lines are
    // counted. Where the reader doesn't report its bytes, there is some input of which this holds.
    ensures outcome { IfOk result (λ ended. OfInput (R.left reader.old)
        (TracesAll (W.taken writer.old) (W.taken writer.new) ended.lines)) }
    ensures ledger { IfOk result (λ ended. ended.ledger ≡ []) }

    // What was written was flushed and no device has failed, where the run ended well, and each fault has its reason.
    ensures honest { IsHonest result (devices_at R.Source W.Sink reader.new writer.new) }

    // After a fault, what was written is a prefix of the replies to some first ones of the lines that were read.
    ensures front { OnErr result (OfLinesRead (R.left reader.old) (R.left reader.new) (R.met_end reader.new)
        (TracesFront (W.taken writer.old) (W.taken writer.new))) }
{
    let mut server = TraceServer {
        alloc,
        tracer: Tracer::new(alloc),
    };
    let mut nothing = ();
    let lines = serve(alloc, reader, writer, &mut nothing, &mut server)?;
    Ok(Ended {
        lines,
        ledger: Ledger::new(alloc),
    })
}
