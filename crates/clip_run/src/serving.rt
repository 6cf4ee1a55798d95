//! The lines of a run with workers, one after the other.
ghost use Rattle.std.specs.Prelude.{◌≡◌, [], true, Err, IfOk, OnOk, OnErr};
ghost use Rattle.clip_stream.specs.Lines.{OfInput, OfLinesRead};
ghost use Rattle.clip_front.specs.Devices.{AreFresh, IsHonest, devices_at};
ghost use Rattle.clip_front.specs.Steps.Serving.{ServesAll, ServesFront, ServesLines};
ghost use Rattle.clip_run.specs.Crews.{course_at};
ghost use Rattle.clip_run.specs.Owed.{TurnsIn, BreaksIn};

use crate::crew::Crew;
use clip_desk::DeskName;
use clip_listen::Audience;
use clip_match::Gate;
use clip_stream::{Flow, LineReader, Outbox, RunFault, Sink, Source};
use std::alloc::Global;
use std::sync::Wait;
use std::thread::Threads;

/// Takes the lines one after the other, writes what the crew gives, and gives how many lines there were. It is
/// `serve` of the front for a crew, whose answers start threads: a trait's method can't.
///
/// Before it asks the reader for more bytes, nothing is owed to a line that was taken, and all texts are written and
/// flushed. Between two reads the texts are gathered.
///
/// What it asks of its devices and says of them is that of `serve`; `NoMemory` where an allocation failed or the crew
/// answers it.
///
/// Cost: that of the answers. Memory: one line, up to 64 KiB of gathered texts and the text of one line more.
pub fn serve_crew<
    R: Threads + Wait + Sync,
    N: DeskName,
    S: Source,
    W: Sink,
    A: Audience,
    G: Gate + Clone + Send + 'static,
>(
    alloc: Global,
    reader: &mut S,
    writer: &mut W,
    audience: &mut A,
    crew: &mut Crew<'_, '_, '_, R, N, G>,
) -> Result<u64, RunFault>
    requires fresh { AreFresh (devices_at S.Source W.Sink reader.old writer.old) }
    requires settled { crew.old.owed ≡ [] }

    // The crew has answered just the lines of the input, in order, of which there were so many, and the writer has
    // taken the answers. Where the reader doesn't tell its bytes, there is some input of which this holds.
    ensures served { IfOk result (λ count. OfInput (S.left reader.old) (ServesAll (TurnsIn (course_at A.hearers))
        (crew.old, audience.old) (crew.new, audience.new) (W.taken writer.old) (W.taken writer.new) count)) }
    ensures settled { OnOk result (crew.new.owed ≡ []) }

    // What was written was flushed and no device has failed, where all went well, and each fault has its reason.
    ensures honest { IsHonest result (devices_at S.Source W.Sink reader.new writer.new) }

    // Where a read failed, each line that was read whole is answered, and the answers are written and flushed. Any read
    // may fail, so whenever the reader is asked nothing is held back.
    ensures none_held { result ≡ Err RunFault.Read → (W.is_flushed writer.new ≡ true) × (crew.new.owed ≡ [])
        × OfLinesRead (S.left reader.old) (S.left reader.new) (S.met_end reader.new)
        (ServesLines (TurnsIn (course_at A.hearers)) (crew.old, audience.old) (crew.new, audience.new)
        (W.taken writer.old) (W.taken writer.new)) }

    // After a fault, the crew has answered some first ones of the lines that were read and begun one more of them at
    // most, and the writer has taken a prefix of the answers and of what was on its way of that one.
    ensures front { OnErr result (OfLinesRead (S.left reader.old) (S.left reader.new) (S.met_end reader.new)
        (ServesFront (TurnsIn (course_at A.hearers)) (BreaksIn (course_at A.hearers))
        (crew.old, audience.old) (crew.new, audience.new) (W.taken writer.old) (W.taken writer.new))) }
{
    let mut lines = LineReader::new(alloc)?;
    let mut outbox = Outbox::new(alloc);
    let mut flow = Flow::new(writer, &mut outbox);
    let mut line = Vec::new(alloc);
    let mut count = 0u64;
    let mut has_more = false;
    'lines: loop {
        flow.hand_over(has_more)?;
        if !lines.next_line(reader, &mut line)? {
            return Ok(count);
        }
        count += 1;
        has_more = lines.has_line();
        crew.answer(audience, &mut flow, count, &line, has_more)?;
    }
}
