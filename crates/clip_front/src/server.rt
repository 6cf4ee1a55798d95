//! The loop over the lines of an input, whatever answers them.
ghost use Rattle.std.specs.Prelude.{◌≡◌, true, false, Err, IfOk, OnOk, OnErr};
ghost use Rattle.clip_stream.specs.Lines.{OfInput, OfLinesRead};
ghost use Rattle.clip_front.specs.Devices.{AreFresh, IsHonest, devices_at};
ghost use Rattle.clip_front.specs.Steps.Serving.{ServesAll, ServesFront, ServesLines};

use clip_stream::{Flow, LineReader, Outbox, RunFault, Sink, Source};
use std::alloc::Global;

/// What answers lines, with something that is lent to it. It may owe answers to lines that it has taken.
pub trait Server<L, W: Sink> {
    ghost use Rattle.std.specs.Prelude.{◌≡◌, ◌≢◌, ℕ, List, false, true, Err, IfErr, OnOk, OnErr};
    ghost use Rattle.clip_front.specs.Steps.Serving.{AnswersInto, BreaksInto};

    /// From the first state to the second by taking the line of this number and answering this text.
    ghost answers: { Self × L → Self × L → ℕ → List ℕ → List ℕ → Type 0 };

    /// From the first state to the second by an answering of the line of this number that was broken off, of which this
    /// text was on its way.
    ghost breaks_off: { Self × L → Self × L → ℕ → List ℕ → List ℕ → Type 0 };

    /// Nothing is owed to any line that was taken.
    ghost is_settled: { Self × L → Type 0 };

    /// Takes the line of this number, and puts the text of what is answered now into the flow, piece by piece.
    /// `has_more` says whether another line stands read already; where none does, the reader is to be asked, so all
    /// that is owed is answered now. `NoMemory` where the answering was broken off, `Write` where the writer fails.
    fn answer(
        &mut self,
        lent: &mut L,
        flow: &mut Flow<'_, W>,
        number: u64,
        bytes: &[u8],
        has_more: bool,
    ) -> Result<(), RunFault>
        ensures same_reference { flow.new.writer.ghost_name ≡ flow.old.writer.ghost_name }
        ensures ok { OnOk result (AnswersInto answers (self.old, lent.old) (self.new, lent.new) number bytes.now
            (W.taken flow.old.writer.now) flow.old.outbox.now (W.taken flow.new.writer.now) flow.new.outbox.now) }
        ensures settled { OnOk result (has_more ≡ false → is_settled (self.new, lent.new)) }
        ensures well { OnOk result (W.has_failed flow.new.writer.now ≡ W.has_failed flow.old.writer.now) }
        ensures fault { IfErr result (λ e. e ≢ RunFault.Read) }
        ensures write { result ≡ Err RunFault.Write → W.has_failed flow.new.writer.now ≡ true }
        ensures err { OnErr result (BreaksInto answers breaks_off (self.old, lent.old) (self.new, lent.new) number
            bytes.now (W.taken flow.old.writer.now) flow.old.outbox.now (W.taken flow.new.writer.now)) };
}

/// Takes the lines one after the other, writes what the server answers, and gives how many lines there were.
///
/// Before it asks the reader for more bytes, every line that was taken is answered, and the answers are written and
/// flushed: a client that waits for the answer to its line before it sends the next one gets it. Between two reads the
/// answers are gathered, so that the writer gets few writes, and the server may hold some back. No answer is held whole
/// that the server puts into the flow in pieces.
///
/// The devices are to be fresh: nothing was read yet, the reader has not met its end, and no call of it or of the
/// writer has failed.
///
/// After `Ok` what was written was flushed, and no call of the reader or the writer has failed. `Read` where a read
/// failed, or 1,099,511,627,776 reads met no end, more than which are never made; `Write` where a write or a flush
/// failed, or a write took nothing; `NoMemory` where an allocation failed or the server answers it. After a fault
/// nothing more is written.
///
/// Cost: that of the answers. Memory: one line, up to 64 KiB of gathered answers, one piece of an answer more, and what
/// the server holds.
pub fn serve<R: Source, W: Sink, L, S: Server<L, W>>(
    alloc: Global,
    reader: &mut R,
    writer: &mut W,
    lent: &mut L,
    server: &mut S,
) -> Result<u64, RunFault>
    requires fresh { AreFresh (devices_at R.Source W.Sink reader.old writer.old) }
    requires settled { S.is_settled (server.old, lent.old) }

    // The server has answered just the lines of the input, in order, of which there were so many, and the writer has
    // taken the answers. Where the reader doesn't tell its bytes, there is some input of which this holds.
    ensures served { IfOk result (λ count. OfInput (R.left reader.old) (ServesAll S.answers
        (server.old, lent.old) (server.new, lent.new) (W.taken writer.old) (W.taken writer.new) count)) }
    ensures settled { OnOk result (S.is_settled (server.new, lent.new)) }

    // What was written was flushed and no device has failed, where all went well, and each fault has its reason.
    ensures honest { IsHonest result (devices_at R.Source W.Sink reader.new writer.new) }

    // Where a read failed, each line that was read whole is answered, and the answers are written and flushed. Any read
    // may fail, so whenever the reader is asked nothing is held back.
    ensures none_held { result ≡ Err RunFault.Read → (W.is_flushed writer.new ≡ true)
        × S.is_settled (server.new, lent.new)
        × OfLinesRead (R.left reader.old) (R.left reader.new) (R.met_end reader.new)
        (ServesLines S.answers (server.old, lent.old) (server.new, lent.new)
        (W.taken writer.old) (W.taken writer.new)) }

    // After a fault, the server has answered some first ones of the lines that were read and begun one more of them at
    // most, and the writer has taken a front of the answers and of what was on its way of that one.
    ensures front { OnErr result (OfLinesRead (R.left reader.old) (R.left reader.new) (R.met_end reader.new)
        (ServesFront S.answers S.breaks_off (server.old, lent.old) (server.new, lent.new)
        (W.taken writer.old) (W.taken writer.new))) }
{
    let mut lines = LineReader::new(alloc)?;
    let mut outbox = Outbox::new(alloc);
    let mut flow = Flow::new(writer, &mut outbox);
    let mut line = Vec::new(alloc);
    let mut count = 0u64;
    let mut has_more = false;
    'lines: loop {
        flow.hand_over(has_more)?;
        if !lines.next_line(reader, &mut line)? {
            return Ok(count);
        }
        count += 1;
        has_more = lines.has_line();
        server.answer(lent, &mut flow, count, &line, has_more)?;
    }
}
