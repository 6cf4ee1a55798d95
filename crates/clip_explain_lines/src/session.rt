//! The run: lines in, replies out.
ghost use Rattle.std.specs.Prelude.{◌≡◌, IfOk, OnErr};
ghost use Rattle.clip_stream.specs.Lines.{OfInput, OfLinesRead};
ghost use Rattle.clip_front.specs.Devices.{AreFresh, IsHonest, devices_at};
ghost use Rattle.clip_explain_lines.specs.Replied.{RepliesAll, RepliesFront};

use crate::answer::reply_to;
use crate::form::Form;
use clip_front::{Server, serve};
use clip_stream::{Flow, RunFault, Sink, Source};
use std::alloc::Global;

/// What answers lines in a form, with nothing lent to it.
#[derive(Drop)]
struct Explainer {
    alloc: Global,
    form: Form,
}

impl<W: Sink> Server<(), W> for Explainer {
    ghost use Rattle.std.specs.Prelude.{⊤};
    ghost use Rattle.clip_explain_lines.specs.Steps.Serving.{AnswersIn, BreaksIn};
    ghost use Rattle.clip_explain_lines.specs.Steps.Explainers.{form_of};

    ghost answers = { AnswersIn form_of };

    ghost breaks_off = { BreaksIn };

    ghost is_settled = { λ s. ⊤ };

    fn answer(
        &mut self,
        _lent: &mut (),
        flow: &mut Flow<'_, W>,
        _number: u64,
        bytes: &[u8],
        _has_more: bool,
    ) -> Result<(), RunFault> {
        let reply = reply_to(self.alloc, self.form, bytes)?;
        flow.put(&reply)
    }
}

/// Reads lines, a JSON object a line that names what is to be explained, and writes the replies in the order of the
/// lines, in a form. Returns how many lines there were.
///
/// Before it asks the reader for more bytes, each reply to a line that was read whole is written and flushed. The
/// devices are to be fresh: nothing was read yet, the reader has not met its end, and no call of it or of the writer
/// has failed.
///
/// After `Ok` what was written was flushed, and no call of the reader or the writer has failed. `Read` where a read
/// failed, or 1,099,511,627,776 reads met no end, more than which are never made; `Write` where a write or a flush
/// failed, or a write took nothing; `NoMemory` where an allocation failed. After a fault nothing more is written.
///
/// Cost: the reading of each line, and its answer. Memory: one line and its answer, and up to 64 KiB of gathered
/// replies and one more. Of a line longer than 1,048,576 bytes no more is held.
pub fn explain_lines<R: Source, W: Sink>(
    alloc: Global,
    reader: &mut R,
    writer: &mut W,
    form: Form,
) -> Result<u64, RunFault>
    requires fresh { AreFresh (devices_at R.Source W.Sink reader.old writer.old) }

    // What was written and flushed is the replies to the lines of the input, which are counted. Where the reader
    // doesn't report its bytes, there is some input of which this holds.
    ensures outcome { IfOk result (λ count. OfInput (R.left reader.old)
        (RepliesAll form (W.taken writer.old) (W.taken writer.new) count)) }

    // What was written was flushed and no device has failed, where the run ended well, and each fault has its reason.
    ensures honest { IsHonest result (devices_at R.Source W.Sink reader.new writer.new) }

    // After a fault, what was written is a prefix of the replies to some first ones of the lines that were read.
    ensures front { OnErr result (OfLinesRead (R.left reader.old) (R.left reader.new) (R.met_end reader.new)
        (RepliesFront form (W.taken writer.old) (W.taken writer.new))) }
{
    let mut server = Explainer { alloc, form };
    let mut nothing = ();
    let count = serve(alloc, reader, writer, &mut nothing, &mut server)?;
    Ok(count)
}
