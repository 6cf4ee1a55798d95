//! Lines that are printed.
ghost use Rattle.std.specs.Prelude.{◌≡◌, ◌∷◌, ◌++◌, [], true, Err, OnOk, OnErr};
ghost use Rattle.std.specs.Io.KnownBytes.{Appends};
ghost use Rattle.clip_stream.specs.Device.{AppendsFront, HandsOver};
ghost use Rattle.clip_journal.specs.Kept.{says};
ghost use Rattle.clip_keeping.specs.Printed.{text_of};

use clip_stream::{Outbox, RunFault, Sink};
use std::alloc::Global;

/// Gathers a line and a line feed, and hands over what is gathered once it is many.
fn put_line<W: Sink>(writer: &mut W, outbox: &mut Outbox, line: &[u8]) -> Result<(), RunFault>
    ensures moved { OnOk result (HandsOver (W.taken writer.old) (outbox.old ++ (line.now ++ 10 ∷ []))
        (W.taken writer.new) outbox.new) }
    ensures front { OnErr result (AppendsFront (W.taken writer.old) (W.taken writer.new)
        (outbox.old ++ (line.now ++ 10 ∷ []))) }
{
    outbox.gather(line)?;
    outbox.gather(b"\n")?;
    outbox.hand_over(writer, true)
}

/// Prints lines, each with a line feed.
///
/// `NoMemory` where an allocation failed, `Write` where the writer fails; a front of the text may be written then.
/// Linear in the text.
pub fn print_lines<W: Sink>(
    alloc: Global,
    writer: &mut W,
    lines: &[Vec<u8>],
) -> Result<(), RunFault>
    ensures all { OnOk result (Appends (W.taken writer.old) (W.taken writer.new) (text_of (says lines.now))) }
    ensures flushed { OnOk result (W.is_flushed writer.new ≡ true) }
{
    let mut outbox = Outbox::new(alloc);
    for line in lines {
        put_line(writer, &mut outbox, line)?;
    }
    outbox.hand_over(writer, false)
}
