//! Replies on their way to the writer.
ghost use Rattle.std.specs.Prelude.{◌≡◌, true, OnOk, OnErr, Err};
ghost use Rattle.std.specs.Io.KnownBytes.{Appends, Keeps};
ghost use Rattle.clip_stream.specs.Device.{AppendsFront};

use crate::device::{Failed, Sink, write_all};
use crate::fault::RunFault;
use clip_words::NoMemory;
use std::alloc::Global;
use std::marker::Model;

/// How many bytes are gathered before they are handed over.
const MANY: usize = 65_536;

/// Replies that are gathered, so that the writer gets few and large writes.
#[derive(Drop)]
pub struct Outbox {
    gathered: Vec<u8>,
}

impl Model for Outbox {
    ghost use Rattle.std.specs.Prelude.{List, ℕ};

    ghost Value = { List ℕ };

    ghost view = { λ o. o.gathered.items };
}

impl Outbox {
    ghost use Rattle.std.specs.Prelude.{◌≡◌, ◌++◌, ◌<◌, [], length, true, false, OnOk, OnErr, Err};
    ghost use Rattle.std.specs.Io.KnownBytes.{Appends, Keeps};
    ghost use Rattle.clip_stream.specs.Device.{AppendsFront, HandsOver};

    /// An outbox with nothing gathered.
    pub fn new(alloc: Global) -> Outbox
        ensures { result ≡ [] }
    {
        Outbox {
            gathered: Vec::new(alloc),
        }
    }

    /// Gathers a reply. `NoMemory` where an allocation failed. Its cost is the reply's bytes.
    pub fn gather(&mut self, reply: &[u8]) -> Result<(), NoMemory>
        ensures { OnOk result (self.new ≡ self.old ++ reply.now) }
    {
        self.gathered.extend_from_slice(reply)?;
        Ok(())
    }

    /// Hands the replies to the writer where they are many, or where no line is pending; then
    /// also flushes, since the reader is to be asked for more. `Write` where the writer fails.
    pub fn hand_over<W: Sink>(&mut self, writer: &mut W, has_line: bool) -> Result<(), RunFault>
        ensures moved { OnOk result (HandsOver (W.taken writer.old) self.old (W.taken writer.new) self.new) }
        ensures none_held { OnOk result (has_line ≡ false → self.new ≡ []) }
        ensures few_held { OnOk result (length self.new < MANY) }
        ensures flushed { OnOk result (has_line ≡ false → W.is_flushed writer.new ≡ true) }
        ensures well { OnOk result (W.has_failed writer.new ≡ W.has_failed writer.old) }
        ensures err { OnErr result ((result ≡ Err RunFault.Write) × (W.has_failed writer.new ≡ true)) }
        ensures front { OnErr result (AppendsFront (W.taken writer.old) (W.taken writer.new) self.old) }
    {
        if has_line && self.gathered.len() < MANY {
            return Ok(());
        }
        send(writer, &self.gathered)?;
        self.gathered.clear();
        if has_line {
            return Ok(());
        }
        finish(writer)
    }
}

/// Writes all of the bytes.
fn send<W: Sink>(writer: &mut W, bytes: &[u8]) -> Result<(), RunFault>
    ensures ok { OnOk result (Appends (W.taken writer.old) (W.taken writer.new) bytes.now) }
    ensures well { OnOk result (W.has_failed writer.new ≡ W.has_failed writer.old) }
    ensures err { OnErr result ((result ≡ Err RunFault.Write) × (W.has_failed writer.new ≡ true)) }
    ensures front { OnErr result (AppendsFront (W.taken writer.old) (W.taken writer.new) bytes.now) }
{
    match write_all(writer, bytes) {
        Ok(()) => Ok(()),
        Err(Failed) => Err(RunFault::Write),
    }
}

/// Flushes.
fn finish<W: Sink>(writer: &mut W) -> Result<(), RunFault>
    ensures kept { Keeps (W.taken writer.old) (W.taken writer.new) }
    ensures flushed { OnOk result (W.is_flushed writer.new ≡ true) }
    ensures well { OnOk result (W.has_failed writer.new ≡ W.has_failed writer.old) }
    ensures err { OnErr result ((result ≡ Err RunFault.Write) × (W.has_failed writer.new ≡ true)) }
{
    match writer.flush() {
        Ok(()) => Ok(()),
        Err(Failed) => Err(RunFault::Write),
    }
}
