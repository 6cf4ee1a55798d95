//! Replies that flow to the writer, piece by piece.
ghost use Rattle.std.specs.Prelude.{◌≡◌, ◌≢◌, ◌++◌, [], true, false, OnOk, OnErr, IfErr, Err};
ghost use Rattle.clip_stream.specs.Device.{AppendsFront, HandsOver};

use crate::device::Sink;
use crate::fault::RunFault;
use crate::outbox::Outbox;

/// A writer, and what is gathered for it.
pub struct Flow<'w, W: Sink> {
    /// The writer.
    pub writer: &'w mut W,
    /// What the writer has not taken yet.
    pub outbox: &'w mut Outbox,
}

impl<W: Sink> Drop for Flow<'_, W> {
    fn drop(self)
        ensures { self.exit.0.now ≡ self.entry.writer.now }
    {
        let Flow {
            writer: _,
            outbox: _,
        } = self;
    }
}

impl<'w, W: Sink> Flow<'w, W> {
    /// A flow to the writer through the outbox. Takes no memory.
    pub fn new(writer: &'w mut W, outbox: &'w mut Outbox) -> Flow<'w, W>
        ensures same_reference { result.writer.ghost_name ≡ writer.entry.ghost_name }
        ensures writer { result.writer.now ≡ writer.old }
        ensures outbox { result.outbox.now ≡ outbox.old }
    {
        Flow { writer, outbox }
    }

    /// Gathers a piece of a reply, and hands over what is gathered once it is many.
    ///
    /// `NoMemory` where an allocation failed, `Write` where the writer fails. Its cost is the piece's bytes.
    pub fn put(&mut self, piece: &[u8]) -> Result<(), RunFault>
        ensures same_reference { self.new.writer.ghost_name ≡ self.old.writer.ghost_name }
        ensures moved { OnOk result (HandsOver (W.taken self.old.writer.now) (self.old.outbox.now ++ piece.now)
            (W.taken self.new.writer.now) self.new.outbox.now) }
        ensures well { OnOk result (W.has_failed self.new.writer.now ≡ W.has_failed self.old.writer.now) }
        ensures fault { IfErr result (λ e. e ≢ RunFault.Read) }
        ensures write { result ≡ Err RunFault.Write → W.has_failed self.new.writer.now ≡ true }
        ensures front { OnErr result (AppendsFront (W.taken self.old.writer.now) (W.taken self.new.writer.now)
            (self.old.outbox.now ++ piece.now)) }
    {
        self.outbox.gather(piece)?;
        self.outbox.hand_over(self.writer, true)
    }

    /// Hands what is gathered to the writer where it is many, or where no line is pending; then also flushes, since
    /// the reader is to be asked for more. `Write` where the writer fails.
    pub fn hand_over(&mut self, has_line: bool) -> Result<(), RunFault>
        ensures same_reference { self.new.writer.ghost_name ≡ self.old.writer.ghost_name }
        ensures moved { OnOk result (HandsOver (W.taken self.old.writer.now) self.old.outbox.now
            (W.taken self.new.writer.now) self.new.outbox.now) }
        ensures none_held { OnOk result (has_line ≡ false → self.new.outbox.now ≡ []) }
        ensures flushed { OnOk result (has_line ≡ false → W.is_flushed self.new.writer.now ≡ true) }
        ensures well { OnOk result (W.has_failed self.new.writer.now ≡ W.has_failed self.old.writer.now) }
        ensures err { OnErr result ((result ≡ Err RunFault.Write) × (W.has_failed self.new.writer.now ≡ true)) }
        ensures front { OnErr result (AppendsFront (W.taken self.old.writer.now) (W.taken self.new.writer.now)
            self.old.outbox.now) }
    {
        self.outbox.hand_over(self.writer, has_line)
    }
}
