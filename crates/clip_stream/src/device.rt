//! What a run reads from and writes to.
ghost use Rattle.std.specs.Prelude.{◌≡◌, ◌+◌, ◌<◌, ◌^◌, ◌||◌, ℕ, List, Option, Bool, true, false, is_err, IfOk, OnOk};
ghost use Rattle.std.specs.Prelude.{OnErr};
ghost use Rattle.std.specs.Io.{ReadsAtMost, WritesAtMost};
ghost use Rattle.std.specs.Io.KnownBytes.{Appends, Keeps, ReadConsumes, WriteAppends};
ghost use Rattle.clip_stream.specs.Device.{write_failed, meets_end, AppendsFront};

use std::io::{ErrorKind, Read, Write};
use thiserror::Error;

/// A call of a reader or a writer failed.
#[derive(Clone, Copy, Debug, PartialEq, Eq, Error)]
#[error("a read or a write failed")]
pub struct Failed;

/// What a run reads from.
pub trait Source {
    /// The bytes left, where the reader reports them.
    ghost left: { Self → Option (List ℕ) };

    /// Whether a call has failed.
    ghost has_failed: { Self → Bool };

    /// How often the reader was read.
    ghost reads: { Self → ℕ };

    /// Whether a read met the end: it returned 0, though the buffer had a byte or more.
    ghost met_end: { Self → Bool };

    /// Reads some bytes into the beginning of the buffer, and returns how many: 0 only at the end, or where the buffer
    /// is empty. After `Failed` no byte is lost.
    fn read(&mut self, buffer: &mut [u8]) -> Result<usize, Failed>
        requires { reads self.old < 2 ^ 63 }
        ensures bound { ReadsAtMost result buffer.new }
        ensures bytes { ReadConsumes (left self.old) (left self.new) result buffer.new }
        ensures failed { has_failed self.new ≡ (has_failed self.old || is_err result) }
        ensures counted { reads self.new ≡ reads self.old + 1 }
        ensures ended { met_end self.new ≡ (met_end self.old || meets_end result buffer.new) };
}

/// What a run writes to.
pub trait Sink {
    /// The bytes taken, where the writer reports them.
    ghost taken: { Self → Option (List ℕ) };

    /// Whether a call has failed: an error, or a write that took nothing of some bytes.
    ghost has_failed: { Self → Bool };

    /// Whether a flush has gone well since the last write that took bytes.
    ghost is_flushed: { Self → Bool };

    /// Takes a prefix of the bytes, and returns its length. After `Failed` none is taken.
    fn write(&mut self, bytes: &[u8]) -> Result<usize, Failed>
        ensures bound { WritesAtMost result bytes.now }
        ensures bytes { WriteAppends (taken self.old) (taken self.new) result bytes.now }
        ensures failed { has_failed self.new
            ≡ (has_failed self.old || write_failed result bytes.now) }
        ensures held { IfOk result (λ n. 0 < n → is_flushed self.new ≡ false) };

    /// Sends on what was taken.
    fn flush(&mut self) -> Result<(), Failed>
        ensures bytes { Keeps (taken self.old) (taken self.new) }
        ensures failed { has_failed self.new ≡ (has_failed self.old || is_err result) }
        ensures flushed { OnOk result (is_flushed self.new ≡ true) };
}

/// One read, tried again where a signal interrupts it.
fn read_again<R: Read>(reader: &mut R, buffer: &mut [u8]) -> Result<usize, Failed>
    ensures bound { ReadsAtMost result buffer.new }
    ensures bytes { ReadConsumes (R.remaining reader.old) (R.remaining reader.new) result buffer.new }
{
    for _ in 0..u64::MAX {
        match reader.read(buffer) {
            Ok(n) => return Ok(n),
            Err(error) => {
                if error.kind() != ErrorKind::Interrupted {
                    return Err(Failed);
                }
            }
        }
    }
    Err(Failed)
}

/// One write, tried again where a signal interrupts it.
fn write_again<W: Write>(writer: &mut W, bytes: &[u8]) -> Result<usize, Failed>
    ensures bound { WritesAtMost result bytes.now }
    ensures bytes { WriteAppends (W.contents writer.old) (W.contents writer.new) result bytes.now }
{
    for _ in 0..u64::MAX {
        match writer.write(bytes) {
            Ok(n) => return Ok(n),
            Err(error) => {
                if error.kind() != ErrorKind::Interrupted {
                    return Err(Failed);
                }
            }
        }
    }
    Err(Failed)
}

/// One flush, tried again where a signal interrupts it.
fn flush_again<W: Write>(writer: &mut W) -> Result<(), Failed>
    ensures { Keeps (W.contents writer.old) (W.contents writer.new) }
{
    for _ in 0..u64::MAX {
        match writer.flush() {
            Ok(()) => return Ok(()),
            Err(error) => {
                if error.kind() != ErrorKind::Interrupted {
                    return Err(Failed);
                }
            }
        }
    }
    Err(Failed)
}

/// A reader of std, each of whose calls is tried again where a signal interrupts it.
#[derive(Drop)]
pub struct StdSource<R: Read> {
    inner: R,
    failed: bool,
    reads: u64,
    met_end: bool,
}

impl<R: Read> StdSource<R> {
    /// The reader, of which nothing was read yet. Takes no memory.
    pub fn new(inner: R) -> StdSource<R>
        ensures left { ⟦<StdSource<R> as Source>⟧.left result ≡ R.remaining inner }
        ensures failed { ⟦<StdSource<R> as Source>⟧.has_failed result ≡ false }
        ensures reads { ⟦<StdSource<R> as Source>⟧.reads result ≡ 0 }
        ensures ended { ⟦<StdSource<R> as Source>⟧.met_end result ≡ false }
    {
        StdSource {
            inner,
            failed: false,
            reads: 0,
            met_end: false,
        }
    }
}

impl<R: Read> Source for StdSource<R> {
    ghost left = { λ s. R.remaining s.inner };

    ghost has_failed = { λ s. s.failed };

    ghost reads = { λ s. s.reads };

    ghost met_end = { λ s. s.met_end };

    fn read(&mut self, buffer: &mut [u8]) -> Result<usize, Failed> {
        self.reads += 1;
        match read_again(&mut self.inner, buffer) {
            Ok(n) => {
                if n == 0 && !buffer.is_empty() {
                    self.met_end = true;
                }
                Ok(n)
            }
            Err(Failed) => {
                self.failed = true;
                Err(Failed)
            }
        }
    }
}

/// A writer of std, each of whose calls is tried again where a signal interrupts it.
#[derive(Drop)]
pub struct StdSink<W: Write> {
    inner: W,
    failed: bool,
    flushed: bool,
}

impl<W: Write> StdSink<W> {
    /// The writer, which has taken nothing yet. Takes no memory.
    pub fn new(inner: W) -> StdSink<W>
        ensures taken { ⟦<StdSink<W> as Sink>⟧.taken result ≡ W.contents inner }
        ensures failed { ⟦<StdSink<W> as Sink>⟧.has_failed result ≡ false }
    {
        StdSink {
            inner,
            failed: false,
            flushed: false,
        }
    }
}

impl<W: Write> Sink for StdSink<W> {
    ghost taken = { λ s. W.contents s.inner };

    ghost has_failed = { λ s. s.failed };

    ghost is_flushed = { λ s. s.flushed };

    fn write(&mut self, bytes: &[u8]) -> Result<usize, Failed> {
        self.flushed = false;
        match write_again(&mut self.inner, bytes) {
            Ok(n) => {
                if n == 0 && !bytes.is_empty() {
                    self.failed = true;
                }
                Ok(n)
            }
            Err(Failed) => {
                self.failed = true;
                Err(Failed)
            }
        }
    }

    fn flush(&mut self) -> Result<(), Failed> {
        let result = flush_again(&mut self.inner);
        self.failed = self.failed || result.is_err();
        self.flushed = result.is_ok();
        result
    }
}

/// Writes all of the bytes, by as many writes as it takes. `Failed` where a write answers it, or
/// takes nothing.
pub fn write_all<W: Sink>(writer: &mut W, bytes: &[u8]) -> Result<(), Failed>
    ensures ok { OnOk result (Appends (W.taken writer.old) (W.taken writer.new) bytes.now) }
    ensures front { OnErr result (AppendsFront (W.taken writer.old) (W.taken writer.new) bytes.now) }
    ensures failed { W.has_failed writer.new ≡ (W.has_failed writer.old || is_err result) }
{
    let mut at = 0;
    while at < bytes.len() {
        let n = writer.write(&bytes[at..])?;
        if n == 0 {
            return Err(Failed);
        }
        at += n;
    }
    Ok(())
}
