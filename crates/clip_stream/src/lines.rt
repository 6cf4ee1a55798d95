//! Cuts what is read into lines.
ghost use Rattle.std.specs.Prelude.{◌≡◌, ◌≢◌, ◌+◌, ◌-◌, ◌<◌, ◌≤◌, ◌++◌, ◌⊎◌, [], length, take, drop, true, false};
ghost use Rattle.std.specs.Prelude.{is_err, is_ok, IfOk, OnOk, OnErr, IfSome, IfNone, MatchOption, MatchBool, Err};
ghost use Rattle.std.specs.Prelude.{IfErr};
ghost use Rattle.std.specs.Io.KnownBytes.{Consumes, IsAtEnd, Keeps};
ghost use Rattle.clip_stream.specs.Lines.{LinesReadComeFirst};
ghost use Rattle.clip_stream.specs.Steps.Reading.{has_feed, first_line, after_line, cut, fuel, FindsLine, FindsNone};
ghost use Rattle.clip_stream.specs.Steps.Reading.{IsFeedOf, Reads};

use crate::device::Source;
use crate::fault::RunFault;
use crate::limits::{HELD_LINE_BYTES, MOST_READS};
use clip_words::NoMemory;
use memchr::memchr;
use std::alloc::Global;
use std::marker::Model;

/// How many bytes a read may return.
const CHUNK: usize = 65_536;

/// What was read and not yet taken, where its first line feed is, and how many reads are left.
#[derive(Drop)]
pub struct LineReader {
    buffer: Vec<u8>,
    start: usize,
    end: usize,
    /// Where the first line feed of what is pending is, counted from its start: each byte is looked at once.
    feed: Option<usize>,
    reads_left: u64,
    is_at_end: bool,
}

impl Model for LineReader {
    ghost use Rattle.std.specs.Prelude.{◌≡◌, ◌≤◌, ◌-◌, take, drop, vec_len, true};
    ghost use Rattle.clip_stream.specs.Steps.Reading.{Reading, IsFeedOf};
    ghost use Rattle.clip_stream.specs.declared.limits.TheConstants.{MOST_READS};

    ghost Value = { Reading };

    ghost view = { λ r. record {
      pending = take (r.end - r.start) (drop r.start r.buffer.items);
      reads_left = r.reads_left;
      is_at_end = r.is_at_end;
    } };

    ghost invariant = { λ r. (r.start ≤ r.end) × (r.end ≤ vec_len r.buffer) × (vec_len r.buffer ≡ 65536)
        × (r.reads_left ≤ MOST_READS) × (r.is_at_end ≡ true → r.start ≡ r.end)
        × IsFeedOf r.feed (take (r.end - r.start) (drop r.start r.buffer.items)) };
}

/// Where the first line feed is. Its cost is the bytes up to it.
pub fn feed_of(bytes: &[u8]) -> Option<usize>
    ensures { IsFeedOf result bytes.now }
{
    memchr(b'\n', bytes)
}

/// Adds bytes to a line that has no more than are held of one: no more are held than tell that it is too long.
/// `NoMemory` where an allocation failed. Its cost is the bytes that are added.
pub fn extend_cut(line: &mut Vec<u8>, bytes: &[u8]) -> Result<(), NoMemory>
    ensures { length line.old.items ≤ HELD_LINE_BYTES
        → OnOk result (line.new.items ≡ cut (line.old.items ++ bytes.now)) }
{
    let room = HELD_LINE_BYTES.saturating_sub(line.len());
    let more = bytes.len().min(room);
    line.extend_from_slice(&bytes[..more])?;
    Ok(())
}

impl LineReader {
    /// A reader of lines that has read nothing.
    pub fn new(alloc: Global) -> Result<LineReader, NoMemory>
        ensures { IfOk result (λ r. (r.pending ≡ []) × (r.reads_left ≡ MOST_READS)
            × (r.is_at_end ≡ false)) }
    {
        Ok(LineReader {
            buffer: vec![in alloc; 0; CHUNK]?,
            start: 0,
            end: 0,
            feed: None,
            reads_left: MOST_READS,
            is_at_end: false,
        })
    }
}

impl LineReader {
    /// Takes what is pending up to a line feed, or all of it.
    fn take_front(&mut self, line: &mut Vec<u8>) -> Result<bool, NoMemory>
        requires { length line.old.items ≤ HELD_LINE_BYTES }
        ensures line { OnOk result (line.new.items
            ≡ cut (line.old.items ++ first_line self.old.pending)) }
        ensures rest { OnOk result (self.new.pending ≡ after_line self.old.pending) }
        ensures found { IfOk result (λ found. found ≡ has_feed self.old.pending) }
        ensures reads { self.new.reads_left ≡ self.old.reads_left }
        ensures end { self.new.is_at_end ≡ self.old.is_at_end }
    {
        let pending = &self.buffer[self.start..self.end];
        match self.feed {
            Some(i) => {
                extend_cut(line, &pending[..i])?;
                self.feed = feed_of(&pending[i + 1..]);
                self.start += i + 1;
                Ok(true)
            }
            None => {
                extend_cut(line, pending)?;
                self.start = self.end;
                Ok(false)
            }
        }
    }

    /// Reads more, where there is more.
    fn refill<R: Source>(&mut self, reader: &mut R) -> Result<bool, RunFault>
        requires empty { self.old.pending ≡ [] }
        requires budget { R.reads reader.old + self.old.reads_left ≡ MOST_READS }
        requires ended { self.old.is_at_end ≡ true → IsAtEnd (R.left reader.old) }
        requires met { R.met_end reader.old ≡ self.old.is_at_end }
        ensures budget { R.reads reader.new + self.new.reads_left ≡ MOST_READS }
        ensures ended { self.new.is_at_end ≡ true → IsAtEnd (R.left reader.new) }
        ensures met { R.met_end reader.new ≡ self.new.is_at_end }
        ensures bytes { OnOk result (Consumes (R.left reader.old) (R.left reader.new) self.new.pending) }
        ensures kept { OnErr result (Keeps (R.left reader.old) (R.left reader.new)) }
        ensures open { OnErr result ((self.old.is_at_end ≡ false) × (self.new.is_at_end ≡ false)) }
        ensures fuel { IfOk result (λ more. MatchBool more
            ((self.new.reads_left + 1 ≡ self.old.reads_left) × (length self.new.pending ≤ 65536)
            × (self.new.is_at_end ≡ false) × (self.old.is_at_end ≡ false))
            ((self.new.pending ≡ []) × (self.new.is_at_end ≡ true) × (self.new.reads_left ≤ self.old.reads_left))) }
        ensures failed { OnOk result (R.has_failed reader.new ≡ R.has_failed reader.old) }
        ensures fault { OnErr result (result ≡ Err RunFault.Read) }
        ensures read { result ≡ Err RunFault.Read → (R.has_failed reader.new ≡ true)
            ⊎ ((R.reads reader.new ≡ MOST_READS) × (R.met_end reader.new ≡ false)) }
    {
        if self.is_at_end {
            return Ok(false);
        }
        if self.reads_left == 0 {
            return Err(RunFault::Read);
        }
        self.reads_left -= 1;
        self.start = 0;
        self.end = 0;
        self.feed = None;
        match reader.read(&mut self.buffer) {
            Ok(0) => {
                self.is_at_end = true;
                Ok(false)
            }
            Ok(n) => {
                self.end = n;
                self.feed = feed_of(&self.buffer[..n]);
                Ok(true)
            }
            Err(_) => Err(RunFault::Read),
        }
    }

    /// Whether a whole line is pending, so that it comes without a read. Cost: one step.
    pub fn has_line(&self) -> bool
        ensures { result ≡ has_feed self.now.pending }
    {
        self.feed.is_some()
    }

    /// The next line, without its line feed, or false at the end of the input. Of a line at most
    /// 1,048,577 bytes are kept. `Read` where a read failed or 2^40 reads were made.
    pub fn next_line<R: Source>(
        &mut self,
        reader: &mut R,
        line: &mut Vec<u8>,
    ) -> Result<bool, RunFault>
        requires budget { R.reads reader.old + self.old.reads_left ≡ MOST_READS }
        requires ended { self.old.is_at_end ≡ true → IsAtEnd (R.left reader.old) }
        requires met { R.met_end reader.old ≡ self.old.is_at_end }
        ensures budget { R.reads reader.new + self.new.reads_left ≡ MOST_READS }
        ensures ended { self.new.is_at_end ≡ true → IsAtEnd (R.left reader.new) }
        ensures met { R.met_end reader.new ≡ self.new.is_at_end }
        ensures line { IfOk result (λ found. FindsLine found self.old self.new
            (R.left reader.old) (R.left reader.new) line.new.items) }
        ensures given { OnErr result (Reads self.old self.new (R.left reader.old) (R.left reader.new)) }
        ensures unfound { result ≡ Err RunFault.Read
            → FindsNone self.old self.new (R.left reader.old) (R.left reader.new) }
        ensures none { IfOk result (λ found. found ≡ false → has_feed self.old.pending ≡ false) }
        ensures fuel { IfOk result (λ found. found ≡ true → fuel self.new < fuel self.old) }
        ensures failed { OnOk result (R.has_failed reader.new ≡ R.has_failed reader.old) }
        ensures fault { IfErr result (λ e. e ≢ RunFault.Write) }
        ensures read { result ≡ Err RunFault.Read → (R.has_failed reader.new ≡ true)
            ⊎ ((R.reads reader.new ≡ MOST_READS) × (R.met_end reader.new ≡ false)) }
    {
        line.clear();
        'pieces: loop {
            if self.take_front(line)? {
                return Ok(true);
            }
            if !self.refill(reader)? {
                return Ok(!line.is_empty());
            }
        }
    }
}

/// The lines that were read of an input are its first lines.
pub fn lines_read_come_first()
    ensures { LinesReadComeFirst }
{}
