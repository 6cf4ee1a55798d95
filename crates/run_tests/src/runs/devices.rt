//! Devices in memory, some of which fail.
ghost use Rattle.std.specs.Prelude.{◌≡◌, ◌<◌, Some, false};

use clip_stream::{Failed, Sink, Source};
use std::alloc::Global;

/// More calls than a test makes.
pub const MANY: u64 = 1_000_000;

/// Gives some bytes at each read, and fails at one.
#[derive(Drop)]
pub struct Script<'a> {
    pub rest: &'a [u8],
    pub piece: usize,
    pub well: u64,
    pub reads: u64,
    pub failed: bool,
    pub met_end: bool,
    ghost some: { 0 < piece },
}

impl Source for Script<'_> {
    ghost left = { λ s. Some s.rest.now };

    ghost has_failed = { λ s. s.failed };

    ghost reads = { λ s. s.reads };

    ghost met_end = { λ s. s.met_end };

    fn read(&mut self, buffer: &mut [u8]) -> Result<usize, Failed> {
        self.reads += 1;
        if self.reads > self.well {
            self.failed = true;
            return Err(Failed);
        }
        let n = self.piece.min(buffer.len()).min(self.rest.len());
        let (front, rest) = self.rest.split_at(n);
        buffer[..n].copy_from_slice(front);
        self.rest = rest;
        if n == 0 && !buffer.is_empty() {
            self.met_end = true;
        }
        Ok(n)
    }
}

pub fn script_of(rest: &[u8], piece: usize, well: u64) -> Script<'_>
    requires { 0 < piece }
    ensures reads { result.reads ≡ 0 }
    ensures unended { result.met_end ≡ false }
    ensures failed { result.failed ≡ false }
{
    Script {
        rest,
        piece,
        well,
        reads: 0,
        failed: false,
        met_end: false,
    }
}

/// How a tape fails.
#[derive(Clone, Copy, PartialEq, Eq)]
pub enum Failing {
    Write,
    WriteOfNothing,
    Flush,
}

/// Takes some bytes at each call, and fails at one.
#[derive(Drop)]
pub struct Tape {
    pub taken: Vec<u8>,
    pub piece: usize,
    pub failing: Failing,
    pub well: u64,
    pub writes: u64,
    pub flushes: u64,
    pub flushed: bool,
    pub failed: bool,
    /// The most bytes that one call was handed.
    pub longest: usize,
    ghost some: { 0 < piece },
}

impl Sink for Tape {
    ghost taken = { λ t. Some t.taken.items };

    ghost has_failed = { λ t. t.failed };

    ghost is_flushed = { λ t. t.flushed };

    fn write(&mut self, bytes: &[u8]) -> Result<usize, Failed> {
        if bytes.is_empty() {
            return Ok(0);
        }
        self.flushed = false;
        self.writes = self.writes.saturating_add(1);
        self.longest = self.longest.max(bytes.len());
        if self.writes > self.well && self.failing != Failing::Flush {
            self.failed = true;
            if self.failing == Failing::WriteOfNothing {
                return Ok(0);
            }
            return Err(Failed);
        }
        let n = self.piece.min(bytes.len());
        if self.taken.extend_from_slice(&bytes[..n]).is_err() {
            self.failed = true;
            return Err(Failed);
        }
        Ok(n)
    }

    fn flush(&mut self) -> Result<(), Failed> {
        self.flushes = self.flushes.saturating_add(1);
        if self.flushes > self.well && self.failing == Failing::Flush {
            self.failed = true;
            return Err(Failed);
        }
        self.flushed = true;
        Ok(())
    }
}

pub fn blank_tape(alloc: Global, piece: usize, failing: Failing, well: u64) -> Tape
    requires { 0 < piece }
    ensures failed { result.failed ≡ false }
{
    Tape {
        taken: Vec::new(alloc),
        piece,
        failing,
        well,
        writes: 0,
        flushes: 0,
        flushed: false,
        failed: false,
        longest: 0,
    }
}
