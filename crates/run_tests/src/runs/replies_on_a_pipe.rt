//! Replies are neither held back nor written one by one.
ghost use Rattle.std.specs.Prelude.{None, false};

use crate::runs::devices::{Failing, MANY, blank_tape, script_of};
use crate::runs::{PRESS, WORKERS, run_unheard, text_of};
use clip_stream::{Failed, Sink, Source, StdSink, StdSource};
use std::cell::Cell;
use std::io;
use std::io::Write;
use std::process::Abort;
use std::sync::Wait;
use std::test::Fail;
use std::thread::Threads;

#[test]
fn ten_lines_of_one_read_are_answered_by_one_write(rt: HostRuntime) -> Result<(), Fail> {
    let input = text_of(rt.alloc(), &[r#"{"op":"count"}"#; 10])?;
    for workers in WORKERS {
        let mut source = script_of(input.as_bytes(), 1000, MANY);
        let mut sink = blank_tape(rt.alloc(), 1000, Failing::Write, MANY);
        let ended = run_unheard(&rt, workers, &mut source, &mut sink)?;
        assert!(rt; ended.lines == 10);
        assert!(rt; sink.writes == 1);
    }
    Ok(())
}

/// A client that sends a line only once it has the reply to the one before.
#[derive(Drop)]
struct Client<'a> {
    lines: &'a [String],
    sent: usize,
    replies: &'a Cell<usize>,
    reads: u64,
    failed: bool,
    met_end: bool,
}

impl Source for Client<'_> {
    ghost left = { λ _. None };

    ghost has_failed = { λ c. c.failed };

    ghost reads = { λ c. c.reads };

    ghost met_end = { λ c. c.met_end };

    fn read(&mut self, buffer: &mut [u8]) -> Result<usize, Failed> {
        self.reads += 1;
        if self.replies.get() != self.sent {
            self.failed = true;
            return Err(Failed);
        }
        let bytes = match self.lines.get(self.sent) {
            Some(line) => line.as_bytes(),
            None => b"",
        };
        if bytes.len() > buffer.len() {
            self.failed = true;
            return Err(Failed);
        }
        if bytes.is_empty() && !buffer.is_empty() {
            self.met_end = true;
        }
        buffer[..bytes.len()].copy_from_slice(bytes);
        self.sent = self.sent.saturating_add(1);
        Ok(bytes.len())
    }
}

/// What the client hears: the replies that were flushed.
#[derive(Drop)]
struct Ear<'a> {
    taken: usize,
    replies: &'a Cell<usize>,
    flushed: bool,
}

impl Sink for Ear<'_> {
    ghost taken = { λ _. None };

    ghost has_failed = { λ _. false };

    ghost is_flushed = { λ e. e.flushed };

    fn write(&mut self, bytes: &[u8]) -> Result<usize, Failed> {
        for byte in bytes {
            if *byte == b'\n' {
                self.taken = self.taken.saturating_add(1);
            }
        }
        self.flushed = false;
        Ok(bytes.len())
    }

    fn flush(&mut self) -> Result<(), Failed> {
        self.replies.set(self.taken);
        self.flushed = true;
        Ok(())
    }
}

/// A client that sends these lines in lock step gets a reply to each before it sends the next.
fn waits_for_each<H: Threads + Wait + Sync + Abort + AllocGlobal>(
    rt: &H,
    workers: u32,
    lines: &[String],
) -> Result<(), Fail> {
    let replies = Cell::new(0);
    let mut client = Client {
        lines,
        sent: 0,
        replies: &replies,
        reads: 0,
        failed: false,
        met_end: false,
    };
    let mut ear = Ear {
        taken: 0,
        replies: &replies,
        flushed: false,
    };
    let ended = run_unheard(rt, workers, &mut client, &mut ear)?;
    assert!(rt; ended.lines == lines.len() as u64);
    assert!(rt; replies.get() == lines.len());
    Ok(())
}

#[test]
fn a_client_that_waits_for_each_reply_gets_it(rt: HostRuntime) -> Result<(), Fail> {
    let mut lines = Vec::new(rt.alloc());
    for line in [PRESS[0], PRESS[1], r#"{"op":"count"}"#, "no request"] {
        lines.push(text_of(rt.alloc(), &[line])?)?;
    }
    for workers in WORKERS {
        waits_for_each(&rt, workers, &lines)?;
    }
    Ok(())
}

/// A writer of std that keeps what it is given until it is flushed.
#[derive(Drop)]
struct Holding<'a> {
    held: usize,
    sent: &'a Cell<usize>,
}

impl Write for Holding<'_> {
    fn write(&mut self, bytes: &[u8]) -> io::Result<usize> {
        self.held = self.held.saturating_add(bytes.len());
        Ok(bytes.len())
    }

    fn flush(&mut self) -> io::Result<()> {
        self.sent.set(self.held);
        Ok(())
    }
}

#[test]
fn a_flush_reaches_the_writer_of_std(rt: HostRuntime) -> Result<(), Fail> {
    let input = text_of(rt.alloc(), &PRESS)?;
    let sent = Cell::new(0);
    let mut source = StdSource::new(input.as_bytes());
    let mut sink = StdSink::new(Holding {
        held: 0,
        sent: &sent,
    });
    assert!(rt; run_unheard(&rt, 2, &mut source, &mut sink)?.lines == 2);
    // The replies have 93 bytes.
    assert!(rt; sent.get() == 93);
    Ok(())
}
