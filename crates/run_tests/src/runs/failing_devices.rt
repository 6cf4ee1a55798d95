//! Runs in pieces, and over devices that fail.
use crate::runs::devices::{Failing, MANY, blank_tape, script_of};
use crate::runs::{PRESS, PRESSED, WORKERS, run_unheard, text_of};
use clip_stream::{RunFault, StdSink, StdSource};
use std::alloc::Global;
use std::io;
use std::io::{ErrorKind, Read, Write};
use std::process::Abort;
use std::sync::Wait;
use std::test::Fail;
use std::thread::Threads;

/// A run by so many workers answers the same in pieces of each size.
fn answers_in_pieces_with<H: Threads + Wait + Sync + Abort + AllocGlobal>(
    rt: &H,
    workers: u32,
) -> Result<(), Fail> {
    let input = text_of(rt.alloc(), &PRESS)?;
    let wanted = text_of(rt.alloc(), &PRESSED)?;
    for piece in 1..200usize {
        let mut source = script_of(input.as_bytes(), piece, MANY);
        let mut sink = blank_tape(rt.alloc(), piece, Failing::Write, MANY);
        let ended = run_unheard(rt, workers, &mut source, &mut sink)?;
        assert!(rt; ended.lines == 2);
        assert!(rt; sink.taken.as_slice() == wanted.as_bytes());
    }
    Ok(())
}

#[test]
fn answers_in_pieces(rt: HostRuntime) -> Result<(), Fail> {
    for workers in WORKERS {
        answers_in_pieces_with(&rt, workers)?;
    }
    Ok(())
}

/// A run by so many workers, of which so many reads and so many flushes go well, ends with this fault, if any, and has
/// written these replies.
fn ends_with<H: Threads + Wait + Sync + Abort + AllocGlobal>(
    rt: &H,
    workers: u32,
    reads: u64,
    flushes: u64,
    fault: Option<RunFault>,
    replies: &str,
) -> Result<(), Fail> {
    let input = text_of(rt.alloc(), &PRESS)?;
    let mut source = script_of(input.as_bytes(), 10, reads);
    let mut sink = blank_tape(rt.alloc(), 10, Failing::Flush, flushes);
    let outcome = run_unheard(rt, workers, &mut source, &mut sink);
    assert!(rt; outcome.err() == fault);
    assert!(rt; sink.taken.as_slice() == replies.as_bytes());
    Ok(())
}

/// Whichever read or flush of a run fails, the lines that were read before it are answered.
fn fails_to_read_or_flush<H: Threads + Wait + Sync + Abort + AllocGlobal>(
    rt: &H,
    workers: u32,
) -> Result<(), Fail> {
    let first = text_of(rt.alloc(), &PRESSED[..1])?;
    let both = text_of(rt.alloc(), &PRESSED)?;
    // The first line has 58 bytes with its line feed, and both have 135: the fifteenth read meets the end.
    for (from, to, replies) in [(0, 6, ""), (6, 14, first.as_str()), (14, 15, both.as_str())] {
        for well in from..to {
            ends_with(rt, workers, well, MANY, Some(RunFault::Read), replies)?;
        }
    }
    // It is flushed before each line and the end are looked for.
    for (well, replies) in [(0, ""), (1, first.as_str()), (2, both.as_str())] {
        ends_with(rt, workers, MANY, well, Some(RunFault::Write), replies)?;
    }
    ends_with(rt, workers, 15, 3, None, both.as_str())
}

#[test]
fn each_read_or_flush_that_fails_is_a_fault(rt: HostRuntime) -> Result<(), Fail> {
    fails_to_read_or_flush(&rt, 0)?;
    fails_to_read_or_flush(&rt, 2)
}

/// Whichever write of a run by so many workers fails, the run ends with a write fault after a prefix of its replies.
fn fails_to_write<H: Threads + Wait + Sync + Abort + AllocGlobal>(
    rt: &H,
    workers: u32,
    failing: Failing,
) -> Result<(), Fail> {
    let input = text_of(rt.alloc(), &PRESS)?;
    let wanted = text_of(rt.alloc(), &PRESSED)?;
    // The replies have 93 bytes, and each write takes one.
    for well in 0..=93u64 {
        let mut source = script_of(input.as_bytes(), 1000, MANY);
        let mut sink = blank_tape(rt.alloc(), 1, failing, well);
        let outcome = run_unheard(rt, workers, &mut source, &mut sink);
        let fault = if well < 93 {
            Some(RunFault::Write)
        } else {
            None
        };
        assert!(rt; outcome.err() == fault);
        assert!(rt; sink.taken.len() as u64 == well);
        assert!(rt; wanted.as_bytes().starts_with(&sink.taken));
    }
    Ok(())
}

#[test]
fn each_write_that_fails_is_a_write_fault(rt: HostRuntime) -> Result<(), Fail> {
    for workers in [0, 2] {
        fails_to_write(&rt, workers, Failing::Write)?;
        fails_to_write(&rt, workers, Failing::WriteOfNothing)?;
    }
    Ok(())
}

/// A match whose reply is large.
#[derive(Clone, Copy)]
struct LargeMatch {
    /// How many queries hold of each article.
    holding: u64,
    /// How many articles it has.
    articles: u64,
    /// The reply takes at least so many writes.
    writes: u64,
}

/// The id of a query of the large match, of 250 bytes.
fn large_id(alloc: Global, number: u64) -> Result<String, Fail> {
    let padded = number.saturating_add(1000);
    Ok(format!(in alloc; "{padded}{}", "x".repeat(alloc, 246)?)?)
}

/// A register of queries that hold of each article, and the match.
fn large_lines(alloc: Global, large: LargeMatch) -> Result<String, Fail> {
    let mut text = String::from_str(alloc, r#"{"op":"register","queries":["#)?;
    for number in 0..large.holding {
        text.push_str(if number > 0 { "," } else { "" })?;
        let id = large_id(alloc, number)?;
        text.push_str(&format!(in alloc; r#"{{"id":"{id}","query":"*:*"}}"#)?)?;
    }
    text.push_str("]}\n")?;
    text.push_str(r#"{"op":"match","articles":["#)?;
    for number in 0..large.articles {
        text.push_str(if number > 0 { "," } else { "" })?;
        text.push_str(&format!(in alloc; r#"{{"id":"a{number}","fields":{{"text":"tea"}}}}"#)?)?;
    }
    text.push_str("]}\n")?;
    Ok(text)
}

/// The replies to the register and the match of `large_lines`.
fn large_replies(alloc: Global, large: LargeMatch) -> Result<String, Fail> {
    let holding = large.holding;
    let mut text = format!(in alloc; "{{\"line\":1,\"registered\":{holding}}}\n{{\"alerts\":[")?;
    for number in 0..large.articles {
        text.push_str(if number > 0 { "," } else { "" })?;
        text.push_str(&format!(in alloc; r#"{{"article":"a{number}","queries":["#)?)?;
        for query in 0..holding {
            text.push_str(if query > 0 { "," } else { "" })?;
            let id = large_id(alloc, query)?;
            text.push_str(&format!(in alloc; "\"{id}\"")?)?;
        }
        text.push_str("]}")?;
    }
    text.push_str("],\"line\":2,\"notes\":[]}\n")?;
    Ok(text)
}

/// The reply to a large match is written in pieces of little more than 64 KiB, and whichever write fails, what was
/// taken is a prefix of it, and nothing more is written.
fn flows<H: Threads + Wait + Sync + Abort + AllocGlobal>(
    rt: &H,
    large: LargeMatch,
) -> Result<(), Fail> {
    let input = large_lines(rt.alloc(), large)?;
    let wanted = large_replies(rt.alloc(), large)?;
    for well in 0..14u64 {
        let mut source = script_of(input.as_bytes(), 65_536, MANY);
        let mut sink = blank_tape(rt.alloc(), 1_000_000, Failing::Write, well);
        let outcome = run_unheard(rt, 0, &mut source, &mut sink);
        assert!(rt; sink.longest < 65_536 + 20_000);
        assert!(rt; wanted.as_bytes().starts_with(&sink.taken));
        if sink.failed {
            assert!(rt; outcome.err() == Some(RunFault::Write));
            assert!(rt; sink.writes == well + 1);
        } else {
            assert!(rt; outcome.err() == None);
            assert!(rt; sink.taken.as_slice() == wanted.as_bytes());
            assert!(rt; sink.writes >= large.writes);
        }
    }
    Ok(())
}

/// Replies of 760 kB, to 30 articles of 25 kB each, and of 250 kB to one article.
const LARGE_MATCHES: [LargeMatch; 2] = [
    LargeMatch {
        holding: 100,
        articles: 30,
        writes: 9,
    },
    LargeMatch {
        holding: 1000,
        articles: 1,
        writes: 3,
    },
];

#[test]
fn a_large_reply_flows(rt: HostRuntime) -> Result<(), Fail> {
    for large in LARGE_MATCHES {
        flows(&rt, large)?;
    }
    Ok(())
}

/// A device of std that a signal interrupts at every other call.
#[derive(Drop)]
struct Interrupted<T: Drop> {
    inner: T,
    is_next: bool,
}

impl<T: Drop> Interrupted<T> {
    fn new(inner: T) -> Interrupted<T> {
        Interrupted {
            inner,
            is_next: false,
        }
    }

    fn signal(&mut self) -> io::Result<()> {
        self.is_next = !self.is_next;
        if self.is_next {
            return Err(io::Error::from(ErrorKind::Interrupted));
        }
        Ok(())
    }
}

impl<R: Read + Drop> Read for Interrupted<R> {
    fn read(&mut self, buffer: &mut [u8]) -> io::Result<usize> {
        self.signal()?;
        self.inner.read(buffer)
    }
}

impl<W: Write + Drop> Write for Interrupted<W> {
    fn write(&mut self, bytes: &[u8]) -> io::Result<usize> {
        self.signal()?;
        self.inner.write(bytes)
    }

    fn flush(&mut self) -> io::Result<()> {
        self.signal()?;
        self.inner.flush()
    }
}

#[test]
fn an_interrupted_call_is_made_again(rt: HostRuntime) -> Result<(), Fail> {
    let input = text_of(rt.alloc(), &PRESS)?;
    let wanted = text_of(rt.alloc(), &PRESSED)?;
    let mut taken = Interrupted::new(Vec::new(rt.alloc()));
    let mut source = StdSource::new(Interrupted::new(input.as_bytes()));
    let mut sink = StdSink::new(&mut taken);
    assert!(rt; run_unheard(&rt, 2, &mut source, &mut sink)?.lines == 2);
    assert!(rt; taken.inner.as_slice() == wanted.as_bytes());
    Ok(())
}
