ghost use Rattle.std.specs.Prelude.{◌≡◌, ◌<◌, Some, false};

use super::*;
use clip_ahead::{KeptParts, Shortener};
use clip_file_store::{Backing, Failed as StoreFailed, Recorded};
use clip_journal::{begin, read_back};
use clip_listen::Listeners;
use clip_match::OpenGate;
use clip_run::{Form, Settings};
use clip_stream::{Failed, Sink, Source};
use clip_words::NoMemory;
use std::alloc::Global;
use std::sync::Wait;
use std::test::Fail;
use std::thread::Threads;

/// Three changes and a count; the last line has no line feed.
const INPUT: &[u8] = br#"{"op":"register","queries":[{"id":"q1","query":"tea"}]}
{"op":"count"}
{"op":"delete","ids":["q1"]}
{"op":"register","queries":[{"id":"q2","query":"milk"},{"id":"q3","query":"+milk +tea"}]}"#;

/// What the lines are answered.
const REPLIES: [&str; 4] = [
    r#"{"line":1,"registered":1}"#,
    r#"{"count":1,"line":2}"#,
    r#"{"deleted":1,"line":3}"#,
    r#"{"line":4,"registered":2}"#,
];

/// How many changes are among so many first lines.
const CHANGES: [usize; 5] = [0, 1, 1, 2, 3];

/// What a count is answered after so many first changes.
const COUNTED: [&str; 4] = [
    r#"{"count":0,"line":1}"#,
    r#"{"count":1,"line":1}"#,
    r#"{"count":0,"line":1}"#,
    r#"{"count":2,"line":1}"#,
];

/// A reader of some bytes, a few at a time.
#[derive(Drop)]
struct Script<'a> {
    rest: &'a [u8],
    piece: usize,
    reads: u64,
    met_end: bool,
    ghost some: { 0 < piece },
}

impl Source for Script<'_> {
    ghost left = { λ s. Some s.rest.now };

    ghost has_failed = { λ _. false };

    ghost reads = { λ s. s.reads };

    ghost met_end = { λ s. s.met_end };

    fn read(&mut self, buffer: &mut [u8]) -> Result<usize, Failed> {
        self.reads += 1;
        let n = self.piece.min(buffer.len()).min(self.rest.len());
        let (front, rest) = self.rest.split_at(n);
        buffer[..n].copy_from_slice(front);
        self.rest = rest;
        if n == 0 && !buffer.is_empty() {
            self.met_end = true;
        }
        Ok(n)
    }
}

/// A writer that takes all.
#[derive(Drop)]
struct Tape {
    taken: Vec<u8>,
    flushed: bool,
    failed: bool,
}

impl Sink for Tape {
    ghost taken = { λ t. Some t.taken.items };

    ghost has_failed = { λ t. t.failed };

    ghost is_flushed = { λ t. t.flushed };

    fn write(&mut self, bytes: &[u8]) -> Result<usize, Failed> {
        self.flushed = false;
        if self.taken.extend_from_slice(bytes).is_err() {
            self.failed = true;
            return Err(Failed);
        }
        Ok(bytes.len())
    }

    fn flush(&mut self) -> Result<(), Failed> {
        self.flushed = true;
        Ok(())
    }
}

/// A backing whose calls all fail from one on, of which the first adds a part of its bytes.
#[derive(Drop)]
struct Fake {
    synced: Vec<u8>,
    added: Vec<u8>,
    beside: Vec<u8>,
    calls: u64,
    part: usize,
}

impl Backing for Fake {
    fn append(&mut self, bytes: &[u8]) -> Result<(), StoreFailed> {
        let may = self.calls > 0;
        self.calls = self.calls.saturating_sub(1);
        let many = if may {
            bytes.len()
        } else {
            self.part.min(bytes.len())
        };
        match self.added.extend_from_slice(&bytes[..many]) {
            Ok(()) if may => Ok(()),
            _ => Err(StoreFailed),
        }
    }

    fn sync(&mut self) -> Result<(), StoreFailed> {
        if self.calls == 0 {
            return Err(StoreFailed);
        }
        self.calls -= 1;
        if self.synced.extend_from_slice(&self.added).is_err() {
            return Err(StoreFailed);
        }
        self.added.clear();
        Ok(())
    }

    fn read(&self, alloc: Global) -> Result<Vec<u8>, StoreFailed> {
        let Ok(mut bytes) = Vec::from_slice(alloc, &self.synced) else {
            return Err(StoreFailed);
        };
        match bytes.extend_from_slice(&self.added) {
            Ok(()) => Ok(bytes),
            Err(_) => Err(StoreFailed),
        }
    }

    fn put_beside(&mut self, bytes: &[u8]) -> Result<(), StoreFailed> {
        self.beside.clear();
        match self.beside.extend_from_slice(bytes) {
            Ok(()) => Ok(()),
            Err(_) => Err(StoreFailed),
        }
    }

    fn put_in_place(&mut self) -> Result<(), StoreFailed> {
        self.added.clear();
        self.synced.clear();
        match self.synced.extend_from_slice(&self.beside) {
            Ok(()) => Ok(()),
            Err(_) => Err(StoreFailed),
        }
    }
}

/// Who lets a journal's last lines stand for all of them.
struct Last {
    most: usize,
}

impl Shortener for Last {
    ghost use Rattle.std.specs.Prelude.{⊤};

    ghost stand_for = { λ _ _ _. ⊤ };

    fn shorten(&self, alloc: Global, kept: Vec<Vec<u8>>) -> Result<Vec<Vec<u8>>, NoMemory> {
        let mut lines = Vec::new(alloc);
        let first = kept.len().saturating_sub(self.most);
        for line in &kept[first..] {
            lines.push(line.clone()?)?;
        }
        Ok(lines)
    }

    fn tell_begun(&self) {}

    fn tell_undone(&self) {}
}

/// What a run over some bytes left.
#[derive(Drop)]
struct Played {
    /// How it ended.
    answer: Result<u64, KeptFault>,
    /// What it wrote.
    written: Vec<u8>,
    /// How many changes it began with.
    found: usize,
    /// What is synced.
    synced: Vec<u8>,
    /// What was appended since.
    added: Vec<u8>,
}

/// Runs over what a stop left, so many bytes at a read, with a store that fails after so many calls, the first of which
/// is the sync of its opening.
fn play<H: Threads + Wait + Sync + AllocGlobal>(
    rt: &H,
    left: Vec<u8>,
    input: &[u8],
    piece: usize,
    calls: u64,
    part: usize,
) -> Result<Played, Fail>
    requires { 0 < piece }
{
    let alloc = rt.alloc();
    let Ok(mut listeners) = Listeners::new(Vec::new(alloc)) else {
        return Err("no listener occurs twice".into());
    };
    let fake = Fake {
        synced: left.clone()?,
        added: Vec::new(alloc),
        beside: Vec::new(alloc),
        calls,
        part,
    };
    let is_new = left.is_empty();
    let mut store = Recorded::over(alloc, fake, left);
    if is_new {
        begin(alloc, &mut store)?;
    }
    let opened = open_kept(alloc, store)?;
    let found = opened.found.since().len();
    let source = Script {
        rest: input,
        piece,
        reads: 0,
        met_end: false,
    };
    let mut sink = Tape {
        taken: Vec::new(alloc),
        flushed: false,
        failed: false,
    };
    let keeping = Keeping {
        settings: Settings {
            form: Form::Plain,
            keeps_rows: false,
            workers: 0,
        },
        opened,
        gate: &OpenGate,
        shortener: &Last { most: 1 },
    };
    let KeptRun { answer, parts } = run_kept(rt, alloc, source, &mut sink, &mut listeners, keeping);
    let KeptParts { journal, .. } = parts;
    let Fake { synced, added, .. } = journal.into_store().into_backing();
    Ok(Played {
        answer: match answer {
            Ok(ended) => Ok(ended.lines),
            Err(fault) => Err(fault),
        },
        written: sink.taken,
        found,
        synced,
        added,
    })
}

/// How many of these lines are just what was written.
fn lines_in(written: &[u8], lines: &[&str]) -> Option<usize> {
    let mut rest = written;
    for (place, line) in lines.iter().enumerate() {
        if rest.is_empty() {
            return Some(place);
        }
        rest = rest
            .strip_prefix(line.as_bytes())?
            .strip_prefix(b"\n".as_slice())?;
    }
    if rest.is_empty() {
        Some(lines.len())
    } else {
        None
    }
}

/// A later run goes on from what is left with each change that has one of so many replies.
fn goes_on<H: Threads + Wait + Sync + AllocGlobal>(
    rt: &H,
    left: Vec<u8>,
    replies: usize,
) -> Result<(), Fail> {
    let again = play(rt, left, b"{\"op\":\"count\"}\n", 1000, 100, 0)?;
    let Some(least) = CHANGES.get(replies) else {
        return Err("too many replies were written".into());
    };
    if again.found < *least {
        return Err("a change is lost whose reply was written".into());
    }
    let Some(wanted) = COUNTED.get(again.found) else {
        return Err("too many changes are kept".into());
    };
    if lines_in(&again.written, &[*wanted]) != Some(1) {
        return Err("a later run knows other queries".into());
    }
    Ok(())
}

/// A run is stopped at a call of its store. A later run goes on from what a stop leaves then, with all or none of what
/// was not synced.
fn stop<H: Threads + Wait + Sync + AllocGlobal>(
    rt: &H,
    piece: usize,
    calls: u64,
    part: usize,
) -> Result<(), Fail>
    requires { 0 < piece }
{
    let alloc = rt.alloc();
    let first = play(rt, Vec::new(alloc), INPUT, piece, calls, part)?;
    let Some(replies) = lines_in(&first.written, &REPLIES) else {
        return Err("other replies were written".into());
    };
    if first.answer.is_ok() && replies < 4 {
        return Err("a good end lacks a reply".into());
    }
    let mut torn = first.synced.clone()?;
    torn.extend_from_slice(&first.added)?;
    goes_on(rt, first.synced, replies)?;
    goes_on(rt, torn, replies)
}

#[test]
fn a_run_goes_on_from_what_a_stop_at_any_call_leaves(rt: HostRuntime) -> Result<(), Fail> {
    for calls in 1..10u64 {
        stop(&rt, 40, calls, 0)?;
        stop(&rt, 40, calls, 1)?;
        stop(&rt, 1000, calls, 90)?;
    }
    Ok(())
}

#[test]
fn a_run_that_ends_well_keeps_its_last_line(rt: HostRuntime) -> Result<(), Fail> {
    let alloc = rt.alloc();
    let played = play(&rt, Vec::new(alloc), INPUT, 1000, 100, 0)?;
    assert_eq!(rt; played.answer, Ok(4));
    assert!(rt; played.added.is_empty());
    assert_eq!(rt; lines_in(&played.written, &REPLIES), Some(4));
    let again = play(&rt, played.synced, b"", 1000, 100, 0)?;
    assert_eq!(rt; again.found, 3);
    Ok(())
}

/// How often a query is registered, one after the other, in a run whose journal is written anew.
const OFTEN: usize = 1_200;

#[test]
fn a_journal_that_is_long_is_written_anew_while_it_is_taken(rt: HostRuntime) -> Result<(), Fail> {
    let alloc = rt.alloc();
    let mut input = Vec::new(alloc);
    for _ in 0..OFTEN {
        input.extend_from_slice(br#"{"op":"register","queries":[{"id":"q1","query":"tea"}]}"#)?;
        input.push(b'\n')?;
    }
    let played = play(&rt, Vec::new(alloc), &input, 5000, 100_000, 0)?;
    assert_eq!(rt; played.answer, Ok(OFTEN as u64));
    let kept = read_back(alloc, &played.synced)?;
    let changes = kept.changes().wrapping_add(kept.since().len() as u64);
    assert_eq!(rt; changes, OFTEN as u64);
    assert_eq!(rt; kept.live().len(), 1);
    assert!(rt; kept.since().len() < 300);
    let again = play(&rt, played.synced, b"{\"op\":\"count\"}\n", 1000, 100, 0)?;
    assert_eq!(rt; lines_in(&again.written, &[COUNTED[1]]), Some(1));
    Ok(())
}
