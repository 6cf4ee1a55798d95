//! Runs each example file with the listeners of the program and with several numbers of workers, plays each trace, and
//! compares what is written with the file beside it.
#![tactic(auto)]

use anyhow::{Result, bail};
use clip_command_line::{feed, mail, named};
use clip_listen::Listeners;
use clip_run::{Form, OpenGate, Settings, run};
use clip_stream::{MOST_WORKERS, StdSink, StdSource};
use clip_trace::run_trace;
use std::alloc::Global;
use std::fs::Files;
use std::io::Read;
use std::sync::Wait;
use std::thread::Threads;
use std::{fs, io};

/// The examples: of each the requests are in NAME.jsonl, and the replies in NAME.out.
const EXAMPLES: [&str; 21] = [
    "alerts",
    "changes",
    "clippings",
    "cut_lines",
    "deep_queries",
    "exclusion",
    "fields",
    "folding",
    "limits",
    "listeners",
    "meaning",
    "operators",
    "purging",
    "random_changes",
    "random_operators",
    "random_phrases",
    "random_queries",
    "ranges",
    "refusals",
    "shapes",
    "syntax",
];

/// The examples that are run with hits: of each the replies are in NAME.hits.
const WITH_HITS: [&str; 4] = ["deep_queries", "hits", "random_phrases", "random_queries"];

/// The traces: of each the events are in NAME.jsonl, and the replies in NAME.out.
const TRACES: [&str; 8] = [
    "late_install",
    "install_after_clear",
    "install_after_purge",
    "install_after_idle_purge",
    "two_merges",
    "random_traces",
    "trace_refusals",
    "trace_limits",
];

/// What became of an example.
#[derive(Clone, Copy, Debug, PartialEq, Eq)]
enum Outcome {
    /// The replies are those that are shown.
    AsShown,
    /// The replies are others.
    Differs,
    /// The run ended in a fault.
    Fault,
}

impl Outcome {
    /// What is printed of an outcome.
    fn word(self) -> &'static str {
        match self {
            Outcome::AsShown => "as shown",
            Outcome::Differs => "differs",
            Outcome::Fault => "a fault",
        }
    }
}

/// What became of an example that ended well or not, and has written these replies.
fn compared(ended_well: bool, replies: &[u8], wanted: &[u8]) -> Outcome {
    if !ended_well {
        Outcome::Fault
    } else if replies == wanted {
        Outcome::AsShown
    } else {
        Outcome::Differs
    }
}

/// The numbers of workers that each example is run with.
const WORKERS: [u32; 5] = [0, 1, 2, 4, 64];

/// Gives one byte at each read.
#[derive(Drop)]
struct OneByOne<'a> {
    rest: &'a [u8],
}

impl Read for OneByOne<'_> {
    fn read(&mut self, buffer: &mut [u8]) -> io::Result<usize> {
        let (Some((first, rest)), Some(place)) = (self.rest.split_first(), buffer.first_mut())
        else {
            return Ok(0);
        };
        *place = *first;
        self.rest = rest;
        Ok(1)
    }
}

/// Runs an example with so many workers, in this form and with the listeners of the program, whose replies are to be
/// the wanted bytes.
fn played_by<R: Threads + Wait + Sync + AllocGlobal, I: Read + Drop>(
    rt: &R,
    workers: u32,
    form: Form,
    requests: I,
    wanted: &[u8],
) -> Result<Outcome> {
    let alloc = rt.alloc();
    let mail = Box::new(alloc, mail(alloc)?)?;
    let feed = Box::new(alloc, feed(alloc)?)?;
    let Ok(mut listeners) = Listeners::new(named(alloc, mail, feed)?) else {
        bail!("two listeners have one name");
    };
    let mut replies = Vec::new(alloc);
    let mut source = StdSource::new(requests);
    let mut sink = StdSink::new(&mut replies);
    let settings = Settings {
        form,
        keeps_rows: false,
        workers: workers.min(MOST_WORKERS),
    };
    let gate = OpenGate;
    let ended = run(
        rt,
        alloc,
        &mut source,
        &mut sink,
        &mut listeners,
        settings,
        &gate,
    );
    Ok(compared(ended.is_ok(), &replies, wanted))
}

/// Runs an example with each number of workers, read whole and a byte at a time, up to the first that is not as shown.
fn played<R: Threads + Wait + Sync + AllocGlobal>(
    rt: &R,
    form: Form,
    requests: &[u8],
    wanted: &[u8],
) -> Result<Outcome> {
    for workers in WORKERS {
        let whole = played_by(rt, workers, form, requests, wanted)?;
        if whole != Outcome::AsShown {
            return Ok(whole);
        }
        let one_by_one = played_by(rt, workers, form, OneByOne { rest: requests }, wanted)?;
        if one_by_one != Outcome::AsShown {
            return Ok(one_by_one);
        }
    }
    Ok(Outcome::AsShown)
}

/// Plays a trace, whose replies are to be the wanted bytes.
fn traced(alloc: Global, events: &[u8], wanted: &[u8]) -> Outcome {
    let mut replies = Vec::new(alloc);
    let mut source = StdSource::new(events);
    let mut sink = StdSink::new(&mut replies);
    let ended = run_trace(alloc, &mut source, &mut sink);
    compared(ended.is_ok(), &replies, wanted)
}

/// The file of this name and ending.
fn file<R: AllocGlobal + Files>(rt: &R, name: &str, ending: &str) -> Result<Vec<u8>> {
    Ok(fs::read(rt, format!(in rt.alloc(); "{name}.{ending}")?.as_str())?)
}

fn main(rt: HostRuntime) -> Result<()> {
    for name in EXAMPLES {
        let wanted = file(&rt, name, "out")?;
        let ended = played(&rt, Form::Plain, &file(&rt, name, "jsonl")?, &wanted)?;
        println!(rt; "{name}: {}", ended.word())?;
    }
    for name in WITH_HITS {
        let wanted = file(&rt, name, "hits")?;
        let ended = played(&rt, Form::WithHits, &file(&rt, name, "jsonl")?, &wanted)?;
        println!(rt; "{name} with hits: {}", ended.word())?;
    }
    for name in TRACES {
        let wanted = file(&rt, name, "out")?;
        let ended = traced(rt.alloc(), &file(&rt, name, "jsonl")?, &wanted);
        println!(rt; "{name}: {}", ended.word())?;
    }
    Ok(())
}
