//! Whole runs over devices in memory.
ghost use Rattle.std.specs.Prelude.{◌≤◌};
ghost use Rattle.clip_front.specs.Devices.{AreFresh, devices_at};

mod devices;
mod failing_devices;
mod gates;
mod groups;
mod heard;
mod lines;
mod replies_on_a_pipe;
mod traces;

use crate::runs::devices::{Failing, MANY, blank_tape, script_of};
use clip_front::{Ended, Settings};
use clip_listen::Listeners;
use clip_match::OpenGate;
use clip_run::{Form, run};
use clip_stream::{MOST_WORKERS, RunFault, Sink, Source};
use std::alloc::Global;
use std::process::Abort;
use std::sync::Wait;
use std::test::Fail;
use std::thread::Threads;

/// The text of these lines.
pub fn text_of(alloc: Global, lines: &[&str]) -> Result<String, Fail> {
    let mut text = String::new(alloc);
    for line in lines {
        text.push_str(line)?;
        text.push('\n')?;
    }
    Ok(text)
}

/// The numbers of workers that a run is made with.
pub const WORKERS: [u32; 5] = [0, 1, 2, 4, 64];

/// What a run keeps no rows by, with so many workers.
pub fn with_workers(workers: u32) -> Settings
    ensures { result.workers ≤ MOST_WORKERS }
{
    Settings {
        form: Form::Plain,
        keeps_rows: false,
        workers: workers.min(MOST_WORKERS),
    }
}

/// A run that no listener hears and that keeps no rows.
pub fn run_unheard<H: Threads + Wait + Sync + AllocGlobal, R: Source, W: Sink>(
    rt: &H,
    workers: u32,
    reader: &mut R,
    writer: &mut W,
) -> Result<Ended, RunFault>
    requires { AreFresh (devices_at R.Source W.Sink reader.old writer.old) }
{
    let alloc = rt.alloc();
    let Ok(mut listeners) = Listeners::new(Vec::new(alloc)) else {
        return Err(RunFault::NoMemory);
    };
    let settings = with_workers(workers);
    run(
        rt,
        alloc,
        reader,
        writer,
        &mut listeners,
        settings,
        &OpenGate,
    )
}

/// The bytes are answered by these replies, in `count` lines, with each number of workers.
pub fn is_answered<H: Threads + Wait + Sync + Abort + AllocGlobal>(
    rt: &H,
    input: &[u8],
    count: u64,
    replies: &[&str],
) -> Result<(), Fail> {
    let wanted = text_of(rt.alloc(), replies)?;
    for workers in WORKERS {
        let mut source = script_of(input, 1000, MANY);
        let mut sink = blank_tape(rt.alloc(), 1000, Failing::Write, MANY);
        let ended = run_unheard(rt, workers, &mut source, &mut sink)?;
        assert!(rt; ended.lines == count);
        assert!(rt; sink.taken.as_slice() == wanted.as_bytes());
    }
    Ok(())
}

pub fn are_answered<H: Threads + Wait + Sync + Abort + AllocGlobal>(
    rt: &H,
    lines: &[&str],
    replies: &[&str],
) -> Result<(), Fail> {
    let input = text_of(rt.alloc(), lines)?;
    is_answered(rt, input.as_bytes(), lines.len() as u64, replies)
}

/// A query and an article that it holds of.
pub const PRESS: [&str; 2] = [
    r#"{"op":"register","queries":[{"id":"q1","query":"press"}]}"#,
    r#"{"op":"match","articles":[{"id":"a1","fields":{"text":"The PRESS office"}}]}"#,
];

/// The replies to `PRESS`.
pub const PRESSED: [&str; 2] = [
    r#"{"line":1,"registered":1}"#,
    r#"{"alerts":[{"article":"a1","queries":["q1"]}],"line":2,"notes":[]}"#,
];
