//! Runs and traces over the standard streams.
ghost use Rattle.std.specs.Prelude.{◌≤◌};

use clip_command_line::{VERSION, feed, keep_freed, mail, named};
use clip_listen::Listeners;
use clip_run::{Ended, Form, OpenGate, Settings, run};
use clip_stream::{MOST_WORKERS, RunFault, StdSink, StdSource};
use clip_trace::run_trace;
use std::io;
use std::sync::Wait;
use std::thread::Threads;

/// Runs over the standard streams, with so many workers, this form of replies and the program's listeners. No rows are
/// kept.
///
/// The faults and the cost are those of `run`, and `NoMemory` where the listeners get none.
pub fn run_heard<R: Input + Print + Threads + Wait + Sync + AllocGlobal>(
    rt: &R,
    workers: u32,
    form: Form,
) -> Result<Ended, RunFault>
    requires { workers ≤ MOST_WORKERS }
{
    let alloc = rt.alloc();
    keep_freed(alloc);
    let mail = Box::new(alloc, mail(alloc)?)?;
    let feed = Box::new(alloc, feed(alloc)?)?;
    let Ok(mut listeners) = Listeners::new(named(alloc, mail, feed)?) else {
        unreachable!()
    };
    let mut source = StdSource::new(rt.reader());
    let mut sink = StdSink::new(io::writer(rt));
    let settings = Settings {
        form,
        keeps_rows: false,
        workers,
    };
    run(
        rt,
        alloc,
        &mut source,
        &mut sink,
        &mut listeners,
        settings,
        &OpenGate,
    )
}

/// Plays a trace over the standard streams. The faults and the cost are those of `run_trace`.
pub fn run_traced<R: Input + Print + AllocGlobal>(rt: &R) -> Result<Ended, RunFault> {
    let mut source = StdSource::new(rt.reader());
    let mut sink = StdSink::new(io::writer(rt));
    run_trace(rt.alloc(), &mut source, &mut sink)
}

/// Tells the version on standard output, as `pressclip 1.0.0`; `Write` where that fails.
pub fn told_version<R: Print>(rt: &R) -> Result<(), RunFault> {
    let told = rt.print("pressclip ").and_then(|_| rt.println(VERSION));
    told.map_err(|_| RunFault::Write)
}
