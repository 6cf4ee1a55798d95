//! The run over the standard streams.
ghost use Rattle.std.specs.Prelude.{◌≤◌};

use crate::fault::Fault;
use crate::folder::open_folder;
use crate::serving::{Served, Serving, serve_store};
use clip_command_line::keep_freed;
use clip_listen::Audience;
use clip_run::Settings;
use clip_stream::{MOST_WORKERS, StdSink, StdSource};
use std::fs::File;
use std::io;
use std::rt::Files;
use std::sync::Wait;
use std::thread::Threads;

/// What can be opened, and neither read nor written.
const UNREADABLE: &str = "/";

/// Takes the numbers of those standard streams that are closed, so that no file of the journal gets one: what is read
/// or written there fails, and no reply goes into a file.
fn hold_streams<R: Files<File = File>>(files: &R) -> io::Result<(File, File, File)> {
    Ok((
        File::open(files, UNREADABLE)?,
        File::open(files, UNREADABLE)?,
        File::open(files, UNREADABLE)?,
    ))
}

/// Answers the requests of standard input on standard output for these listeners, over the journal in a folder; of the
/// names that the namesakes have the queries are kept where it is written anew.
///
/// The faults and the cost are those of `open_folder` and of `serve_store`.
pub fn keep<
    R: Input + Print + Eprint + Files<File = File> + Threads + Wait + Sync + AllocGlobal,
    A: Audience,
    B: Audience,
>(rt: &R, audience: &mut A, namesakes: &B, folder: &str, settings: Settings) -> Result<(), Fault>
    requires { settings.workers ≤ MOST_WORKERS }
{
    let _held = hold_streams(rt)?;
    let alloc = rt.alloc();
    keep_freed(alloc);
    let store = open_folder(rt, alloc, folder)?;
    let source = StdSource::new(rt.reader());
    let mut sink = StdSink::new(io::writer(rt));
    let serving = Serving {
        store,
        settings,
        namesakes,
    };
    let Served { outcome, parts: _ } = serve_store(rt, source, &mut sink, audience, serving);
    outcome
}
