//! What the program does.
ghost use Rattle.std.specs.Prelude.{◌≤◌};
ghost use Rattle.std.specs.Process.{exit_status};

use crate::ending::{end, end_refused};
use crate::streams::{run_heard, run_traced, told_version};
use clip_command_line::{Mode, command_line, words_of};
use clip_stream::RunFault;
use std::io::ErrorKind;
use std::process::ExitCode;
use std::rt::Env;
use std::sync::Wait;
use std::thread::Threads;

/// Does what the words after the program's name ask for: `run`, with a number of workers or without, and with `hits` or
/// without, answers the requests of standard input on standard output, with the listeners `mail` and `feed`, `trace`
/// plays the events of standard input, and `--version` tells the version on standard output.
///
/// The status is 0 where it ended well, 1 after a fault, and 2 for other words; the fault, or the words that there are,
/// is said on standard error. The cost is that of `run`, or of `run_trace`.
pub fn play<R: Env + Input + Print + Eprint + Threads + Wait + Sync + AllocGlobal>(
    rt: &R,
) -> ExitCode
    ensures { exit_status result ≤ 2 }
{
    match words_of(rt) {
        Ok(words) => match command_line::mode(&words) {
            Some(Mode::Run(workers, form)) => end(rt, &run_heard(rt, workers, form)),
            Some(Mode::Trace) => end(rt, &run_traced(rt)),
            Some(Mode::Version) => end(rt, &told_version(rt)),
            None => end_refused(rt),
        },
        Err(error) => {
            if error.kind() != ErrorKind::OutOfMemory {
                return end_refused(rt);
            }
            end(rt, &Err::<(), _>(RunFault::NoMemory))
        }
    }
}
