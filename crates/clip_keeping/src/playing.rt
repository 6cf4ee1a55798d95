//! What the program does.
ghost use Rattle.std.specs.Prelude.{◌≤◌};
ghost use Rattle.std.specs.Process.{exit_status};
ghost use Rattle.clip_keeping.specs.Words.{HasFewWorkers};

use crate::ending::{end, end_refused, end_without_memory};
use crate::fault::Fault;
use crate::looking::print_looked;
use crate::streams::keep;
use crate::words::{Asked, Task, read_words};
use clip_command_line::{feed, mail, named, words_of};
use clip_listen::{Audience, Listeners};
use clip_run::Settings;
use clip_stream::MOST_WORKERS;
use std::fs::File;
use std::io::ErrorKind;
use std::process::ExitCode;
use std::rt::{Env, Files};
use std::sync::Wait;
use std::thread::Threads;

/// Does what `keep` does, with others of the names `mail` and `feed` as namesakes. The faults and the cost are its own,
/// and `NoMemory` where these listeners get none.
fn keep_beside<
    R: Input + Print + Eprint + Files<File = File> + Threads + Wait + Sync + AllocGlobal,
    A: Audience,
>(rt: &R, audience: &mut A, folder: &str, settings: Settings) -> Result<(), Fault>
    requires { settings.workers ≤ MOST_WORKERS }
{
    let alloc = rt.alloc();
    let mail = Box::new(alloc, mail(alloc)?)?;
    let feed = Box::new(alloc, feed(alloc)?)?;
    let Ok(namesakes) = Listeners::new(named(alloc, mail, feed)?) else {
        unreachable!()
    };
    keep(rt, audience, &namesakes, folder, settings)
}

/// Does what is asked for of the journal in a folder, with the listeners `mail` and `feed`. The faults and the cost are
/// those of `keep` and of `print_looked`, and `NoMemory` where the listeners get none.
fn perform<R: Input + Print + Eprint + Files<File = File> + Threads + Wait + Sync + AllocGlobal>(
    rt: &R,
    folder: &str,
    task: Task,
) -> Result<(), Fault>
    requires { HasFewWorkers task }
{
    let alloc = rt.alloc();
    let mail = Box::new(alloc, mail(alloc)?)?;
    let feed = Box::new(alloc, feed(alloc)?)?;
    let Ok(mut listeners) = Listeners::new(named(alloc, mail, feed)?) else {
        unreachable!()
    };
    match task {
        Task::Run(workers, form) => {
            let settings = Settings {
                form,
                keeps_rows: false,
                workers,
            };
            keep_beside(rt, &mut listeners, folder, settings)
        }
        Task::Look(how) => print_looked(rt, &listeners, folder, how),
    }
}

/// Does what the words after the program's name ask for, and ends with a status: 0 where it ended well, 1 where memory
/// was refused, 2 for other words, 3 where the folder's journal is broken or of another form, 4 where the journal can't
/// be read or written, or standard input can't be read, 5 where another process has the journal, 6 where nobody reads
/// the replies. What it was is said on standard error.
pub fn play<
    R: Env + Input + Print + Eprint + Files<File = File> + Threads + Wait + Sync + AllocGlobal,
>(rt: &R) -> ExitCode
    ensures { exit_status result ≤ 6 }
{
    let words = match words_of(rt) {
        Ok(words) => words,
        Err(error) if error.kind() == ErrorKind::OutOfMemory => {
            return end_without_memory(rt);
        }
        Err(_) => return end_refused(rt),
    };
    match read_words(rt.alloc(), words) {
        Ok(Some(Asked { folder, task })) => {
            let outcome = perform(rt, folder.as_str(), task);
            end(rt, folder.as_str(), outcome)
        }
        Ok(None) => end_refused(rt),
        Err(_) => end_without_memory(rt),
    }
}
