//! How the program ends.
ghost use Rattle.std.specs.Prelude.{◌≡◌, ◌≤◌};
ghost use Rattle.std.specs.Process.{exit_status};
ghost use Rattle.clip_keeping.specs.Statuses.{ending_of, status_of};

use crate::fault::Fault;
use std::process::ExitCode;

/// The status where the words ask for nothing that the program can do.
const REFUSED: u8 = 2;

const USAGE: &str = "usage: pressclip-keep FOLDER ([workers] [hits] | --dump | --check | --stats)";

/// Says on standard error why the program did not do what it was asked, with the folder's name, and gives the status. A
/// fault of standard error is dropped.
pub fn end<R: Eprint>(rt: &R, folder: &str, outcome: Result<(), Fault>) -> ExitCode
    ensures status { exit_status result ≡ ending_of outcome }
    ensures within { exit_status result ≤ 6 }
{
    match outcome {
        Ok(()) => ExitCode::from(0),
        Err(fault) => {
            let _ = eprintln!(rt; "pressclip-keep: {folder}: {fault}");
            ExitCode::from(fault.status())
        }
    }
}

/// Says on standard error that there is no memory for the words, and gives the status of that.
pub fn end_without_memory<R: Eprint>(rt: &R) -> ExitCode
    ensures { exit_status result ≡ status_of Fault.NoMemory }
{
    let _ = rt.eprintln("pressclip-keep: no memory");
    ExitCode::from(Fault::NoMemory.status())
}

/// Says on standard error what words the program takes, and gives the status of other words.
pub fn end_refused<R: Eprint>(rt: &R) -> ExitCode
    ensures { exit_status result ≡ REFUSED }
{
    let _ = rt.eprintln(USAGE);
    ExitCode::from(REFUSED)
}
