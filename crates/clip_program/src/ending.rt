//! How the program ends.
ghost use Rattle.std.specs.Prelude.{◌≡◌, ◌≤◌};
ghost use Rattle.std.specs.Process.{exit_status};
ghost use Rattle.clip_command_line.specs.CommandLine.{ending_of};

use clip_command_line::ending;
use clip_stream::RunFault;
use std::process::ExitCode;

/// The status where the words ask for nothing that the program can do.
const REFUSED: u8 = 2;

const USAGE: &str = "usage: pressclip run [workers] [hits] | pressclip trace";

/// Says the text on standard error, where it is not empty, and gives the status. A fault of standard error is dropped.
fn end_with<R: Eprint>(rt: &R, status: u8, text: &str) -> ExitCode
    ensures { exit_status result ≡ status }
{
    if !text.is_empty() {
        let _ = rt.eprintln(text);
    }
    ExitCode::from(status)
}

/// Says on standard error how a run ended, where it ended in a fault, and gives its status.
pub fn end<R: Eprint, T>(rt: &R, outcome: &Result<T, RunFault>) -> ExitCode
    ensures of_ending { exit_status result ≡ (ending_of outcome.now).0 }
    ensures within { exit_status result ≤ REFUSED }
{
    let (status, text) = ending(outcome);
    end_with(rt, status, text)
}

/// Says on standard error what words the program takes, and gives the status of other words.
pub fn end_refused<R: Eprint>(rt: &R) -> ExitCode
    ensures { exit_status result ≡ REFUSED }
{
    end_with(rt, REFUSED, USAGE)
}
