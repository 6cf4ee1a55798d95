//! The program but for its `main`.
ghost use Rattle.std.specs.Prelude.{◌≤◌};
ghost use Rattle.std.specs.Process.{exit_status};

use crate::form::Form;
use crate::session::explain_lines;
use clip_command_line::VERSION;
use clip_stream::{RunFault, StdSink, StdSource};
use std::io::ErrorKind;
use std::process::ExitCode;
use std::rt::Env;
use std::{env, io};

/// The status after a fault.
const FAILED: u8 = 1;

/// The status where the words ask for nothing that the program can do.
const REFUSED: u8 = 2;

const USAGE: &str = "usage: pressclip-explain [--plain]";

/// Says a text on standard error, and gives the status. A fault of standard error is dropped.
fn end_with<R: Eprint>(rt: &R, status: u8, text: &str) -> ExitCode
    requires { status ≤ 2 }
    ensures { exit_status result ≤ 2 }
{
    let _ = rt.eprintln(text);
    ExitCode::from(status)
}

/// Ends after a fault of the run.
fn end<R: Eprint>(rt: &R, fault: RunFault) -> ExitCode
    ensures { exit_status result ≤ 2 }
{
    match fault {
        RunFault::NoMemory => end_with(rt, FAILED, "pressclip-explain: no memory"),
        RunFault::Read => end_with(rt, FAILED, "pressclip-explain: read fault"),
        RunFault::Write => end_with(rt, FAILED, "pressclip-explain: write fault"),
    }
}

/// What the program is to do.
enum Mode {
    /// Explain lines, in this form.
    Lines(Form),
    /// Tell the version.
    Version,
}

/// What one word after the program's name asks for, if anything: `--plain` or `--version`.
fn mode_named(word: &str) -> Option<Mode> {
    if word == "--plain" {
        Some(Mode::Lines(Form::Plain))
    } else if word == "--version" {
        Some(Mode::Version)
    } else {
        None
    }
}

/// What the words after the program's name ask for, if anything: none, `--plain` or `--version`. An error where there
/// is no memory for them, or where one is no text.
fn mode_of<R: Env + AllocGlobal>(rt: &R) -> io::Result<Option<Mode>> {
    let mut words = env::args(rt)?.skip(1);
    let Some(word) = words.next() else {
        return Ok(Some(Mode::Lines(Form::Json)));
    };
    match words.next() {
        Some(_) => Ok(None),
        None => Ok(mode_named(word.as_str())),
    }
}

/// Tells the version on standard output, as `pressclip-explain 1.0.0`.
fn tell_version<R: Print + Eprint>(rt: &R) -> ExitCode
    ensures { exit_status result ≤ 2 }
{
    if rt.print("pressclip-explain ").is_err() || rt.println(VERSION).is_err() {
        return end(rt, RunFault::Write);
    }
    ExitCode::from(0)
}

/// Explains the lines of standard input on standard output in a form.
fn explain_input<R: Input + Print + Eprint + AllocGlobal>(rt: &R, form: Form) -> ExitCode
    ensures { exit_status result ≤ 2 }
{
    let mut source = StdSource::new(rt.reader());
    let mut sink = StdSink::new(io::writer(rt));
    match explain_lines(rt.alloc(), &mut source, &mut sink, form) {
        Ok(_) => ExitCode::from(0),
        Err(fault) => end(rt, fault),
    }
}

/// Explains the lines of standard input on standard output, as JSON lines or, with `--plain`, for people; with
/// `--version` it tells the version there.
///
/// The status is 0 where it ended well, 1 after a fault, and 2 for other words; the fault, or the words that there are,
/// is said on standard error. The cost is that of `explain_lines`.
pub fn play<R: Env + Input + Print + Eprint + AllocGlobal>(rt: &R) -> ExitCode
    ensures { exit_status result ≤ 2 }
{
    match mode_of(rt) {
        Ok(Some(Mode::Lines(form))) => explain_input(rt, form),
        Ok(Some(Mode::Version)) => tell_version(rt),
        Ok(None) => end_with(rt, REFUSED, USAGE),
        Err(error) => {
            if error.kind() == ErrorKind::OutOfMemory {
                return end(rt, RunFault::NoMemory);
            }
            end_with(rt, REFUSED, USAGE)
        }
    }
}
