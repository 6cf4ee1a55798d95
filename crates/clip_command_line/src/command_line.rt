//! The words that the program is given, and how it ends.
ghost use Rattle.std.specs.Prelude.{◌≡◌, ◌≤◌, IfSome};
ghost use Rattle.clip_command_line.specs.CommandLine.{HasFewWorkers, digit_of, workers_of};
ghost use Rattle.clip_command_line.specs.CommandLine.{run_mode, mode_of, ending_of};

use crate::mode::Mode;
use clip_stream::{Form, MOST_WORKERS, RunFault};

/// How many workers match where the words name no number.
pub const USUAL_WORKERS: u32 = 4;

/// The word that asks for replies with hits.
const HITS: &str = "hits";

/// The number of workers that a word names: one or two digits, and at most 64.
fn workers_of(word: &str) -> Option<u32>
    ensures named { result ≡ workers_of word.now }
    ensures few { IfSome result (λ n. n ≤ MOST_WORKERS) }
{
    let number = match word.as_bytes() {
        [units] => digit_of(*units)?,
        [tens, units] => 10 * digit_of(*tens)? + digit_of(*units)?,
        _ => return None,
    };
    if number <= MOST_WORKERS {
        Some(number)
    } else {
        None
    }
}

/// The number that a digit names.
fn digit_of(byte: u8) -> Option<u32>
    ensures { result ≡ digit_of byte }
{
    if byte.is_ascii_digit() {
        Some((byte - b'0') as u32)
    } else {
        None
    }
}

/// The run that the words after `run` ask for.
fn run_mode(words: &[String]) -> Option<Mode>
    ensures named { result ≡ run_mode words.now }
    ensures few { IfSome result HasFewWorkers }
{
    match words {
        [] => Some(Mode::Run(USUAL_WORKERS, Form::Plain)),
        [word] => {
            if word.as_str() == HITS {
                return Some(Mode::Run(USUAL_WORKERS, Form::WithHits));
            }
            Some(Mode::Run(workers_of(word.as_str())?, Form::Plain))
        }
        [number, word] => {
            if word.as_str() != HITS {
                return None;
            }
            Some(Mode::Run(workers_of(number.as_str())?, Form::WithHits))
        }
        _ => None,
    }
}

/// What the words after the program's name ask for: `run`, after it or not a number of workers of one or two digits and
/// at most 64, and after that or not `hits`; or `trace`, or `--version`; `None` for all else. Linear in the words'
/// first bytes.
pub fn mode(words: &[String]) -> Option<Mode>
    ensures named { result ≡ mode_of words.now }
    ensures few { IfSome result HasFewWorkers }
{
    let (word, rest) = words.split_first()?;
    if word.as_str() == "run" {
        run_mode(rest)
    } else if word.as_str() == "trace" && rest.is_empty() {
        Some(Mode::Trace)
    } else if word.as_str() == "--version" && rest.is_empty() {
        Some(Mode::Version)
    } else {
        None
    }
}

/// The exit status, and what is said on standard error, without its line feed: 0 and nothing where the run ended well,
/// 1 and the fault where it did not.
pub fn ending<T>(outcome: &Result<T, RunFault>) -> (u8, &'static str)
    ensures { (result.0, result.1.now) ≡ ending_of outcome.now }
{
    match outcome {
        Ok(_) => (0, ""),
        Err(RunFault::NoMemory) => (1, "pressclip: no memory"),
        Err(RunFault::Read) => (1, "pressclip: read fault"),
        Err(RunFault::Write) => (1, "pressclip: write fault"),
    }
}
