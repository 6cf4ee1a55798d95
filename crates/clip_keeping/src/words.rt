//! What the program's words ask for.
ghost use Rattle.std.specs.Prelude.{◌≡◌, [], ◌∷◌, List, String, codes, string_bytes, option_and_then, IfOk};
ghost use Rattle.std.specs.Prelude.{IfNone, IfSome};
ghost use Rattle.std.specs.declared.alloc.Global.{Global};
ghost use Rattle.clip_command_line.specs.CommandLine.{run_mode};
ghost use Rattle.clip_keeping.specs.Words.{asked_of, names_folder, run_in, shown_in, task_of, HasFewWorkers};

use clip_command_line::{Mode, command_line};
use clip_run::Form;
use clip_words::NoMemory;
use std::alloc::Global;

/// The word that the folder's name stands in for: what follows it is what may follow `run` of `pressclip`.
const RUN: &str = "run";

/// How a journal is looked at.
#[derive(Clone, Copy, Debug, PartialEq, Eq)]
pub enum Look {
    /// Print the queries that are live, each as the line that registers it.
    Dump,
    /// Print how many changes it keeps.
    Check,
    /// Print how much it has.
    Stats,
}

/// What the program is to do with a journal.
#[derive(Clone, Copy, Debug, PartialEq, Eq)]
pub enum Task {
    /// Answer the requests of standard input, with this many workers, and to matches in this form.
    Run(u32, Form),
    /// Look at it, and change nothing.
    Look(Look),
}

/// What the words ask for.
#[derive(Debug, Drop)]
pub struct Asked {
    /// The folder of the journal.
    pub folder: String,
    /// What is to be done.
    pub task: Task,
}

/// Whether a word names a folder, and no option.
fn names_folder(word: &str) -> bool
    ensures { result ≡ names_folder word.now }
{
    match word.as_bytes() {
        [] => false,
        [first, ..] => *first != b'-',
    }
}

/// What is asked for where no run is.
fn task_of_word(words: &[String]) -> Option<Task>
    ensures { result ≡ shown_in words.now }
{
    let [word] = words else {
        return None;
    };
    if word.as_str() == "--dump" {
        Some(Task::Look(Look::Dump))
    } else if word.as_str() == "--check" {
        Some(Task::Look(Look::Check))
    } else if word.as_str() == "--stats" {
        Some(Task::Look(Look::Stats))
    } else {
        None
    }
}

/// The run that is asked for by `run` and words after it.
fn run_asked(words: &[String]) -> Option<Task>
    ensures run { (first : String Global) (rest : List (String Global)) → words.now ≡ first ∷ rest
        → string_bytes first ≡ codes "run" → result ≡ option_and_then run_in (run_mode rest) }
    ensures few { IfSome result HasFewWorkers }
{
    match command_line::mode(words)? {
        Mode::Run(workers, form) => Some(Task::Run(workers, form)),
        Mode::Trace | Mode::Version => None,
    }
}

/// The first word, and the others.
fn first_of(words: Vec<String>) -> Option<(String, Vec<String>)>
    ensures some { IfSome result (λ parts. words.items ≡ parts.0 ∷ parts.1.items) }
    ensures none { IfNone result (words.items ≡ []) }
{
    let mut words = words;
    if words.is_empty() {
        return None;
    }
    let first = words.remove(0);
    Some((first, words))
}

/// The words behind `run`.
fn behind_run(alloc: Global, words: Vec<String>) -> Result<Vec<String>, NoMemory>
    ensures { IfOk result (λ all. (first : String Global) × (string_bytes first ≡ codes "run")
        × (all.items ≡ first ∷ words.items)) }
{
    let mut words = words;
    let first = String::from_str(alloc, RUN)?;
    words.insert(0, first)?;
    Ok(words)
}

/// What is asked for by the words after the folder's name.
fn task_of(alloc: Global, words: Vec<String>) -> Result<Option<Task>, NoMemory>
    ensures task { IfOk result (λ task. task ≡ task_of words.items) }
    ensures few { IfOk result (λ task. IfSome task HasFewWorkers) }
{
    if let Some(task) = task_of_word(&words) {
        return Ok(Some(task));
    }
    let words = behind_run(alloc, words)?;
    Ok(run_asked(&words))
}

/// What the words after the program's name ask for: a folder's name, which is not empty and does not begin with `-`,
/// and then what `pressclip run` takes after `run`, or one of `--dump`, `--check` and `--stats`; `None` for all else.
///
/// `NoMemory` where an allocation failed. Linear in the words' first bytes.
pub fn read_words(alloc: Global, words: Vec<String>) -> Result<Option<Asked>, NoMemory>
    ensures asked { IfOk result (λ asked. asked ≡ asked_of words.items) }
    ensures few { IfOk result (λ asked. IfSome asked (λ asked. HasFewWorkers asked.task)) }
{
    let Some((folder, rest)) = first_of(words) else {
        return Ok(None);
    };
    if !names_folder(folder.as_str()) {
        return Ok(None);
    }
    match task_of(alloc, rest)? {
        Some(task) => Ok(Some(Asked { folder, task })),
        None => Ok(None),
    }
}
