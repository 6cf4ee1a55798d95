//! What the words of a command line ask for, and how a run's end is reported.
use clip_command_line::command_line::mode;
use clip_command_line::{Mode, ending};
use clip_run::Form;
use clip_samples::owned;
use clip_stream::RunFault;
use std::test::Fail;

/// Rows: some words, and what they ask for.
static WORDS: [(&[&str], Option<Mode>); 22] = [
    (&["run"], Some(Mode::Run(4, Form::Plain))),
    (&["trace"], Some(Mode::Trace)),
    (&["runs"], None),
    (&["trace", "4"], None),
    (&["4"], None),
    (&[], None),
    (&["run", "0"], Some(Mode::Run(0, Form::Plain))),
    (&["run", "4"], Some(Mode::Run(4, Form::Plain))),
    (&["run", "64"], Some(Mode::Run(64, Form::Plain))),
    (&["run", "65"], None),
    (&["run", "x"], None),
    (&["run", ""], None),
    (&["run", "004"], None),
    (&["run", "4", "4"], None),
    (&["run", "hits"], Some(Mode::Run(4, Form::WithHits))),
    (&["run", "0", "hits"], Some(Mode::Run(0, Form::WithHits))),
    (&["run", "64", "hits"], Some(Mode::Run(64, Form::WithHits))),
    (&["run", "hits", "4"], None),
    (&["run", "65", "hits"], None),
    (&["hits"], None),
    (&["--version"], Some(Mode::Version)),
    (&["--version", "run"], None),
];

#[test]
fn run_and_trace_are_taken_and_up_to_64_workers(rt: HostRuntime) -> Result<(), Fail> {
    for (words, wanted) in &WORDS {
        assert!(rt; mode(&owned(rt.alloc(), words)?) == *wanted);
    }
    Ok(())
}

#[test]
fn statuses_and_texts_tell_how_a_run_ended(rt: HostRuntime) {
    assert!(rt; ending(&Ok::<u64, RunFault>(3)) == (0, ""));
    assert!(rt; ending(&Err::<(), RunFault>(RunFault::NoMemory)) == (1, "pressclip: no memory"));
    assert!(rt; ending(&Err::<(), RunFault>(RunFault::Read)) == (1, "pressclip: read fault"));
    assert!(rt; ending(&Err::<(), RunFault>(RunFault::Write)) == (1, "pressclip: write fault"));
}
