//! Alerts that are heard in a run, and the ledger that is left.
use crate::runs::devices::{Failing, MANY, blank_tape, script_of};
use crate::runs::{WORKERS, text_of, with_workers};
use clip_front::Settings;
use clip_listen::{Listener, Listeners, Named};
use clip_match::OpenGate;
use clip_run::run;
use clip_samples::{add_listener, folder, teller};
use clip_standing::Alert;
use clip_words::NoMemory;
use std::alloc::{AllocError, Global};
use std::process::Abort;
use std::sync::Wait;
use std::test::Fail;
use std::thread::Threads;

/// A register of four queries for two listeners and none, a match of an article that listeners hear of and of one that
/// none does, a register for a name that is not here, and a count.
const LINES: [&str; 4] = [
    concat!(
        r#"{"op":"register","queries":[{"id":"q1","query":"tea","listener":"mail"},"#,
        r#"{"id":"q2","query":"tea","listener":"feed"},{"id":"q3","query":"tea"},"#,
        r#"{"id":"q5","query":"coffee"}]}"#,
    ),
    concat!(
        r#"{"op":"match","articles":[{"id":"a1","fields":{"text":"tea"}},"#,
        r#"{"id":"a2","fields":{"text":"coffee"}}]}"#,
    ),
    r#"{"op":"register","queries":[{"id":"q4","query":"tea","listener":"fax"}]}"#,
    r#"{"op":"count"}"#,
];

/// The replies to `LINES`.
const REPLIES: [&str; 4] = [
    r#"{"line":1,"registered":4}"#,
    concat!(
        r#"{"alerts":[{"article":"a1","queries":["q1","q2","q3"]},{"article":"a2","queries":["q5"]}],"#,
        r#""line":2,"notes":["mail: q1 in a1","feed q2/a1"]}"#,
    ),
    r#"{"line":3,"refused":"listener","which":0}"#,
    r#"{"count":4,"line":4}"#,
];

/// The listeners under their names.
fn named(
    alloc: Global,
    mail: Box<dyn Listener + Send>,
    feed: Box<dyn Listener + Send>,
) -> Result<Vec<Named>, NoMemory> {
    let mut parts: Vec<Named> = Vec::new(alloc);
    add_listener(alloc, &mut parts, "mail", mail)?;
    add_listener(alloc, &mut parts, "feed", feed)?;
    Ok(parts)
}

/// The queries of the alerts that were heard, a space after each, or `-` where they aren't reported.
fn queries_of(alloc: Global, heard: Option<&[Alert]>) -> Result<String, AllocError> {
    let Some(heard) = heard else {
        return String::from_str(alloc, "-");
    };
    let mut text = String::new(alloc);
    for alert in heard {
        text.push_str(alert.query())?;
        text.push_str(" ")?;
    }
    Ok(text)
}

/// The lines are answered by the replies, `mail` and `feed` have heard these, and the ledger has so many rows.
fn is_heard<R: Threads + Wait + Sync + Abort + AllocGlobal>(
    rt: &R,
    workers: u32,
    parts: Vec<Named>,
    keeps_rows: bool,
    heard: [&str; 2],
    rows: usize,
) -> Result<(), Fail> {
    let mut listeners = Listeners::new(parts).ok().ok_or("a name repeats")?;
    let input = text_of(rt.alloc(), &LINES)?;
    let mut source = script_of(input.as_bytes(), 1000, MANY);
    let mut sink = blank_tape(rt.alloc(), 1000, Failing::Write, MANY);
    let settings = Settings {
        keeps_rows,
        ..with_workers(workers)
    };
    let ended = run(
        rt,
        rt.alloc(),
        &mut source,
        &mut sink,
        &mut listeners,
        settings,
        &OpenGate,
    )?;
    assert!(rt; sink.taken.as_slice() == text_of(rt.alloc(), &REPLIES)?.as_bytes());
    assert!(rt; ended.ledger.rows().len() == rows);
    assert!(rt; ended.ledger.total("mail") == (rows / 4) as u64);
    let parts = listeners.into_parts();
    for (part, wanted) in parts.iter().zip(heard) {
        assert!(rt; queries_of(rt.alloc(), part.1.heard())?.as_str() == wanted);
    }
    Ok(())
}

#[test]
fn each_listener_hears_its_own_alerts_and_the_ledger_has_a_row_for_each(
    rt: HostRuntime,
) -> Result<(), Fail> {
    let alloc = rt.alloc();
    for workers in WORKERS {
        let mail = folder(alloc, "mail: ", " in ")?;
        let parts = named(alloc, mail, folder(alloc, "feed ", "/")?)?;
        is_heard(&rt, workers, parts, true, ["q1 ", "q2 "], 4)?;
    }
    Ok(())
}

#[test]
fn tellers_say_the_same_and_keep_nothing(rt: HostRuntime) -> Result<(), Fail> {
    let alloc = rt.alloc();
    let mail = teller(alloc, "mail: ", " in ")?;
    let parts = named(alloc, mail, teller(alloc, "feed ", "/")?)?;
    is_heard(&rt, 2, parts, false, ["-", "-"], 0)
}
