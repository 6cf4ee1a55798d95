//! Groups of many lines, with changes between the matches and articles of very different sizes.
ghost use Rattle.std.specs.Prelude.{◌≤◌};

use crate::runs::devices::{Failing, MANY, blank_tape, script_of};
use crate::runs::{WORKERS, with_workers};
use clip_front::Settings;
use clip_listen::{Listeners, Named};
use clip_match::{Gate, OpenGate};
use clip_run::{Form, run};
use clip_samples::{add_listener, folder};
use clip_stream::MOST_WORKERS;
use std::alloc::{AllocError, Global};
use std::process::Abort;
use std::sync::Wait;
use std::test::Fail;
use std::thread::Threads;

/// A gate that holds nothing, and doesn't say so: each group gets all helpers that it can use.
#[derive(Clone, Copy, Debug)]
struct Silent;

impl Gate for Silent {
    fn enter(&self, _batch: u64, _piece: u32) {}

    fn leave(&self, _batch: u64, _piece: u32) {}
}

/// How many rounds there are: more match lines than may wait.
const ROUNDS: u64 = 40;

/// How often a long article has the word that it begins with.
const FILLING: usize = 300;

/// The register of a query that each short article has the word of, and whose listener hears of it.
const FIRST: &str = r#"{"op":"register","queries":[{"id":"k","query":"tea","listener":"mail"}]}"#;

/// The lines of a round: a register of a query for a word of the round's own; a match of a short article, of a long one
/// that ends with that word, and of one that has the next round's word, for which no query is registered yet; and a
/// delete of the query.
fn add_lines(lines: &mut String, round: u64) -> Result<(), AllocError> {
    let next = round.saturating_add(1);
    let register = r#"{"op":"register","queries":"#;
    writeln!(
        lines,
        r#"{register}[{{"id":"k{round}","query":"w{round}"}}]}}"#
    )?;
    write!(
        lines,
        r#"{{"op":"match","articles":[{{"id":"s","fields":{{"text":"tea"}}}},"#
    )?;
    write!(lines, r#"{{"id":"l","fields":{{"text":""#)?;
    for _ in 0..FILLING {
        lines.push_str("milk ")?;
    }
    write!(lines, r#"w{round}"}}}},"#)?;
    writeln!(lines, r#"{{"id":"n","fields":{{"text":"w{next}"}}}}]}}"#)?;
    writeln!(lines, r#"{{"op":"delete","ids":["k{round}"]}}"#)
}

/// The replies to the lines of a round.
fn add_replies(replies: &mut String, round: u64) -> Result<(), AllocError> {
    let before = round.saturating_mul(3);
    let (first, second, third) = (
        before.saturating_add(2),
        before.saturating_add(3),
        before.saturating_add(4),
    );
    writeln!(replies, r#"{{"line":{first},"registered":1}}"#)?;
    write!(replies, r#"{{"alerts":[{{"article":"s","queries":["k"]}},"#)?;
    write!(replies, r#"{{"article":"l","queries":["k{round}"]}},"#)?;
    write!(
        replies,
        r#"{{"article":"n","queries":[]}}],"line":{second},"#
    )?;
    writeln!(replies, r#""notes":["mail: k in s"]}}"#)?;
    writeln!(replies, r#"{{"deleted":1,"line":{third}}}"#)
}

/// Each of these listeners has heard of one alert a round.
fn hears_each_round<R: Abort>(rt: &R, parts: &[Named]) -> Result<(), Fail> {
    for part in parts {
        let Some(heard) = part.1.heard() else {
            return Err("a listener keeps nothing".into());
        };
        assert!(rt; heard.len() as u64 == ROUNDS);
    }
    Ok(())
}

/// What a run with these settings and this gate writes, whose listener `mail` has heard of one alert a round.
fn written<R: Threads + Wait + Sync + Abort + AllocGlobal, G: Gate + Clone + Send + 'static>(
    rt: &R,
    input: &str,
    settings: Settings,
    gate: &G,
) -> Result<Vec<u8>, Fail>
    requires { settings.workers ≤ MOST_WORKERS }
{
    let alloc = rt.alloc();
    let mut parts = Vec::new(alloc);
    add_listener(alloc, &mut parts, "mail", folder(alloc, "mail: ", " in ")?)?;
    let mut listeners = Listeners::new(parts).ok().ok_or("a name repeats")?;
    let mut source = script_of(input.as_bytes(), 65_536, MANY);
    let mut sink = blank_tape(alloc, 65_536, Failing::Write, MANY);
    let ended = run(
        rt,
        alloc,
        &mut source,
        &mut sink,
        &mut listeners,
        settings,
        gate,
    )?;
    assert!(rt; ended.lines == 3 * ROUNDS + 1);
    hears_each_round(rt, &listeners.into_parts())?;
    Ok(sink.taken)
}

/// The lines of the first register and of all rounds, and the replies to them.
fn lines_and_replies(alloc: Global) -> Result<(String, String), AllocError> {
    let mut lines = String::new(alloc);
    let mut replies = String::new(alloc);
    writeln!(lines, "{FIRST}")?;
    writeln!(replies, r#"{{"line":1,"registered":1}}"#)?;
    for round in 0..ROUNDS {
        add_lines(&mut lines, round)?;
        add_replies(&mut replies, round)?;
    }
    Ok((lines, replies))
}

#[test]
fn articles_of_a_group_are_answered_at_their_own_places(rt: HostRuntime) -> Result<(), Fail> {
    let (lines, replies) = lines_and_replies(rt.alloc())?;
    for workers in WORKERS {
        let settings = with_workers(workers);
        let open = written(&rt, lines.as_str(), settings, &OpenGate)?;
        assert!(rt; open.as_slice() == replies.as_bytes());
        let silent = written(&rt, lines.as_str(), settings, &Silent)?;
        assert!(rt; silent.as_slice() == replies.as_bytes());
    }
    Ok(())
}

#[test]
fn groups_show_the_hits_that_one_thread_shows(rt: HostRuntime) -> Result<(), Fail> {
    let (lines, _) = lines_and_replies(rt.alloc())?;
    let mut settings = with_workers(0);
    settings.form = Form::WithHits;
    let wanted = written(&rt, lines.as_str(), settings, &OpenGate)?;
    for workers in WORKERS {
        let mut settings = with_workers(workers);
        settings.form = Form::WithHits;
        let found = written(&rt, lines.as_str(), settings, &Silent)?;
        assert!(rt; found.as_slice() == wanted.as_slice());
    }
    Ok(())
}
