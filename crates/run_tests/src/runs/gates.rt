//! Two batches of a run are matched at the same time.
ghost use Rattle.std.specs.Prelude.{◌≡◌, false};

use crate::runs::devices::{Failing, MANY, blank_tape, script_of};
use crate::runs::{text_of, with_workers};
use clip_listen::Listeners;
use clip_match::Gate;
use clip_run::run;
use clip_samples::is_set_in_time;
use std::alloc::{AllocError, Global};
use std::process::Abort;
use std::sync::atomic::AtomicBool;
use std::sync::atomic::Ordering::SeqCst;
use std::sync::{Arc, Wait};
use std::test::Fail;
use std::thread::Threads;

/// What two batches tell each other.
#[derive(Drop)]
struct Told {
    first_came: AtomicBool,
    second_left: AtomicBool,
    given_up: AtomicBool,
}

/// Holds batch 1 until batch 2 has left, and batch 2 until batch 1 has come.
#[derive(Drop)]
struct Crossing {
    told: Arc<Told>,
}

impl Crossing {
    /// A gate to which no batch has come.
    fn new(alloc: Global) -> Result<Crossing, AllocError> {
        let told = Told {
            first_came: AtomicBool::new(false),
            second_left: AtomicBool::new(false),
            given_up: AtomicBool::new(false),
        };
        Ok(Crossing {
            told: Arc::new(alloc, told)?,
        })
    }

    /// Waits for a flag, up to the limit.
    fn wait_for(&self, flag: &AtomicBool) {
        if !is_set_in_time(flag) {
            self.told.given_up.store(true, SeqCst);
        }
    }
}

impl Clone for Crossing {
    fn clone(&self) -> Result<Self, AllocError> {
        Ok(Crossing {
            told: self.told.clone()?,
        })
    }
}

impl Gate for Crossing {
    fn enter(&self, batch: u64, _piece: u32) {
        if batch == 1 {
            self.told.first_came.store(true, SeqCst);
            self.wait_for(&self.told.second_left);
        } else {
            self.wait_for(&self.told.first_came);
        }
    }

    fn leave(&self, batch: u64, _piece: u32) {
        if batch == 2 {
            self.told.second_left.store(true, SeqCst);
        }
    }
}

/// A register and two matches of one article.
const LINES: [&str; 3] = [
    r#"{"op":"register","queries":[{"id":"q1","query":"tea"},{"id":"q2","query":"milk"}]}"#,
    r#"{"op":"match","articles":[{"id":"a1","fields":{"text":"tea"}}]}"#,
    r#"{"op":"match","articles":[{"id":"a2","fields":{"text":"milk"}}]}"#,
];

/// The replies to `LINES`.
const REPLIES: [&str; 3] = [
    r#"{"line":1,"registered":2}"#,
    r#"{"alerts":[{"article":"a1","queries":["q1"]}],"line":2,"notes":[]}"#,
    r#"{"alerts":[{"article":"a2","queries":["q2"]}],"line":3,"notes":[]}"#,
];

/// The lines are answered by the replies where this gate is before the batches.
fn is_answered_behind<R: Threads + Wait + Sync + Abort + AllocGlobal>(
    rt: &R,
    gate: &Crossing,
) -> Result<(), Fail> {
    let alloc = rt.alloc();
    let input = text_of(alloc, &LINES)?;
    let mut source = script_of(input.as_bytes(), 1000, MANY);
    let mut sink = blank_tape(alloc, 1000, Failing::Write, MANY);
    let Ok(mut listeners) = Listeners::new(Vec::new(alloc)) else {
        return Err("no listeners".into());
    };
    let settings = with_workers(2);
    let ended = run(
        rt,
        alloc,
        &mut source,
        &mut sink,
        &mut listeners,
        settings,
        gate,
    )?;
    assert!(rt; ended.lines == 3);
    assert!(rt; sink.taken.as_slice() == text_of(alloc, &REPLIES)?.as_bytes());
    Ok(())
}

#[test]
fn two_batches_in_flight_cross_and_are_answered_in_line_order(rt: HostRuntime) -> Result<(), Fail> {
    let gate = Crossing::new(rt.alloc())?;
    is_answered_behind(&rt, &gate)?;
    assert!(rt;
        !gate.told.given_up.load(SeqCst),
        "a batch waited to the limit"
    );
    Ok(())
}
