//! Update listeners: worked examples.
use clip_desk::{Update, UpdateEvent, UpdateListener, UpdateListeners, UpdateLog};
use clip_samples::{owned, standing};
use clip_standing::{Command, Standing};
use clip_words::NoMemory;
use std::alloc::{AllocError, Global};
use std::process::Abort;
use std::sync::{Arc, ArcStr};
use std::test::Fail;

/// A log that refuses one event: the first, the second or a later one; none where it refuses number 0.
#[derive(Drop)]
struct Moody {
    log: UpdateLog,
    refuses: u64,
}

impl Moody {
    /// A log that refuses the event of a number, counted from 1.
    fn new(alloc: Global, refuses: u64) -> Moody {
        Moody {
            log: UpdateLog::new(alloc),
            refuses,
        }
    }
}

/// Counts an event, and refuses the one of this number.
fn count(refuses: &mut u64) -> Result<(), NoMemory> {
    *refuses = refuses.wrapping_sub(1);
    if *refuses == 0 {
        return Err(NoMemory);
    }
    Ok(())
}

impl UpdateListener for Moody {
    ghost use Rattle.std.specs.Prelude.{map};
    ghost use Rattle.clip_desk.specs.Told.{event_value};

    ghost heard = { λ m. map event_value m.log.events.items };

    fn after_update(&mut self, alloc: Global, queries: &[Arc<Standing>]) -> Result<(), NoMemory> {
        count(&mut self.refuses)?;
        self.log.after_update(alloc, queries)
    }

    fn after_delete(&mut self, alloc: Global, ids: &[String]) -> Result<(), NoMemory> {
        count(&mut self.refuses)?;
        self.log.after_delete(alloc, ids)
    }

    fn after_clear(&mut self, alloc: Global) -> Result<(), NoMemory> {
        count(&mut self.refuses)?;
        self.log.after_clear(alloc)
    }

    fn on_purge(&mut self, alloc: Global) -> Result<(), NoMemory> {
        count(&mut self.refuses)?;
        self.log.on_purge(alloc)
    }
}

/// Two queries.
fn two(alloc: Global) -> Result<Vec<Arc<Standing>>, Fail> {
    let second = standing(alloc, "q2", "tea")?;
    let first = standing(alloc, "q1", "milk")?;
    Ok(vec![in alloc; second, first]?)
}

/// Tells what a register, a delete and a clear do, and a purge.
fn tell_four<L: UpdateListener>(
    alloc: Global,
    listeners: &mut UpdateListeners<L>,
) -> Result<(), Fail> {
    let register = Command::Register(two(alloc)?);
    listeners.tell(alloc, Update::of(&register));
    let delete = Command::Delete(owned(alloc, &["q1", "q9"])?);
    listeners.tell(alloc, Update::of(&delete));
    listeners.tell(alloc, Update::of(&Command::Clear));
    listeners.tell(alloc, Update::Purged);
    Ok(())
}

/// Adds a word and ids as a line.
fn add_line(text: &mut String, word: &str, ids: &[ArcStr]) -> Result<(), AllocError> {
    text.push_str(word)?;
    for id in ids {
        text.push_str(" ")?;
        text.push_str(id)?;
    }
    text.push_str("\n")
}

/// The events of a log, as lines.
pub fn lines(alloc: Global, log: &UpdateLog) -> Result<String, AllocError> {
    let mut text = String::new(alloc);
    for event in log.events() {
        let (word, ids): (&str, &[ArcStr]) = match event {
            UpdateEvent::Updated(ids) => ("updated", ids.as_slice()),
            UpdateEvent::Deleted(ids) => ("deleted", ids.as_slice()),
            UpdateEvent::Cleared => ("cleared", &[]),
            UpdateEvent::Purged => ("purged", &[]),
        };
        add_line(&mut text, word, ids)?;
    }
    Ok(text)
}

/// What is left of listeners that are told a register, a delete, a clear and a purge, each with whether it is marked.
fn after_four<L: UpdateListener>(alloc: Global, listeners: Vec<L>) -> Result<Vec<(L, bool)>, Fail> {
    let mut listeners = UpdateListeners::new(alloc, listeners)
        .ok()
        .ok_or("no memory")?;
    tell_four(alloc, &mut listeners)?;
    Ok(listeners.into_parts())
}

/// A log has these lines, and its listener is marked as one that refused or not.
fn expect(
    rt: &impl Abort,
    alloc: Global,
    log: &UpdateLog,
    is_marked: bool,
    wanted: &str,
    is_wanted: bool,
) -> Result<(), Fail> {
    let told = lines(alloc, log)?;
    assert!(rt; told.as_str() == wanted, "{told}");
    assert!(rt; is_marked == is_wanted);
    Ok(())
}

/// The lines of the four events.
const ALL_FOUR: &str = "updated q2 q1\ndeleted q1 q9\ncleared\npurged\n";

#[test]
fn a_log_keeps_what_it_is_told_in_order(rt: HostRuntime) -> Result<(), Fail> {
    let alloc = rt.alloc();
    let parts = after_four(alloc, vec![in alloc; UpdateLog::new(alloc)]?)?;
    let [(log, is_marked)] = parts.as_slice() else {
        panic!(rt; "one listener")
    };
    expect(&rt, alloc, log, *is_marked, ALL_FOUR, false)
}

#[test]
fn one_that_refuses_is_marked_and_told_nothing_more(rt: HostRuntime) -> Result<(), Fail> {
    let alloc = rt.alloc();
    let logs = vec![in alloc; Moody::new(alloc, 2), Moody::new(alloc, 0)]?;
    let parts = after_four(alloc, logs)?;
    let [(one, is_one_marked), (other, is_other_marked)] = parts.as_slice() else {
        panic!(rt; "two listeners")
    };
    expect(
        &rt,
        alloc,
        &one.log,
        *is_one_marked,
        "updated q2 q1\n",
        true,
    )?;
    expect(&rt, alloc, &other.log, *is_other_marked, ALL_FOUR, false)
}
