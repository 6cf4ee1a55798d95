use super::*;
use clip_journal::{Journal, OpenFault, Store, begin, open, read_back};
use std::alloc::Global;
use std::fs;
use std::test::Fail;

/// How many calls a history has.
const CALLS: u64 = 12;

/// A backing whose calls all fail from one on, which is done in part.
#[derive(Drop)]
struct Fake {
    synced: Vec<u8>,
    added: Vec<u8>,
    beside: Vec<u8>,
    calls: u64,
    part: usize,
}

impl Fake {
    /// Whether this call is done.
    fn may(&mut self) -> bool {
        let may = self.calls > 0;
        self.calls = self.calls.saturating_sub(1);
        may
    }

    /// Keeps all that was added.
    fn keep(&mut self) -> Result<(), Failed> {
        if self.synced.extend_from_slice(&self.added).is_err() {
            return Err(Failed);
        }
        self.added.clear();
        Ok(())
    }
}

impl Backing for Fake {
    fn append(&mut self, bytes: &[u8]) -> Result<(), Failed> {
        let may = self.may();
        let many = if may {
            bytes.len()
        } else {
            self.part.min(bytes.len())
        };
        match self.added.extend_from_slice(&bytes[..many]) {
            Ok(()) if may => Ok(()),
            _ => Err(Failed),
        }
    }

    fn sync(&mut self) -> Result<(), Failed> {
        if self.may() { self.keep() } else { Err(Failed) }
    }

    fn read(&self, alloc: Global) -> Result<Vec<u8>, Failed> {
        let Ok(mut bytes) = self.synced.clone() else {
            return Err(Failed);
        };
        match bytes.extend_from_slice(&self.added) {
            Ok(()) => Ok(bytes),
            Err(_) => Err(Failed),
        }
    }

    fn put_beside(&mut self, bytes: &[u8]) -> Result<(), Failed> {
        self.beside.clear();
        match self.beside.extend_from_slice(bytes) {
            Ok(()) => Ok(()),
            Err(_) => Err(Failed),
        }
    }

    fn put_in_place(&mut self) -> Result<(), Failed> {
        let may = self.may();
        if may || self.part % 2 == 0 {
            self.synced.clear();
            self.added.clear();
            if self.synced.extend_from_slice(&self.beside).is_err() {
                return Err(Failed);
            }
        }
        if may { Ok(()) } else { Err(Failed) }
    }
}

/// What a run of calls has told: how many commands were asked for, and how many of them are synced.
#[derive(Clone, Copy)]
struct Asked {
    all: u64,
    synced: u64,
}

/// Asks a journal for what the digits of a number say, until a call fails. Command n says the byte n.
fn ask<B: Backing + Drop>(
    alloc: Global,
    journal: &mut Journal<Recorded<B>>,
    history: u64,
    already: u64,
) -> Asked {
    let mut asked = Asked {
        all: already,
        synced: already,
    };
    let mut left = history;
    for _ in 0..CALLS {
        let digit = left % 5;
        left /= 5;
        let done = match digit {
            0 => journal.sync().is_ok(),
            1 => journal.compact(alloc, &[]).is_ok(),
            _ => {
                let said = [(asked.all % 256) as u8];
                asked.all = asked.all.wrapping_add(1);
                journal.append(alloc, &said).is_ok()
            }
        };
        if !done {
            return asked;
        }
        if digit < 2 {
            asked.synced = asked.all;
        }
    }
    asked
}

/// Whether bytes are a journal's with a front of these commands, with all that were synced.
fn is_front(alloc: Global, bytes: &[u8], asked: Asked) -> bool {
    let Ok(found) = read_back(alloc, bytes) else {
        return false;
    };
    let changes = found.changes();
    for (place, said) in found.since().iter().enumerate() {
        if said.as_slice() != [(changes.wrapping_add(place as u64) % 256) as u8].as_slice() {
            return false;
        }
    }
    let all = changes.wrapping_add(found.since().len() as u64);
    asked.synced <= all && all <= asked.all
}

/// Opens what a stop left as a journal, and asks it for more until a call fails. Each thing that a stop may leave then is
/// a front of the commands, with all that were synced.
fn play(alloc: Global, fake: Fake, history: u64) -> Result<(), Fail> {
    let bytes = fake.synced.clone()?;
    let mut store = Recorded::over(alloc, fake, bytes);
    if store.read(alloc)?.is_empty() && begin(alloc, &mut store).is_err() {
        return Ok(());
    }
    let found = match open(alloc, &mut store) {
        Ok(found) => found,
        Err(OpenFault::Store(_)) => return Ok(()),
        Err(OpenFault::Read(_)) => return Err("what a stop left is no journal".into()),
    };
    let already = found.changes().wrapping_add(found.since().len() as u64);
    let mut journal = Journal::over(store, &found);
    let asked = ask(alloc, &mut journal, history, already);
    let Fake { synced, added, .. } = journal.into_store().into_backing();
    for torn in 0..8usize {
        let kept = added.len().saturating_sub(27 * torn);
        let mut left = synced.clone()?;
        left.extend_from_slice(&added[..kept])?;
        if !is_front(alloc, &left, asked) {
            return Err("a stop left no front of the commands".into());
        }
    }
    Ok(())
}

#[test]
fn a_stop_at_any_call_leaves_a_front_with_all_that_were_synced(
    rt: HostRuntime,
) -> Result<(), Fail> {
    let alloc = rt.alloc();
    let mut history = 1u64;
    for calls in 0..48u64 {
        history = history
            .wrapping_mul(6_364_136_223_846_793_005)
            .wrapping_add(1_442_695_040_888_963_407);
        let part = (history >> 56) as usize;
        let fake = Fake {
            synced: Vec::new(alloc),
            added: Vec::new(alloc),
            beside: Vec::new(alloc),
            calls: calls % 16,
            part,
        };
        play(alloc, fake, history >> 8)?;
    }
    Ok(())
}

#[test]
fn a_file_keeps_what_was_synced(rt: HostRuntime) -> Result<(), Fail> {
    let alloc = rt.alloc();
    let folder = "journal_of_a_test";
    let _ = fs::remove_dir_all(&rt, folder);
    let mut store = open_file(&rt, alloc, folder)?;
    begin(alloc, &mut store)?;
    let found = open(alloc, &mut store)?;
    let mut journal = Journal::over(store, &found);
    journal.append(alloc, b"one")?;
    journal.sync()?;
    assert!(rt; open_file(&rt, alloc, folder).is_err());
    drop(journal);
    let mut store = open_file(&rt, alloc, folder)?;
    let found = open(alloc, &mut store)?;
    match found.since() {
        [only] => assert_eq!(rt; only.as_slice(), b"one".as_slice()),
        _ => return Err("another number of commands is kept".into()),
    }
    for path in [
        "journal_of_a_test/changes.torn.1",
        "journal_of_a_test/changes.torn.2",
    ] {
        assert_eq!(rt; set_aside(&rt, alloc, folder, b"torn")?.as_str(), path);
    }
    fs::remove_dir_all(&rt, folder)?;
    Ok(())
}
