//! Lines that ask for changes, and how they come into a journal.
ghost use Rattle.std.specs.Prelude.{◌≡◌, ◌≤◌, ◌<◌, List, ℕ, [], ◌∷◌, ◌++◌, IfOk, OnOk, OnErr, IsErrOf};
ghost use Rattle.clip_stream.specs.Steps.Reading.{cut};
ghost use Rattle.clip_ahead.specs.Ahead.{Begun, Appended, LeavesFronts};
ghost use Rattle.clip_ahead.specs.Changes.{asks_change as asks};
ghost use Rattle.clip_ahead.specs.Keeping.{TimeGoesOn};

use crate::census::Census;
use clip_journal::{Journal, JournalFault, Store, StoreFault};
use clip_protocol::Line;
use clip_words::NoMemory;
use std::alloc::Global;

/// Whether a line asks to register queries, to delete some, or to delete all, which the census counts.
fn asks_change(alloc: Global, census: &mut Census, line: &[u8]) -> Result<bool, NoMemory>
    ensures { IfOk result (λ found. found ≡ asks line.now) }
{
    match Line::of_bytes(alloc, line)? {
        Line::Register(listings) => {
            census.register(&listings);
            Ok(true)
        }
        Line::Delete(ids) => {
            census.delete(&ids);
            Ok(true)
        }
        Line::Clear => {
            census.clear();
            Ok(true)
        }
        Line::Blank
        | Line::Refused(_)
        | Line::Purge
        | Line::Count
        | Line::Show(_)
        | Line::Match(_) => Ok(false),
    }
}

/// Appends a line to a journal where it asks for a change, and says whether it does.
pub(crate) fn append_change<S: Store>(
    alloc: Global,
    journal: &mut Journal<S>,
    census: &mut Census,
    line: &[u8],
) -> Result<bool, JournalFault>
    ensures asks { (whole : List ℕ) → line.now ≡ cut whole → IfOk result (λ found. found ≡ asks whole) }
    ensures appended { (begun : Begun) (synced lines : List (List ℕ)) (whole : List ℕ) → line.now ≡ cut whole
        → Appended S.Store begun synced lines journal.old
        → OnOk result (Appended S.Store begun synced (lines ++ whole ∷ []) journal.new) }
    ensures fronts { (begun : Begun) (synced lines : List (List ℕ)) (whole : List ℕ) → line.now ≡ cut whole
        → Appended S.Store begun synced lines journal.old
        → OnErr result (LeavesFronts S.Store begun synced (lines ++ whole ∷ []) journal.new.store) }
    ensures faults { S.faults journal.old.store ≤ S.faults journal.new.store }
    ensures cause { IsErrOf result (JournalFault.Store StoreFault.Failed)
        → S.faults journal.old.store < S.faults journal.new.store }
    ensures time { TimeGoesOn S.Store journal.old.store journal.new.store }
{
    let Ok(asks) = asks_change(alloc, census, line) else {
        return Err(JournalFault::NoMemory);
    };
    if !asks {
        return Ok(false);
    }
    journal.append(alloc, line)?;
    Ok(true)
}

/// Syncs a journal.
pub(crate) fn sync_changes<S: Store>(journal: &mut Journal<S>) -> Result<(), JournalFault>
    ensures synced { (begun : Begun) (synced lines : List (List ℕ)) → Appended S.Store begun synced lines journal.old
        → OnOk result (Appended S.Store begun lines lines journal.new) }
    ensures fronts { (begun : Begun) (synced lines : List (List ℕ)) → Appended S.Store begun synced lines journal.old
        → OnErr result (LeavesFronts S.Store begun synced lines journal.new.store) }
    ensures faults { S.faults journal.old.store ≤ S.faults journal.new.store }
    ensures cause { IsErrOf result (JournalFault.Store StoreFault.Failed)
        → S.faults journal.old.store < S.faults journal.new.store }
    ensures time { TimeGoesOn S.Store journal.old.store journal.new.store }
{
    journal.sync()
}
