//! Journals that are written anew while they take changes.
ghost use Rattle.std.specs.Prelude.{◌≡◌, ◌≢◌, ◌⊎◌, ◌++◌, ◌≤◌, ◌<◌, ℕ, true, false, IfSome, IfErr, OnErr, Ok};
ghost use Rattle.clip_journal.specs.Kept.{Kept, says, compacted, HasDigestOf};
ghost use Rattle.clip_journal.specs.Stands.{IsFront, Stands};
ghost use Rattle.clip_journal.specs.Stop.{Elapses, LeavesOnly};

use clip_journal::{Journal, JournalFault, Store, StoreFault};
use clip_words::NoMemory;
use std::alloc::Global;

/// Who makes lines few that a journal keeps, and tells of it.
pub trait Shortener {
    ghost use Rattle.std.specs.Prelude.{ℕ, List, IfOk};
    ghost use Rattle.clip_journal.specs.Kept.{says};

    /// Whether lines, the second, may stand for others.
    ghost stand_for: { Self → List (List ℕ) → List (List ℕ) → Type 0 };

    /// Lines that may stand for those that were kept.
    ///
    /// `NoMemory` where an allocation failed.
    fn shorten(&self, alloc: Global, kept: Vec<Vec<u8>>) -> Result<Vec<Vec<u8>>, NoMemory>
        ensures { IfOk result (λ lines. stand_for self.now (says kept.items) (says lines.items)) };

    /// Tells that a journal is being written anew, for which the next line waits.
    fn tell_begun(&self);

    /// Tells that a journal could not be written anew, and goes on as it was.
    fn tell_undone(&self);
}

/// Whether a journal was written anew.
#[derive(Clone, Copy, Debug, PartialEq, Eq)]
pub(crate) enum Anew {
    /// It was.
    Done,
    /// It was not, and goes on as it was.
    Undone,
}

/// Lines that may stand for all that a journal keeps; `None` where it can't be read now, or there is no memory.
pub(crate) fn lines_anew<S: Store, L: Shortener>(
    alloc: Global,
    journal: &Journal<S>,
    shortener: &L,
) -> Option<Vec<Vec<u8>>>
    ensures { IfSome result (λ lines. (kept : Kept) (safe : ℕ) → Stands S.seen S.may_leave journal.now kept safe
        → (read : Kept) × HasDigestOf read kept
        × L.stand_for shortener.now (read.live ++ read.since) (says lines.items)) }
{
    let Ok(kept) = journal.lines_again(alloc) else {
        return None;
    };
    match shortener.shorten(alloc, kept) {
        Ok(lines) => Some(lines),
        Err(_) => None,
    }
}

/// Whether a journal takes no more after this fault of a compaction, since its store failed.
fn ends_it(fault: JournalFault) -> bool
    ensures ends { result ≡ true → fault ≡ JournalFault.Store StoreFault.Failed }
    ensures goes_on { result ≡ false → fault ≢ JournalFault.Store StoreFault.Failed }
{
    match fault {
        JournalFault::Store(StoreFault::Failed) => true,
        JournalFault::Store(StoreFault::NoMemory | StoreFault::Unwritten)
        | JournalFault::Ended
        | JournalFault::Full
        | JournalFault::NoMemory => false,
    }
}

/// Writes these lines in the place of all that a journal keeps. An error where the store failed.
pub(crate) fn write_anew<S: Store>(
    alloc: Global,
    journal: &mut Journal<S>,
    lines: &[Vec<u8>],
) -> Result<Anew, JournalFault>
    ensures done { result ≡ Ok Anew.Done → Stands S.seen S.may_leave journal.new
        (compacted journal.old.accepted (says lines.now)) 0 }
    ensures undone { result ≡ Ok Anew.Undone → (kept : Kept) (safe : ℕ)
        → Stands S.seen S.may_leave journal.old kept safe → Stands S.seen S.may_leave journal.new kept safe }
    ensures any_moment { (kept : Kept) (safe : ℕ) → Stands S.seen S.may_leave journal.old kept safe
        → LeavesOnly S.moment S.left_since journal.old.store journal.new.store (λ left.
        IsFront kept safe left ⊎ IsFront (compacted journal.old.accepted (says lines.now)) 0 left) }
    ensures time { Elapses (S.moment journal.old.store) (S.moment journal.new.store) (S.left_since journal.old.store)
        (S.left_since journal.new.store) (S.may_leave journal.new.store) }
    ensures faults { S.faults journal.old.store ≤ S.faults journal.new.store }
    ensures cause { OnErr result (S.faults journal.old.store < S.faults journal.new.store) }
    ensures failed { IfErr result (λ fault. fault ≡ JournalFault.Store StoreFault.Failed) }
{
    let Err(fault) = journal.compact(alloc, lines) else {
        return Ok(Anew::Done);
    };
    if ends_it(fault) {
        return Err(fault);
    }
    Ok(Anew::Undone)
}
