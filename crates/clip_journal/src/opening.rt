//! A store that becomes a journal, and one that is opened as one.
ghost use Rattle.std.specs.Prelude.{◌≡◌, ◌⊎◌, ◌≤◌, ℕ, List, [], length, take, IfOk, OnOk, IsErrOf};
ghost use Rattle.clip_journal.specs.Kept.{Kept, Reads, bytes_of, compacted};
ghost use Rattle.clip_journal.specs.Parts.{IsBroken};
ghost use Rattle.clip_journal.specs.declared.fault.ReadFault.{ReadFault as Fault};
ghost use Rattle.clip_journal.specs.Contents.{kept_of, torn_of};
ghost use Rattle.clip_journal.specs.Stop.{Only, Elapses, LeavesOnly};
ghost use Rattle.clip_journal.specs.Stands.{IsWholeOf};

use crate::contents::Contents;
use crate::journal::spell;
use crate::journal_fault::{JournalFault, OpenFault};
use crate::reading::read_back;
use crate::store::{Store, StoreFault};
use std::alloc::Global;

/// Puts a journal that keeps nothing in the place of what a store has, at once and synced.
///
/// # Errors
///
/// `Store` where the store failed, `NoMemory` where an allocation failed.
pub fn begin<S: Store>(alloc: Global, store: &mut S) -> Result<(), JournalFault>
    ensures begun { OnOk result (S.seen store.new ≡ bytes_of (compacted 0 [])) }
    ensures durable { OnOk result (Only (S.seen store.new) (S.may_leave store.new)) }
    ensures any_moment { LeavesOnly S.moment S.left_since store.old store.new (λ left.
        S.may_leave store.old left ⊎ (left ≡ bytes_of (compacted 0 []))) }
{
    let (bytes, _) = spell(alloc, 0, &[])?;
    store.put_in_place(&bytes)?;
    Ok(())
}

/// Syncs what a store has, or puts a front of it in its place.
fn settle<S: Store>(store: &mut S, bytes: &[u8], whole: usize) -> Result<(), StoreFault>
    requires { whole ≤ length bytes.now }
    ensures whole { bytes.now ≡ S.seen store.old → OnOk result (S.seen store.new ≡ take whole bytes.now) }
    ensures durable { OnOk result (Only (S.seen store.new) (S.may_leave store.new)) }
    ensures stop { (left : List ℕ) → S.may_leave store.new left
        → S.may_leave store.old left ⊎ (left ≡ take whole bytes.now) }
    ensures time { Elapses (S.moment store.old) (S.moment store.new) (S.left_since store.old) (S.left_since store.new)
        (S.may_leave store.new) }
{
    if whole == bytes.len() {
        return store.sync();
    }
    store.put_in_place(&bytes[..whole])
}

/// Reads a journal back from a store, and cuts off what stands torn at its end, which is given with what was found. At
/// `Ok` the store has all that was found, synced, and nothing else.
///
/// Who wants to keep what is torn before it is cut off reads the store and calls `read_back` first.
///
/// Cost: that of `read_back`, and a sync; where an end is torn, all is written once.
///
/// # Errors
///
/// `Read` with `Broken` where what the store has is no journal, or with `NoMemory`: nothing is changed then. `Store`
/// where the store failed.
pub fn open<S: Store>(alloc: Global, store: &mut S) -> Result<Contents, OpenFault>
    ensures found { IfOk result (λ found. Reads (S.seen store.old) (kept_of found) (torn_of found)) }
    ensures whole { IfOk result (λ found. S.seen store.new ≡ bytes_of (kept_of found)) }
    ensures durable { OnOk result (Only (S.seen store.new) (S.may_leave store.new)) }
    ensures broken { (fault : Fault) → IsErrOf result (OpenFault.Read fault) → IsBroken (S.seen store.old) fault }
    ensures unchanged { (fault : Fault) → IsErrOf result (OpenFault.Read fault)
        → S.seen store.new ≡ S.seen store.old }
    ensures any_moment { LeavesOnly S.moment S.left_since store.old store.new (λ left.
        S.may_leave store.old left ⊎ IsWholeOf (S.seen store.old) left) }
{
    let bytes = store.read(alloc)?;
    let found = read_back(alloc, &bytes)?;
    let whole = bytes.len() - found.torn().len();
    settle(store, &bytes, whole)?;
    Ok(found)
}
