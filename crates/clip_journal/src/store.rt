//! What a journal is kept in: what a read gives, and what a stop of the machine may leave.
ghost use Rattle.std.specs.Prelude.{◌≡◌, ◌⊎◌, ◌≤◌, ◌++◌, ℕ, List, IfOk, OnOk, IsErrOf};
ghost use Rattle.clip_journal.specs.Stop.{IsLeft, Only, Elapses, HasCause, IsAsItWas};

use std::alloc::Global;
use thiserror::Error;

/// Why a store did not do what it was asked.
#[derive(Clone, Copy, Debug, PartialEq, Eq, Error)]
pub enum StoreFault {
    /// A read or a write failed.
    #[error("the store failed")]
    Failed,
    /// An allocation failed.
    #[error("no memory")]
    NoMemory,
    /// What was to be put in place could not be written beside what is there, and that is as it was.
    #[error("the store could not be written anew")]
    Unwritten,
}

/// A store of bytes, as a file is. Each call may fail, and the machine may stop between two calls or within one.
///
/// A stop leaves all that was synced, and a front of what was appended since, the last write torn. Who cannot keep to
/// that after a call has failed, as a file whose sync failed, lets each later call fail.
pub trait Store {
    /// What a read gives.
    ghost seen: { Self → List ℕ };

    /// What a stop at this moment may leave.
    ghost may_leave: { Self → List ℕ → Type 0 };

    /// The moment, as a number that never falls.
    ghost moment: { Self → ℕ };

    /// What a stop at some moment from that one on might have left, within a call or between two.
    ghost left_since: { Self → ℕ → List ℕ → Type 0 };

    /// How often a call has failed.
    ghost faults: { Self → ℕ };

    /// All of the bytes.
    fn read(&mut self, alloc: Global) -> Result<Vec<u8>, StoreFault>
        ensures bytes { IfOk result (λ bytes. bytes.items ≡ seen self.old) }
        ensures seen { seen self.new ≡ seen self.old }
        ensures stop { (left : List ℕ) → may_leave self.new left → may_leave self.old left }
        ensures time { Elapses (moment self.old) (moment self.new) (left_since self.old) (left_since self.new)
            (may_leave self.new) }
        ensures cause { HasCause (faults self.old) (faults self.new) result };

    /// All of the bytes, by a read of their own, which changes nothing and ends nothing where it fails. No clause says
    /// that they are what was written: whoever needs that tests it.
    fn read_again(&self, alloc: Global) -> Result<Vec<u8>, StoreFault>;

    /// Adds bytes behind those that are there.
    fn append(&mut self, bytes: &[u8]) -> Result<(), StoreFault>
        ensures added { OnOk result (seen self.new ≡ seen self.old ++ bytes.now) }
        ensures stop { (left : List ℕ) → may_leave self.new left
            → may_leave self.old left ⊎ IsLeft (seen self.old) bytes.now left }
        ensures time { Elapses (moment self.old) (moment self.new) (left_since self.old) (left_since self.new)
            (may_leave self.new) }
        ensures cause { HasCause (faults self.old) (faults self.new) result };

    /// From then on a stop leaves all that is there.
    fn sync(&mut self) -> Result<(), StoreFault>
        ensures durable { OnOk result (Only (seen self.old) (may_leave self.new)) }
        ensures seen { seen self.new ≡ seen self.old }
        ensures stop { (left : List ℕ) → may_leave self.new left → may_leave self.old left }
        ensures time { Elapses (moment self.old) (moment self.new) (left_since self.old) (left_since self.new)
            (may_leave self.new) }
        ensures cause { HasCause (faults self.old) (faults self.new) result };

    /// Puts other bytes in the place of those that are there, at once and synced, as by a rename. A stop leaves what it
    /// might have left before, or the new bytes. After `Unwritten` and `NoMemory` all is as it was.
    fn put_in_place(&mut self, bytes: &[u8]) -> Result<(), StoreFault>
        ensures put { OnOk result (seen self.new ≡ bytes.now) }
        ensures durable { OnOk result (Only bytes.now (may_leave self.new)) }
        ensures stop { (left : List ℕ) → may_leave self.new left → may_leave self.old left ⊎ (left ≡ bytes.now) }
        ensures as_it_was { IsErrOf result StoreFault.Unwritten ⊎ IsErrOf result StoreFault.NoMemory
            → IsAsItWas (seen self.old) (seen self.new) (may_leave self.old) (may_leave self.new) }
        ensures time { Elapses (moment self.old) (moment self.new) (left_since self.old) (left_since self.new)
            (may_leave self.new) }
        ensures cause { HasCause (faults self.old) (faults self.new) result };

    /// This moment is one of those since an earlier one.
    ghost counts_now: { (store : Self) (t : ℕ) (left : List ℕ) → t ≤ moment store → may_leave store left
        → left_since store t left };

    /// Since this moment there is no other.
    ghost only_now: { (store : Self) (left : List ℕ) → left_since store (moment store) left → may_leave store left };
}
