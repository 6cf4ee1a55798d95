//! A journal that takes commands.
ghost use Rattle.std.specs.Prelude.{◌≡◌, ◌≢◌, ◌⊎◌, ◌<◌, ◌≤◌, ◌+◌, ◌-◌, ◌^◌, ℕ, length, true, false};
ghost use Rattle.std.specs.Prelude.{IfOk, IfErr, OnOk, IsErrOf};
ghost use Rattle.clip_journal.specs.Entries.{link_behind, first_link};
ghost use Rattle.clip_journal.specs.Kept.{Kept, bytes_of, said_by, says, compacted};

use crate::contents::Contents;
use crate::entry::{Link, put_entry};
use crate::fault::ReadFault;
use crate::journal_fault::{JournalFault, OpenFault};
use crate::length::are_long;
use crate::reading::{CHANGES_END, FIRST_LINK, read_back};
use crate::store::{Store, StoreFault};
use std::alloc::{AllocError, Global};

/// The most commands that a journal counts, and the most entries that it has.
const MOST_CHANGES: u64 = CHANGES_END - 1;

/// A journal over a store. What it keeps is said by contracts as a `Kept`: how many commands were accepted before the
/// store's bytes were written, the queries that were live then, and the commands since.
///
/// Where a call of the store fails, the journal takes nothing more: what a stop leaves is still a front of what was
/// appended, with all that was synced.
#[derive(Drop)]
pub struct Journal<S: Store> {
    store: S,
    accepted: u64,
    live: u64,
    place: u64,
    link: Link,
    is_open: bool,
}

/// The bytes of a journal that keeps just these queries, and its last link.
pub(crate) fn spell(
    alloc: Global,
    changes: u64,
    live: &[Vec<u8>],
) -> Result<(Vec<u8>, Link), AllocError>
    ensures bytes { IfOk result (λ spelled. spelled.0.items ≡ bytes_of (compacted changes (says live.now))) }
    ensures link { IfOk result (λ spelled. spelled.1
        ≡ link_behind first_link 0 (said_by (compacted changes (says live.now)))) }
{
    let mut opening = Vec::new(alloc);
    opening.extend_from_slice(&changes.to_be_bytes())?;
    opening.extend_from_slice(&(live.len() as u64).to_be_bytes())?;
    let mut bytes = Vec::new(alloc);
    let mut link = put_entry(&mut bytes, &FIRST_LINK, 0, &opening)?;
    let mut place: u64 = 0;
    for query in live {
        place += 1;
        let next = put_entry(&mut bytes, &link, place, query)?;
        link = next;
    }
    Ok((bytes, link))
}

/// Whether one of two numbers is as great as no journal counts.
fn are_many(a: u64, b: u64) -> bool
    ensures many { result ≡ true → (2 ^ 63 - 1 ≤ a) ⊎ (2 ^ 63 - 1 ≤ b) }
    ensures few { result ≡ false → (a < 2 ^ 63 - 1) × (b < 2 ^ 63 - 1) }
{
    a >= MOST_CHANGES || b >= MOST_CHANGES
}

/// Whether two digests are the same.
fn are_same(a: &Link, b: &Link) -> bool
    ensures { result ≡ true → a.now ≡ b.now }
{
    a.as_slice() == b.as_slice()
}

impl<S: Store> Journal<S> {
    ghost use Rattle.clip_journal.specs.Kept.{with_command, AreReadAgain};
    ghost use Rattle.clip_journal.specs.Length.{are_long};
    ghost use Rattle.clip_journal.specs.Contents.{kept_of};
    ghost use Rattle.clip_journal.specs.Stop.{Only, Elapses, LeavesOnly};
    ghost use Rattle.clip_journal.specs.Stands.{IsFront, Stands};

    /// The journal of a store that `open` gave back, with what it found there. Constant time.
    pub fn over(store: S, found: &Contents) -> Journal<S>
        ensures { S.seen store ≡ bytes_of (kept_of found.now) → Only (S.seen store) (S.may_leave store)
            → Stands S.seen S.may_leave result (kept_of found.now) (length (kept_of found.now).since) }
    {
        let link = found.link;
        Journal {
            store,
            accepted: found.changes + found.since().len() as u64,
            live: found.live as u64,
            place: found.said.len() as u64,
            link,
            is_open: true,
        }
    }

    /// Appends the spelling of a command. A stop may lose it, or tear it, until `sync` answers `Ok`.
    ///
    /// Cost: a digest of the spelling, and one call of the store.
    ///
    /// # Errors
    ///
    /// `Ended` where the store failed before, `Full` where 2^63 - 1 commands were accepted, `NoMemory` where an
    /// allocation failed: nothing is done then. `Store` where the store failed.
    pub fn append(&mut self, alloc: Global, said: &[u8]) -> Result<(), JournalFault>
        ensures appended { (kept : Kept) (safe : ℕ) → Stands S.seen S.may_leave self.old kept safe
            → OnOk result (Stands S.seen S.may_leave self.new (with_command kept said.now) safe) }
        ensures any_moment { (kept : Kept) (safe : ℕ) → Stands S.seen S.may_leave self.old kept safe
            → LeavesOnly S.moment S.left_since self.old.store self.new.store
            (IsFront (with_command kept said.now) safe) }
        ensures time { Elapses (S.moment self.old.store) (S.moment self.new.store) (S.left_since self.old.store)
            (S.left_since self.new.store) (S.may_leave self.new.store) }
        ensures faults { S.faults self.old.store ≤ S.faults self.new.store }
        ensures cause { IsErrOf result (JournalFault.Store StoreFault.Failed)
            → S.faults self.old.store < S.faults self.new.store }
        ensures ended { self.old.is_open ≡ false → IsErrOf result JournalFault.Ended }
        ensures open { IsErrOf result JournalFault.Ended → self.old.is_open ≡ false }
        ensures full { IsErrOf result JournalFault.Full
            → (2 ^ 63 - 1 ≤ self.old.accepted) ⊎ (2 ^ 63 - 1 ≤ self.old.place) }
        ensures unchanged { IsErrOf result JournalFault.Ended ⊎ IsErrOf result JournalFault.Full
            ⊎ IsErrOf result JournalFault.NoMemory → self.new ≡ self.old }
    {
        if !self.is_open {
            return Err(JournalFault::Ended);
        }
        if are_many(self.accepted, self.place) {
            return Err(JournalFault::Full);
        }
        let mut bytes = Vec::new(alloc);
        let next = put_entry(&mut bytes, &self.link, self.place, said)?;
        self.is_open = false;
        self.store.append(&bytes)?;
        self.is_open = true;
        self.link = next;
        self.place += 1;
        self.accepted += 1;
        Ok(())
    }

    /// Syncs the store: from then on no stop loses a command that was appended before.
    ///
    /// # Errors
    ///
    /// `Ended` where the store failed before: nothing is done then. `Store` where the store failed.
    pub fn sync(&mut self) -> Result<(), JournalFault>
        ensures synced { (kept : Kept) (safe : ℕ) → Stands S.seen S.may_leave self.old kept safe
            → OnOk result (Stands S.seen S.may_leave self.new kept (length kept.since)) }
        ensures any_moment { (kept : Kept) (safe : ℕ) → Stands S.seen S.may_leave self.old kept safe
            → LeavesOnly S.moment S.left_since self.old.store self.new.store (IsFront kept safe) }
        ensures time { Elapses (S.moment self.old.store) (S.moment self.new.store) (S.left_since self.old.store)
            (S.left_since self.new.store) (S.may_leave self.new.store) }
        ensures faults { S.faults self.old.store ≤ S.faults self.new.store }
        ensures cause { IsErrOf result (JournalFault.Store StoreFault.Failed)
            → S.faults self.old.store < S.faults self.new.store }
        ensures ended { self.old.is_open ≡ false → IsErrOf result JournalFault.Ended }
        ensures open { IsErrOf result JournalFault.Ended → self.old.is_open ≡ false }
        ensures unchanged { IsErrOf result JournalFault.Ended → self.new ≡ self.old }
    {
        if !self.is_open {
            return Err(JournalFault::Ended);
        }
        self.is_open = false;
        self.store.sync()?;
        self.is_open = true;
        Ok(())
    }

    /// Writes the spellings of the queries that are live now in the place of all that led to them, at once and synced.
    /// How many commands were accepted stays.
    ///
    /// Cost: a digest of the spellings, which are held as one, and one call of the store.
    ///
    /// # Errors
    ///
    /// `Ended` where the store failed before, `Full` where 2^63 - 1 commands were accepted, `NoMemory` where an
    /// allocation failed: nothing is done then. `Store` where the store failed; unless it says `Failed`, the journal
    /// goes on as it was.
    pub fn compact(&mut self, alloc: Global, live: &[Vec<u8>]) -> Result<(), JournalFault>
        ensures compacted { OnOk result (Stands S.seen S.may_leave self.new
            (compacted self.old.accepted (says live.now)) 0) }
        ensures goes_on { (kept : Kept) (safe : ℕ) → Stands S.seen S.may_leave self.old kept safe
            → IfErr result (λ why. why ≢ JournalFault.Store StoreFault.Failed
            → Stands S.seen S.may_leave self.new kept safe) }
        ensures any_moment { (kept : Kept) (safe : ℕ) → Stands S.seen S.may_leave self.old kept safe
            → LeavesOnly S.moment S.left_since self.old.store self.new.store (λ left.
            IsFront kept safe left ⊎ IsFront (compacted self.old.accepted (says live.now)) 0 left) }
        ensures time { Elapses (S.moment self.old.store) (S.moment self.new.store) (S.left_since self.old.store)
            (S.left_since self.new.store) (S.may_leave self.new.store) }
        ensures faults { S.faults self.old.store ≤ S.faults self.new.store }
        ensures cause { IsErrOf result (JournalFault.Store StoreFault.Failed)
            → S.faults self.old.store < S.faults self.new.store }
        ensures ended { self.old.is_open ≡ false → IsErrOf result JournalFault.Ended }
        ensures open { IsErrOf result JournalFault.Ended → self.old.is_open ≡ false }
        ensures full { IsErrOf result JournalFault.Full
            → (2 ^ 63 - 1 ≤ self.old.accepted) ⊎ (2 ^ 63 - 1 ≤ length live.now) }
        ensures unchanged { IsErrOf result JournalFault.Ended ⊎ IsErrOf result JournalFault.Full
            ⊎ IsErrOf result JournalFault.NoMemory → self.new ≡ self.old }
    {
        if !self.is_open {
            return Err(JournalFault::Ended);
        }
        if are_many(self.accepted, live.len() as u64) {
            return Err(JournalFault::Full);
        }
        let (bytes, last) = spell(alloc, self.accepted, live)?;
        self.is_open = false;
        if let Err(fault) = self.store.put_in_place(&bytes) {
            self.is_open = fault != StoreFault::Failed;
            return Err(JournalFault::Store(fault));
        }
        self.is_open = true;
        self.link = last;
        self.live = live.len() as u64;
        self.place = live.len() as u64 + 1;
        Ok(())
    }

    /// Whether it is long where so many queries more are live now than as it was written anew: it has over 1,000
    /// commands since, and more than twice as many as there are queries. Constant time.
    pub fn is_long_with(&self, more: u64) -> bool
        ensures { (kept : Kept) (safe : ℕ) → Stands S.seen S.may_leave self.now kept safe
            → result ≡ are_long (length kept.live + more) (length kept.since) }
    {
        are_long(
            self.live.saturating_add(more),
            self.place.saturating_sub(1).saturating_sub(self.live),
        )
    }

    /// The spellings of all that it keeps, in order, read back from the store once more, and borne out by the digest of
    /// the last entry. Nothing is changed.
    ///
    /// Cost: that of `read_back`.
    ///
    /// # Errors
    ///
    /// `Store` where the store can't be read now; `Read` with `Broken` where what it gives is another journal or none,
    /// or with `NoMemory`.
    pub fn lines_again(&self, alloc: Global) -> Result<Vec<Vec<u8>>, OpenFault>
        ensures { IfOk result (λ lines. (kept : Kept) (safe : ℕ) → Stands S.seen S.may_leave self.now kept safe
            → AreReadAgain kept (says lines.items)) }
    {
        let bytes = self.store.read_again(alloc)?;
        let found = read_back(alloc, &bytes)?;
        if !are_same(&found.link, &self.link) || !found.torn().is_empty() {
            return Err(OpenFault::Read(ReadFault::Broken(bytes.len())));
        }
        Ok(found.into_lines())
    }

    /// The store, where the journal is not needed any more. Constant time.
    pub fn into_store(self) -> S
        ensures { result ≡ self.store }
    {
        let Journal { store, .. } = self;
        store
    }
}
