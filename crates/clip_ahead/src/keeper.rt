//! A journal to which the changes go that bytes ask for.
ghost use Rattle.std.specs.Prelude.{◌≡◌, List, ℕ, ◌++◌, OnOk, IsErrOf};
ghost use Rattle.clip_stream.specs.Steps.Reading.{cut};

use crate::anew::{Anew, Shortener, lines_anew, write_anew};
use crate::census::Census;
use crate::changes::{append_change, sync_changes};
use crate::kept_source::RunName;
use clip_journal::{Journal, JournalFault, Store, StoreFault};
use clip_stream::{extend_cut, feed_of};
use std::alloc::Global;

/// A journal, and the piece of a line whose end was not read.
pub(crate) struct Keeper<S: Store> {
    alloc: Global,
    journal: Journal<S>,
    piece: Vec<u8>,
    census: Census,
    gives_up: bool,
}

/// Adds bytes to the piece of a line.
fn extend_piece(piece: &mut Vec<u8>, bytes: &[u8]) -> Result<(), JournalFault>
    ensures piece { (front : List ℕ) → piece.old.items ≡ cut front
        → OnOk result (piece.new.items ≡ cut (front ++ bytes.now)) }
    ensures cause { IsErrOf result (JournalFault.Store StoreFault.Failed) → ⊥ }
{
    match extend_cut(piece, bytes) {
        Ok(()) => Ok(()),
        Err(_) => Err(JournalFault::NoMemory),
    }
}

impl<S: Store> Keeper<S> {
    ghost use Rattle.std.specs.Prelude.{◌≡◌, ◌≤◌, ◌<◌, List, ℕ, [], ◌∷◌, ◌++◌, length, false};
    ghost use Rattle.std.specs.Prelude.{IfOk, OnOk, OnErr, IsErrOf, MatchResult, ◌==◌, Option, None, Some};
    ghost use Rattle.std.specs.Io.KnownBytes.{IsAtEnd};
    ghost use Rattle.clip_stream.specs.Lines.{ended_lines, lines_of};
    ghost use Rattle.clip_stream.specs.Steps.Reading.{has_feed};
    ghost use Rattle.clip_ahead.specs.Ahead.{Begun, Appended, LeavesFronts};
    ghost use Rattle.clip_ahead.specs.Changes.{changes_of};
    ghost use Rattle.clip_ahead.specs.Keeping.{Holds, TimeGoesOn};
    ghost use Rattle.clip_ahead.specs.Handing.{KeepsAhead};
    ghost use Rattle.clip_ahead.specs.Stages.{IsAheadAnew};

    /// A keeper that has taken no bytes. Takes no memory.
    pub(crate) fn new(alloc: Global, journal: Journal<S>) -> Keeper<S>
        ensures journal { result.journal ≡ journal }
        ensures holds { (begun : Begun) → Appended S.Store begun [] [] journal → Holds S.Store begun [] [] result }
    {
        let piece = Vec::new(alloc);
        Keeper {
            alloc,
            journal,
            piece,
            census: Census::new(alloc),
            gives_up: false,
        }
    }

    /// Ends the line that the piece began with these bytes, and says whether it asks for a change.
    fn end_line(&mut self, bytes: &[u8]) -> Result<bool, JournalFault>
        ensures holds { (begun : Begun) (synced before : List ℕ) → Holds S.Store begun synced before self.old
            → has_feed bytes.now ≡ false
            → OnOk result (Holds S.Store begun synced (before ++ (bytes.now ++ 10 ∷ [])) self.new) }
        ensures unchanged { (begun : Begun) (synced before : List ℕ) → Holds S.Store begun synced before self.old
            → has_feed bytes.now ≡ false
            → IfOk result (λ asks. asks ≡ false
            → changes_of (ended_lines (before ++ (bytes.now ++ 10 ∷ []))) ≡ changes_of (ended_lines before)) }
        ensures fronts { (begun : Begun) (synced before : List ℕ) → Holds S.Store begun synced before self.old
            → has_feed bytes.now ≡ false
            → OnErr result (LeavesFronts S.Store begun (ended_lines synced)
            (ended_lines (before ++ (bytes.now ++ 10 ∷ []))) self.new.journal.store) }
        ensures faults { S.faults self.old.journal.store ≤ S.faults self.new.journal.store }
        ensures cause { IsErrOf result (JournalFault.Store StoreFault.Failed)
            → S.faults self.old.journal.store < S.faults self.new.journal.store }
        ensures time { TimeGoesOn S.Store self.old.journal.store self.new.journal.store }
    {
        extend_piece(&mut self.piece, bytes)?;
        let asks = append_change(self.alloc, &mut self.journal, &mut self.census, &self.piece)?;
        self.piece.clear();
        Ok(asks)
    }

    /// Appends the changes of the lines that end in these bytes, and says whether there are some.
    fn append(&mut self, bytes: &[u8]) -> Result<bool, JournalFault>
        ensures holds { (begun : Begun) (before : List ℕ) → Holds S.Store begun before before self.old
            → OnOk result (Holds S.Store begun before (before ++ bytes.now) self.new) }
        ensures unchanged { (begun : Begun) (before : List ℕ) → Holds S.Store begun before before self.old
            → IfOk result (λ asks. asks ≡ false
            → changes_of (ended_lines (before ++ bytes.now)) ≡ changes_of (ended_lines before)) }
        ensures fronts { (begun : Begun) (before : List ℕ) → Holds S.Store begun before before self.old
            → OnErr result (LeavesFronts S.Store begun (ended_lines before) (ended_lines (before ++ bytes.now))
            self.new.journal.store) }
        ensures faults { S.faults self.old.journal.store ≤ S.faults self.new.journal.store }
        ensures cause { IsErrOf result (JournalFault.Store StoreFault.Failed)
            → S.faults self.old.journal.store < S.faults self.new.journal.store }
        ensures time { TimeGoesOn S.Store self.old.journal.store self.new.journal.store }
    {
        let mut rest = bytes;
        let mut asks = false;
        'lines: while let Some(at) = feed_of(rest) {
            let (line, more) = rest.split_at(at);
            let asked = self.end_line(line)?;
            asks = asks || asked;
            rest = &more[1..];
        }
        extend_piece(&mut self.piece, rest)?;
        Ok(asks)
    }

    /// Appends the changes of the lines that end in these bytes, and syncs them.
    pub(crate) fn keep(&mut self, bytes: &[u8]) -> Result<(), JournalFault>
        ensures holds { (begun : Begun) (before : List ℕ) → Holds S.Store begun before before self.old
            → OnOk result (Holds S.Store begun (before ++ bytes.now) (before ++ bytes.now) self.new) }
        ensures fronts { (begun : Begun) (before : List ℕ) → Holds S.Store begun before before self.old
            → OnErr result (LeavesFronts S.Store begun (ended_lines before) (ended_lines (before ++ bytes.now))
            self.new.journal.store) }
        ensures faults { S.faults self.old.journal.store ≤ S.faults self.new.journal.store }
        ensures cause { IsErrOf result (JournalFault.Store StoreFault.Failed)
            → S.faults self.old.journal.store < S.faults self.new.journal.store }
        ensures time { TimeGoesOn S.Store self.old.journal.store self.new.journal.store }
    {
        if self.append(bytes)? {
            sync_changes(&mut self.journal)?;
        }
        Ok(())
    }

    /// Appends the change of the last line, where it lacks its line feed, and syncs it.
    pub(crate) fn keep_last(&mut self) -> Result<(), JournalFault>
        ensures appended { (begun : Begun) (before : List ℕ) → Holds S.Store begun before before self.old
            → OnOk result (Appended S.Store begun (lines_of before) (lines_of before) self.new.journal) }
        ensures fronts { (begun : Begun) (before : List ℕ) → Holds S.Store begun before before self.old
            → OnErr result (LeavesFronts S.Store begun (ended_lines before) (lines_of before)
            self.new.journal.store) }
        ensures faults { S.faults self.old.journal.store ≤ S.faults self.new.journal.store }
        ensures cause { IsErrOf result (JournalFault.Store StoreFault.Failed)
            → S.faults self.old.journal.store < S.faults self.new.journal.store }
        ensures time { TimeGoesOn S.Store self.old.journal.store self.new.journal.store }
    {
        if self.piece.is_empty() {
            return Ok(());
        }
        if append_change(self.alloc, &mut self.journal, &mut self.census, &self.piece)? {
            sync_changes(&mut self.journal)?;
        }
        Ok(())
    }

    /// Keeps the bytes of a read, of which there are none just at the end.
    pub(crate) fn take(&mut self, bytes: &[u8]) -> Result<(), JournalFault>
        ensures keeps { (begun : Begun) (left : Option (List ℕ)) (handed : List ℕ)
            → Holds S.Store begun handed handed self.old → (bytes.now ≡ [] → IsAtEnd left)
            → MatchResult result
            (λ _. KeepsAhead S.Store begun left (handed ++ bytes.now) [] self.new (length bytes.now == 0) None)
            (λ fault. KeepsAhead S.Store begun left handed bytes.now self.new false (Some fault)) }
        ensures faults { S.faults self.old.journal.store ≤ S.faults self.new.journal.store }
        ensures cause { IsErrOf result (JournalFault.Store StoreFault.Failed)
            → S.faults self.old.journal.store < S.faults self.new.journal.store }
        ensures time { TimeGoesOn S.Store self.old.journal.store self.new.journal.store }
    {
        if bytes.is_empty() {
            return self.keep_last();
        }
        self.keep(bytes)
    }

    /// Whether the journal is long beside what is live, as far as that is known.
    fn is_long(&self) -> bool {
        match self.census.count() {
            Some(more) => !self.gives_up && self.journal.is_long_with(more),
            None => false,
        }
    }

    /// Writes the journal anew where it is long, with lines that may stand for all that it keeps. The shortener is told
    /// when that is begun, and when it can't be done: the journal goes on as it was then, and this is not tried again.
    /// An error where the store failed.
    pub(crate) fn shorten<N: RunName, L: Shortener>(
        &mut self,
        shortener: &L,
    ) -> Result<(), JournalFault>
        requires named { (old new : List (List ℕ)) → L.stand_for shortener.now old new → N.stand_for old new }
        ensures anew { (begun : Begun) (left : Option (List ℕ)) (held : List ℕ)
            → IsAheadAnew N.stand_for S.Store begun left held self.old false None → MatchResult result
            (λ _. IsAheadAnew N.stand_for S.Store begun left held self.new false None)
            (λ fault. IsAheadAnew N.stand_for S.Store begun left held self.new false (Some fault)) }
    {
        if !self.is_long() {
            return Ok(());
        }
        shortener.tell_begun();
        let Some(lines) = lines_anew(self.alloc, &self.journal, shortener) else {
            self.gives_up = true;
            shortener.tell_undone();
            return Ok(());
        };
        match write_anew(self.alloc, &mut self.journal, &lines) {
            Ok(Anew::Done) => {
                self.census.clear();
                Ok(())
            }
            Ok(Anew::Undone) => {
                self.gives_up = true;
                shortener.tell_undone();
                Ok(())
            }
            Err(fault) => Err(fault),
        }
    }

    /// The journal, where the keeper is not needed any more. Constant time.
    pub(crate) fn into_journal(self) -> Journal<S>
        ensures { result ≡ self.journal }
    {
        let Keeper {
            alloc: _,
            journal,
            piece: _,
            census: _,
            gives_up: _,
        } = self;
        journal
    }
}
