//! The registrar: it applies commands one by one.
ghost use Rattle.std.specs.Prelude.{◌≡◌, ◌-◌, ◌<◌, ◌≤◌, ℕ, true, false, Ok, Err, None, length, IfOk, IfErr, IfSome};
ghost use Rattle.std.specs.Prelude.{OnOk, OnErr, IsTrue, IsFalse, slice_get, option_map, option_copied};
ghost use Rattle.clip_merge.specs.Plan.{AreFew, IsRun};
ghost use Rattle.clip_merge.specs.Price.{HavePaid};
ghost use Rattle.clip_model.specs.History.{fits, has_room, applied, own, IsLegal};
ghost use Rattle.clip_standing.specs.Command.{command_of, answer_of, shared_entry};
ghost use Rattle.clip_registry.specs.Merging.{IsBegun, IsInstalled, IsStale, IsTurnBegun, purged};
ghost use Rattle.clip_registry.specs.RegistryState.{IsWhole, beginning, kept_history, state_after};
ghost use Rattle.clip_registry.specs.Steps.Change.{IsAccepted};
ghost use Rattle.clip_standing.specs.declared.command.Refused.TheVariants as refused;

use crate::held::{copy_of, has_ended, history_of, last_of, number_of, own_copy};
use crate::history::History;
use crate::merging::{Installed, MergeJob, Merged};
use crate::purging::live_segments;
use crate::state::State;
use crate::view::View;
use clip_indexed::{Index, Segment};
use clip_merge::{Payment, plan, plan_turn};
use clip_model::{MOST_CALLERS, MOST_ENTRIES};
use clip_standing::{Applied, Command, HistoryEntry, Refused};
use clip_words::NoMemory;
use std::alloc::Global;
use std::marker::Model;
use std::sync::Arc;

/// The registry that commands change, seen as its list of segments and its history; each segment keeps an index over
/// its entries. Until the first command it has no state. Views and copies share its state, and a command puts another
/// in its place.
#[derive(Drop)]
pub struct Registrar<I: Index> {
    alloc: Global,
    keeps: bool,
    state: Option<Arc<State<I>>>,
}

impl<I: Index> Model for Registrar<I> {
    ghost use Rattle.clip_registry.specs.RegistryState.{RegistryState, state_code};
    ghost use Rattle.clip_registry.specs.Steps.State.{state_or_beginning};

    ghost Value = { RegistryState };

    ghost coded = { state_code };

    ghost view = { λ r. state_or_beginning r.keeps r.state };
}

impl<I: Index> Registrar<I> {
    /// A registrar with no segment and an empty history, which it keeps: `history` gives each command that it will have
    /// accepted, and its memory grows with them. It takes no memory. Constant time.
    pub fn new(alloc: Global) -> Registrar<I>
        ensures { result ≡ beginning true }
    {
        Registrar {
            alloc,
            keeps: true,
            state: None,
        }
    }

    /// A registrar with no segment and an empty history, which it does not keep: its memory follows what is registered,
    /// and all calls but `history` answer as those of one that keeps it. It takes no memory. Constant time.
    pub fn without_history(alloc: Global) -> Registrar<I>
        ensures { result ≡ beginning false }
    {
        Registrar {
            alloc,
            keeps: false,
            state: None,
        }
    }

    /// The registrar after a caller's next command, beside this one, which stays as it is, and the answer to the
    /// command: `Full` where `MOST_ENTRIES` commands were accepted, judged before any memory is taken, or where more
    /// than `MOST_LIVE` queries would then be registered, and `NoMemory` where an allocation failed.
    ///
    /// Cost: that of `apply`.
    pub fn after(&self, caller: u32, command: &Command) -> Result<(Registrar<I>, Applied), Refused>
        requires fits { IsTrue (fits (command_of command.now)) }
        requires caller_from { 0 < caller }
        requires caller_to { caller ≤ MOST_CALLERS }
        ensures accepted { IfOk result (λ next.
            IsAccepted caller (command_of command.now) self.now next.0 next.1) }
        ensures full { IfErr result (λ why. why ≡ refused.Full
            → IsFalse (has_room self.now.history (command_of command.now))) }
        ensures ended { MOST_ENTRIES ≤ length self.now.history → result ≡ Err refused.Full }
    {
        if has_ended(&self.state) {
            return Err(Refused::Full);
        }
        let copy = own_copy(self.alloc, self.keeps, &self.state)?;
        let (next, applied) = copy.after(self.alloc, caller, command)?;
        let next = Registrar {
            alloc: self.alloc,
            keeps: self.keeps,
            state: Some(Arc::new(self.alloc, next)?),
        };
        Ok((next, applied))
    }

    /// Accepts a caller's next command, or refuses it and hands it back with nothing changed: `Full` where
    /// `MOST_ENTRIES` commands were accepted, judged before any memory is taken, or where more than `MOST_LIVE` queries
    /// would then be registered, and `NoMemory` where an allocation failed.
    ///
    /// A register costs what `Segment::build` does over the listed queries, so that of `Index::of`, and for each a
    /// search among the registered ids, and where it lists an id twice also that of `Segment::select` over what it
    /// lists; a delete costs such a search for each listed id; a clear costs the dropping of what no view holds.
    ///
    /// A command is done to a copy of the registry, which shares all that the command leaves as it is. The copy costs
    /// a step for each segment, one for each 16,384 history entries that are kept, and one for each piece of the map by
    /// id, which holds up to 512 entries; then, for the entry of the history at most two pieces of 128 are copied, and
    /// for each id that is listed one piece of the map, of each piece just once. For each query that is replaced or
    /// deleted at most two pieces of 128 of the live flags of its segment are copied; the segment is found by a step
    /// for each segment, and a binary search in those that have a seq that is not below it. No text of a query and
    /// no id of one is copied; the ids of a delete are, into its history entry.
    pub fn apply(&mut self, caller: u32, command: Command) -> Result<Applied, (Command, Refused)>
        requires fits { IsTrue (fits (command_of command)) }
        requires caller_from { 0 < caller }
        requires caller_to { caller ≤ MOST_CALLERS }
        ensures accepted { OnOk result (self.new ≡ state_after self.old caller (command_of command)) }
        ensures answer { IfOk result (λ answer. answer
            ≡ answer_of (command_of command) (applied self.old.history (command_of command))) }
        ensures room { OnOk result (IsTrue (has_room self.old.history (command_of command))) }

        ensures full { IfErr result (λ back. back.1 ≡ refused.Full
            → IsFalse (has_room self.old.history (command_of command))) }
        ensures ended { MOST_ENTRIES ≤ length self.old.history → result ≡ Err (command, refused.Full) }
        ensures handed_back { IfErr result (λ back. back.0 ≡ command) }
        ensures unchanged { OnErr result (self.new ≡ self.old) }
    {
        match self.after(caller, &command) {
            Ok((next, applied)) => {
                *self = next;
                Ok(applied)
            }
            Err(refused) => Err((command, refused)),
        }
    }

    /// Begins a merge: a job over the oldest four neighbouring segments of one level, which it shares, and which of
    /// their entries are live; `None` where there are no such four. `NoMemory` where an allocation failed.
    ///
    /// Cost: that of `clip_merge::plan`, so a step for each segment and each of its levels. No entry is looked at.
    pub fn begin(&self) -> Result<Option<MergeJob<I>>, NoMemory>
        ensures begun { IfOk result (λ job. IfSome job (IsBegun self.now)) }
        ensures nothing { result ≡ Ok None → (first : ℕ) → IsRun self.now.segments first → ⊥ }
    {
        let Some(state) = &self.state else {
            return Ok(None);
        };
        match plan(&state.segments) {
            Some((first, past)) => Ok(Some(MergeJob::of(self.alloc, state, first, past)?)),
            None => Ok(None),
        }
    }

    /// Begins the merge of a turn: a job over all segments where they are to become one, and else that of `begin`, or,
    /// where there are no such four, a job over all segments from the oldest on behind which one has a higher level.
    /// `None` where there are no two such segments; then segments are few: three at most for each level up to that of
    /// all their entries together, and at most one where they are to become one. `NoMemory` where an allocation failed.
    ///
    /// Cost: that of `clip_merge::plan_turn`, so a step for each segment and each of its levels. No entry is looked at.
    pub fn begin_turn(&self, to_one: bool) -> Result<Option<MergeJob<I>>, NoMemory>
        ensures begun { IfOk result (λ job. IfSome job (IsTurnBegun to_one self.now)) }
        ensures nothing { result ≡ Ok None → (first : ℕ) → IsRun self.now.segments first → ⊥ }
        ensures few { result ≡ Ok None → AreFew self.now.segments }
        ensures one { result ≡ Ok None → to_one ≡ true → length self.now.segments ≤ 1 }
        ensures whole { IsWhole self.now }
    {
        let Some(state) = &self.state else {
            return Ok(None);
        };
        match plan_turn(&state.segments, to_one) {
            Some((first, past)) => Ok(Some(MergeJob::of(self.alloc, state, first, past)?)),
            None => Ok(None),
        }
    }

    /// Takes what so many matched articles pay towards one segment in the place of all, and says whether it is due, as
    /// `Payment::is_due` does. Takes no memory. Cost: a step for each segment.
    pub fn is_merge_due(&self, payment: &mut Payment, matched: usize) -> bool
        ensures { HavePaid payment.old payment.new self.now.segments matched result }
    {
        match &self.state {
            Some(state) => payment.is_due(&state.segments, matched),
            None => {
                let none: Vec<Arc<Segment<I>>> = Vec::new(self.alloc);
                payment.is_due(&none, matched)
            }
        }
    }

    /// Installs a merge, on whichever registrar it was begun: its segment takes the place of the sources, or they just
    /// go where it has no entries. `Stale` exactly where the sources don't stand, as no neighbouring segments have the
    /// same lists of entries, or where an entry of theirs that is live now is missing from the merge, which can't be
    /// where it was begun on this registrar. The history is kept, and so is what is registered.
    ///
    /// `NoMemory` where an allocation failed, with nothing changed and the merge dropped.
    ///
    /// Cost: a step for each segment, each of which is shared by a new list; for each entry of the sources a comparison
    /// of its seq and texts; a step for each 64 of them; for each that died since the merge was begun a binary
    /// search; and a copy like that of a command, of which nothing else is changed. A stale merge copies nothing.
    pub fn install(&mut self, merged: Merged<I>) -> Result<Installed, NoMemory>
        ensures done { result ≡ Ok Installed.Done → IsInstalled self.old self.new merged }
        ensures stale { result ≡ Ok Installed.Stale → IsStale self.old merged }
        ensures unchanged { (result ≡ Ok Installed.Done → ⊥) → self.new ≡ self.old }
    {
        let Some(shared) = &self.state else {
            return Ok(Installed::Stale);
        };
        let Some(first) = merged.place_in(shared) else {
            return Ok(Installed::Stale);
        };
        let (segments, live) = merged.put_in(self.alloc, shared, first)?;
        self.state = Some(shared.with_segments(self.alloc, segments, live)?);
        Ok(Installed::Done)
    }

    /// Leaves each segment with just its live entries, and takes the empty ones away. The history is kept, and so is
    /// what is registered. `NoMemory` where an allocation failed, with nothing changed.
    ///
    /// Cost: a step for each entry, and that of `Segment::select` for each segment with an entry that is dead; the
    /// others are shared by a new list, with their live flags. And a copy like that of a command, of which nothing else
    /// is changed.
    pub fn purge(&mut self) -> Result<(), NoMemory>
        ensures purged { OnOk result (self.new ≡ purged self.old) }
        ensures unchanged { OnErr result (self.new ≡ self.old) }
    {
        let Some(shared) = &self.state else {
            return Ok(());
        };
        let (segments, live) = live_segments(self.alloc, shared)?;
        self.state = Some(shared.with_segments(self.alloc, segments, live)?);
        Ok(())
    }

    /// The registry as it stands, or `NoMemory` where the count of its holders is at its end. Constant time.
    pub fn view(&self) -> Result<View<I>, NoMemory>
        ensures { IfOk result (λ view. view ≡ self.now) }
    {
        Ok(View {
            keeps: self.keeps,
            state: copy_of(&self.state)?,
        })
    }

    /// A registrar with the same registry, which later commands to either don't change in the other. `NoMemory` where
    /// the count of the registry's holders is at its end. Constant time.
    pub fn copy(&self) -> Result<Registrar<I>, NoMemory>
        ensures { IfOk result (λ copy. copy ≡ self.now) }
    {
        Ok(Registrar {
            alloc: self.alloc,
            keeps: self.keeps,
            state: copy_of(&self.state)?,
        })
    }

    /// The commands that were accepted, in order, where the registrar keeps them, and else none. Constant time.
    pub fn history(&self) -> History<'_>
        ensures history { result ≡ kept_history self.now.keeps self.now.history }
        ensures whole { IsWhole self.now }
        ensures legal { IsLegal self.now.history }
    {
        history_of(&self.state)
    }

    /// The entry of the last command, whether the history is kept or not, or `None` where there is none. Constant time.
    pub fn last_entry(&self) -> Option<&Arc<HistoryEntry>>
        ensures last { option_map shared_entry (option_copied result)
            ≡ slice_get self.now.history (length self.now.history - 1) }
        ensures legal { IsLegal self.now.history }
    {
        last_of(&self.state)
    }

    /// How many commands of the caller were accepted, so the number of its last one: 0 where it gave none, and for what
    /// is no caller. Constant time.
    pub fn number_of(&self, caller: u32) -> u32
        ensures count { result ≡ length (own self.now.history caller) }
        ensures legal { IsLegal self.now.history }
    {
        number_of(&self.state, caller)
    }
}
