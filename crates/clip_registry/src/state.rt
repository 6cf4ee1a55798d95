//! What a registrar and its views share: the segments, the history and the roster.
//!
//!     segments  [ s0: seqs 1 2 3 | s1: seqs 4 5 ]   one `Arc` each, never changed
//!     live      [     1 0 1      |     1 1      ]   a bit for each entry, in shared pieces
//!     roster    a: 1, b: 3, c: 4, d: 5              entries by id
//!     log       how many commands there were, the last of them, and all where they are kept
//!     counts    how many of them each caller gave
//!
//! Here b was registered as 2 and once more as 3: the entry of seq 2 stays in `s0` until a merge, and its bit is 0.
ghost use Rattle.std.specs.Prelude.{◌≡◌, ◌<◌, ◌≤◌, length, map, IfOk, IfErr, IsTrue, IsFalse};
ghost use Rattle.std.specs.Arc.{arc_value};
ghost use Rattle.clip_model.specs.History.{IsLegal, fits, has_room, is_live, next_entry, own, replay};
ghost use Rattle.clip_standing.specs.Command.{command_of, entry_of};
ghost use Rattle.clip_registry.specs.Steps.Change.{IsAccepted};
ghost use Rattle.clip_registry.specs.Steps.LiveFlags.{flags_in};
ghost use Rattle.clip_registry.specs.Steps.Merging.{AreKept};
ghost use Rattle.clip_registry.specs.RegistryState.{beginning};
ghost use Rattle.clip_standing.specs.declared.command.Refused.TheVariants as refused;

use crate::change::change;
use crate::live_flags::has_live;
use crate::log::Log;
use crate::roster::Roster;
use clip_indexed::{Index, Segment};
use clip_model::{MOST_CALLERS, MOST_ENTRIES};
use clip_pieces::{Shared, SharedFlags};
use clip_standing::{Applied, Command, HistoryEntry, Refused};
use clip_words::NoMemory;
use std::alloc::{AllocError, Global};
use std::marker::Model;
use std::sync::Arc;

/// The segments with the live flags of their entries, the history, the registered queries and how many commands each
/// caller gave. A clone shares all but the lists of segments and of their flags and the counts of commands.
pub struct State<I: Index> {
    pub(crate) segments: Vec<Arc<Segment<I>>>,
    pub(crate) log: Log,
    pub(crate) roster: Roster,
    counts: Vec<u64>,
    pub(crate) live: Vec<Shared<SharedFlags>>,
}

impl<I: Index> Drop for State<I> {
    fn drop(self) {
        let State {
            segments: _,
            log: _,
            roster: _,
            counts: _,
            live: _,
        } = self;
    }
}

impl<I: Index> Model for State<I> {
    ghost use Rattle.clip_registry.specs.RegistryState.{RegistryState, state_code};

    ghost Value = { RegistryState };

    ghost coded = { state_code };

    ghost use Rattle.clip_registry.specs.Steps.State.{state_of, IsConsistentInside};

    ghost view = { state_of };

    ghost invariant = { IsConsistentInside };
}

impl<I: Index> Clone for State<I> {
    ghost is_clone = { λ state copy. copy ≡ state };

    fn clone(&self) -> Result<State<I>, AllocError> {
        Ok(State {
            segments: self.segments.clone()?,
            log: self.log.clone()?,
            roster: self.roster.clone()?,
            counts: self.counts.clone()?,
            live: self.live.clone()?,
        })
    }
}

impl<I: Index> State<I> {
    /// No segment and no command yet, of a history that is kept or not, or `NoMemory` where an allocation failed.
    pub fn new(alloc: Global, keeps: bool) -> Result<State<I>, NoMemory>
        ensures { IfOk result (λ state. state ≡ beginning keeps) }
    {
        Ok(State {
            segments: Vec::new(alloc),
            log: Log::new(alloc, keeps),
            roster: Roster::new(alloc, 0),
            counts: vec![in alloc; 0; MOST_CALLERS as usize]?,
            live: Vec::new(alloc),
        })
    }

    /// How many commands of the caller were accepted: 0 for what is no caller.
    pub fn number_of(&self, caller: u32) -> u32
        ensures count { result ≡ length (own self.now.history caller) }
        ensures legal { IsLegal self.now.history }
    {
        let counts = &self.counts;
        if caller == 0 || caller > MOST_CALLERS {
            return 0;
        }
        counts[caller as usize - 1] as u32
    }

    /// Whether a registered query has the seq. It costs what `has_live` does.
    pub fn is_live(&self, seq: u64) -> bool
        ensures { result ≡ is_live self.now.history seq }
    {
        has_live(&self.live, &self.segments, seq)
    }

    /// The entry of a caller's next command, or `NoMemory` where an allocation failed.
    fn next_entry(
        &self,
        alloc: Global,
        caller: u32,
        command: &Command,
    ) -> Result<Shared<HistoryEntry>, NoMemory>
        requires caller_from { 0 < caller }
        requires caller_to { caller ≤ MOST_CALLERS }
        ensures { IfOk result (λ entry. entry_of entry ≡ next_entry self.now.history caller (command_of command.now)) }
    {
        let number = self.counts[caller as usize - 1] + 1;
        let command = command.copy()?;
        Shared::new(
            alloc,
            HistoryEntry {
                caller,
                number,
                command,
            },
        )
    }

    /// The state after a caller's next command, and the answer to it: `Full` where more than `MOST_LIVE` queries would
    /// then be registered, and `NoMemory` where an allocation failed.
    pub fn after(
        self,
        alloc: Global,
        caller: u32,
        command: &Command,
    ) -> Result<(State<I>, Applied), Refused>
        requires fits { IsTrue (fits (command_of command.now)) }
        requires caller_from { 0 < caller }
        requires caller_to { caller ≤ MOST_CALLERS }
        requires unended { length self.history < MOST_ENTRIES }
        ensures accepted { IfOk result (λ next. IsAccepted caller (command_of command.now) self next.0 next.1) }
        ensures full { IfErr result (λ why. why ≡ refused.Full
            → IsFalse (has_room self.history (command_of command.now))) }
    {
        let entry = self.next_entry(alloc, caller, command)?;
        let State {
            segments,
            log,
            roster,
            mut counts,
            live,
        } = self;
        let log = log.with(entry)?;
        counts[caller as usize - 1] += 1;
        let changed = change(alloc, segments, live, roster, command)?;
        let next = State {
            segments: changed.segments,
            log,
            roster: changed.roster,
            counts,
            live: changed.live,
        };
        Ok((next, changed.applied))
    }

    /// The state with other segments in the place of all segments, and with their live flags: they have each live
    /// entry, and no entry that was not there. `NoMemory` where an allocation failed.
    pub fn with_segments(
        &self,
        alloc: Global,
        segments: Vec<Arc<Segment<I>>>,
        live: Vec<Shared<SharedFlags>>,
    ) -> Result<Arc<State<I>>, NoMemory>
        requires kept { AreKept self.now (map arc_value segments.items) }
        requires flags { live.items ≡ flags_in (replay self.now.history) (map arc_value segments.items) }
        ensures { IfOk result (λ state. state.value
            ≡ record self.now { segments = map arc_value segments.items }) }
    {
        let next = State {
            segments,
            log: self.log.clone()?,
            roster: self.roster.clone()?,
            counts: self.counts.clone()?,
            live,
        };
        Ok(Arc::new(alloc, next)?)
    }
}
