//! What a registrar and a view hold: the state, or none before the first command.
ghost use Rattle.std.specs.Prelude.{◌≡◌, ◌↔◌, ℕ, Bool, ◌-◌, ◌≤◌, length, IfOk, IsTrue, slice_get};
ghost use Rattle.std.specs.Prelude.{option_map, option_copied};
ghost use Rattle.clip_model.specs.History.{IsLegal, own};
ghost use Rattle.clip_registry.specs.RegistryState.{IsWhole, kept_history};
ghost use Rattle.clip_registry.specs.Steps.State.{state_or_beginning};
ghost use Rattle.clip_standing.specs.Command.{shared_entry};

use crate::history::History;
use crate::state::State;
use clip_indexed::Index;
use clip_model::MOST_ENTRIES;
use clip_standing::HistoryEntry;
use clip_words::NoMemory;
use std::alloc::Global;
use std::sync::Arc;

/// A state of one's own with the same content, or `NoMemory` where an allocation failed.
pub fn own_copy<I: Index>(
    alloc: Global,
    keeps: bool,
    held: &Option<Arc<State<I>>>,
) -> Result<State<I>, NoMemory>
    ensures { IfOk result (λ state. state ≡ state_or_beginning keeps held.now) }
{
    match held {
        Some(shared) => {
            let state: &State<I> = shared;
            Ok(state.clone()?)
        }
        None => State::new(alloc, keeps),
    }
}

/// Whether the history is at its end: no command is accepted any more.
pub fn has_ended<I: Index>(held: &Option<Arc<State<I>>>) -> bool
    ensures { (keeps : Bool) → IsTrue result ↔ MOST_ENTRIES ≤ length (state_or_beginning keeps held.now).history }
{
    match held {
        Some(state) => state.log.len() >= MOST_ENTRIES,
        None => false,
    }
}

/// Another holder of a state, or none where there is none; `NoMemory` where the count of its holders is at its end.
pub fn copy_of<I: Index>(held: &Option<Arc<State<I>>>) -> Result<Option<Arc<State<I>>>, NoMemory>
    ensures { (keeps : Bool) → IfOk result (λ copy. state_or_beginning keeps copy ≡ state_or_beginning keeps held.now) }
{
    match held {
        Some(state) => Ok(Some(state.clone()?)),
        None => Ok(None),
    }
}

/// The commands that were accepted, where they are kept.
pub fn history_of<I: Index>(held: &Option<Arc<State<I>>>) -> History<'_>
    ensures history { (keeps : Bool) → result
        ≡ kept_history (state_or_beginning keeps held.now).keeps (state_or_beginning keeps held.now).history }
    ensures whole { (keeps : Bool) → IsWhole (state_or_beginning keeps held.now) }
    ensures legal { (keeps : Bool) → IsLegal (state_or_beginning keeps held.now).history }
{
    match held {
        Some(state) => state.log.entries(),
        None => History { entries: None },
    }
}

/// The entry of the last command that was accepted, or `None` where there is none.
pub fn last_of<I: Index>(held: &Option<Arc<State<I>>>) -> Option<&Arc<HistoryEntry>>
    ensures last { (keeps : Bool) → option_map shared_entry (option_copied result)
        ≡ slice_get (state_or_beginning keeps held.now).history
        (length (state_or_beginning keeps held.now).history - 1) }
    ensures legal { (keeps : Bool) → IsLegal (state_or_beginning keeps held.now).history }
{
    match held {
        Some(state) => state.log.last(),
        None => None,
    }
}

/// How many commands of the caller were accepted: 0 for what is no caller.
pub fn number_of<I: Index>(held: &Option<Arc<State<I>>>, caller: u32) -> u32
    ensures count { (keeps : Bool) → result ≡ length (own (state_or_beginning keeps held.now).history caller) }
    ensures legal { (keeps : Bool) → IsLegal (state_or_beginning keeps held.now).history }
{
    match held {
        Some(state) => state.number_of(caller),
        None => 0,
    }
}
