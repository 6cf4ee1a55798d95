//! What stands of the history at run time.
ghost use Rattle.std.specs.Prelude.{◌≡◌, ◌-◌, ◌<◌, [], ◌∷◌, ◌++◌, length, IfOk, slice_get, option_map, option_copied};
ghost use Rattle.clip_model.specs.declared.limits.TheConstants.{MOST_ENTRIES};
ghost use Rattle.clip_registry.specs.RegistryState.{kept_history};
ghost use Rattle.clip_standing.specs.Command.{entry_of, shared_entry};

use crate::history::History;
use crate::trail::Trail;
use clip_pieces::{Shared, SharedList};
use clip_standing::HistoryEntry;
use clip_words::NoMemory;
use std::alloc::{AllocError, Global};
use std::marker::Model;
use std::sync::Arc;

/// The history as contracts see it, and of it what is held at run time: how many commands there are, the last of them,
/// and all of them where they are kept. A clone shares what is kept.
#[derive(Drop)]
pub struct Log {
    trail: Trail,
    count: u64,
    last: Option<Shared<HistoryEntry>>,
    kept: Option<SharedList<Shared<HistoryEntry>>>,
}

impl Model for Log {
    ghost use Rattle.clip_registry.specs.Steps.Log as value;

    ghost Value = { value.Log };

    ghost coded = { value.log_code };

    ghost use Rattle.clip_registry.specs.Steps.LogInside.{log_of, IsLog};

    ghost view = { log_of };

    ghost invariant = { IsLog };
}

/// Another holder of a list, or none where there is none.
fn same_list(
    kept: &Option<SharedList<Shared<HistoryEntry>>>,
) -> Result<Option<SharedList<Shared<HistoryEntry>>>, AllocError>
    ensures { IfOk result (λ list. list ≡ kept.now) }
{
    match kept {
        Some(list) => Ok(Some(list.clone()?)),
        None => Ok(None),
    }
}

/// Another holder of an entry, or none where there is none.
fn same_entry(
    last: &Option<Shared<HistoryEntry>>,
) -> Result<Option<Shared<HistoryEntry>>, AllocError>
    ensures { IfOk result (λ entry. entry ≡ last.now) }
{
    match last {
        Some(entry) => Ok(Some(entry.clone()?)),
        None => Ok(None),
    }
}

impl Clone for Log {
    ghost is_clone = { λ log copy. copy ≡ log };

    fn clone(&self) -> Result<Log, AllocError> {
        Ok(Log {
            trail: self.trail.again(),
            count: self.count,
            last: same_entry(&self.last)?,
            kept: same_list(&self.kept)?,
        })
    }
}

impl Log {
    /// No command yet, of a history that is kept or not.
    pub fn new(alloc: Global, keeps: bool) -> Log
        ensures { result ≡ record { history = []; keeps = keeps } }
    {
        Log {
            trail: Trail::new(),
            count: 0,
            last: None,
            kept: if keeps {
                Some(SharedList::new(alloc))
            } else {
                None
            },
        }
    }

    /// How many commands were accepted.
    pub fn len(&self) -> u64
        ensures { result ≡ length self.now.history }
    {
        self.count
    }

    /// The entry of the last command, or `None` where there is none.
    pub fn last(&self) -> Option<&Arc<HistoryEntry>>
        ensures { option_map shared_entry (option_copied result)
            ≡ slice_get self.now.history (length self.now.history - 1) }
    {
        match &self.last {
            Some(entry) => Some(entry.arc()),
            None => None,
        }
    }

    /// The commands, where they are kept, and else none.
    pub fn entries(&self) -> History<'_>
        ensures { result ≡ kept_history self.now.keeps self.now.history }
    {
        match &self.kept {
            Some(list) => History {
                entries: Some(list),
            },
            None => History { entries: None },
        }
    }

    /// The log with the next entry. `NoMemory` where an allocation failed.
    pub fn with(self, entry: Shared<HistoryEntry>) -> Result<Log, NoMemory>
        requires { length self.history < MOST_ENTRIES }
        ensures { IfOk result (λ log. log ≡ record self { history = self.history ++ entry_of entry ∷ [] }) }
    {
        let Log {
            trail,
            count,
            last: _,
            mut kept,
        } = self;
        if let Some(list) = &mut kept {
            list.push(entry.clone()?)?;
        }
        Ok(Log {
            trail: trail.then(entry.value()),
            count: count + 1,
            last: Some(entry),
            kept,
        })
    }
}
