//! Histories, as a registrar or a view lends them.
ghost use Rattle.std.specs.Prelude.{◌≡◌, ◌-◌, length, slice_get, option_map, option_copied};
ghost use Rattle.clip_standing.specs.Command.{shared_entry};

use clip_pieces::{Shared, SharedList};
use clip_standing::HistoryEntry;
use std::marker::Model;
use std::sync::Arc;

/// The commands that were accepted, in order, as a registrar or a view lends them.
#[derive(Drop)]
pub struct History<'a> {
    pub(crate) entries: Option<&'a SharedList<Shared<HistoryEntry>>>,
}

impl<'a> Model for History<'a> {
    ghost use Rattle.clip_model.specs.History as model;

    ghost Value = { model.History };

    ghost coded = { model.history_code };

    ghost use Rattle.clip_registry.specs.Steps.History.{lent_history};

    ghost view = { λ h. lent_history h.entries };
}

impl<'a> History<'a> {
    /// How many commands were accepted. Constant time.
    pub fn len(&self) -> usize
        ensures { result ≡ length self.now }
    {
        match self.entries {
            Some(entries) => entries.len(),
            None => 0,
        }
    }

    /// The entry at a place from 0, or `None` past the end. Constant time.
    pub fn get(&self, place: usize) -> Option<&'a Arc<HistoryEntry>>
        ensures { option_map shared_entry (option_copied result) ≡ slice_get self.now place }
    {
        match self.entries?.get(place) {
            Some(entry) => Some(entry.arc()),
            None => None,
        }
    }

    /// The entry of the last command, or `None` where there is none. Constant time.
    pub fn last(&self) -> Option<&'a Arc<HistoryEntry>>
        ensures { option_map shared_entry (option_copied result) ≡ slice_get self.now (length self.now - 1) }
    {
        match self.entries?.last() {
            Some(entry) => Some(entry.arc()),
            None => None,
        }
    }
}
