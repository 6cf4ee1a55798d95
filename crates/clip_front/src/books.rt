//! The books of a run: its settings, and its ledger, where rows are kept.
ghost use Rattle.std.specs.Prelude.{◌≡◌, ◌++◌, [], map, OnOk};
ghost use Rattle.clip_listen.specs.Heard.{note_value, alerts_of};
ghost use Rattle.clip_ledger.specs.Rows.{rows_of};
ghost use Rattle.clip_front.specs.Outcome.{kept_rows};

use crate::settings::Settings;
use clip_ledger::Ledger;
use clip_listen::Note;
use clip_standing::Alerts;
use clip_words::NoMemory;
use std::alloc::Global;

/// The ledger of a run, and the settings that it goes by.
#[derive(Drop)]
pub struct Books {
    /// The rows that were kept.
    pub ledger: Ledger,
    /// Whether rows are kept, and what replies show.
    pub settings: Settings,
}

impl Books {
    /// Books without rows. Takes no memory.
    pub fn new(alloc: Global, settings: Settings) -> Books
        ensures ledger { result.ledger ≡ [] }
        ensures settings { result.settings ≡ settings }
    {
        Books {
            ledger: Ledger::new(alloc),
            settings,
        }
    }

    /// Adds a row for each alert, where rows are kept.
    ///
    /// `NoMemory` where an allocation failed. Cost: that of `Ledger::post`, or none.
    pub fn post(&mut self, line: u64, alerts: &Alerts, notes: &[Note]) -> Result<(), NoMemory>
        ensures rows { OnOk result (self.new.ledger ≡ self.old.ledger
            ++ kept_rows self.old.settings.keeps_rows
            (rows_of line (alerts_of alerts.now) (map note_value notes.now))) }
        ensures settings { self.new.settings ≡ self.old.settings }
    {
        if self.settings.keeps_rows {
            self.ledger.post(line, alerts, notes)?;
        }
        Ok(())
    }
}
