//! The ledger: what was delivered, and counts over it.
ghost use Rattle.std.specs.Prelude.{◌≡◌, ◌++◌, [], true, map, IfOk, OnOk, OnErr};
ghost use Rattle.clip_listen.specs.Heard.{note_value, alerts_of};
ghost use Rattle.clip_ledger.specs.Rows.{row_value, rows_of, total};
ghost use Rattle.clip_ledger.specs.Steps.Walk.{rise};

use crate::row::Row;
use crate::said::{first_text, next_notes, queries_rise, text_for};
use clip_listen::Note;
use clip_standing::Alerts;
use clip_words::NoMemory;
use std::alloc::Global;
use std::marker::Model;

/// What was delivered; seen as its rows, in the order of posting.
#[derive(Debug)]
pub struct Ledger {
    alloc: Global,
    rows: Vec<Row>,
}

impl Drop for Ledger {
    fn drop(self) {
        let Ledger { alloc: _, rows: _ } = self;
    }
}

impl Model for Ledger {
    ghost use Rattle.std.specs.Prelude.{List, map};
    ghost use Rattle.std.specs.Coded.{coded_list};
    ghost use Rattle.clip_ledger.specs.Rows as value;

    ghost Value = { List value.RowValue };

    ghost coded = { coded_list value.row_code };

    ghost view = { λ l. map value.row_value l.rows.items };
}

impl Ledger {
    /// A ledger with no rows. Takes no memory.
    pub fn new(alloc: Global) -> Ledger
        ensures { result ≡ [] }
    {
        Ledger {
            alloc,
            rows: Vec::new(alloc),
        }
    }

    /// Adds a row for each alert, in order: its line, its hits, and the text of the first note of its query, if there
    /// is one.
    ///
    /// `NoMemory` where an allocation failed; the ledger is as it was then. Cost: one walk over alerts and notes where
    /// the queries of each rise by their bytes, as those of an article's alerts and of their notes do; else a walk over
    /// the notes for each alert; and that of `Alert::hits` for each alert.
    pub fn post(&mut self, line: u64, alerts: &Alerts, notes: &[Note]) -> Result<(), NoMemory>
        ensures ok { OnOk result (self.new
            ≡ self.old ++ rows_of line (alerts_of alerts.now) (map note_value notes.now)) }
        ensures err { OnErr result (self.new ≡ self.old) }
    {
        let mut added = if queries_rise(notes) {
            rows_along(self.alloc, line, alerts, notes)?
        } else {
            rows_by_search(self.alloc, line, alerts, notes)?
        };
        self.rows.append(&mut added)?;
        Ok(())
    }

    /// How many rows have the listener. Cost: a walk over the rows.
    pub fn total(&self, listener: &str) -> u64
        ensures { result ≡ total self.now listener.now }
    {
        self.rows.iter().filter(|row| row.is_of(listener)).count() as u64
    }

    /// The rows, in the order of posting.
    pub fn rows(&self) -> &[Row]
        ensures { map row_value result.now ≡ self.now }
    {
        &self.rows
    }
}

/// A row for each alert, in order, where the notes are in any order. Cost: a walk over the notes for each alert.
fn rows_by_search(
    alloc: Global,
    line: u64,
    alerts: &Alerts,
    notes: &[Note],
) -> Result<Vec<Row>, NoMemory>
    ensures { IfOk result (λ rows. map row_value rows.items
        ≡ rows_of line (alerts_of alerts.now) (map note_value notes.now)) }
{
    let mut rows = Vec::new(alloc);
    for alert in &alerts.alerts {
        rows.push(Row::of(alloc, line, alert, text_for(notes, alert.query()))?)?;
    }
    Ok(rows)
}

/// A row for each alert, in order, where the queries of the notes rise. Cost: one walk over alerts and notes, where the
/// queries of the alerts rise too.
fn rows_along(
    alloc: Global,
    line: u64,
    alerts: &Alerts,
    notes: &[Note],
) -> Result<Vec<Row>, NoMemory>
    requires { rise (map note_value notes.now) ≡ true }
    ensures { IfOk result (λ rows. map row_value rows.items
        ≡ rows_of line (alerts_of alerts.now) (map note_value notes.now)) }
{
    let mut rows = Vec::new(alloc);
    let mut rest = notes;
    let mut last = "";
    for alert in &alerts.alerts {
        let query = alert.query().as_str();
        rest = next_notes(notes, rest, last, query);
        last = query;
        rows.push(Row::of(alloc, line, alert, first_text(rest, query))?)?;
    }
    Ok(rows)
}
