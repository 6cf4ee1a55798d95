//! The ids of what is registered, in order.
ghost use Rattle.std.specs.Prelude.{◌≡◌, IfOk, IsPermutation, map};
ghost use Rattle.std.specs.FinMap as finite;
ghost use Rattle.std.specs.List.Sorted.{IsSortedByKey};
ghost use Rattle.clip_words.specs.Order.{bytes_cmp};
ghost use Rattle.clip_model.specs.History.{replay};
ghost use Rattle.clip_engine.specs.Found.{ids_bytes};

use crate::found::{add_number, add_text};
use clip_match::View;
use clip_standing::Entry;
use clip_words::NoMemory;
use std::alloc::Global;
use std::cmp::Ordering;

/// Sorts entries by the ids of their queries.
fn sort_by_id(entries: &mut Vec<&Entry>)
    ensures moved { IsPermutation entries.old.items entries.new.items }
    ensures sorted { IsSortedByKey (λ r. r.standing.id) bytes_cmp (map (λ e. e.now) entries.new.items) }
{
    entries.sort_unstable_by(
        |a: &&Entry, b: &&Entry| -> Ordering
            ensures { result ≡ bytes_cmp a.now.now.standing.id b.now.now.standing.id }
        { a.standing().id().cmp(b.standing().id()) },
    );
}

/// The ids of entries, as bytes.
fn ids_of(alloc: Global, entries: &[&Entry]) -> Result<Vec<u8>, NoMemory>
    ensures { IfOk result (λ bytes. bytes.items ≡ ids_bytes (map (λ e. e.now.standing.id) entries.now)) }
{
    let mut bytes = Vec::new(alloc);
    add_number(&mut bytes, entries.len() as u64)?;
    for entry in entries {
        add_text(&mut bytes, entry.standing().id())?;
    }
    Ok(bytes)
}

/// The ids of the registered queries in their byte order, as bytes.
pub(crate) fn bytes_of_ids(alloc: Global, view: &View) -> Result<Vec<u8>, NoMemory>
    ensures { IfOk result (λ bytes. bytes.items ≡ ids_bytes (finite.keys (replay view.now.history))) }
{
    let mut entries = view.live_entries(alloc)?;
    sort_by_id(&mut entries);
    ids_of(alloc, &entries)
}
