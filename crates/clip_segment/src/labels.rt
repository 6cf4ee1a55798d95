//! What is shown of entries without a look at them: the ids of their queries, and which of these have a listener.
ghost use Rattle.std.specs.Prelude.{◌≡◌, ◌∷◌, ◌++◌, [], IfOk, OnOk, map, vec_items};
ghost use Rattle.std.specs.Arc.{arc_value};
ghost use Rattle.clip_segment.specs.Segment.{ids_of, heard_of};
ghost use Rattle.clip_indexed.specs.Selecting.{flagged, kept_of};

use crate::flagged_texts::{add_room, with_flagged};
use crate::kept_terms::flags_of;
use crate::labelled_index::LabelledIndex;
use clip_standing::Entry;
use clip_words::{NoMemory, Room, Texts};
use std::alloc::Global;
use std::sync::Arc;

/// For each of a list of entries the id of its query, and whether that has a listener.
#[derive(Debug, Drop)]
pub(crate) struct Labels {
    pub(crate) ids: Texts,
    pub(crate) heard: Vec<bool>,
}

/// Room for nothing.
const NO_ROOM: Room = Room { count: 0, bytes: 0 };

/// Room for the labels of these entries.
fn room_for(entries: &[Arc<Entry>]) -> Room {
    let mut room = NO_ROOM;
    for entry in entries {
        room = room.and(entry.standing().id());
    }
    room
}

/// Room for the labels of the kept entries of these indexes.
fn room_for_kept(sources: &[&LabelledIndex], kept: &[Vec<bool>]) -> Room {
    let mut room = NO_ROOM;
    for place in 0..sources.len() {
        room = add_room(&sources[place].labels.ids, flags_of(kept, place), room);
    }
    room
}

impl Labels {
    /// Those of no entries, with room for those of so many.
    fn with_room(alloc: Global, room: Room) -> Result<Labels, NoMemory>
        ensures ids { IfOk result (λ labels. labels.ids ≡ []) }
        ensures heard { IfOk result (λ labels. labels.heard.items ≡ []) }
    {
        Ok(Labels {
            ids: Texts::with_room(alloc, room)?,
            heard: Vec::with_capacity(alloc, room.count)?,
        })
    }

    /// These, and behind them an id and whether its query has a listener.
    fn with(self, id: &str, is_heard: bool) -> Result<Labels, NoMemory>
        ensures ids { IfOk result (λ labels. labels.ids ≡ self.ids ++ id.now ∷ []) }
        ensures heard { IfOk result (λ labels. labels.heard.items ≡ self.heard.items ++ is_heard ∷ []) }
    {
        let Labels { ids, mut heard } = self;
        heard.push(is_heard)?;
        Ok(Labels {
            ids: ids.with(id)?,
            heard,
        })
    }

    /// Those of these entries. Each is looked at.
    pub(crate) fn of(alloc: Global, entries: &[Arc<Entry>]) -> Result<Labels, NoMemory>
        ensures ids { IfOk result (λ labels. labels.ids ≡ ids_of (map arc_value entries.now)) }
        ensures heard { IfOk result (λ labels. labels.heard.items ≡ heard_of (map arc_value entries.now)) }
    {
        let mut labels = Labels::with_room(alloc, room_for(entries))?;
        for entry in entries {
            let standing = entry.standing();
            labels = labels.with(standing.id(), standing.listener().is_some())?;
        }
        Ok(labels)
    }

    /// These, and behind them those of others whose flags are set.
    fn with_flagged(self, others: &Labels, flags: &[bool]) -> Result<Labels, NoMemory>
        ensures ids { IfOk result (λ labels. labels.ids ≡ self.ids ++ flagged flags.now others.now.ids) }
        ensures heard { IfOk result (λ labels. labels.heard.items
            ≡ self.heard.items ++ flagged flags.now others.now.heard.items) }
    {
        let Labels { ids, mut heard } = self;
        add_flagged_copies(&others.heard, flags, &mut heard)?;
        Ok(Labels {
            ids: with_flagged(ids, &others.ids, flags)?,
            heard,
        })
    }

    /// Those of the kept entries of these indexes, in order. No entry is looked at.
    pub(crate) fn kept(
        alloc: Global,
        sources: &[&LabelledIndex],
        kept: &[Vec<bool>],
    ) -> Result<Labels, NoMemory>
        ensures ids { IfOk result (λ labels.
            labels.ids ≡ kept_of (map (λ s. s.now.labels.ids) sources.now) (map vec_items kept.now)) }
        ensures heard { IfOk result (λ labels. labels.heard.items
            ≡ kept_of (map (λ s. s.now.labels.heard.items) sources.now) (map vec_items kept.now)) }
    {
        let mut labels = Labels::with_room(alloc, room_for_kept(sources, kept))?;
        let mut place = 0;
        for source in sources {
            labels = labels.with_flagged(&source.labels, flags_of(kept, place))?;
            place += 1;
        }
        Ok(labels)
    }
}

/// Adds those of the items whose flags are set.
fn add_flagged_copies(items: &[bool], flags: &[bool], kept: &mut Vec<bool>) -> Result<(), NoMemory>
    ensures { OnOk result (kept.new.items ≡ kept.old.items ++ flagged flags.now items.now) }
{
    let mut flags = flags;
    let mut items = items;
    while let Some((flag, more)) = flags.split_first() {
        let Some((item, others)) = items.split_first() else {
            return Ok(());
        };
        if *flag {
            kept.push(*item)?;
        }
        flags = more;
        items = others;
    }
    Ok(())
}
