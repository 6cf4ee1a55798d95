//! Segments of the kept entries of others.
ghost use Rattle.std.specs.Prelude.{◌≡◌, ◌≤◌, ◌++◌, IfOk, OnOk, map, vec_items};
ghost use Rattle.std.specs.Arc.{arc_value};
ghost use Rattle.clip_indexed.specs.Selecting.{AreFlagsOf, AreIndexesOf, count_set, flagged, kept_of};
ghost use Rattle.clip_indexed.specs.declared.segment.TheConstants.{MOST_POSITIONS};

use crate::index::Index;
use crate::segment::Segment;
use clip_standing::Entry;
use clip_words::NoMemory;
use std::alloc::Global;
use std::sync::Arc;

/// Adds those of the entries whose flags are set, which it shares.
fn add_flagged(
    entries: &[Arc<Entry>],
    flags: &[bool],
    kept: &mut Vec<Arc<Entry>>,
) -> Result<(), NoMemory>
    ensures { OnOk result (map arc_value kept.new.items
        ≡ map arc_value kept.old.items ++ flagged flags.now (map arc_value entries.now)) }
{
    let mut flags = flags;
    let mut entries = entries;
    while let Some((flag, more)) = flags.split_first() {
        let Some((entry, others)) = entries.split_first() else {
            return Ok(());
        };
        if *flag {
            kept.push(entry.clone()?)?;
        }
        flags = more;
        entries = others;
    }
    Ok(())
}

/// The kept entries of these segments, in order, which it shares.
pub(crate) fn kept_entries<I: Index>(
    alloc: Global,
    segments: &[Arc<Segment<I>>],
    kept: &[Vec<bool>],
) -> Result<Vec<Arc<Entry>>, NoMemory>
    ensures { IfOk result (λ entries. map arc_value entries.items
        ≡ kept_of (map arc_value segments.now) (map vec_items kept.now)) }
{
    let mut entries = Vec::new(alloc);
    let mut segments = segments;
    let mut kept = kept;
    while let Some((segment, others)) = segments.split_first() {
        let Some((flags, more)) = kept.split_first() else {
            return Ok(entries);
        };
        add_flagged(segment.entries(), flags, &mut entries)?;
        segments = others;
        kept = more;
    }
    Ok(entries)
}

/// The indexes of these segments.
fn indexes_of<'a, I: Index>(
    alloc: Global,
    segments: &'a [Arc<Segment<I>>],
) -> Result<Vec<&'a I>, NoMemory>
    ensures { IfOk result (λ indexes.
        AreIndexesOf I.is_of (map arc_value segments.now) (map (λ i. i.now) indexes.items)) }
{
    let mut indexes = Vec::with_capacity(alloc, segments.len())?;
    for segment in segments {
        indexes.push(segment.index())?;
    }
    Ok(indexes)
}

/// The index over the kept entries of these segments.
pub(crate) fn kept_index<I: Index>(
    alloc: Global,
    segments: &[Arc<Segment<I>>],
    kept: &[Vec<bool>],
) -> Result<I, NoMemory>
    requires flags { AreFlagsOf (map arc_value segments.now) (map vec_items kept.now) }
    requires short { count_set (map vec_items kept.now) ≤ MOST_POSITIONS }
    ensures { IfOk result (λ index.
        I.is_of (kept_of (map arc_value segments.now) (map vec_items kept.now)) index) }
{
    I::select(alloc, &indexes_of(alloc, segments)?, kept)
}
