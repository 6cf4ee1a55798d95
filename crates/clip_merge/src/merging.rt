//! Segments with just the live entries of others.
ghost use Rattle.std.specs.Prelude.{◌≡◌, ◌≤◌, IfOk, length, map};
ghost use Rattle.std.specs.Arc.{arc_value};
ghost use Rattle.clip_merge.specs.Live.{named, names};
ghost use Rattle.clip_indexed.specs.Segment.{IsRising, all_entries, seqs_of};
ghost use Rattle.clip_indexed.specs.declared.segment.TheConstants.{MOST_POSITIONS};

use crate::live::Live;
use clip_indexed::{Index, Segment};
use clip_words::NoMemory;
use std::alloc::Global;
use std::slice;
use std::sync::Arc;

/// For each of a segment's entries, whether it is live.
fn live_flags<I: Index>(
    alloc: Global,
    segment: &Segment<I>,
    live: &Live,
) -> Result<Vec<bool>, NoMemory>
    ensures { IfOk result (λ flags. flags.items ≡ map (names live.now) (seqs_of segment.now)) }
{
    let seqs = segment.seqs();
    let mut flags = Vec::with_capacity(alloc, seqs.len())?;
    for seq in seqs {
        flags.push(live.names(*seq))?;
    }
    Ok(flags)
}

/// A segment of just the live entries of these segments, in order, which it shares. Their seqs rise through all
/// segments, and at most `MOST_POSITIONS` of them are live.
///
/// `NoMemory` where an allocation failed, and where `Index::select` answers it. Cost: a binary search among the live
/// seqs for each entry, and that of `Segment::select`.
pub fn merge<I: Index>(
    alloc: Global,
    segments: &[Arc<Segment<I>>],
    live: &Live,
) -> Result<Segment<I>, NoMemory>
    requires rising { IsRising (all_entries (map arc_value segments.now)) }
    requires short { length (named live.now (all_entries (map arc_value segments.now))) ≤ MOST_POSITIONS }
    ensures { IfOk result (λ segment. segment ≡ named live.now (all_entries (map arc_value segments.now))) }
{
    let mut kept = Vec::with_capacity(alloc, segments.len())?;
    for segment in segments {
        kept.push(live_flags(alloc, segment, live)?)?;
    }
    Segment::select(alloc, segments, &kept)
}

/// A segment of just the live entries of this one, in order, which it shares.
///
/// `NoMemory` where an allocation failed. Cost: that of `merge`.
pub fn purge<I: Index>(
    alloc: Global,
    segment: &Arc<Segment<I>>,
    live: &Live,
) -> Result<Segment<I>, NoMemory>
    ensures { IfOk result (λ kept. kept ≡ named live.now segment.now.value) }
{
    // For what holds of every segment: its seqs rise, and they are few enough.
    let _seqs = segment.seqs();
    merge(alloc, slice::from_ref(segment), live)
}
