//! Segments with just their live entries.
ghost use Rattle.std.specs.Prelude.{◌≡◌, ◌≤◌, true, length, map, replicate, IfOk};
ghost use Rattle.std.specs.Arc.{arc_value};
ghost use Rattle.clip_model.specs.History.{replay};
ghost use Rattle.clip_indexed.specs.Segment.{IsRising};
ghost use Rattle.clip_indexed.specs.Selecting.{AreFlagsOf, count_set, flagged, kept_of};
ghost use Rattle.clip_indexed.specs.declared.segment.TheConstants.{MOST_POSITIONS};
ghost use Rattle.clip_registry.specs.Merging.{purged};
ghost use Rattle.clip_registry.specs.Steps.LiveFlags.{flags_in};
ghost use Rattle.clip_registry.specs.Steps.Merging.{AreKept};

use crate::live_flags::{all_set, are_all_set, flags_listed, shelve};
use crate::state::State;
use clip_indexed::{Index, Segment};
use clip_pieces::{Shared, SharedFlags};
use clip_words::NoMemory;
use std::alloc::Global;
use std::slice;
use std::sync::Arc;

/// One segment of those entries of these segments whose flags are set, which it shares, and a flag for each of them,
/// all set. `NoMemory` where an allocation failed. It costs what `Segment::select` does.
pub fn select_live<I: Index>(
    alloc: Global,
    segments: &[Arc<Segment<I>>],
    live: &[Shared<SharedFlags>],
) -> Result<(Arc<Segment<I>>, Shared<SharedFlags>), NoMemory>
    requires flags { AreFlagsOf (map arc_value segments.now) live.now }
    requires short { count_set live.now ≤ MOST_POSITIONS }
    requires rising { IsRising (kept_of (map arc_value segments.now) live.now) }
    ensures entries { IfOk result (λ kept. kept.0.value ≡ kept_of (map arc_value segments.now) live.now) }
    ensures set { IfOk result (λ kept. kept.1 ≡ replicate (length kept.0.value) true) }
{
    let flags = flags_listed(alloc, live)?;
    let segment = Segment::select(alloc, segments, &flags)?;
    let set = all_set(alloc, segment.len())?;
    Ok((Arc::new(alloc, segment)?, set))
}

/// The segment with just those entries whose flags are set, and a flag for each of them, all set: what is given where
/// all are set. `NoMemory` where an allocation failed.
pub fn live_segment<I: Index>(
    alloc: Global,
    segment: &Arc<Segment<I>>,
    live: &Shared<SharedFlags>,
) -> Result<(Arc<Segment<I>>, Shared<SharedFlags>), NoMemory>
    requires { length live.now ≡ length segment.now.value }
    ensures entries { IfOk result (λ kept. kept.0.value ≡ flagged live.now segment.now.value) }
    ensures set { IfOk result (λ kept. kept.1 ≡ replicate (length kept.0.value) true) }
{
    if are_all_set(live.value()) {
        return Ok((segment.clone()?, live.clone()?));
    }
    // For what holds of every segment: its seqs rise, and they are few enough.
    let _seqs = segment.seqs();
    select_live(alloc, slice::from_ref(segment), slice::from_ref(live))
}

/// The segments of a state with just their live entries, and none that is empty, and their live flags. `NoMemory` where
/// an allocation failed.
pub fn live_segments<I: Index>(
    alloc: Global,
    state: &State<I>,
) -> Result<(Vec<Arc<Segment<I>>>, Vec<Shared<SharedFlags>>), NoMemory>
    ensures segments { IfOk result (λ kept. map arc_value kept.0.items ≡ (purged state.now).segments) }
    ensures kept { IfOk result (λ kept. AreKept state.now (map arc_value kept.0.items)) }
    ensures flags { IfOk result (λ kept.
        kept.1.items ≡ flags_in (replay state.now.history) (map arc_value kept.0.items)) }
{
    let mut segments = Vec::with_capacity(alloc, state.segments.len())?;
    let mut live = Vec::with_capacity(alloc, state.segments.len())?;
    for (place, segment) in state.segments.iter().enumerate() {
        let (kept, flags) = live_segment(alloc, segment, &state.live[place])?;
        shelve(&mut segments, &mut live, kept, flags)?;
    }
    Ok((segments, live))
}
