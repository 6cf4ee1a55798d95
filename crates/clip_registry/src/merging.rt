//! Merging: a job is begun on a registrar, run by itself, and what it gives is installed.
ghost use Rattle.std.specs.Prelude.{◌≡◌, ◌+◌, ◌<◌, ◌≤◌, None, map, length, IfOk, IfSome, OnSome};
ghost use Rattle.std.specs.Arc.{arc_value};
ghost use Rattle.clip_model.specs.History.{replay};
ghost use Rattle.clip_registry.specs.Merging.{IsOver, IsStale, LateMergesMissNothing, Misses, StandsAt, merge_of};
ghost use Rattle.clip_registry.specs.Steps.LiveFlags.{flags_in};
ghost use Rattle.clip_registry.specs.Steps.Merging.{AreKept, replaced};

use crate::live_flags::{clear, died_since, misses_none, shelve};
use crate::purging::select_live;
use crate::same::place_of;
use crate::state::State;
use clip_indexed::{Index, Segment};
use clip_pieces::{Shared, SharedFlags};
use clip_words::NoMemory;
use std::alloc::Global;
use std::marker::Model;
use std::sync::Arc;

/// Neighbouring segments that are to be one, and beside each which of its entries were live when the job was begun.
pub struct MergeJob<I: Index> {
    pub(crate) alloc: Global,
    pub(crate) sources: Vec<Arc<Segment<I>>>,
    pub(crate) flags: Vec<Shared<SharedFlags>>,
}

impl<I: Index> Drop for MergeJob<I> {
    fn drop(self) {
        let MergeJob {
            alloc: _,
            sources: _,
            flags: _,
        } = self;
    }
}

impl<I: Index> Model for MergeJob<I> {
    ghost use Rattle.clip_registry.specs.Merging.{Job, job_code};

    ghost Value = { Job };

    ghost coded = { job_code };

    ghost use Rattle.clip_registry.specs.Steps.Merging.{job_inside, IsJobInside};

    ghost view = { job_inside };

    ghost invariant = { IsJobInside };
}

/// What a job gives: its sources, which of their entries were live, and one segment of just these, with a flag for each
/// of them, all set.
#[derive(Drop)]
pub struct Merged<I: Index> {
    pub(crate) sources: Vec<Arc<Segment<I>>>,
    pub(crate) flags: Vec<Shared<SharedFlags>>,
    pub(crate) segment: Arc<Segment<I>>,
    pub(crate) live: Shared<SharedFlags>,
}

impl<I: Index> Model for Merged<I> {
    ghost use Rattle.clip_registry.specs.Merging.{Merge, merge_code};

    ghost Value = { Merge };

    ghost coded = { merge_code };

    ghost use Rattle.clip_registry.specs.Steps.Merging.{merged_inside, IsMergedInside};

    ghost view = { merged_inside };

    ghost invariant = { IsMergedInside };
}

/// What became of a merge.
#[derive(Clone, Copy, PartialEq, Eq)]
pub enum Installed {
    /// Its segment stands in the place of the sources.
    Done,
    /// The sources did not stand as they were, or an entry that is live would have been lost: nothing was changed.
    Stale,
}

/// What a turn of merging did: a job begun where there is one, run, and its merge installed.
#[derive(Clone, Copy, Debug, PartialEq, Eq)]
pub enum MergeTurn {
    /// There were no four neighbouring segments of one level, and none behind which one has a higher level, nor were
    /// several to become one.
    Nothing,
    /// The oldest four such segments are one now, or all from the oldest on behind which one has a higher level, or
    /// all that were to become one.
    Installed,
    /// The segments did not stand any more when their merge was done, and nothing was changed.
    Stale,
}

impl<I: Index> MergeJob<I> {
    /// A job over the neighbours of a state from `first` on to before `past`, which it shares, and their live flags
    /// with them. `NoMemory` where an allocation failed. It costs a step for each of them.
    pub(crate) fn of(
        alloc: Global,
        state: &State<I>,
        first: usize,
        past: usize,
    ) -> Result<MergeJob<I>, NoMemory>
        requires some { first < past }
        requires there { past ≤ length state.now.segments }
        ensures { IfOk result (λ job. IsOver state.now job first past) }
    {
        Ok(MergeJob {
            alloc,
            sources: state.segments[first..past].to_vec(alloc)?,
            flags: state.live[first..past].to_vec(alloc)?,
        })
    }

    /// One segment of the entries of its sources that were live when it was begun. It shares them.
    ///
    /// `NoMemory` where an allocation failed, and where `Index::select` answers it. Cost: that of `Segment::select`, so a
    /// step for each entry of the sources, and that of `Index::select`.
    pub fn run(&self) -> Result<Merged<I>, NoMemory>
        ensures { IfOk result (λ merged. merged ≡ merge_of self.now) }
    {
        let (segment, live) = select_live(self.alloc, &self.sources, &self.flags)?;
        Ok(Merged {
            sources: self.sources.clone()?,
            flags: self.flags.clone()?,
            segment,
            live,
        })
    }
}

impl<I: Index> Merged<I> {
    /// The place at which it is to be installed, or `None` where it is stale.
    pub(crate) fn place_in(&self, state: &State<I>) -> Option<usize>
        ensures there { IfSome result (λ first. first + length self.now.sources ≤ length state.now.segments) }
        ensures stands { IfSome result (λ first. StandsAt state.now.segments self.now.sources first) }
        ensures complete { OnSome result (Misses state.now self.now → ⊥) }
        ensures kept { IfSome result (λ first. AreKept state.now
            (replaced state.now.segments first (length self.now.sources) self.now.entries)) }
        ensures stale { result ≡ None → IsStale state.now self.now }
    {
        let first = place_of(&state.segments, &self.sources)?;
        let past = first + self.sources.len();
        if misses_none(&state.live[first..past], &self.flags) {
            Some(first)
        } else {
            None
        }
    }

    /// The segments of a state, with that of the merge in the place of its sources from `first` on, or with none there
    /// where it has no entries, and their live flags. `NoMemory` where an allocation failed. It costs a step for each
    /// segment, what `died_since` does, and a binary search for each entry that died.
    pub(crate) fn put_in(
        self,
        alloc: Global,
        state: &State<I>,
        first: usize,
    ) -> Result<(Vec<Arc<Segment<I>>>, Vec<Shared<SharedFlags>>), NoMemory>
        requires there { first + length self.sources ≤ length state.now.segments }
        requires stands { StandsAt state.now.segments self.sources first }
        ensures segments { IfOk result (λ put. map arc_value put.0.items
            ≡ replaced state.now.segments first (length self.sources) self.entries) }
        ensures flags { IfOk result (λ put.
            put.1.items ≡ flags_in (replay state.now.history) (map arc_value put.0.items)) }
    {
        let mut segments = Vec::with_capacity(alloc, state.segments.len())?;
        let mut live = Vec::with_capacity(alloc, state.live.len())?;
        let past = first + self.sources.len();
        let died = died_since(alloc, &self.sources, &state.live[first..past], &self.flags)?;
        let mut merged = self.live;
        clear(&mut merged, &self.segment, &died)?;
        segments.extend_with_clones(&state.segments[..first])?;
        live.extend_with_clones(&state.live[..first])?;
        shelve(&mut segments, &mut live, self.segment, merged)?;
        segments.extend_with_clones(&state.segments[past..])?;
        live.extend_with_clones(&state.live[past..])?;
        Ok((segments, live))
    }
}

/// However late a merge is installed on the registrar on which it was begun, it misses no live entry.
pub fn late_merges_miss_nothing()
    ensures { LateMergesMissNothing }
{}
