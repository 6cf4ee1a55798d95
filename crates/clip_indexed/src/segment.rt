//! Segments: entries in the order of their seqs, with an index over them.
//!
//!     entries  0: q7 `tea`    1: q9 `+tea +milk`    one `Arc` each, shared with the roster
//!     seqs     0: 7           1: 9                  rising; found without touching an entry
//!     index    whatever it keeps of the entries, by their positions
//!
//! `entry(1)` is q9, and `position_of(9)` is 1.
ghost use Rattle.std.specs.Prelude.{◌≡◌, ℕ, ◌==◌, ◌≤◌, IfOk, IfSome, None, Some, length, map, option_map, vec_items};
ghost use Rattle.std.specs.Arc.{arc_value};
ghost use Rattle.std.specs.List.{slice_get};
ghost use Rattle.std.specs.Option.{option_copied};
ghost use Rattle.clip_indexed.specs.Selecting.{AreFlagsOf, count_set, kept_of};
ghost use Rattle.clip_indexed.specs.Segment.{IsRising, seqs_of};
ghost use Rattle.clip_indexed.specs.declared.segment.TheConstants.{MOST_POSITIONS};

use crate::index::Index;
use crate::selecting::{kept_entries, kept_index};
use clip_standing::Entry;
use clip_words::NoMemory;
use std::alloc::Global;
use std::marker::Model;
use std::sync::Arc;

/// The most entries of a segment, so that each position fits in 32 bits.
pub const MOST_POSITIONS: usize = 4_294_967_295;

/// Entries in the order of their seqs, with an index over them.
#[derive(Debug)]
pub struct Segment<I: Index> {
    entries: Vec<Arc<Entry>>,
    seqs: Vec<u64>,
    index: I,
}

impl<I: Index> Drop for Segment<I> {
    fn drop(self) {
        let Segment {
            entries: _,
            seqs: _,
            index: _,
        } = self;
    }
}

impl<I: Index> Model for Segment<I> {
    ghost use Rattle.std.specs.Prelude.{List};
    ghost use Rattle.std.specs.Coded.{coded_list};
    ghost use Rattle.clip_model.specs.History.{Registered, registered_code};

    ghost Value = { List Registered };

    ghost coded = { coded_list registered_code };

    ghost use Rattle.clip_indexed.specs.Steps.SegmentView.{entries_of, IsSegment};

    ghost view = { entries_of };

    ghost invariant = { IsSegment I.is_of };
}

/// The seqs of these entries.
fn seqs_of(alloc: Global, entries: &[Arc<Entry>]) -> Result<Vec<u64>, NoMemory>
    ensures { IfOk result (λ seqs. seqs.items ≡ seqs_of (map arc_value entries.now)) }
{
    let mut seqs = Vec::with_capacity(alloc, entries.len())?;
    for entry in entries {
        seqs.push(entry.seq())?;
    }
    Ok(seqs)
}

impl<I: Index> Segment<I> {
    /// The segment of these entries, which it shares. Their seqs rise, and there are at most `MOST_POSITIONS`.
    ///
    /// `NoMemory` where an allocation failed, and where `Index::of` answers it. Cost: a step for each entry, and that
    /// of `Index::of`.
    pub fn build(alloc: Global, entries: Vec<Arc<Entry>>) -> Result<Segment<I>, NoMemory>
        requires short { length entries.items ≤ MOST_POSITIONS }
        requires rising { IsRising (map arc_value entries.items) }
        ensures { IfOk result (λ segment. segment ≡ map arc_value entries.items) }
    {
        let seqs = seqs_of(alloc, &entries)?;
        let index = I::of(alloc, &entries)?;
        Ok(Segment {
            entries,
            seqs,
            index,
        })
    }

    /// The segment of the kept entries of these segments, in order, which it shares: `kept` has a list for each
    /// segment, with a flag for each of its entries. The seqs of the kept entries rise, and there are at most
    /// `MOST_POSITIONS`.
    ///
    /// `NoMemory` where an allocation failed, and where `Index::select` answers it. Cost: a step for each flag, and
    /// that of `Index::select`. No query is looked at.
    pub fn select(
        alloc: Global,
        segments: &[Arc<Segment<I>>],
        kept: &[Vec<bool>],
    ) -> Result<Segment<I>, NoMemory>
        requires flags { AreFlagsOf (map arc_value segments.now) (map vec_items kept.now) }
        requires short { count_set (map vec_items kept.now) ≤ MOST_POSITIONS }
        requires rising { IsRising (kept_of (map arc_value segments.now) (map vec_items kept.now)) }
        ensures { IfOk result (λ segment.
            segment ≡ kept_of (map arc_value segments.now) (map vec_items kept.now)) }
    {
        let entries = kept_entries(alloc, segments, kept)?;
        let seqs = seqs_of(alloc, &entries)?;
        let index = kept_index(alloc, segments, kept)?;
        Ok(Segment {
            entries,
            seqs,
            index,
        })
    }

    /// The index over its entries. Constant time.
    pub fn index(&self) -> &I
        ensures { I.is_of self.now result.now }
    {
        &self.index
    }

    /// The entry at a position from 0, or `None` past the end. Takes no memory. Constant time.
    pub fn entry(&self, position: u32) -> Option<&Arc<Entry>>
        ensures { option_map arc_value (option_copied result) ≡ slice_get self.now position }
    {
        self.entries.get(position as usize)
    }

    /// The position of the entry that has a seq, or `None` where none has it; no entry is looked at. Takes no memory.
    /// Cost: a binary search, and constant time for a seq above those of all entries.
    pub fn position_of(&self, seq: u64) -> Option<u32>
        ensures there { IfSome result (λ position. slice_get (seqs_of self.now) position ≡ Some seq) }
        ensures nowhere { result ≡ None → (position : ℕ) → slice_get (seqs_of self.now) position ≡ Some seq → ⊥ }
        ensures rising { IsRising self.now }
    {
        let last = self.seqs.last()?;
        if *last < seq {
            return None;
        }
        match self.seqs.binary_search(&seq) {
            Ok(position) => Some(position as u32),
            Err(_) => None,
        }
    }

    /// The seqs of the entries, which rise; no entry is looked at. Constant time.
    pub fn seqs(&self) -> &[u64]
        ensures value { result.now ≡ seqs_of self.now }
        ensures short { length self.now ≤ MOST_POSITIONS }
        ensures rising { IsRising self.now }
    {
        &self.seqs
    }

    /// The entries, in the order of their seqs. Constant time.
    pub fn entries(&self) -> &[Arc<Entry>]
        ensures value { map arc_value result.now ≡ self.now }
        ensures short { length self.now ≤ MOST_POSITIONS }
        ensures rising { IsRising self.now }
    {
        &self.entries
    }

    /// How many entries there are. Takes no memory. Constant time.
    pub fn len(&self) -> usize
        ensures { result ≡ length self.now }
    {
        self.entries.len()
    }

    /// Whether there are no entries. Constant time.
    pub fn is_empty(&self) -> bool
        ensures { result ≡ (length self.now == 0) }
    {
        self.entries.is_empty()
    }
}
