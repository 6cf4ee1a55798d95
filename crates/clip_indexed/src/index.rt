//! Indexes over entries.
ghost use Rattle.std.specs.Prelude.{◌≡◌};

use clip_standing::Entry;
use clip_words::NoMemory;
use std::alloc::Global;
use std::sync::Arc;

/// An index over entries, as a segment keeps one over its own. What it keeps of them and finds is its own affair.
pub trait Index: Drop {
    ghost use Rattle.std.specs.Prelude.{◌≤◌, List, IfOk, length, map, vec_items};
    ghost use Rattle.std.specs.Arc.{arc_value};
    ghost use Rattle.clip_model.specs.History.{Registered};
    ghost use Rattle.clip_indexed.specs.Selecting.{AreFlagsOf, AreIndexesOf, count_set, kept_of};
    ghost use Rattle.clip_indexed.specs.declared.segment.TheConstants.{MOST_POSITIONS};

    /// It is the index over these entries, by their positions from 0.
    ghost is_of: { List Registered → Self → Type 0 };

    /// The index over these entries, of which there are at most `MOST_POSITIONS`.
    ///
    /// `NoMemory` where an allocation failed, or where the index has no room for what it keeps of them.
    fn of(alloc: Global, entries: &[Arc<Entry>]) -> Result<Self, NoMemory>
        requires { length entries.now ≤ MOST_POSITIONS }
        ensures { IfOk result (λ index. is_of (map arc_value entries.now) index) };

    /// The index over the kept entries of several indexes, in order. `kept` has a list of flags for each index, and in
    /// it a flag for each of its entries; at most `MOST_POSITIONS` flags are set. No entry is looked at.
    ///
    /// `NoMemory` where an allocation failed, or where the index has no room for what it keeps of them.
    fn select(alloc: Global, sources: &[&Self], kept: &[Vec<bool>]) -> Result<Self, NoMemory>
        requires { count_set (map vec_items kept.now) ≤ MOST_POSITIONS }
        ensures { IfOk result (λ index. (lists : List (List Registered))
            → AreIndexesOf is_of lists (map (λ s. s.now) sources.now) → AreFlagsOf lists (map vec_items kept.now)
            → is_of (kept_of lists (map vec_items kept.now)) index) };
}
