//! Hits that were found when alerts were made.
ghost use Rattle.std.specs.Prelude.{◌≡◌, ◌≤◌, ◌-◌, IfOk, length, map, take, drop};
ghost use Rattle.clip_meaning.specs.Hits.{hit_value};

use clip_meaning::Hit;
use clip_words::NoMemory;
use std::marker::Model;
use std::sync::Arc;

/// The hits of an alert. They lie side by side in a list that the alerts of its article share, so that to find the
/// hits of many alerts takes the memory of one list. Contracts see the hits.
#[derive(Debug, Drop)]
pub struct FoundHits {
    all: Arc<Vec<Hit>>,
    start: usize,
    end: usize,
}

impl Model for FoundHits {
    ghost use Rattle.std.specs.Prelude.{ℕ, List};
    ghost use Rattle.clip_standing.specs.Steps.FoundHits.{found_value, AreWithin};

    ghost Value = { List (List ℕ × ℕ) };

    ghost view = { found_value };

    ghost invariant = { AreWithin };
}

impl FoundHits {
    /// The hits from one place of a list up to another, which is not among them. Takes constant time.
    ///
    /// `NoMemory` where the count of the list's holders is at its end.
    pub fn among(all: &Arc<Vec<Hit>>, start: usize, end: usize) -> Result<FoundHits, NoMemory>
        requires low { start ≤ end }
        requires high { end ≤ length all.now.value.items }
        ensures { IfOk result (λ found. found
            ≡ map hit_value (take (end - start) (drop start all.now.value.items))) }
    {
        Ok(FoundHits {
            all: all.clone()?,
            start,
            end,
        })
    }

    /// The hits, by the bytes of their fields' names and then by position. Takes constant time.
    pub fn as_slice(&self) -> &[Hit]
        ensures { map hit_value result.now ≡ self.now }
    {
        &self.all[self.start..self.end]
    }
}
