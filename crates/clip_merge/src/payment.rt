//! What matched articles pay towards one segment in the place of several.
//!
//!     segments  40,000 entries | 9,000 | 30    an article pays 33 for the second, 2 for the third, and so 35
//!     paid      35, 70, 105, ..                49,035 after 1,401 articles, for 49,030 entries: one segment is due
ghost use Rattle.std.specs.Prelude.{◌≡◌, leb, length, map, min};
ghost use Rattle.std.specs.Arc.{arc_value};
ghost use Rattle.clip_indexed.specs.Segment.{all_entries};
ghost use Rattle.clip_merge.specs.Price.{HavePaid, price, price_of};

use clip_indexed::{Index, Segment};
use std::sync::Arc;

/// How many entries of a segment count at most in what an article pays for it.
const MOST_COUNTED: usize = 512;

/// For how many of these an article pays 1 more.
const STEP: usize = 16;

/// What an article pays for a segment of so many entries.
fn price_of(entries: usize) -> usize
    ensures { result ≡ price_of entries }
{
    1 + entries.min(MOST_COUNTED) / STEP
}

/// What an article pays: the price of each segment but the oldest, as far as it is counted.
fn price<I: Index>(segments: &[Arc<Segment<I>>]) -> usize
    ensures { result ≡ min (price (map arc_value segments.now)) usize.MAX }
{
    let Some((_, others)) = segments.split_first() else {
        return 0;
    };
    let mut price = 0usize;
    for segment in others {
        price = price.saturating_add(price_of(segment.len()));
    }
    price
}

/// Whether the segments have so many entries together, or fewer.
fn have_at_most<I: Index>(segments: &[Arc<Segment<I>>], most: usize) -> bool
    ensures { result ≡ leb (length (all_entries (map arc_value segments.now))) most }
{
    let mut room = most;
    for segment in segments {
        let len = segment.len();
        if room < len {
            return false;
        }
        room -= len;
    }
    true
}

/// What articles have paid towards one segment of all entries. An article takes a look-up of its keys in each segment,
/// and so pays for each but the oldest; what is paid is counted in entries that a merge rewrites.
#[derive(Debug, Drop)]
pub struct Payment {
    paid: usize,
    most: usize,
}

impl Payment {
    /// Nothing is paid yet, towards one segment of at most so many entries. Takes no memory. Constant time.
    pub fn towards(most: usize) -> Payment
        ensures { result ≡ record { paid = 0; most = most } }
    {
        Payment { paid: 0, most }
    }

    /// Takes what so many matched articles pay, for each segment but the oldest 1, and 1 more for each 16 of its first
    /// 512 entries. Says whether one segment is due: there are several, and what is paid is as much as their entries,
    /// which are no more than the most that may be one; then payment begins anew. Takes no memory. Cost: a step for
    /// each segment.
    pub fn is_due<I: Index>(&mut self, segments: &[Arc<Segment<I>>], matched: usize) -> bool
        ensures { HavePaid self.old self.new (map arc_value segments.now) matched result }
    {
        self.paid = self
            .paid
            .saturating_add(price(segments).saturating_mul(matched));
        let is_due = segments.len() > 1 && have_at_most(segments, self.paid.min(self.most));
        if is_due {
            self.paid = 0;
        }
        is_due
    }
}
