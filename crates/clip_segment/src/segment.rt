//! Segments of this index.
//!
//!     entries  0: q7 `tea`    1: q9 `+tea +milk`    one `Arc` each, shared with the roster
//!     seqs     0: 7           1: 9                  rising; found without touching an entry
//!     labels   0: `q7`        1: `q9`, a listener   ids and who has a listener; so are these
//!     queries  who has which key, and a plan of each query
//!
//! `entry(1)` is q9, `position_of(9)` is 1, and `positions_with_key(segment, text=milk)` is `[1]`: the weakest word of
//! a query that asks for both is its key.
ghost use Rattle.std.specs.Prelude.{◌≡◌, ◌<◌, length};
ghost use Rattle.std.specs.List.{All, AllPairs};
ghost use Rattle.clip_extract.specs.Keys.{key_of};
ghost use Rattle.clip_segment.specs.Segment.{positions_with};

use crate::labelled_index::LabelledIndex;
use clip_extract::Key;

/// Entries in the order of their seqs, with their labels and an index over their queries.
pub type Segment = clip_indexed::Segment<LabelledIndex>;

/// The positions, from 0 and rising, of just the entries of a segment that hold the key. Takes no memory. Cost: a
/// binary search among the terms of its index.
pub fn positions_with_key<'a>(segment: &'a Segment, key: &Key) -> &'a [u32]
    ensures holders { result.now ≡ positions_with (key_of key.now) segment.now }
    ensures within { All (λ position. position < length segment.now) result.now }
    ensures rising { AllPairs ◌<◌ result.now }
{
    segment.index().queries.with_key(key)
}
