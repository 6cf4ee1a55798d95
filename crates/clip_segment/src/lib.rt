//! Segments: entries in the order of their seqs, with an index over their queries: which of them share a key with an
//! article, which of them hold of it, and where.
#![tactic(auto)]

ghost use Rattle.std.specs.Prelude.{◌≡◌};

mod building;
mod flagged_texts;
mod index_selecting;
mod kept_terms;
mod labelled_index;
mod labels;
mod marking;
mod positions_read;
mod query_index;
mod reading;
mod segment;
mod spots;
mod term_lists;

pub use labelled_index::LabelledIndex;
pub use positions_read::PositionsRead;
pub use reading::SegmentReading;
pub use segment::{Segment, positions_with_key};
pub use spots::SegmentSpots;
