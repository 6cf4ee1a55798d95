//! Segments over any index: entries in the order of their seqs, and beside them the index over them.
#![tactic(auto)]

ghost use Rattle.std.specs.Prelude.{◌≡◌};

mod index;
mod segment;
mod selecting;

pub use index::Index;
pub use segment::{MOST_POSITIONS, Segment};
