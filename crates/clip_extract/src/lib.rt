//! The keys of a query, by which it is found, and the law that they cover it.
#![tactic(auto)]

ghost use Rattle.std.specs.Prelude.{◌≡◌};

mod extraction;
mod front;
mod key;
mod laws;
mod second;
mod sorting;
mod weighed;

pub use extraction::{keys, loose_keys, weight};
pub use front::{Fronts, has_front_key};
pub use key::{Key, MOST_FRONT_CHARACTERS};
pub use laws::{covering_law, second_covering_law};
pub use second::{loose_second_keys, second_keys};
pub use sorting::{short_length, sort_keys};
