//! Terms: the keys that some queries ask for, by their numbers; and articles as they are asked by numbers.
#![tactic(auto)]

ghost use Rattle.std.specs.Prelude.{◌≡◌};

mod asking;
mod field_numbers;
mod field_terms;
mod heads;
mod hints;
mod lead_marks;
mod leads;
mod matching;
mod numbering;
mod parts;
mod reading;
mod repeats;
mod spots;
mod terms;
mod word_keys;

pub use asking::Asking;
pub use field_terms::FieldTerms;
pub use heads::{Head, merged};
pub use reading::Reading;
pub use spots::FieldSpots;
pub use terms::Terms;
