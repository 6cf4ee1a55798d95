//! An engine in one value: the lines of the protocol and plain calls over one registrar, with the program's listeners;
//! and where a caller outside of Rattle keeps it, and by which numbers it hears what calls come to.
#![tactic(auto)]

mod answer;
mod code;
mod engine;
mod explained;
mod found;
mod house;
mod ids;
mod kept;
mod listed;
mod many;
mod pair;
mod parts;
mod slot;

pub use engine::{Engine, LineFault};
pub use kept::{Field, Kept};
pub use listed::Listed;
pub use pair::{Pair, near};
pub use parts::{Part, Told, law_of_gathering};
pub use slot::{Slot, snapshot_into};
