//! Changes that are kept ahead: a reader of lines that hands out no byte before the changes for which it asks are in a
//! journal and synced.
#![tactic(auto)]

mod anew;
mod census;
mod changes;
mod keeper;
mod kept_source;

pub use anew::Shortener;
pub use kept_source::{KeptParts, KeptSource, RunName};
