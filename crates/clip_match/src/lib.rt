//! Matching: the alerts that are due to articles at a view of the registry. Only an article's candidates are tried, the
//! live entries that share a key with it.
#![tactic(auto)]

ghost use Rattle.std.specs.Prelude.{◌≡◌};

mod entries;
mod gate;
mod held;
mod matching;
mod pieces;
mod registry;
mod trying;

pub use entries::DueEntries;
pub use gate::{Gate, OpenGate};
pub use held::HitsFound;
pub use matching::{entries_due, match_article, match_batch};
pub use pieces::{match_piece, match_pieces};
pub use registry::{MergeJob, Registrar, View};
