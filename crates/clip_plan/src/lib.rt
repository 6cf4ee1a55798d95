//! Plans of queries: what they ask, over the numbers of terms, in lists that are judged from front to back.
#![tactic(auto)]

ghost use Rattle.std.specs.Prelude.{◌≡◌};

mod copy;
mod hits;
mod judge;
mod naming;
mod outline;
mod plans;
mod renaming;
mod step;
mod word_keys;

pub use judge::Tallies;
pub use plans::Plans;
pub use word_keys::add_word_keys;
