//! Runs: lines in, replies out, on one thread or with workers. With workers the articles of lines that stand read are
//! shared out among threads and segments merged in another, and the replies are those of a run alone.
#![tactic(auto)]

mod alone;
mod batch;
mod caller;
mod crew;
mod desk;
mod finding;
mod giver;
mod group;
mod helpers;
mod merging;
mod own_registrar;
mod serving;
mod session;

pub use alone::run_alone;
pub use clip_front::{Ended, Settings};
pub use clip_match::OpenGate;
pub use clip_stream::Form;
pub use finding::hits_found;
pub use own_registrar::OwnRegistrar;
pub use session::{Beginning, run, run_again};
