//! The program but for its `main`: it does what its words ask for over the standard streams, and ends with a status.
#![tactic(auto)]

mod ending;
mod playing;
mod streams;

pub use playing::play;
