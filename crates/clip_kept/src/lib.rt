//! Runs whose changes survive: what earlier runs kept is taken again, and what a run is asked to change is kept ahead.
#![tactic(auto)]

mod fault;
mod leading;
mod opened;
mod run;

pub use fault::KeptFault;
pub use leading::changes_lead_on;
pub use opened::{Opened, open_kept};
pub use run::{Keeping, KeptRun, run_kept};

#[cfg(test)]
mod tests;
