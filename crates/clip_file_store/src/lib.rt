//! Journals in files: a store of `clip_journal` over whatever appends, syncs and renames.
#![tactic(auto)]

mod backing;
mod journal_file;
mod recorded;
mod told;

pub use backing::{Backing, Failed};
pub use journal_file::{JournalFile, open_file, set_aside};
pub use recorded::Recorded;
pub use told::Told;

#[cfg(test)]
mod tests;
