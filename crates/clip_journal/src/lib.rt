//! A journal of accepted commands over a store that may fail, and over a machine that may stop at any moment.
#![tactic(auto)]

mod contents;
mod entry;
mod fault;
mod journal;
mod journal_fault;
mod length;
mod opening;
mod reading;
mod store;

pub use contents::Contents;
pub use fault::ReadFault;
pub use journal::Journal;
pub use journal_fault::{JournalFault, OpenFault};
pub use opening::{begin, open};
pub use reading::read_back;
pub use store::{Store, StoreFault};

#[cfg(test)]
mod tests;
