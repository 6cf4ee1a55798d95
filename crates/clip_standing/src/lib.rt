//! What the protocol and the index both speak of: standing queries, their entries, commands with their answers, and
//! alerts.
#![tactic(auto)]

mod alert;
mod command;
mod entry;
mod found;
mod fresh;
mod reading;
mod standing;
mod view;

pub use alert::{Alert, Alerts};
pub use command::{Applied, Command, HistoryEntry, Refused};
pub use entry::Entry;
pub use found::FoundHits;
pub use standing::{Standing, StandingFault};
pub use view::AlertView;
