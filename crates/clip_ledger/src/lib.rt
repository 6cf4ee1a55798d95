//! The ledger of alerts: what was delivered, row by row.
#![tactic(auto)]

mod ledger;
mod row;
mod said;

pub use ledger::Ledger;
pub use row::Row;
