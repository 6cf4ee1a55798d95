//! Merging: which neighbouring segments are merged next, when one segment is due, and segments with just the live
//! entries of others.
#![tactic(auto)]

mod levels;
mod live;
mod merging;
mod payment;

pub use levels::{plan, plan_turn};
pub use live::Live;
pub use merging::{merge, purge};
pub use payment::Payment;
