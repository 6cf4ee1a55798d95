//! What tests of several crates give to calls: texts, standing queries, articles and listeners; and a wait with
//! a limit.
#![tactic(auto)]

mod listeners;
mod making;
mod waiting;

pub use listeners::{add_listener, folder, teller};
pub use making::{article, owned, standing};
pub use waiting::is_set_in_time;
