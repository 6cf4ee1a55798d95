//! The registry of standing queries: commands, their history, the registrar that applies them, and views of it.
#![tactic(auto)]

ghost use Rattle.std.specs.Prelude.{◌≡◌};

mod by_id;
mod change;
mod held;
mod history;
mod live_flags;
mod log;
mod merging;
mod purging;
mod registrar;
mod roster;
mod same;
mod state;
mod trail;
mod turn;
mod view;

pub use clip_merge::Payment;
pub use history::History;
pub use merging::{Installed, MergeJob, MergeTurn, Merged, late_merges_miss_nothing};
pub use registrar::Registrar;
pub use turn::{merge_all, merge_turn};
pub use view::View;
