//! What the parts of a registry that is divided by ids found of an article, as one: lists merged by the ids of queries.
#![tactic(auto)]

mod keyed;
mod merging;
mod parts;
#[cfg(test)]
mod tests;

pub use keyed::Keyed;
pub use merging::{merge_all, never_falls};
pub use parts::{GatherFault, Gathered, alerts_never_fall, gather};
