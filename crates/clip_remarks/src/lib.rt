//! Remarks on what a query's text is read as otherwise than most press desks mean it.
#![tactic(auto)]

ghost use Rattle.std.specs.Prelude.{◌≡◌};

mod groups;
mod kind;
mod pieces;
mod place_rules;
mod remark;
mod rule;
mod sort;
mod token_rules;

pub use remark::{Remark, remarks};
pub use rule::{Level, RULES, Rule};
