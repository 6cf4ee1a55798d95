//! Why a line is refused: the first cause, where in the line it is, and what is wrong there.
#![tactic(auto)]

mod cause;
mod explaining;
mod limits;
mod offset;
mod shape;
mod site;
mod wrong;

pub use cause::{LineCause, Place};
pub use explaining::explain_line;
pub use site::{Spot, item_text};
pub use wrong::Wrong;
