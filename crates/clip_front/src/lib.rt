//! The front: lines in, replies out, over any registry that accepts commands and shows what is registered.
#![tactic(auto)]

mod answer;
mod books;
mod delivery;
mod kept;
mod registry;
mod server;
mod session;
mod settings;

pub use answer::{Step, take_line, take_listing};
pub use books::Books;
pub use delivery::{MatchReply, deliver};
pub use kept::{one_beginning, take_kept};
pub use registry::Registry;
pub use server::{Server, serve};
pub use session::{Ended, one_outcome};
pub use settings::Settings;
