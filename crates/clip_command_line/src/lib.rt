//! The command line of the programs: the words that they are given, what these ask for, the listeners, the memory that
//! a run keeps, and how it ends.
#![tactic(auto)]

pub mod command_line;
mod listeners;
mod memory;
mod mode;
mod version;
mod words;

pub use command_line::ending;
pub use listeners::{FEED_NAME, MAIL_NAME, feed, mail, named};
pub use memory::keep_freed;
pub use mode::Mode;
pub use version::VERSION;
pub use words::words_of;
