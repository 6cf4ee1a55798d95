//! The program that keeps a run's changes in a journal, but for its `main`: it does what its words ask for over the
//! standard streams, and ends with a status.
//!
//! The kit has no signals: the end of the input is the end, and a signal ends the program as a stop of the machine
//! does.
#![tactic(auto)]

mod ending;
mod fault;
mod folder;
mod live;
mod looking;
mod opening;
mod playing;
mod printing;
mod serving;
mod shortening;
mod streams;
mod words;

pub use fault::Fault;
pub use live::live_lines;
pub use looking::print_live;
pub use opening::open_short;
pub use playing::play;
pub use printing::print_lines;
pub use serving::{Served, Serving, serve_store};
pub use shortening::Shortening;
pub use words::{Asked, Look, Task, read_words};
