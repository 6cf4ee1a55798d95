//! The streams of a run: what it reads from and writes to, lines in, replies on their way out.
#![tactic(auto)]

mod device;
mod fault;
mod flow;
mod form;
mod limits;
mod lines;
mod outbox;

pub use device::{Failed, Sink, Source, StdSink, StdSource};
pub use fault::RunFault;
pub use flow::Flow;
pub use form::Form;
pub use limits::{HELD_LINE_BYTES, MOST_LINE_BYTES, MOST_READS, MOST_WORKERS};
pub use lines::{LineReader, extend_cut, feed_of, lines_read_come_first};
pub use outbox::Outbox;
