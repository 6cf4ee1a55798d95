//! Traces: events in any order, played by one thread, each with the answer that is due to it; and as JSON lines.
#![tactic(auto)]

mod batch;
mod event;
mod limits;
mod trace_answer;
mod trace_line;
mod trace_operation;
mod trace_session;
mod tracer;

pub use event::{Event, TraceAnswer};
pub use limits::{MOST_BATCHES, MOST_MERGES};
pub use trace_session::run_trace;
pub use tracer::{Tracer, trace};
