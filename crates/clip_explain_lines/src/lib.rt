//! What a query, a text or a line of the protocol is, told as JSON and in sentences for people, and the program that
//! tells it of lines.
#![tactic(auto)]

mod answer;
mod asked;
mod faults;
mod form;
mod keys;
mod lines;
mod pieces;
mod plain;
mod program;
mod queries;
mod refused;
mod remarked;
mod sentence;
mod session;
mod spans;
mod tree;
mod words;
mod writing;

pub use form::Form;
pub use lines::line_text;
pub use program::play;
pub use queries::query_text;
pub use session::explain_lines;
pub use spans::words_text;
