//! The cause of a refusal.

use crate::wrong::Wrong;
use clip_protocol::Refusal;

/// Where in a line something is wrong.
#[derive(Drop)]
pub enum Place {
    /// At this byte, from 0.
    Byte(usize),
    /// At the member of this path, as `op`, `queries[0].id` or `articles[2].fields.lang`; at the whole value, where the
    /// path is empty.
    Member(String),
}

/// Why a line is refused.
#[derive(Drop)]
pub struct LineCause {
    /// The refusal that the program answers.
    pub refusal: Refusal,
    /// Where the line is wrong.
    pub place: Place,
    /// What is wrong there.
    pub wrong: Wrong,
}
