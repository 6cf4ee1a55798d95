//! The forms of replies.

/// The form of the replies.
#[derive(Clone, Copy)]
pub enum Form {
    /// JSON lines.
    Json,
    /// A few lines of text for people.
    Plain,
}
