//! How far a clause has been read.

/// What of a clause has been read.
#[derive(Clone, Copy, PartialEq, Eq)]
pub enum Stage {
    /// Nothing.
    Fresh,
    /// A sign.
    AfterSign,
    /// A field, and perhaps a sign before it.
    AfterField,
}
