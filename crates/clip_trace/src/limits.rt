//! The limits of a trace.

/// The most merges that are begun at once.
pub const MOST_MERGES: usize = 16;

/// The most batches that are open at once.
pub const MOST_BATCHES: usize = 32;
