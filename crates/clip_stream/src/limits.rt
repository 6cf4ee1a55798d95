//! Limits of a run.

/// The most bytes of a line, its line feed not counted.
pub const MOST_LINE_BYTES: usize = 1_048_576;

/// How many bytes of a line are held at most: one more than a line may have tells that it is too long.
pub const HELD_LINE_BYTES: usize = MOST_LINE_BYTES + 1;

/// The most calls of `read` in a run.
pub const MOST_READS: u64 = 1_099_511_627_776;

/// The most workers of a run.
pub const MOST_WORKERS: u32 = 64;
