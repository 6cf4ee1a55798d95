//! The limits of the registry, each in one place.

/// The most queries or ids that one command lists.
pub const MOST_LISTED: usize = 1024;

/// The most queries that are registered at once.
pub const MOST_LIVE: u64 = 1_000_000;

/// The most commands that a history holds.
pub const MOST_ENTRIES: u64 = 4_294_967_295;

/// Callers are numbered from 1 to this.
pub const MOST_CALLERS: u32 = 64;

/// The most articles of a match line, and of a batch of a trace.
pub const MOST_ARTICLES: usize = 256;

/// How many neighbouring segments of one level are merged into one. The level of a length is how many divisions by it,
/// rounding down, bring the length below it.
pub const RUN_LENGTH: usize = 4;
