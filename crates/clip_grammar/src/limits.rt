//! The limits of a query.

/// The most bytes of a query's text.
pub const MOST_TEXT_BYTES: usize = 65_536;

/// The most nodes of a query's tree, its groups among them.
pub const MOST_NODES: usize = 4_096;

/// The most parentheses of a query's text that may be open at once.
pub const MOST_OPEN: usize = 64;
