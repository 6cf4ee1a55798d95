//! The form of replies to matches.

/// What a reply to a match shows of each article.
#[derive(Clone, Copy, Debug, PartialEq, Eq)]
pub enum Form {
    /// The ids of the queries that hold of it.
    Plain,
    /// Also, for each of these queries, where in the article it holds.
    WithHits,
}
