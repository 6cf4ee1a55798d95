//! Queries with their weights.
ghost use Rattle.std.specs.Prelude.{◌≡◌};
ghost use Rattle.clip_grammar.specs.Tree.{tree_of};
ghost use Rattle.clip_extract.specs.Extraction.{query_weight};

use crate::extraction::weight;
use clip_grammar::query::Query;

/// A query with its weight.
#[derive(Clone, Copy)]
pub(crate) struct Weighed<'a> {
    pub(crate) query: &'a Query,
    pub(crate) weight: u64,
    ghost own: { weight ≡ query_weight (tree_of query.now) },
}

impl<'a> Weighed<'a> {
    /// This query with its weight.
    pub(crate) fn of(query: &'a Query) -> Weighed<'a>
        ensures { result.query.now ≡ query.now }
    {
        Weighed {
            query,
            weight: weight(query),
        }
    }
}
