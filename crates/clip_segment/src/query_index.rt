//! Indexes.
ghost use Rattle.std.specs.Prelude.{◌≡◌, ◌≤◌, IfOk, List, length, map, vec_items};
ghost use Rattle.std.specs.List.{AllZip};
ghost use Rattle.clip_grammar.specs.Tree.{Tree, tree_of};
ghost use Rattle.clip_extract.specs.Keys.{key_of};
ghost use Rattle.clip_extract.specs.Extraction.{query_keys};
ghost use Rattle.clip_segment.specs.Index.{IsIndexOf, query_positions_with, terms_of};
ghost use Rattle.clip_segment.specs.Steps.Parts.{AreMadeOf};
ghost use Rattle.clip_indexed.specs.Selecting.{AreFlagsOf, count_set, kept_of};
ghost use Rattle.clip_indexed.specs.declared.segment.TheConstants.{MOST_POSITIONS};

use crate::building::{lists_of, plans_of, terms_of, with_keys};
use crate::index_selecting::{sources_of, taken_lists};
use crate::kept_terms::kept_terms;
use crate::term_lists::{marks_of, pack_lists};
use clip_extract::Key;
use clip_grammar::query::Query;
use clip_pieces::{Marks, PackedLists};
use clip_plan::Plans;
use clip_terms::Terms;
use clip_words::NoMemory;
use std::alloc::Global;
use std::marker::Model;

/// An index over queries: by their keys, by their second keys, and by what they ask. The queries themselves are not
/// kept. Contracts see its terms, the positions under each as a key and as a second key, for each query whether it has
/// second keys, and the plans, and say of which queries it is the index (`IsIndexOf`).
#[derive(Debug, Drop)]
pub(crate) struct QueryIndex {
    pub(crate) terms: Terms,
    pub(crate) positions: PackedLists<u32>,
    pub(crate) seconds: PackedLists<u32>,
    pub(crate) needs: Marks,
    pub(crate) plans: Plans,
}

impl Model for QueryIndex {
    ghost use Rattle.std.specs.Coded.{codes};
    ghost use Rattle.clip_grammar.specs.TreeCode.{tree_code};
    ghost use Rattle.clip_segment.specs.Index.{IndexValue};
    ghost use Rattle.clip_segment.specs.Steps.IndexView.{index_of};

    ghost Value = { IndexValue };

    ghost coded = { Prim.hlevel (codes, tree_code) };

    ghost view = { index_of };
}

/// The index of these terms, positions and plans, which are those of some queries.
fn made_index(
    alloc: Global,
    terms: Terms,
    positions: PackedLists<u32>,
    seconds: PackedLists<u32>,
    plans: Plans,
) -> Result<QueryIndex, NoMemory>
    ensures { IfOk result (λ index. (trees : List Tree) → length trees ≤ MOST_POSITIONS → terms ≡ terms_of trees
        → AreMadeOf terms trees positions seconds plans → IsIndexOf trees index) }
{
    let needs = marks_of(alloc, &seconds, plans.len())?;
    Ok(QueryIndex {
        terms,
        positions,
        seconds,
        needs,
        plans,
    })
}

impl QueryIndex {
    /// The index of these queries, of which there are at most `MOST_POSITIONS`.
    ///
    /// `NoMemory` where an allocation failed, and where the queries have more than 4,294,967,295 terms. Cost: an
    /// extraction of each query's keys and second keys, a sort of the words of all and of the keys that are no words,
    /// and a binary search for each key and each word.
    /// No text is copied but ends of ranges.
    pub(crate) fn of(alloc: Global, queries: &[Query]) -> Result<QueryIndex, NoMemory>
        requires { length queries.now ≤ MOST_POSITIONS }
        ensures { IfOk result (λ index. IsIndexOf (map tree_of queries.now) index) }
    {
        let keyed = with_keys(alloc, queries)?;
        let terms = terms_of(alloc, &keyed)?;
        let lists = lists_of(alloc, &terms, &keyed)?;
        let plans = plans_of(alloc, &terms, &keyed)?;
        let positions = pack_lists(alloc, &lists.positions)?;
        let seconds = pack_lists(alloc, &lists.seconds)?;
        made_index(alloc, terms, positions, seconds, plans)
    }

    /// The index of the kept queries of several indexes, in order. `kept` has a list of flags for each index, and in it
    /// a flag for each of its queries; at most `MOST_POSITIONS` flags are set.
    ///
    /// `NoMemory` where an allocation failed, and where the queries have more than 4,294,967,295 terms. Cost: for each
    /// index a comparison for each term that kept queries of it and of those before it ask for; a binary search for
    /// each term; a step for each flag and each position; and for each kept query a step for each word and each leaf.
    /// No key is extracted, and no text is copied but ends of ranges.
    pub(crate) fn select(
        alloc: Global,
        indexes: &[&QueryIndex],
        kept: &[Vec<bool>],
    ) -> Result<QueryIndex, NoMemory>
        requires { count_set (map vec_items kept.now) ≤ MOST_POSITIONS }
        ensures { IfOk result (λ index. (trees : List (List Tree))
            → AllZip IsIndexOf trees (map (λ i. i.now) indexes.now) → AreFlagsOf trees (map vec_items kept.now)
            → IsIndexOf (kept_of trees (map vec_items kept.now)) index) }
    {
        let terms = kept_terms(alloc, indexes, kept)?;
        let mut plans = Plans::new(alloc);
        let sources = sources_of(alloc, &terms, indexes, kept, &mut plans)?;
        let positions = taken_lists(alloc, &terms, &sources, false)?;
        let seconds = taken_lists(alloc, &terms, &sources, true)?;
        made_index(alloc, terms, positions, seconds, plans)
    }

    /// The positions, from 0 and rising, of just the queries that have the key. Takes no memory. Cost: a binary
    /// search among the terms.
    pub(crate) fn with_key(&self, key: &Key) -> &[u32]
        ensures { (trees : List Tree) → IsIndexOf trees self.now
            → result.now ≡ query_positions_with query_keys (key_of key.now) trees }
    {
        match self.terms.number(key) {
            Some(number) => self.positions.get(number as usize),
            None => &[],
        }
    }
}
