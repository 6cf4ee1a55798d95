//! The index that segments have: the labels of their entries beside an index over their queries.
ghost use Rattle.std.specs.Prelude.{◌≡◌, ◌≤◌, IfOk, false, length, map, slice_index_or};
ghost use Rattle.std.specs.Arc.{arc_value};
ghost use Rattle.std.specs.List.{slice_get};
ghost use Rattle.std.specs.Option.{option_copied};
ghost use Rattle.clip_grammar.specs.Tree.{tree_of};
ghost use Rattle.clip_indexed.specs.declared.segment.TheConstants.{MOST_POSITIONS};
ghost use Rattle.clip_segment.specs.Index.{IsIndexOf};
ghost use Rattle.clip_segment.specs.Segment.{trees_of};

use crate::labels::Labels;
use crate::query_index::QueryIndex;
use clip_grammar::query::Query;
use clip_indexed::Index;
use clip_standing::Entry;
use clip_words::NoMemory;
use std::alloc::Global;
use std::sync::Arc;

/// An index over entries: over their queries, with the labels of the entries beside it, by which none of them is looked
/// at. Neither the queries nor the entries are kept. Contracts say of which entries it is the index
/// (`IsLabelledIndexOf`).
#[derive(Debug, Drop)]
pub struct LabelledIndex {
    pub(crate) labels: Labels,
    pub(crate) queries: QueryIndex,
}

/// The queries of these entries: as they were read where nobody took them before, and else read again.
fn queries_of(alloc: Global, entries: &[Arc<Entry>]) -> Result<Vec<Query>, NoMemory>
    ensures { IfOk result (λ queries. map tree_of queries.items ≡ trees_of (map arc_value entries.now)) }
{
    let mut queries = Vec::with_capacity(alloc, entries.len())?;
    for entry in entries {
        queries.push(entry.standing().take_query(alloc)?)?;
    }
    Ok(queries)
}

/// The index over the queries of these entries; the queries aren't kept.
fn index_of(alloc: Global, entries: &[Arc<Entry>]) -> Result<QueryIndex, NoMemory>
    requires { length entries.now ≤ MOST_POSITIONS }
    ensures { IfOk result (λ index. IsIndexOf (trees_of (map arc_value entries.now)) index) }
{
    let queries = queries_of(alloc, entries)?;
    QueryIndex::of(alloc, &queries)
}

/// The indexes over queries of these.
fn indexes_of<'a>(
    alloc: Global,
    sources: &[&'a LabelledIndex],
) -> Result<Vec<&'a QueryIndex>, NoMemory>
    ensures { IfOk result (λ indexes. map (λ i. i.now) indexes.items ≡ map (λ s. s.now.queries) sources.now) }
{
    let mut indexes = Vec::with_capacity(alloc, sources.len())?;
    for source in sources {
        indexes.push(&source.queries)?;
    }
    Ok(indexes)
}

impl Index for LabelledIndex {
    ghost use Rattle.clip_segment.specs.Steps.LabelledView.{IsLabelledIndexOf};

    ghost is_of = { IsLabelledIndexOf };

    /// The index over these entries, of which there are at most `MOST_POSITIONS`.
    ///
    /// `NoMemory` where an allocation failed, and where their queries have more than 4,294,967,295 terms or as many
    /// bytes of ids. Cost: the reading of their texts, an extraction of each query's keys and second keys, a sort of
    /// the words of all and of the keys that are no words, a binary search for each key and each word, and a copy of
    /// each id.
    fn of(alloc: Global, entries: &[Arc<Entry>]) -> Result<LabelledIndex, NoMemory> {
        Ok(LabelledIndex {
            labels: Labels::of(alloc, entries)?,
            queries: index_of(alloc, entries)?,
        })
    }

    /// The index over the kept entries of several indexes, in order. `kept` has a list of flags for each index, and in
    /// it a flag for each of its entries; at most `MOST_POSITIONS` flags are set.
    ///
    /// `NoMemory` where an allocation failed, and where the kept queries have more than 4,294,967,295 terms or as many
    /// bytes of ids. Cost: a comparison for each term of each index and of those before it; a step for each flag and
    /// each position under a term; and for each kept query a step for each word and each leaf, and a copy of its id. No
    /// query is looked at and no text is copied but ids and ends of ranges.
    fn select(
        alloc: Global,
        sources: &[&LabelledIndex],
        kept: &[Vec<bool>],
    ) -> Result<LabelledIndex, NoMemory> {
        let indexes = indexes_of(alloc, sources)?;
        Ok(LabelledIndex {
            labels: Labels::kept(alloc, sources, kept)?,
            queries: QueryIndex::select(alloc, &indexes, kept)?,
        })
    }
}

impl LabelledIndex {
    /// The id of the query of the entry at a position from 0, or `None` past the end. Takes no memory. Constant time.
    pub(crate) fn id(&self, position: u32) -> Option<&str>
        ensures { option_copied result ≡ slice_get self.now.labels.ids position }
    {
        self.labels.ids.get(position as usize)
    }

    /// Whether the query of the entry at a position from 0 has a listener; none has one past the end. Takes no memory.
    /// Constant time.
    pub(crate) fn has_listener(&self, position: u32) -> bool
        ensures { result ≡ slice_index_or self.now.labels.heard.items position false }
    {
        match self.labels.heard.get(position as usize) {
            Some(is_heard) => *is_heard,
            None => false,
        }
    }
}
