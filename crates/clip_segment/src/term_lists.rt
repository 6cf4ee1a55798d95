//! Lists of positions for each term, while an index is made.
ghost use Rattle.std.specs.Prelude.{◌≡◌, ◌<◌, [], ℕ, IfOk, false, map, flat_map, replicate, length, nat_eq};
ghost use Rattle.std.specs.Prelude.{vec_items, slice_index_or};
ghost use Rattle.std.specs.List.{list_any};

use crate::marking::mark_positions;
use clip_pieces::{Marks, PackedLists};
use clip_words::NoMemory;
use std::alloc::Global;

/// For each term two lists of positions of queries: of those that have it as a key, and of those that have it as a
/// second key.
#[derive(Drop)]
pub(crate) struct TermLists {
    pub(crate) positions: Vec<Vec<u32>>,
    pub(crate) seconds: Vec<Vec<u32>>,
}

impl TermLists {
    /// Empty lists for so many terms.
    pub(crate) fn empty(alloc: Global, count: usize) -> Result<TermLists, NoMemory>
        ensures positions { IfOk result (λ lists. map vec_items lists.positions.items ≡ replicate count []) }
        ensures seconds { IfOk result (λ lists. map vec_items lists.seconds.items ≡ replicate count []) }
    {
        Ok(TermLists {
            positions: empty_lists(alloc, count)?,
            seconds: empty_lists(alloc, count)?,
        })
    }
}

/// So many empty lists.
fn empty_lists(alloc: Global, count: usize) -> Result<Vec<Vec<u32>>, NoMemory>
    ensures { IfOk result (λ lists. map vec_items lists.items ≡ replicate count []) }
{
    let mut lists = Vec::with_capacity(alloc, count)?;
    for _ in 0..count {
        lists.push(Vec::new(alloc))?;
    }
    Ok(lists)
}

/// These lists in one buffer.
pub(crate) fn pack_lists(alloc: Global, lists: &[Vec<u32>]) -> Result<PackedLists<u32>, NoMemory>
    ensures { IfOk result (λ packed. packed ≡ map vec_items lists.now) }
{
    let mut packed = PackedLists::new(alloc);
    for list in lists {
        packed.push(list)?;
    }
    Ok(packed)
}

/// The positions below a bound that stand in one of these lists.
pub(crate) fn marks_of(
    alloc: Global,
    lists: &PackedLists<u32>,
    bound: usize,
) -> Result<Marks, NoMemory>
    ensures long { IfOk result (λ marks. length marks ≡ bound) }
    ensures marked { IfOk result (λ marks. (position : ℕ) → position < bound → slice_index_or marks position false
        ≡ list_any (nat_eq position) (flat_map (λ list. list) lists.now)) }
{
    let mut marks = Marks::new(alloc, bound)?;
    for number in 0..lists.len() {
        mark_positions(lists.get(number), &mut marks);
    }
    Ok(marks)
}
