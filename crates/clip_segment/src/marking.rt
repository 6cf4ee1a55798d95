//! Sets of positions.
ghost use Rattle.std.specs.Prelude.{◌≡◌, ◌+◌, ◌<◌, ◌||◌, ◌==◌, ℕ, [], IfOk, OnOk, false, flat_map, length, nat_eq};
ghost use Rattle.std.specs.Prelude.{unwrap_or, slice_index_or};
ghost use Rattle.std.specs.List.{list_any, slice_get, sum_by};

use crate::positions_read::PositionsRead;
use clip_pieces::{Marks, PackedLists};
use clip_words::NoMemory;
use std::alloc::Global;

/// Marks these positions, of which those from the bound of the marks on mark nothing.
pub(crate) fn mark_positions(positions: &[u32], marks: &mut Marks)
    ensures long { length marks.new ≡ length marks.old }
    ensures marked { (position : ℕ) → position < length marks.old → slice_index_or marks.new position false
        ≡ (slice_index_or marks.old position false || list_any (λ marked. position == marked) positions.now) }
{
    for position in positions {
        marks.mark(*position as usize);
    }
}

/// The positions below a bound that stand in the lists of these numbers. What is read of the lists is counted.
pub(crate) fn marks_under(
    alloc: Global,
    lists: &PackedLists<u32>,
    numbers: &[u32],
    bound: usize,
    read: &mut PositionsRead,
) -> Result<Marks, NoMemory>
    ensures long { IfOk result (λ marks. length marks ≡ bound) }
    ensures marked { IfOk result (λ marks. (position : ℕ) → position < bound → slice_index_or marks position false
        ≡ list_any (nat_eq position) (flat_map (λ number. unwrap_or (slice_get lists.now number) []) numbers.now)) }
    ensures counted { OnOk result (read.new
        ≡ read.old + sum_by (λ number. length (unwrap_or (slice_get lists.now number) [])) numbers.now) }
{
    let mut marks = Marks::new(alloc, bound)?;
    for number in numbers {
        mark_positions(read.list(lists, *number)?, &mut marks);
    }
    Ok(marks)
}
