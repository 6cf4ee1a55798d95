//! How many positions were read.
ghost use Rattle.std.specs.Prelude.{◌≡◌, ◌+◌, [], IfOk, length, unwrap_or, slice_get};

use clip_pieces::PackedLists;
use clip_words::NoMemory;
use std::marker::Model;

/// How many positions were read of those under the keys of segments' queries, each once for each list of a key that it
/// stands in. Nothing but a look at such a list, as of `SegmentReading::of` or `SegmentReading::sharer_marks`, counts.
/// Contracts see the count.
#[derive(Drop)]
pub struct PositionsRead {
    count: u64,
}

impl Model for PositionsRead {
    ghost use Rattle.std.specs.Prelude.{ℕ};

    ghost Value = { ℕ };

    ghost view = { λ r. r.count };
}

impl PositionsRead {
    /// None yet.
    pub fn none() -> PositionsRead
        ensures { result ≡ 0 }
    {
        PositionsRead { count: 0 }
    }

    /// How many they are. Constant time.
    pub fn count(&self) -> u64
        ensures { result ≡ self.now }
    {
        self.count
    }

    /// The list of a number, an empty one past the last, whose positions are counted.
    pub(crate) fn list<'a>(
        &mut self,
        lists: &'a PackedLists<u32>,
        number: u32,
    ) -> Result<&'a [u32], NoMemory>
        ensures list { IfOk result (λ list. list.now ≡ unwrap_or (slice_get lists.now number) []) }
        ensures counted { IfOk result (λ list. self.new ≡ self.old + length list.now) }
    {
        let list = lists.get(number as usize);
        let Some(count) = self.count.checked_add(list.len() as u64) else {
            return Err(NoMemory);
        };
        self.count = count;
        Ok(list)
    }
}
