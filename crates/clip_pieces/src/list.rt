//! `SharedList` and its methods.
ghost use Rattle.std.specs.Prelude.{◌≡◌, ◌<◌, ◌-◌, ◌==◌, [], ◌∷◌, ◌++◌, length, OnOk, OnErr, slice_get, slice_set};
ghost use Rattle.std.specs.Option.{option_copied};

use crate::block::Block;
use crate::exact::Exact;
use crate::parts::Parts;
use clip_words::NoMemory;
use std::alloc::{AllocError, Global};
use std::marker::Model;

/// A list whose items lie in shared pieces: 128 items to a piece, and 128 pieces to a block. Contracts see the list of
/// the items.
///
/// A clone shares all blocks, and with them all pieces and items: it takes one counted reference for each 16,384 items.
/// A write copies just the block and the piece that it touches, each where another list shares it, and is in place
/// where none does.
pub struct SharedList<T: Exact> {
    blocks: Parts<T, Block<T>>,
}

impl<T: Exact> Drop for SharedList<T> {
    fn drop(self) {
        let SharedList { blocks: _ } = self;
    }
}

impl<T: Exact> Model for SharedList<T> {
    ghost use Rattle.std.specs.Prelude.{List};
    ghost use Rattle.std.specs.Coded.{coded_list};

    ghost Value = { List T };

    ghost coded = { coded_list T.code };

    ghost view = { λ list. list.blocks };
}

impl<T: Exact> Clone for SharedList<T> {
    ghost is_clone = { λ list copy. copy ≡ list };

    fn clone(&self) -> Result<SharedList<T>, AllocError> {
        Ok(SharedList {
            blocks: self.blocks.clone()?,
        })
    }
}

impl<T: Exact> SharedList<T> {
    /// An empty list. Takes no memory.
    pub fn new(alloc: Global) -> SharedList<T>
        ensures { result ≡ [] }
    {
        SharedList {
            blocks: Parts::new(alloc),
        }
    }

    /// How many items there are. Takes no memory. Constant time.
    pub fn len(&self) -> usize
        ensures { result ≡ length self.now }
    {
        self.blocks.len()
    }

    /// Whether there is no item. Takes no memory. Constant time.
    pub fn is_empty(&self) -> bool
        ensures { result ≡ (length self.now == 0) }
    {
        self.len() == 0
    }

    /// The item at a place from 0, or `None` past the end. Takes no memory. Constant time.
    pub fn get(&self, place: usize) -> Option<&T>
        ensures { option_copied result ≡ slice_get self.now place }
    {
        self.blocks.get(place)
    }

    /// The last item, or `None` where there is none. Takes no memory. Constant time.
    pub fn last(&self) -> Option<&T>
        ensures { option_copied result ≡ slice_get self.now (length self.now - 1) }
    {
        if self.is_empty() {
            return None;
        }
        self.get(self.len() - 1)
    }

    /// Puts an item behind the last one, or gives `NoMemory` where an allocation failed, with the list as it was.
    ///
    /// Cost: constant time on average where no other list shares the last piece, and else a copy of at most 128 items
    /// and 128 references. Each 16,384 items take one more reference, and at times all such references are moved.
    pub fn push(&mut self, item: T) -> Result<(), NoMemory>
        ensures ok { OnOk result (self.new ≡ self.old ++ item ∷ []) }
        ensures err { OnErr result (self.new ≡ self.old) }
    {
        self.blocks.push(item)
    }

    /// Puts an item in the place of another, or gives `NoMemory` where an allocation failed, with the list as it was.
    ///
    /// Cost: constant time where no other list shares the piece, and else a copy of at most 128 items and 128
    /// references.
    pub fn set(&mut self, place: usize, item: T) -> Result<(), NoMemory>
        requires { place < length self.old }
        ensures ok { OnOk result (self.new ≡ slice_set self.old place item) }
        ensures err { OnErr result (self.new ≡ self.old) }
    {
        self.blocks.set(place, item)
    }
}

impl SharedList<u64> {
    /// Lets the piece of a place and the one behind it lie where the pieces before them do, if they hold the same
    /// numbers, so that a long run of one number takes the memory of a piece for each 16,384 places. It changes no
    /// number, and what it cannot share stays as it was.
    ///
    /// Cost: two pieces are compared with those before them, each up to the first number that differs.
    pub(crate) fn fold(&mut self, place: usize)
        ensures { self.new ≡ self.old }
    {
        self.blocks.fold(place);
    }
}
