//! What a longer list is made of.
ghost use Rattle.std.specs.Prelude.{◌≡◌, ℕ, ◌<◌, List, [], ◌∷◌, ◌++◌, length, IfOk, OnOk, OnErr, slice_get, slice_set};
ghost use Rattle.std.specs.Option.{option_copied};

use crate::block::Block;
use crate::exact::Exact;
use crate::shared::Shared;
use clip_words::NoMemory;
use std::alloc::Global;
use std::sync::Arc;

/// How many items a full piece has, and how many pieces a full block has.
pub(crate) const PIECE: usize = 128;

/// A list of items that may be a part of a longer one.
pub(crate) trait Part<T>: Exact {
    /// How many items a full part has.
    const FULL: usize;

    ghost FULL: { ℕ };

    ghost items: { Self → List T };

    /// A list of one item, or `NoMemory` where an allocation failed.
    fn of_one(alloc: Global, item: T) -> Result<Self, NoMemory>
        ensures { IfOk result (λ part. items part ≡ item ∷ []) };

    /// How many items there are.
    fn len(&self) -> usize
        ensures { result ≡ length (items self.now) };

    /// The item at a place from 0, or `None` past the end.
    fn get(&self, place: usize) -> Option<&T>
        ensures { option_copied result ≡ slice_get (items self.now) place };

    /// Puts an item behind the last one, or gives `NoMemory` with the items as they were.
    fn push(&mut self, item: T) -> Result<(), NoMemory>
        ensures ok { OnOk result (items self.new ≡ items self.old ++ item ∷ []) }
        ensures err { OnErr result (items self.new ≡ items self.old) };

    /// Puts an item in the place of another, or gives `NoMemory` with the items as they were.
    fn set(&mut self, place: usize, item: T) -> Result<(), NoMemory>
        requires { place < length (items self.old) }
        ensures ok { OnOk result (items self.new ≡ slice_set (items self.old) place item) }
        ensures err { OnErr result (items self.new ≡ items self.old) };

    ghost has_items: { 0 < FULL };
}

/// Puts an item behind the last one of a part, in a copy of the part where it is shared.
pub(crate) fn push_to<T: Exact, P: Part<T>>(part: &mut Shared<P>, item: T) -> Result<(), NoMemory>
    ensures ok { OnOk result (P.items part.new ≡ P.items part.old ++ item ∷ []) }
    ensures err { OnErr result (P.items part.new ≡ P.items part.old) }
{
    Arc::make_mut(&mut part.arc)?.push(item)
}

/// Puts an item in the place of another one of a part, in a copy of the part where it is shared.
pub(crate) fn set_in<T: Exact, P: Part<T>>(
    part: &mut Shared<P>,
    place: usize,
    item: T,
) -> Result<(), NoMemory>
    requires { place < length (P.items part.old) }
    ensures ok { OnOk result (P.items part.new ≡ slice_set (P.items part.old) place item) }
    ensures err { OnErr result (P.items part.new ≡ P.items part.old) }
{
    Arc::make_mut(&mut part.arc)?.set(place, item)
}

/// Lets the pieces about a place of a block lie where equal neighbours do. It changes no number.
pub(crate) fn fold_in(block: &mut Shared<Block<u64>>, place: usize)
    ensures { block.new ≡ block.old }
{
    if let Ok(block) = Arc::make_mut(&mut block.arc) {
        block.fold(place);
    }
}
