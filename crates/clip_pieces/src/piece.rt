//! The lowest one of the three levels of a list.
ghost use Rattle.std.specs.Prelude.{◌≡◌, IsTrue};
ghost use Rattle.std.proofs.Common.{arith};

use crate::exact::Exact;
use crate::part::{PIECE, Part};
use clip_words::NoMemory;
use std::alloc::{AllocError, Global};
use std::marker::Model;

/// A part whose items lie side by side.
#[derive(Drop)]
pub(crate) struct Piece<T> {
    items: Vec<T>,
}

impl<T> Model for Piece<T> {
    ghost use Rattle.std.specs.Prelude.{List};
    ghost use Rattle.std.specs.Coded.{coded_list};

    ghost Value = { List T };

    ghost coded = { coded_list T.code };

    ghost view = { λ piece. piece.items.items };
}

impl<T: Exact> Clone for Piece<T> {
    ghost is_clone = { λ piece copy. copy ≡ piece };

    fn clone(&self) -> Result<Piece<T>, AllocError> {
        let mut items = Vec::with_capacity(*self.items.allocator(), PIECE)?;
        items.extend_with_clones(&self.items)?;
        Ok(Piece { items })
    }
}

impl Piece<u64> {
    /// Whether both hold the same numbers. Cost: the numbers up to the first that differs.
    pub(crate) fn is_same(&self, other: &Piece<u64>) -> bool
        ensures { IsTrue result → self.now ≡ other.now }
    {
        self.items == other.items
    }
}

impl<T: Exact> Exact for Piece<T> {
    ghost exact = { λ _ _ same. same };
}

impl<T: Exact> Part<T> for Piece<T> {
    const FULL: usize = PIECE;

    ghost FULL = { 128 };

    ghost items = { λ piece. piece };

    ghost has_items = { omega arith };

    fn of_one(alloc: Global, item: T) -> Result<Piece<T>, NoMemory> {
        let mut items = Vec::with_capacity(alloc, PIECE)?;
        items.push(item)?;
        Ok(Piece { items })
    }

    fn len(&self) -> usize {
        self.items.len()
    }

    fn get(&self, place: usize) -> Option<&T> {
        self.items.get(place)
    }

    fn push(&mut self, item: T) -> Result<(), NoMemory> {
        self.items.push(item)?;
        Ok(())
    }

    fn set(&mut self, place: usize, item: T) -> Result<(), NoMemory> {
        self.items[place] = item;
        Ok(())
    }
}
