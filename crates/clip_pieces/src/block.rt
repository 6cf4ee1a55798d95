//! The middle one of the three levels of a list.
ghost use Rattle.std.specs.Prelude.{◌≡◌};
ghost use Rattle.std.proofs.Common.{arith};

use crate::exact::Exact;
use crate::part::{PIECE, Part};
use crate::parts::Parts;
use crate::piece::Piece;
use clip_words::NoMemory;
use std::alloc::{AllocError, Global};
use std::marker::Model;

/// A part whose items lie in shared pieces.
#[derive(Drop)]
pub(crate) struct Block<T: Exact> {
    pieces: Parts<T, Piece<T>>,
}

impl<T: Exact> Model for Block<T> {
    ghost use Rattle.std.specs.Prelude.{List};
    ghost use Rattle.std.specs.Coded.{coded_list};

    ghost Value = { List T };

    ghost coded = { coded_list T.code };

    ghost view = { λ block. block.pieces };
}

impl<T: Exact> Clone for Block<T> {
    ghost is_clone = { λ block copy. copy ≡ block };

    fn clone(&self) -> Result<Block<T>, AllocError> {
        Ok(Block {
            pieces: self.pieces.clone()?,
        })
    }
}

impl Block<u64> {
    /// Lets the piece of a place and the one behind it lie where the pieces before them do, if they hold the same
    /// numbers. It changes no number.
    pub(crate) fn fold(&mut self, place: usize)
        ensures { self.new ≡ self.old }
    {
        let piece = place / PIECE;
        self.pieces.share_before(piece);
        if piece < PIECE {
            self.pieces.share_before(piece + 1);
        }
    }
}

impl<T: Exact> Exact for Block<T> {
    ghost exact = { λ _ _ same. same };
}

impl<T: Exact> Part<T> for Block<T> {
    const FULL: usize = PIECE * PIECE;

    ghost FULL = { 16384 };

    ghost items = { λ block. block };

    ghost has_items = { omega arith };

    fn of_one(alloc: Global, item: T) -> Result<Block<T>, NoMemory> {
        let mut pieces = Parts::new(alloc);
        pieces.push(item)?;
        Ok(Block { pieces })
    }

    fn len(&self) -> usize {
        self.pieces.len()
    }

    fn get(&self, place: usize) -> Option<&T> {
        self.pieces.get(place)
    }

    fn push(&mut self, item: T) -> Result<(), NoMemory> {
        self.pieces.push(item)
    }

    fn set(&mut self, place: usize, item: T) -> Result<(), NoMemory> {
        self.pieces.set(place, item)
    }
}
