//! A list in shared parts.
ghost use Rattle.std.specs.Prelude.{◌≡◌, ◌<◌, ◌-◌, [], ◌∷◌, ◌++◌, length, IfOk, OnOk, OnErr, slice_get, slice_set};
ghost use Rattle.std.specs.Option.{option_copied};

use crate::block::Block;
use crate::exact::Exact;
use crate::part::{Part, fold_in, push_to, set_in};
use crate::piece::Piece;
use crate::shared::Shared;
use clip_words::NoMemory;
use std::alloc::{AllocError, Global};
use std::marker::{Model, PhantomData};

/// A list whose items lie in shared parts, each of them full but the last.
#[derive(Drop)]
pub(crate) struct Parts<T, P: Part<T>> {
    parts: Vec<Shared<P>>,
    len: usize,
    of: PhantomData<T>,
}

impl<T, P: Part<T>> Model for Parts<T, P> {
    ghost use Rattle.std.specs.Prelude.{◌≡◌, List, length, map};
    ghost use Rattle.std.specs.Coded.{coded_list};
    ghost use Rattle.clip_pieces.specs.Pieces.{AreFilled, joined};

    ghost Value = { List T };

    ghost coded = { coded_list T.code };

    ghost view = { λ list. joined (map P.items list.parts.items) };

    ghost invariant = { λ list. AreFilled P.FULL (map P.items list.parts.items)
        × (list.len ≡ length (joined (map P.items list.parts.items))) };
}

impl<T, P: Part<T>> Clone for Parts<T, P> {
    ghost is_clone = { λ list copy. copy ≡ list };

    fn clone(&self) -> Result<Parts<T, P>, AllocError> {
        Ok(Parts {
            parts: self.parts.clone()?,
            len: self.len,
            of: PhantomData,
        })
    }
}

impl<T: Exact, P: Part<T>> Parts<T, P> {
    /// No items, and no parts. Takes no memory.
    pub(crate) fn new(alloc: Global) -> Parts<T, P>
        ensures { result ≡ [] }
    {
        Parts {
            parts: Vec::new(alloc),
            len: 0,
            of: PhantomData,
        }
    }

    /// How many items there are. Constant time.
    pub(crate) fn len(&self) -> usize
        ensures { result ≡ length self.now }
    {
        self.len
    }

    /// The item at a place from 0, or `None` past the end. Cost: that of `get` of a part.
    pub(crate) fn get(&self, place: usize) -> Option<&T>
        ensures { option_copied result ≡ slice_get self.now place }
    {
        if place >= self.len {
            return None;
        }
        let part = &self.parts[place / P::FULL];
        part.value().get(place % P::FULL)
    }

    /// Puts an item into the last part, or into a new one where each is full, or gives `NoMemory` with the list as it
    /// was.
    pub(crate) fn push(&mut self, item: T) -> Result<(), NoMemory>
        ensures ok { OnOk result (self.new ≡ self.old ++ item ∷ []) }
        ensures err { OnErr result (self.new ≡ self.old) }
    {
        let Some(len) = self.len.checked_add(1) else {
            return Err(NoMemory);
        };
        if self.len % P::FULL == 0 {
            let alloc = *self.parts.allocator();
            let part = P::of_one(alloc, item)?;
            self.parts.push(Shared::new(alloc, part)?)?;
        } else {
            let last = self.parts.len() - 1;
            push_to(&mut self.parts[last], item)?;
        }
        self.len = len;
        Ok(())
    }

    /// Puts an item in the place of another, or gives `NoMemory` with the list as it was.
    pub(crate) fn set(&mut self, place: usize, item: T) -> Result<(), NoMemory>
        requires { place < length self.old }
        ensures ok { OnOk result (self.new ≡ slice_set self.old place item) }
        ensures err { OnErr result (self.new ≡ self.old) }
    {
        let part = &mut self.parts[place / P::FULL];
        set_in(part, place % P::FULL, item)
    }
}

impl Parts<u64, Piece<u64>> {
    /// Lets a piece lie where the piece before it does, if both hold the same numbers. It changes no number. Cost: that
    /// of comparing the two.
    pub(crate) fn share_before(&mut self, piece: usize)
        ensures { self.new ≡ self.old }
    {
        if piece == 0 || piece >= self.parts.len() {
            return;
        }
        let before = &self.parts[piece - 1];
        if self.parts[piece].value().is_same(before.value())
            && let Ok(before) = before.clone()
        {
            self.parts[piece] = before;
        }
    }
}

impl Parts<u64, Block<u64>> {
    /// Lets the pieces about a place lie where equal neighbours do. It changes no number.
    pub(crate) fn fold(&mut self, place: usize)
        ensures { self.new ≡ self.old }
    {
        let block = place / Block::<u64>::FULL;
        if block < self.parts.len() {
            fold_in(&mut self.parts[block], place % Block::<u64>::FULL);
        }
    }
}
