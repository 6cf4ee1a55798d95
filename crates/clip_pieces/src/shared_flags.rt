//! `SharedFlags` and its methods.
ghost use Rattle.std.specs.Prelude.{◌≡◌, ℕ, ◌+◌, ◌<◌, ◌≤◌, ◌*◌, ◌/◌, ◌&&◌, not, false, true, [], ◌∷◌, ◌++◌, length};
ghost use Rattle.std.specs.Prelude.{IfSome, OnOk, OnErr, slice_get, slice_index_or, slice_set};
ghost use Rattle.clip_pieces.specs.Marked.{is_lost};
ghost use Rattle.clip_pieces.specs.Steps.Bits.{bits_of, flags_of, is_set};

use crate::list::SharedList;
use crate::shared::Shared;
use clip_words::NoMemory;
use std::alloc::{AllocError, Global};
use std::marker::Model;
use std::sync::Arc;

/// A list of flags whose bits lie in words of 64 bits, and the words in shared pieces: 8,192 flags to a piece of a
/// kilobyte, and 128 pieces to a block. Contracts see the list of the flags.
///
/// A clone shares all pieces: it takes one counted reference for each 1,048,576 flags. A write copies just the block
/// and the piece that it touches, each where another list shares it, and is in place where none does.
pub struct SharedFlags {
    words: SharedList<u64>,
    len: usize,
}

impl Drop for SharedFlags {
    fn drop(self) {
        let SharedFlags { words: _, len: _ } = self;
    }
}

impl Model for SharedFlags {
    ghost use Rattle.std.specs.Prelude.{Bool, List, take};
    ghost use Rattle.clip_pieces.specs.Steps.Bits.{HoldFlags, flags_of};

    ghost Value = { List Bool };

    ghost view = { λ flags. take flags.len (flags_of flags.words) };

    ghost invariant = { λ flags. HoldFlags flags.len flags.words };
}

impl Clone for SharedFlags {
    ghost is_clone = { λ flags copy. copy ≡ flags };

    fn clone(&self) -> Result<SharedFlags, AllocError> {
        Ok(SharedFlags {
            words: self.words.clone()?,
            len: self.len,
        })
    }
}

/// The word with a bit set or cleared.
fn with_bit(word: u64, bit: usize, flag: bool) -> u64
    requires { bit < 64 }
    ensures { bits_of 64 result ≡ slice_set (bits_of 64 word) bit flag }
{
    let mask = 1 << bit;
    if flag { word | mask } else { word & !mask }
}

/// The word that has the bit of a place, or 0 past the last word.
fn word_at(words: &SharedList<u64>, place: usize) -> u64
    ensures { result ≡ slice_index_or words.now (place / 64) 0 }
{
    words.get(place / 64).copied().unwrap_or(0)
}

/// The bits of a word, from one of them on as the lowest, that are set and not in another word.
fn lost_bits(word: u64, other: u64, bit: usize) -> u64
    requires { bit < 64 }
    ensures within { (place : ℕ) → bit + place < 64
        → is_set result place ≡ (is_set word (bit + place) && not (is_set other (bit + place))) }
    ensures past { (place : ℕ) → 64 ≤ bit + place → is_set result place ≡ false }
{
    (word & !other) >> bit
}

/// Lets the piece of a word without a set bit lie where equal neighbours do. It changes no word.
fn fold_clear(words: &mut SharedList<u64>, word: usize)
    ensures { words.new ≡ words.old }
{
    if words.get(word) == Some(&0) {
        words.fold(word);
    }
}

/// Sets or clears the bit of a place, or gives `NoMemory` with the words as they were. Pieces without a set bit lie in
/// one where they are neighbours.
fn set_bit(words: &mut SharedList<u64>, place: usize, flag: bool) -> Result<(), NoMemory>
    requires { place < 64 * length words.old }
    ensures ok { OnOk result (flags_of words.new ≡ slice_set (flags_of words.old) place flag) }
    ensures err { OnErr result (words.new ≡ words.old) }
{
    let word = with_bit(word_at(words, place), place % 64, flag);
    words.set(place / 64, word)?;
    fold_clear(words, place / 64);
    Ok(())
}

impl SharedFlags {
    /// No flags. Takes no memory.
    pub fn new(alloc: Global) -> SharedFlags
        ensures { result ≡ [] }
    {
        SharedFlags {
            words: SharedList::new(alloc),
            len: 0,
        }
    }

    /// How many flags there are. Takes no memory. Constant time.
    pub fn len(&self) -> usize
        ensures { result ≡ length self.now }
    {
        self.len
    }

    /// The flag at a place from 0, or `None` past the end. Takes no memory. Constant time.
    pub fn get(&self, place: usize) -> Option<bool>
        ensures { result ≡ slice_get self.now place }
    {
        if place >= self.len {
            return None;
        }
        Some(word_at(&self.words, place) >> (place % 64) & 1 == 1)
    }

    /// The first place, from `from` on, whose flag is set here and not in other flags, of which those past the end
    /// count as not set. `None` where there is no such place. Takes no memory. Cost: a step for each 64 flags that are
    /// passed.
    pub fn next_lost(&self, others: &SharedFlags, from: usize) -> Option<usize>
        ensures from { IfSome result (λ place. from ≤ place) }
        ensures lost { IfSome result (λ place. is_lost self.now others.now place ≡ true) }
        ensures first { (place : ℕ) → from ≤ place → IfSome result (λ found. place < found)
            → is_lost self.now others.now place ≡ false }
    {
        if from >= self.len() {
            return None;
        }
        for word in from / 64..self.words.len() {
            let first = from.max(64 * word);
            let lost = lost_bits(
                word_at(&self.words, first),
                word_at(&others.words, first),
                first % 64,
            );
            if lost != 0 {
                return Some(first + lost.trailing_zeros() as usize);
            }
        }
        None
    }

    /// The words in which the bits lie.
    pub(crate) fn words(&self) -> &SharedList<u64>
        ensures { (place : ℕ) → slice_index_or (flags_of result.now) place false
            ≡ slice_index_or self.now place false }
    {
        &self.words
    }

    /// Puts a flag behind the last one, or gives `NoMemory` where an allocation failed, with the list as it was.
    ///
    /// Cost: constant time on average where no other list shares the last piece, and else a copy of at most a kilobyte
    /// and 128 references. Each 1,048,576 flags take one more reference, and at times all such references are moved.
    pub fn push(&mut self, flag: bool) -> Result<(), NoMemory>
        ensures ok { OnOk result (self.new ≡ self.old ++ flag ∷ []) }
        ensures err { OnErr result (self.new ≡ self.old) }
    {
        let Some(len) = self.len.checked_add(1) else {
            return Err(NoMemory);
        };
        if self.len % 64 == 0 {
            self.words.push(with_bit(0, 0, flag))?;
        } else {
            set_bit(&mut self.words, self.len, flag)?;
        }
        self.len = len;
        Ok(())
    }

    /// Puts a flag in the place of another, or gives `NoMemory` where an allocation failed, with the list as it was.
    ///
    /// Cost: constant time where no other list shares the piece, and else a copy of at most a kilobyte and 128
    /// references.
    pub fn set(&mut self, place: usize, flag: bool) -> Result<(), NoMemory>
        requires { place < length self.old }
        ensures ok { OnOk result (self.new ≡ slice_set self.old place flag) }
        ensures err { OnErr result (self.new ≡ self.old) }
    {
        set_bit(&mut self.words, place, flag)
    }
}

impl Shared<SharedFlags> {
    /// Puts a flag in the place of another, in a list of its own where others share this one, or gives `NoMemory` where
    /// an allocation failed, with the list as it was.
    ///
    /// Cost: that of `SharedFlags::set`, and that of a clone where others share the list.
    pub fn set(&mut self, place: usize, flag: bool) -> Result<(), NoMemory>
        requires { place < length self.old }
        ensures ok { OnOk result (self.new ≡ slice_set self.old place flag) }
        ensures err { OnErr result (self.new ≡ self.old) }
    {
        Arc::make_mut(&mut self.arc)?.set(place, flag)
    }
}
