//! Lists that lie one after another in one buffer.
ghost use Rattle.std.specs.Prelude.{◌≡◌, ◌-◌, ◌<◌, ◌≤◌, ◌++◌, ◌∷◌, [], OnOk, OnErr, length, take, drop, unwrap_or};
ghost use Rattle.std.specs.Prelude.{slice_get, slice_index};

use clip_words::NoMemory;
use std::alloc::Global;
use std::marker::Model;

/// The most items of all lists together, so that each end fits in 32 bits.
const MOST_ITEMS: usize = 4_294_967_295;

/// Lists of items that lie one after another in one buffer. Contracts see the list of the lists.
#[derive(Debug)]
pub struct PackedLists<T: Copy> {
    items: Vec<T>,
    ends: Vec<u32>,
}

impl<T: Copy> Drop for PackedLists<T> {
    fn drop(self) {
        let PackedLists { items: _, ends: _ } = self;
    }
}

impl<T: Copy> Model for PackedLists<T> {
    ghost use Rattle.std.specs.Prelude.{List};
    ghost use Rattle.clip_words.specs.Packed.{cut, AreEnds};

    ghost Value = { List (List T) };

    ghost view = { λ lists. cut 0 lists.ends.items lists.items.items };

    ghost invariant = { λ lists. AreEnds 0 lists.ends.items lists.items.items };
}

/// Where the list at a place begins, by the ends of the lists.
fn start(ends: &[u32], place: usize) -> usize
    requires { place < length ends.now }
    ensures { result ≡ slice_index (0 ∷ ends.now) place }
{
    if place == 0 {
        0
    } else {
        ends[place - 1] as usize
    }
}

/// The items from one place up to another.
fn part<T: Copy>(items: &[T], start: usize, end: usize) -> &[T]
    requires low { start ≤ end }
    requires high { end ≤ length items.now }
    ensures { result.now ≡ take (end - start) (drop start items.now) }
{
    &items[start..end]
}

impl<T: Copy> PackedLists<T> {
    /// No lists. Takes no memory.
    pub fn new(alloc: Global) -> PackedLists<T>
        ensures { result ≡ [] }
    {
        PackedLists {
            items: Vec::new(alloc),
            ends: Vec::new(alloc),
        }
    }

    /// How many lists there are. Takes no memory. Constant time.
    pub fn len(&self) -> usize
        ensures { result ≡ length self.now }
    {
        self.ends.len()
    }

    /// The list at a place from 0, an empty one past the last. Takes no memory. Constant time.
    pub fn get(&self, place: usize) -> &[T]
        ensures { result.now ≡ unwrap_or (slice_get self.now place) [] }
    {
        if place >= self.ends.len() {
            return &[];
        }
        let end = self.ends[place] as usize;
        part(&self.items, start(&self.ends, place), end)
    }

    /// Adds a list behind the last one; `NoMemory` where an allocation failed, and where there would be more than
    /// `MOST_ITEMS` items, with the lists as they were. Cost: a step for each of its items, and at times a move of all
    /// lists.
    pub fn push(&mut self, list: &[T]) -> Result<(), NoMemory>
        ensures ok { OnOk result (self.new ≡ self.old ++ list.now ∷ []) }
        ensures err { OnErr result (self.new ≡ self.old) }
    {
        if list.len() > MOST_ITEMS || self.items.len() > MOST_ITEMS - list.len() {
            return Err(NoMemory);
        }
        self.items.extend_from_slice(list)?;
        match self.ends.push(self.items.len() as u32) {
            Ok(()) => Ok(()),
            Err(_) => {
                self.items.truncate(self.items.len() - list.len());
                Err(NoMemory)
            }
        }
    }
}
