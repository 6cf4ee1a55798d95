//! Where words likely are among terms, by a table of their leads.

use crate::lead_marks::SPREAD;
use crate::parts::FieldPart;
use clip_words::NoMemory;
use std::alloc::Global;

/// How many slots, one after another, a word may be in.
pub(crate) const SLOTS_OF_A_WORD: usize = 4;

/// What a slot has that has no word: the number of no term.
const NO_WORD: u32 = u32::MAX;

/// Where words likely are among terms: slots, two for each term, of which a word is in one of the first from that of
/// its lead on, if one was free. Nothing rests on it but how long look-ups take.
#[derive(Debug, Drop)]
pub(crate) struct Hints {
    slots: Vec<u32>,
    scale: u64,
}

/// The first slot of a lead among the words of a field that begin at a place.
fn slot_of(lead: u64, start: usize, scale: u64) -> usize {
    let spread = lead.wrapping_add(start as u64).wrapping_mul(SPREAD) >> 32;
    (spread.wrapping_mul(scale) >> 32) as usize
}

/// Puts a number into the first slot from one on that is free, if one of so many is.
fn put(slots: &mut Vec<u32>, first: usize, number: u32) {
    for step in 0..SLOTS_OF_A_WORD {
        let slot = first.wrapping_add(step);
        if slot < slots.len() && slots[slot] == NO_WORD {
            slots[slot] = number;
            return;
        }
    }
}

/// Puts the words of a field into their slots.
fn put_words(slots: &mut Vec<u32>, scale: u64, leads: &[u64], part: &FieldPart) {
    let words = part.words();
    for place in words.start..words.end.min(leads.len()) {
        if let Ok(number) = u32::try_from(place) {
            put(slots, slot_of(leads[place], words.start, scale), number);
        }
    }
}

impl Hints {
    /// The hints of the words of fields among terms, whose leads these are.
    ///
    /// `NoMemory` where an allocation failed. Cost: a step for each term, of which each takes eight bytes.
    pub(crate) fn of(alloc: Global, leads: &[u64], parts: &[FieldPart]) -> Result<Hints, NoMemory> {
        let count = leads.len().saturating_mul(2);
        let scale = count as u64;
        let mut slots = vec![in alloc; NO_WORD; count.saturating_add(SLOTS_OF_A_WORD)]?;
        for part in parts {
            put_words(&mut slots, scale, leads, part);
        }
        Ok(Hints { slots, scale })
    }

    /// The first slot of a lead among the words of a field that begin at a place. Takes no memory. Constant time.
    pub(crate) fn slot(&self, lead: u64, start: usize) -> usize {
        slot_of(lead, start, self.scale)
    }

    /// The place of the word in a slot, past all terms where it has none. Takes no memory. Constant time.
    pub(crate) fn place(&self, slot: usize) -> usize {
        match self.slots.get(slot) {
            Some(number) => *number as usize,
            None => NO_WORD as usize,
        }
    }
}
