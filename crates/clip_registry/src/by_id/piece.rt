//! A few entries in the order of the ids of their standing queries.
ghost use Rattle.std.specs.Prelude.{◌≡◌, ◌+◌, ◌<◌, T, map, true, false, option_map, option_copied, IfOk, IfErr, OnOk};
ghost use Rattle.std.specs.Prelude.{OnErr};
ghost use Rattle.std.specs.Arc.{arc_value};
ghost use Rattle.std.specs.FinMap as finite;
ghost use Rattle.clip_words.specs.Order.{bytes_cmp};
ghost use Rattle.clip_registry.specs.Steps.Pieces.{AreHalves, ends_below, keyed, rank};
ghost use Rattle.clip_registry.specs.Steps.Roster.{insert_one};

use clip_standing::Entry;
use clip_words::NoMemory;
use std::alloc::{AllocError, Global};
use std::cmp::Ordering;
use std::marker::Model;
use std::mem::replace;
use std::sync::Arc;

/// How many entries a piece may have.
pub const MOST_IN_PIECE: usize = 512;

/// Entries in the order of the ids of their standing queries, each id once; seen as the map from id to entry. A
/// look-up costs a binary search, and a change also the move of the entries above its place.
#[derive(Drop)]
pub struct Piece {
    entries: Vec<Arc<Entry>>,
}

impl Model for Piece {
    ghost use Rattle.std.specs.Prelude.{T, map};
    ghost use Rattle.std.specs.FinMap as finite;
    ghost use Rattle.clip_words.specs.Order.{bytes_cmp};
    ghost use Rattle.clip_model.specs.History.{Registry, registry_code};

    ghost Value = { Registry };

    ghost coded = { registry_code };

    ghost use Rattle.clip_registry.specs.Steps.Pieces.{keyed};

    ghost view = { λ p. finite.from_sorted (map keyed p.entries.items) };

    ghost invariant = { λ p. T (finite.is_sorted bytes_cmp (map keyed p.entries.items)) };
}

impl Clone for Piece {
    ghost is_clone = { λ piece copy. copy ≡ piece };

    fn clone(&self) -> Result<Piece, AllocError> {
        Ok(Piece {
            entries: self.entries.clone()?,
        })
    }
}

/// The id of the standing query of an entry.
pub fn id_of(entry: &Arc<Entry>) -> &str
    ensures { result.now ≡ entry.now.value.standing.id }
{
    entry.standing().id()
}

/// A copy of entries in order.
fn copy_piece(alloc: Global, entries: &[Arc<Entry>]) -> Result<Piece, NoMemory>
    requires { T (finite.is_sorted bytes_cmp (map keyed entries.now)) }
    ensures { IfOk result (λ piece. finite.entries piece ≡ map keyed entries.now) }
{
    Ok(Piece {
        entries: entries.to_vec(alloc)?,
    })
}

impl Piece {
    /// The piece of one entry.
    pub fn of(alloc: Global, entry: Arc<Entry>) -> Result<Piece, NoMemory>
        ensures { IfOk result (λ piece. piece ≡ insert_one finite.empty entry.value) }
    {
        let mut entries = Vec::new(alloc);
        entries.push(entry)?;
        Ok(Piece { entries })
    }

    /// How many entries it has.
    pub fn len(&self) -> usize
        ensures { result ≡ finite.len self.now }
    {
        self.entries.len()
    }

    /// Where the entry of an id stands, or else would stand.
    fn search(&self, id: &str) -> Result<usize, usize>
        ensures found { IfOk result (λ place. (place ≡ rank id.now self.now)
            × (finite.contains_key self.now id.now ≡ true)) }
        ensures missing { IfErr result (λ place. (place ≡ rank id.now self.now)
            × (finite.contains_key self.now id.now ≡ false)) }
    {
        self.entries.binary_search_by(
            |entry: &Arc<Entry>| -> Ordering
                ensures { result ≡ bytes_cmp entry.now.value.standing.id id.entry.now }
            { id_of(entry).cmp(id) },
        )
    }

    /// The entry under the id.
    pub fn get(&self, id: &str) -> Option<&Arc<Entry>>
        ensures { option_map arc_value (option_copied result) ≡ finite.get self.now id.now }
    {
        match self.search(id) {
            Ok(place) => Some(&self.entries[place]),
            Err(_) => None,
        }
    }

    /// Whether each of its ids is below this one.
    pub fn ends_below(&self, id: &str) -> bool
        ensures { result ≡ ends_below id.now self.now }
    {
        match self.entries.last() {
            Some(last) => id > id_of(last),
            None => true,
        }
    }

    /// Puts an entry in the place of the one with its id, which it gives. `NoMemory` where an allocation failed, with
    /// nothing changed.
    pub fn insert(&mut self, entry: Arc<Entry>) -> Result<Option<Arc<Entry>>, NoMemory>
        ensures inserted { OnOk result (self.new ≡ insert_one self.old entry.value) }
        ensures replaced { IfOk result (λ old. option_map arc_value old ≡ finite.get self.old entry.value.standing.id) }
        ensures unchanged { OnErr result (self.new ≡ self.old) }
    {
        match self.search(id_of(&entry)) {
            Ok(place) => Ok(Some(replace(&mut self.entries[place], entry))),
            Err(place) => {
                self.entries.insert(place, entry)?;
                Ok(None)
            }
        }
    }

    /// Takes out the entry under the id.
    pub fn remove(&mut self, id: &str) -> Option<Arc<Entry>>
        ensures removed { self.new ≡ finite.remove self.old id.now }
        ensures gone { option_map arc_value result ≡ finite.get self.old id.now }
    {
        match self.search(id) {
            Ok(place) => Some(self.entries.remove(place)),
            Err(_) => None,
        }
    }

    /// Two pieces with its entries, the first of them with half.
    pub fn halves(&self, alloc: Global) -> Result<(Piece, Piece), NoMemory>
        ensures { IfOk result (λ halves. AreHalves self.now halves.0 halves.1) }
    {
        let (lower, upper) = self.entries.split_at(self.entries.len() / 2);
        Ok((copy_piece(alloc, lower)?, copy_piece(alloc, upper)?))
    }
}
