//! Entries by the ids of their standing queries.
//!
//!     pieces  [ a1 a7 b2 | c3 c4 | k9 ]   len 6
//!
//! `c4` is in the first piece whose last id is not below it, and is looked for there by a second binary search.
//! A clone shares the pieces; a change copies the one that it touches, and one that is full is cut in two.
ghost use Rattle.std.specs.Prelude.{◌≡◌, option_map, option_copied, IfOk, OnOk, OnErr};
ghost use Rattle.std.specs.Arc.{arc_value};
ghost use Rattle.std.specs.FinMap as finite;
ghost use Rattle.clip_registry.specs.Steps.Roster.{insert_one};

mod piece;
mod pieces;

use crate::by_id::piece::Piece;
use clip_standing::Entry;
use clip_words::NoMemory;
use std::alloc::{AllocError, Global};
use std::marker::Model;
use std::sync::Arc;

/// Entries by the ids of their standing queries: a list in the order of the ids, which is cut into pieces that clones
/// share. An id is read from its entry, and copied nowhere. A look-up costs two binary searches; a change also moves
/// entries within one piece, which is copied where it is shared or full; and a clone costs a step for each piece.
#[derive(Drop)]
pub struct ById {
    pieces: Vec<Arc<Piece>>,
    len: u64,
}

impl Model for ById {
    ghost use Rattle.clip_model.specs.History.{Registry, registry_code};

    ghost Value = { Registry };

    ghost coded = { registry_code };

    ghost use Rattle.std.specs.Prelude.{◌≡◌, map};
    ghost use Rattle.std.specs.Arc.{arc_value};
    ghost use Rattle.std.specs.FinMap as finite;
    ghost use Rattle.clip_registry.specs.Steps.Pieces.{AreInOrder, map_of};

    ghost view = { λ m. map_of (map arc_value m.pieces.items) };

    ghost invariant = { λ m. AreInOrder (map arc_value m.pieces.items)
        × (m.len ≡ finite.len (map_of (map arc_value m.pieces.items))) };
}

impl Clone for ById {
    ghost is_clone = { λ map copy. copy ≡ map };

    fn clone(&self) -> Result<ById, AllocError> {
        Ok(ById {
            pieces: self.pieces.clone()?,
            len: self.len,
        })
    }
}

impl ById {
    /// No entries.
    pub fn new(alloc: Global) -> ById
        ensures { result ≡ finite.empty }
    {
        ById {
            pieces: Vec::new(alloc),
            len: 0,
        }
    }

    /// How many entries there are. Constant time.
    pub fn len(&self) -> u64
        ensures { result ≡ finite.len self.now }
    {
        self.len
    }

    /// The entry under the id.
    pub fn get(&self, id: &str) -> Option<&Arc<Entry>>
        ensures { option_map arc_value (option_copied result) ≡ finite.get self.now id.now }
    {
        match pieces::place_of(&self.pieces, id) {
            Some(place) => self.pieces[place].get(id),
            None => None,
        }
    }

    /// Puts an entry in the place of the one with its id, which it gives. `NoMemory` where an allocation failed or the
    /// count is at its end, with no entry changed.
    pub fn insert(
        &mut self,
        alloc: Global,
        entry: Arc<Entry>,
    ) -> Result<Option<Arc<Entry>>, NoMemory>
        ensures inserted { OnOk result (self.new ≡ insert_one self.old entry.value) }
        ensures replaced { IfOk result (λ old. option_map arc_value old ≡ finite.get self.old entry.value.standing.id) }
        ensures unchanged { OnErr result (self.new ≡ self.old) }
    {
        let Some(more) = self.len.checked_add(1) else {
            return Err(NoMemory);
        };
        let replaced = pieces::insert(alloc, &mut self.pieces, entry)?;
        if replaced.is_none() {
            self.len = more;
        }
        Ok(replaced)
    }

    /// Takes out the entry under the id. `NoMemory` where an allocation failed, with no entry changed.
    pub fn remove(&mut self, id: &str) -> Result<Option<Arc<Entry>>, NoMemory>
        ensures removed { OnOk result (self.new ≡ finite.remove self.old id.now) }
        ensures gone { IfOk result (λ gone. option_map arc_value gone ≡ finite.get self.old id.now) }
        ensures unchanged { OnErr result (self.new ≡ self.old) }
    {
        let gone = pieces::remove(&mut self.pieces, id)?;
        if gone.is_some() {
            self.len -= 1;
        }
        Ok(gone)
    }
}
