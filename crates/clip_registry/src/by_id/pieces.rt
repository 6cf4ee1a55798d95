//! Lists of pieces: the ids rise from piece to piece, no piece is empty, and clones of the list share its pieces.
ghost use Rattle.std.specs.Prelude.{◌≡◌, ◌<◌, [], map, option_map, IfOk, IfSome, OnOk, OnErr, slice_index_or};
ghost use Rattle.std.specs.Arc.{arc_value};
ghost use Rattle.std.specs.FinMap as finite;
ghost use Rattle.clip_model.specs.History.{Registry};
ghost use Rattle.clip_registry.specs.Steps.Pieces.{AreInOrder, HasRoomFor, IsPlaceFor, ends_below, joined, map_of};
ghost use Rattle.clip_registry.specs.Steps.Roster.{insert_one};

use crate::by_id::piece::{MOST_IN_PIECE, Piece, id_of};
use clip_standing::Entry;
use clip_words::NoMemory;
use std::alloc::Global;
use std::sync::Arc;

/// The place of the piece in which the entry of an id stands, or else would stand: the first that has an id that is not
/// below it, or else the last. `None` where there is no piece. It costs a binary search.
pub fn place_of(pieces: &[Arc<Piece>], id: &str) -> Option<usize>
    requires { AreInOrder (map arc_value pieces.now) }
    ensures found { IfSome result (IsPlaceFor id.now (map arc_value pieces.now)) }
    ensures none { result ≡ None → map arc_value pieces.now ≡ [] }
{
    let (_, front) = pieces.split_last()?;
    Some(front.partition_point(
        |piece: &Arc<Piece>| -> bool
            ensures { result ≡ ends_below id.entry.now piece.now.value }
        { piece.ends_below(id) },
    ))
}

/// Puts an entry into a piece, in the place of the one with its id, which it gives. A piece that others share is copied
/// first. `NoMemory` where an allocation failed, with nothing changed.
fn insert_in(piece: &mut Arc<Piece>, entry: Arc<Entry>) -> Result<Option<Arc<Entry>>, NoMemory>
    ensures inserted { OnOk result (piece.new.value ≡ insert_one piece.old.value entry.value) }
    ensures replaced { IfOk result (λ old. option_map arc_value old
        ≡ finite.get piece.old.value entry.value.standing.id) }
    ensures unchanged { OnErr result (piece.new.value ≡ piece.old.value) }
{
    Arc::make_mut(piece)?.insert(entry)
}

/// Takes the entry under an id out of a piece. A piece that others share is copied first, if the id is there.
/// `NoMemory` where an allocation failed, with nothing changed.
fn remove_in(piece: &mut Arc<Piece>, id: &str) -> Result<Option<Arc<Entry>>, NoMemory>
    ensures removed { OnOk result (piece.new.value ≡ finite.remove piece.old.value id.now) }
    ensures gone { IfOk result (λ gone. option_map arc_value gone ≡ finite.get piece.old.value id.now) }
    ensures unchanged { OnErr result (piece.new.value ≡ piece.old.value) }
{
    if piece.get(id).is_none() {
        return Ok(None);
    }
    Ok(Arc::make_mut(piece)?.remove(id))
}

/// Puts two pieces with half the entries each in the place of a full one, which is the piece for an id, and gives the
/// place of the one that is then for the id. `NoMemory` where an allocation failed, with no entry changed.
fn split(
    alloc: Global,
    pieces: &mut Vec<Arc<Piece>>,
    place: usize,
    id: &str,
) -> Result<usize, NoMemory>
    requires in_order { AreInOrder (map arc_value pieces.old.items) }
    requires place { IsPlaceFor id.now (map arc_value pieces.old.items) place }
    requires full { (d : Registry) → finite.len
        (slice_index_or (map arc_value pieces.old.items) place d) ≡ MOST_IN_PIECE }
    ensures in_order { AreInOrder (map arc_value pieces.new.items) }
    ensures same { joined (map arc_value pieces.new.items) ≡ joined (map arc_value pieces.old.items) }
    ensures room { IfOk result (HasRoomFor id.now (map arc_value pieces.new.items)) }
{
    let (lower, upper) = pieces[place].halves(alloc)?;
    let next = if lower.ends_below(id) {
        place + 1
    } else {
        place
    };
    let lower = Arc::new(alloc, lower)?;
    let upper = Arc::new(alloc, upper)?;
    pieces.insert(place + 1, upper)?;
    pieces[place] = lower;
    Ok(next)
}

/// The place of the piece for an id, which has room for one entry more: a full piece is split for that. `None` where
/// there is no piece.
fn room_for(
    alloc: Global,
    pieces: &mut Vec<Arc<Piece>>,
    id: &str,
) -> Result<Option<usize>, NoMemory>
    requires { AreInOrder (map arc_value pieces.old.items) }
    ensures in_order { AreInOrder (map arc_value pieces.new.items) }
    ensures same { joined (map arc_value pieces.new.items) ≡ joined (map arc_value pieces.old.items) }
    ensures room { IfOk result (λ place. IfSome place (HasRoomFor id.now (map arc_value pieces.new.items))) }
    ensures none { result ≡ Ok None → map arc_value pieces.new.items ≡ [] }
{
    let Some(place) = place_of(pieces, id) else {
        return Ok(None);
    };
    if pieces[place].len() < MOST_IN_PIECE {
        return Ok(Some(place));
    }
    Ok(Some(split(alloc, pieces, place, id)?))
}

/// Puts an entry in the place of the one with its id, which it gives. Only the piece for the id is copied, where others
/// share it, or split, where it is full. `NoMemory` where an allocation failed, with no entry changed.
pub fn insert(
    alloc: Global,
    pieces: &mut Vec<Arc<Piece>>,
    entry: Arc<Entry>,
) -> Result<Option<Arc<Entry>>, NoMemory>
    requires { AreInOrder (map arc_value pieces.old.items) }
    ensures in_order { AreInOrder (map arc_value pieces.new.items) }
    ensures inserted { OnOk result (map_of (map arc_value pieces.new.items)
        ≡ insert_one (map_of (map arc_value pieces.old.items)) entry.value) }
    ensures replaced { IfOk result (λ old. option_map arc_value old
        ≡ finite.get (map_of (map arc_value pieces.old.items)) entry.value.standing.id) }
    ensures unchanged { OnErr result (map_of (map arc_value pieces.new.items)
        ≡ map_of (map arc_value pieces.old.items)) }
{
    match room_for(alloc, pieces, id_of(&entry))? {
        Some(place) => insert_in(&mut pieces[place], entry),
        None => {
            pieces.push(Arc::new(alloc, Piece::of(alloc, entry)?)?)?;
            Ok(None)
        }
    }
}

/// Takes out the entry under an id. Only the piece for the id is copied, where others share it; it goes where it is
/// left empty. `NoMemory` where an allocation failed, with no entry changed.
pub fn remove(pieces: &mut Vec<Arc<Piece>>, id: &str) -> Result<Option<Arc<Entry>>, NoMemory>
    requires { AreInOrder (map arc_value pieces.old.items) }
    ensures in_order { AreInOrder (map arc_value pieces.new.items) }
    ensures removed { OnOk result (map_of (map arc_value pieces.new.items)
        ≡ finite.remove (map_of (map arc_value pieces.old.items)) id.now) }
    ensures gone { IfOk result (λ gone. option_map arc_value gone
        ≡ finite.get (map_of (map arc_value pieces.old.items)) id.now) }
    ensures unchanged { OnErr result (map_of (map arc_value pieces.new.items)
        ≡ map_of (map arc_value pieces.old.items)) }
{
    let Some(place) = place_of(pieces, id) else {
        return Ok(None);
    };
    let gone = remove_in(&mut pieces[place], id)?;
    if pieces[place].len() == 0 {
        let _ = pieces.remove(place);
    }
    Ok(gone)
}
