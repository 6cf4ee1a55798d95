//! Where the words and the fronts of each field stand among keys in order.
ghost use Rattle.std.specs.Prelude.{◌≡◌, [], List, IfOk, IfSome, map};
ghost use Rattle.std.specs.Arc.{arc_str_bytes};
ghost use Rattle.std.specs.List.{All};
ghost use Rattle.std.specs.List.Sorted.{IsStrictlySortedBy};
ghost use Rattle.std.specs.Ordering.{is_lt, is_le};
ghost use Rattle.clip_extract.specs.Keys.{KeyValue, Word, Front, key_of, key_cmp};
ghost use Rattle.clip_terms.specs.Steps.Leads.{heading, heading_cmp, IsPart};
ghost use Rattle.clip_terms.specs.Steps.Parts.{IsFieldPart};

use crate::leads::heading_order;
use clip_extract::Key;
use clip_words::NoMemory;
use std::alloc::Global;
use std::cmp::Ordering;
use std::ops::Range;
use std::sync::ArcStr;

/// A field, and where its words and its fronts are.
#[derive(Debug, Drop)]
pub(crate) struct FieldPart {
    field: ArcStr,
    words: Range<usize>,
    fronts: Range<usize>,
}

impl FieldPart {
    /// Where the field's words are. Constant time.
    pub(crate) fn words(&self) -> Range<usize> {
        self.words.start..self.words.end
    }
}

/// Where the keys of a rank and a field stand among keys in order.
fn part_of(keys: &[Key], rank: u8, field: &str) -> Range<usize>
    requires { IsStrictlySortedBy key_cmp (map key_of keys.now) }
    ensures { IsPart (map key_of keys.now) (rank, field.now) result.start result.end }
{
    let start = keys.partition_point(
        |key: &Key| -> bool
            ensures { result ≡ is_lt (heading_cmp (heading (key_of key.now)) (rank, field.entry.now)) }
        { heading_order(key, rank, field).is_lt() },
    );
    let end = keys.partition_point(
        |key: &Key| -> bool
            ensures { result ≡ is_le (heading_cmp (heading (key_of key.now)) (rank, field.entry.now)) }
        { heading_order(key, rank, field).is_le() },
    );
    start..end
}

/// Where the words and the fronts of a field stand.
fn field_part(keys: &[Key], field: &ArcStr) -> Result<FieldPart, NoMemory>
    requires { IsStrictlySortedBy key_cmp (map key_of keys.now) }
    ensures { IfOk result (IsFieldPart (map key_of keys.now)) }
{
    Ok(FieldPart {
        field: field.clone()?,
        words: part_of(keys, Key::WORD_RANK, field),
        fronts: part_of(keys, Key::FRONT_RANK, field),
    })
}

/// The parts of the fields of words, in the order of their names.
pub(crate) fn parts_of(alloc: Global, keys: &[Key]) -> Result<Vec<FieldPart>, NoMemory>
    requires { IsStrictlySortedBy key_cmp (map key_of keys.now) }
    ensures { IfOk result (λ parts. All (IsFieldPart (map key_of keys.now)) parts.items) }
{
    let mut parts = Vec::new(alloc);
    let mut place = 0;
    while place < keys.len() {
        let Key::Word(field, _) = &keys[place] else {
            place += 1;
            continue;
        };
        let part = field_part(keys, field)?;
        place = part.words.end.max(place + 1);
        parts.push(part)?;
    }
    Ok(parts)
}

/// The part at a place, if it is that of a field.
fn part_at<'a>(parts: &'a [FieldPart], place: usize, field: &str) -> Option<&'a FieldPart>
    ensures part { (terms : List KeyValue) → All (IsFieldPart terms) parts.now
        → IfSome result (λ part. IsFieldPart terms part.now) }
    ensures field { IfSome result (λ part. arc_str_bytes part.now.field ≡ field.now) }
{
    let part = parts.get(place)?;
    if part.field.as_str() != field {
        return None;
    }
    Some(part)
}

/// The part of a field among those in the order of their names, if it is there. Looks at the first one before it
/// searches: mostly there are few fields, and one of them is asked for most.
fn find<'a>(parts: &'a [FieldPart], field: &str) -> Option<&'a FieldPart>
    ensures part { (terms : List KeyValue) → All (IsFieldPart terms) parts.now
        → IfSome result (λ part. IsFieldPart terms part.now) }
    ensures field { IfSome result (λ part. arc_str_bytes part.now.field ≡ field.now) }
{
    if let Some(part) = part_at(parts, 0, field) {
        return Some(part);
    }
    let place = parts.partition_point(|part: &FieldPart| -> bool { part.field.as_str() < field });
    part_at(parts, place, field)
}

/// Where the words of a field are, and its fronts. A binary search among the parts, and where none is the field's,
/// among the keys.
pub(crate) fn ranges_of(
    keys: &[Key],
    parts: &[FieldPart],
    field: &str,
) -> (Range<usize>, Range<usize>)
    requires sorted { IsStrictlySortedBy key_cmp (map key_of keys.now) }
    requires parts { All (IsFieldPart (map key_of keys.now)) parts.now }
    ensures words { IsPart (map key_of keys.now) (heading (Word field.now [])) result.0.start result.0.end }
    ensures fronts { IsPart (map key_of keys.now) (heading (Front field.now [])) result.1.start result.1.end }
{
    match find(parts, field) {
        Some(part) => (
            part.words.start..part.words.end,
            part.fronts.start..part.fronts.end,
        ),
        None => (
            part_of(keys, Key::WORD_RANK, field),
            part_of(keys, Key::FRONT_RANK, field),
        ),
    }
}

/// Where the words of a field are, whose part is likely at this place. Looks there first.
pub(crate) fn words_of(
    keys: &[Key],
    parts: &[FieldPart],
    field: &str,
    likely: usize,
) -> Range<usize>
    requires sorted { IsStrictlySortedBy key_cmp (map key_of keys.now) }
    requires parts { All (IsFieldPart (map key_of keys.now)) parts.now }
    ensures { IsPart (map key_of keys.now) (heading (Word field.now [])) result.start result.end }
{
    match part_at(parts, likely, field) {
        Some(part) => part.words.start..part.words.end,
        None => ranges_of(keys, parts, field).0,
    }
}
