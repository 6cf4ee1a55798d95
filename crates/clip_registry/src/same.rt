//! Whether segments have the same lists of entries, and where they stand.
ghost use Rattle.std.specs.Prelude.{◌≡◌, ◌↔◌, ℕ, ◌<◌, ◌≤◌, true, None, map, length, IfSome, IsTrue};
ghost use Rattle.std.specs.Arc.{arc_value};
ghost use Rattle.clip_registry.specs.Merging.{StandsAt};

use clip_indexed::{Index, Segment};
use clip_standing::{Entry, Standing};
use std::sync::Arc;

/// Whether the two have the same id, text and listener. Then they have the same tree, since a text has just one.
fn is_same_standing(a: &Standing, b: &Standing) -> bool
    ensures { IsTrue result ↔ (a.now ≡ b.now) }
{
    a.law();
    b.law();
    a.id() == b.id() && a.text() == b.text() && a.listener() == b.listener()
}

/// Whether the two have the same seq and the same standing query. Of two with different seqs no text is read.
fn is_same_entry(a: &Entry, b: &Entry) -> bool
    ensures { IsTrue result ↔ (a.now ≡ b.now) }
{
    a.seq() == b.seq() && is_same_standing(a.standing(), b.standing())
}

/// Whether the entries are the same, one by one.
fn are_same_entries(a: &[Arc<Entry>], b: &[Arc<Entry>]) -> bool
    ensures { IsTrue result ↔ (map arc_value a.now ≡ map arc_value b.now) }
{
    if a.len() != b.len() {
        return false;
    }
    for (place, entry) in a.iter().enumerate() {
        if !is_same_entry(entry, &b[place]) {
            return false;
        }
    }
    true
}

/// Whether the segments are as long as each other, and have the same first and last seqs, as those with one list of
/// entries do. Constant time.
fn is_alike<I: Index>(a: &Segment<I>, b: &Segment<I>) -> bool
    ensures { a.now ≡ b.now → result ≡ true }
{
    a.len() == b.len() && a.seqs().first() == b.seqs().first() && a.seqs().last() == b.seqs().last()
}

/// Whether the segments are alike, one by one, as those with the same lists of entries are. It costs a step for each.
fn are_alike<I: Index>(a: &[Arc<Segment<I>>], b: &[Arc<Segment<I>>]) -> bool
    ensures result { map arc_value a.now ≡ map arc_value b.now → result ≡ true }
    ensures as_many { result ≡ true → length a.now ≡ length b.now }
{
    if a.len() != b.len() {
        return false;
    }
    for (place, segment) in a.iter().enumerate() {
        if !is_alike(segment, &b[place]) {
            return false;
        }
    }
    true
}

/// Whether the segments have the same lists of entries, one by one. Entries are compared where all segments are alike.
fn are_same_segments<I: Index>(a: &[Arc<Segment<I>>], b: &[Arc<Segment<I>>]) -> bool
    ensures { IsTrue result ↔ (map arc_value a.now ≡ map arc_value b.now) }
{
    if !are_alike(a, b) {
        return false;
    }
    for (place, segment) in a.iter().enumerate() {
        if !are_same_entries(segment.entries(), b[place].entries()) {
            return false;
        }
    }
    true
}

/// The first place at which segments stand as the sources.
///
/// Cost: at each place a step for each source, and where lengths and first and last seqs of all of them are the same,
/// for each entry a comparison of its seq and texts.
pub fn place_of<I: Index>(
    segments: &[Arc<Segment<I>>],
    sources: &[Arc<Segment<I>>],
) -> Option<usize>
    requires { 0 < length sources.now }
    ensures stands { IfSome result (λ first. StandsAt (map arc_value segments.now) (map arc_value sources.now) first) }
    ensures nowhere { result ≡ None → (first : ℕ)
        → StandsAt (map arc_value segments.now) (map arc_value sources.now) first → ⊥ }
{
    for first in 0..segments.len() {
        let (_, rest) = segments.split_at(first);
        let (run, _) = rest.split_at(rest.len().min(sources.len()));
        if are_same_segments(run, sources) {
            return Some(first);
        }
    }
    None
}
