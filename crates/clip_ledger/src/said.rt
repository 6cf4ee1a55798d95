//! What the notes of an article say of its queries.
ghost use Rattle.std.specs.Prelude.{◌≡◌, true, map, option_map};
ghost use Rattle.std.specs.Option.{option_copied};
ghost use Rattle.std.specs.Arc.{arc_str_bytes};
ghost use Rattle.clip_listen.specs.Heard.{note_value};
ghost use Rattle.clip_ledger.specs.Rows.{note_for};
ghost use Rattle.clip_ledger.specs.Steps.Walk.{before_first, rise, from_query, first_of};

use clip_listen::Note;
use std::sync::ArcStr;

/// The text of the first note of a query, found by a search.
pub(crate) fn text_for<'a>(notes: &'a [Note], query: &ArcStr) -> Option<&'a ArcStr>
    ensures { option_map arc_str_bytes (option_copied result)
        ≡ option_map (λ n. n.text) (note_for (map note_value notes.now) (arc_str_bytes query.now)) }
{
    for note in notes {
        if note.query.as_str() == query.as_str() {
            return Some(&note.text);
        }
    }
    None
}

/// Whether the query of a note is before that of the first of these, if there is one.
fn is_before(note: &Note, after: &[Note]) -> bool
    ensures { result ≡ before_first (note_value note.now) (map note_value after.now) }
{
    match after.first() {
        Some(next) => note.query.as_str().cmp(next.query.as_str()).is_lt(),
        None => true,
    }
}

/// Whether the query of each note is before that of the next.
pub(crate) fn queries_rise(notes: &[Note]) -> bool
    ensures { result ≡ rise (map note_value notes.now) }
{
    let mut rest = notes;
    while let Some((note, after)) = rest.split_first() {
        if !is_before(note, after) {
            return false;
        }
        rest = after;
    }
    true
}

/// The notes from the first one on whose query isn't before this one.
fn skip_to<'a>(notes: &'a [Note], query: &str) -> &'a [Note]
    ensures { map note_value result.now ≡ from_query query.now (map note_value notes.now) }
{
    let mut rest = notes;
    while let Some((note, after)) = rest.split_first() {
        if !note.query.as_str().cmp(query).is_lt() {
            return rest;
        }
        rest = after;
    }
    rest
}

/// The notes from a query on, where those from the last one on are at hand; from the start where the query is before
/// it.
#[tactic(auto, using(crate::proofs::Walk::onward))]
pub(crate) fn next_notes<'a>(
    notes: &'a [Note],
    rest: &'a [Note],
    last: &str,
    query: &str,
) -> &'a [Note]
    requires { map note_value rest.now ≡ from_query last.now (map note_value notes.now) }
    ensures { map note_value result.now ≡ from_query query.now (map note_value notes.now) }
{
    if query.cmp(last).is_lt() {
        skip_to(notes, query)
    } else {
        skip_to(rest, query)
    }
}

/// The text of the first of the notes, if it is of this query.
pub(crate) fn first_text<'a>(notes: &'a [Note], query: &str) -> Option<&'a ArcStr>
    ensures { option_map arc_str_bytes (option_copied result)
        ≡ option_map (λ n. n.text) (first_of query.now (map note_value notes.now)) }
{
    match notes.first() {
        Some(note) if note.query.as_str() == query => Some(&note.text),
        _ => None,
    }
}
