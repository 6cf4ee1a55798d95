//! Queries that hold of no article, and queries that hold of every one.
ghost use Rattle.std.specs.Prelude.{◌≡◌, map};
ghost use Rattle.std.specs.Arc.{arc_str_bytes};
ghost use Rattle.std.specs.List.{list_any};
ghost use Rattle.clip_grammar.specs.Tree.{tree_of, end_of};
ghost use Rattle.clip_meaning.specs.Meaning.{is_nonempty};
ghost use Rattle.clip_explain.specs.Certain.{is_void, is_parting, is_parted, is_led, begins_no_word};
ghost use Rattle.clip_explain.specs.Certain.{for_child, holds_in, is_never, is_always};

use clip_grammar::query::{Bound, Occur, Query};
use clip_meaning::is_field_name;
use std::sync::ArcStr;

/// Whether the low end is past the high one, so that no word lies between them.
fn is_void(low: &Bound, high: &Bound) -> bool
    ensures { result ≡ is_void (end_of low.now) (end_of high.now) }
{
    match (low, high) {
        (Bound::With(low), Bound::With(high)) => low > high,
        (Bound::With(low) | Bound::Without(low), Bound::With(high) | Bound::Without(high)) => low
            >= high,
        _ => false,
    }
}

/// Whether a byte is an ASCII sign that ends a word: none stands behind the first byte of one.
#[tactic(auto, unfolding(crate::specs::Certain::is_parting))]
fn is_parting(byte: u8) -> bool
    ensures { result ≡ is_parting byte }
{
    matches!(
        byte,
        b'!' | b'#'..=b'&' | b'('..=b'+' | b'-' | b'/' | b'<'..=b'@' | b'['..=b'^' | b'`' | b'{'..=b'~'
    )
}

/// Whether one of the bytes is a parting sign.
fn has_parting(bytes: &[u8]) -> bool
    ensures { result ≡ list_any is_parting bytes.now }
{
    for byte in bytes {
        if is_parting(*byte) {
            return true;
        }
    }
    false
}

/// Whether a parting sign stands behind the first byte.
fn is_parted(text: &str) -> bool
    ensures { result ≡ is_parted text.now }
{
    match text.as_bytes() {
        [] => false,
        [_, others @ ..] => has_parting(others),
    }
}

/// Whether a parting sign stands first, and an ASCII character behind it.
fn is_led(text: &str) -> bool
    ensures { result ≡ is_led text.now }
{
    match text.as_bytes() {
        [first, second, ..] => is_parting(*first) && *second < 128,
        _ => false,
    }
}

/// Whether the front is one with which no word begins, as its signs tell.
fn begins_no_word(front: &str) -> bool
    ensures { result ≡ begins_no_word front.now }
{
    is_parted(front) || is_led(front)
}

/// Whether there is a word.
fn has_words(words: &[ArcStr]) -> bool
    ensures { result ≡ is_nonempty (map arc_str_bytes words.now) }
{
    match words {
        [] => false,
        [_, ..] => true,
    }
}

/// The case of a clause's child: what is best for a group is worst for its MustNot clauses.
fn for_child(occur: Occur, best: bool) -> bool
    ensures { result ≡ for_child occur best }
{
    match occur {
        Occur::Must | Occur::Should => best,
        Occur::MustNot => !best,
    }
}

/// Whether the query holds in the best case, where each leaf holds that some article may meet, or in the worst, where
/// none does; below a MustNot it is the other way round.
fn holds_in(query: &Query, best: bool) -> bool
    ensures { result ≡ holds_in (tree_of query.now) best }
{
    match query {
        Query::Term { field, word: _ } => best && is_field_name(field),
        Query::Phrase { field, words } => best && is_field_name(field) && has_words(words),
        Query::Prefix { field, front } => best && is_field_name(field) && !begins_no_word(front),
        Query::Span { field, low, high } => best && is_field_name(field) && !is_void(low, high),
        Query::All => true,
        Query::Group(clauses) => {
            let mut enough = false;
            for (occur, child) in clauses {
                let held = holds_in(child, for_child(*occur, best));
                match occur {
                    Occur::Must if !held => return false,
                    Occur::MustNot if held => return false,
                    Occur::Must => enough = true,
                    Occur::Should => enough = enough || held,
                    Occur::MustNot => {}
                }
            }
            enough
        }
    }
}

/// Whether the query's tree alone tells that no article holds it, as `never_law` says: a field that no article can
/// have, a prefix with an ASCII sign in it at which words end, as `e-mobil*`, also as its first character where another
/// one in ASCII follows, as `#metoo*`, a range whose ends are past each other, a group that must have such a child, one
/// that must not have a child which always holds, one whose clauses are all MustNot.
///
/// Not all such queries are found: words are not compared, so `+tea -tea` is not. Takes no memory. Cost: one walk over
/// the query, which recurses as deep as its groups nest.
pub fn is_never(query: &Query) -> bool
    ensures { result ≡ is_never (tree_of query.now) }
{
    !holds_in(query, true)
}

/// Whether the query's tree alone tells that every article holds it, as `always_law` says: `*:*`, or a group each of
/// whose Must children is such a one, or where it has none some Should child, and whose MustNot children never hold.
///
/// Takes no memory. Cost: one walk over the query, which recurses as deep as its groups nest.
pub fn is_always(query: &Query) -> bool
    ensures { result ≡ is_always (tree_of query.now) }
{
    holds_in(query, false)
}
