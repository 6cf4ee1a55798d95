//! Where in the words of a field a query stands.
ghost use Rattle.std.specs.Prelude.{◌≡◌, ◌+◌, ◌<◌, ◌≤◌, None, option_map, IfSome};
ghost use Rattle.clip_grammar.specs.Tree.{tree_of};
ghost use Rattle.clip_near.specs.Near.{field_of, width, stands_at, is_followed};
ghost use Rattle.clip_near.specs.Steps.Ends.{ends_at, stands_behind, IsLastEnd};

use clip_grammar::query::Query;
use clip_meaning::stands_at;
use clip_words::Texts;

/// The field in which a word, a phrase or a prefix is sought.
pub(crate) fn field_of(query: &Query) -> Option<&str>
    ensures { option_map (λ field. field.now) result ≡ field_of (tree_of query.now) }
{
    match query {
        Query::Term { field, word: _ } => Some(field.as_str()),
        Query::Phrase { field, words: _ } => Some(field.as_str()),
        Query::Prefix { field, front: _ } => Some(field.as_str()),
        Query::Span {
            field: _,
            low: _,
            high: _,
        } => None,
        Query::All => None,
        Query::Group(_) => None,
    }
}

/// How many words a query takes where it stands.
fn width(query: &Query) -> usize
    ensures { result ≡ width (tree_of query.now) }
{
    match query {
        Query::Phrase { field: _, words } => words.len(),
        _ => 1,
    }
}

/// Whether a query stands in the words from a position on.
fn stands(query: &Query, words: &Texts, position: usize) -> bool
    ensures { result ≡ stands_at (tree_of query.now) words.now position }
{
    let Some(first) = words.get(position) else {
        return false;
    };
    match query {
        Query::Term { field: _, word } => first == word.as_str(),
        Query::Phrase {
            field: _,
            words: phrase,
        } => !phrase.is_empty() && stands_at(words, position, phrase),
        Query::Prefix { field: _, front } => first.as_bytes().starts_with(front.as_bytes()),
        _ => false,
    }
}

/// Whether a query that takes so many words has a place that ends before a position, at the word before it.
fn ends_at(query: &Query, taken: usize, words: &Texts, position: usize) -> bool
    requires { taken ≡ width (tree_of query.now) }
    ensures { result ≡ ends_at (tree_of query.now) words.now position }
{
    taken <= position && stands(query, words, position - taken)
}

/// The last end up to a position, of the last end before it.
fn last_end(
    query: &Query,
    taken: usize,
    words: &Texts,
    position: usize,
    before: Option<usize>,
) -> Option<usize>
    requires taken { taken ≡ width (tree_of query.now) }
    requires before { IsLastEnd (tree_of query.now) words.now position before }
    ensures { IsLastEnd (tree_of query.now) words.now (position + 1) result }
{
    if ends_at(query, taken, words, position) {
        return Some(position);
    }
    before
}

/// Whether a query stands at a position, with at most `between` words between it and an end.
fn stands_behind(
    between: usize,
    end: Option<usize>,
    query: &Query,
    words: &Texts,
    position: usize,
) -> bool
    ensures { result ≡ stands_behind between end (tree_of query.now) words.now position }
{
    let Some(end) = end else {
        return false;
    };
    if position < end || position - end > between {
        return false;
    }
    stands(query, words, position)
}

/// Whether the first query stands somewhere, and the second behind its end, with at most `between` words between. One
/// walk over the words, which keeps the last end of the first query.
pub(crate) fn is_followed(between: usize, first: &Query, second: &Query, words: &Texts) -> bool
    ensures { result ≡ is_followed between (tree_of first.now) (tree_of second.now) words.now }
{
    let taken = width(first);
    let mut end = None;
    for position in 0..words.len() {
        end = last_end(first, taken, words, position, end);
        if stands_behind(between, end, second, words, position) {
            return true;
        }
    }
    false
}
