//! The second keys of a query.
ghost use Rattle.std.specs.Prelude.{◌≡◌, IfOk, map, option_map};
ghost use Rattle.std.specs.List.{list_all};
ghost use Rattle.clip_grammar.specs.Tree.{tree_of};
ghost use Rattle.clip_extract.specs.Keys.{key_of};
ghost use Rattle.clip_extract.specs.Extraction.{extract, is_word, only_words, second_extract, second_found};
ghost use Rattle.clip_extract.specs.Extraction.{second_keys};
ghost use Rattle.clip_extract.specs.Steps.Seconds.{heavier_of, next_ranked, ranked, weighed};

use crate::extraction::loose_keys;
use crate::key::Key;
use crate::sorting::sort_keys;
use crate::weighed::Weighed;
use clip_grammar::query::{Occur, Query};
use clip_words::NoMemory;
use std::alloc::Global;

/// The heaviest of some queries, the first on a tie, and the heaviest of the others.
#[derive(Clone, Copy)]
struct Ranking<'a> {
    first: Option<Weighed<'a>>,
    second: Option<Weighed<'a>>,
}

/// The heavier of a query, if there is one, and of the next; the first of them on a tie.
fn heavier<'a>(standing: Option<Weighed<'a>>, next: Weighed<'a>) -> Weighed<'a>
    ensures { weighed result ≡ heavier_of (option_map weighed standing.entry) (weighed next.entry) }
{
    match standing {
        Some(other) if other.weight >= next.weight => other,
        _ => next,
    }
}

/// The ranking with one query more.
fn with_next<'a>(ranking: Ranking<'a>, next: Weighed<'a>) -> Ranking<'a>
    ensures { ranked result ≡ next_ranked (ranked ranking.entry) (weighed next.entry) }
{
    match ranking.first {
        Some(first) if first.weight >= next.weight => Ranking {
            first: Some(first),
            second: Some(heavier(ranking.second, next)),
        },
        first => Ranking {
            first: Some(next),
            second: first,
        },
    }
}

/// Of the Must children of a group, without the heaviest of them, the heaviest.
fn second_child(query: &Query) -> Option<&Query>
    ensures { option_map (λ q. extract (tree_of q.now)) result ≡ second_found (tree_of query.now) }
{
    let Query::Group(clauses) = query else {
        return None;
    };
    let mut ranking = Ranking {
        first: None,
        second: None,
    };
    for (occur, child) in clauses {
        let Occur::Must = occur else {
            continue;
        };
        ranking = with_next(ranking, Weighed::of(child));
    }
    let second = ranking.second?;
    Some(second.query)
}

/// Whether a key is a word.
fn is_word(key: &Key) -> bool
    ensures { result ≡ is_word (key_of key.now) }
{
    match key {
        Key::Any => false,
        Key::Word(_, _) => true,
        Key::Front(_, _) => false,
    }
}

/// Whether all of these keys are words.
fn are_words(keys: &[Key]) -> bool
    ensures { result ≡ list_all is_word (map key_of keys.now) }
{
    for key in keys {
        if !is_word(key) {
            return false;
        }
    }
    true
}

/// The keys, if all of them are words, and else none.
fn only_words(mut keys: Vec<Key>) -> Vec<Key>
    ensures { map key_of result.items ≡ only_words (map key_of keys.items) }
{
    if are_words(&keys) {
        return keys;
    }
    keys.clear();
    keys
}

/// The `second_keys` of a query in the order in which they are extracted, some maybe more than once.
///
/// `NoMemory` where an allocation failed. Cost: that of `second_keys` without its sort.
pub fn loose_second_keys(alloc: Global, query: &Query) -> Result<Vec<Key>, NoMemory>
    ensures { IfOk result (λ found. map key_of found.items ≡ second_extract (tree_of query.now)) }
{
    match second_child(query) {
        Some(child) => Ok(only_words(loose_keys(alloc, child)?)),
        None => Ok(Vec::new(alloc)),
    }
}

/// The second keys of a query, in order, each once: where there are some, an article of which the query holds has one
/// of them too, beside one of its `keys`.
///
/// Each Must child of a group has to hold, so the keys of each would cover the group. `keys` has those of the heaviest
/// of them, and the second keys are those of the heaviest of the others, the first on a tie, if they are all words: an
/// article that has a key of a query and none of its second keys is ruled out with no look at the query. There are none
/// of a query that is no group, of a group with fewer than two Must children, where nothing narrows that child down,
/// and where a front is among its keys, since each front more costs every article a search.
///
/// `NoMemory` where an allocation failed. Cost: two walks over the query at most, and a sort of the keys.
pub fn second_keys(alloc: Global, query: &Query) -> Result<Vec<Key>, NoMemory>
    ensures { IfOk result (λ found. map key_of found.items ≡ second_keys (tree_of query.now)) }
{
    sort_keys(loose_second_keys(alloc, query)?)
}
