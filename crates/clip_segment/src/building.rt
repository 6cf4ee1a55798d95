//! How an index is built: the terms of queries, the positions under each, and the plans.
ghost use Rattle.std.specs.Prelude.{◌≡◌, ◌<◌, ◌≤◌, ◌++◌, ◌∷◌, [], ℕ, List, if◌then◌else◌, IfOk, OnOk, IsTrue, Some};
ghost use Rattle.std.specs.Prelude.{length, map, get_or, set, vec_items};
ghost use Rattle.std.specs.List.{list_any};
ghost use Rattle.std.specs.List.Sorted.{IsStrictlySortedBy};
ghost use Rattle.clip_grammar.specs.Tree.{tree_of};
ghost use Rattle.clip_extract.specs.Keys.{KeyValue, key_of, key_cmp, in_order, is_same};
ghost use Rattle.clip_extract.specs.Extraction.{extract, second_extract};
ghost use Rattle.clip_terms.specs.Terms.{number_of};
ghost use Rattle.clip_plan.specs.Plan.{are_terms, decoded, plan_of};
ghost use Rattle.clip_segment.specs.Index.{terms_of};
ghost use Rattle.clip_segment.specs.Steps.Needed.{others, needed_of};
ghost use Rattle.clip_segment.specs.Steps.Parts.{AreListsOf};
ghost use Rattle.clip_segment.specs.Steps.Ends.{ends_with, once_more, with_positions, NoneEnds};
ghost use Rattle.clip_indexed.specs.declared.segment.TheConstants.{MOST_POSITIONS};

use crate::term_lists::TermLists;
use clip_extract::{Key, loose_keys, loose_second_keys};
use clip_grammar::query::Query;
use clip_plan::{Plans, add_word_keys};
use clip_terms::Terms;
use clip_words::NoMemory;
use std::alloc::Global;

/// A query with its keys and its second keys, in no order.
#[derive(Drop)]
pub(crate) struct Keyed<'a> {
    query: &'a Query,
    keys: Vec<Key>,
    seconds: Vec<Key>,
    ghost own: { map key_of keys.items ≡ (extract (tree_of query.now)).keys },
    ghost own_seconds: { map key_of seconds.items ≡ second_extract (tree_of query.now) },
}

/// Queries with their keys and their second keys.
pub(crate) fn with_keys<'a>(alloc: Global, queries: &'a [Query]) -> Result<Vec<Keyed<'a>>, NoMemory>
    ensures { IfOk result (λ keyed. map (λ k. tree_of k.query.now) keyed.items ≡ map tree_of queries.now) }
{
    let mut keyed = Vec::with_capacity(alloc, queries.len())?;
    for query in queries {
        keyed.push(Keyed {
            query,
            keys: loose_keys(alloc, query)?,
            seconds: loose_second_keys(alloc, query)?,
        })?;
    }
    Ok(keyed)
}

/// Adds a copy of a key. Texts are shared.
fn add_copy(key: &Key, all: &mut Vec<Key>) -> Result<(), NoMemory>
    ensures { OnOk result (map key_of all.new.items ≡ map key_of all.old.items ++ key_of key.now ∷ []) }
{
    all.push(key.clone()?)?;
    Ok(())
}

/// Adds a copy of a key that is no word. Texts are shared.
fn add_other(key: &Key, all: &mut Vec<Key>) -> Result<(), NoMemory>
    ensures { OnOk result (map key_of all.new.items ≡ map key_of all.old.items ++ others (key_of key.now ∷ [])) }
{
    match key {
        Key::Word(_, _) => Ok(()),
        _ => add_copy(key, all),
    }
}

/// Adds copies of the keys that are no words. Texts are shared.
fn add_others(keys: &[Key], all: &mut Vec<Key>) -> Result<(), NoMemory>
    ensures { OnOk result (map key_of all.new.items ≡ map key_of all.old.items ++ others (map key_of keys.now)) }
{
    for key in keys {
        add_other(key, all)?;
    }
    Ok(())
}

/// Adds the words that a query asks for, which those of its keys and second keys are that are words, and the others of
/// its keys. Texts are shared.
fn add_asked(keyed: &Keyed, all: &mut Vec<Key>) -> Result<(), NoMemory>
    ensures { OnOk result (map key_of all.new.items
        ≡ map key_of all.old.items ++ needed_of (tree_of keyed.now.query.now)) }
{
    add_others(&keyed.keys, all)?;
    add_others(&keyed.seconds, all)?;
    add_word_keys(keyed.query, all)
}

/// The keys of queries, their second keys and the words that they ask for, in order, each once.
pub(crate) fn terms_of(alloc: Global, queries: &[Keyed]) -> Result<Terms, NoMemory>
    ensures { IfOk result (λ terms. terms ≡ terms_of (map (λ k. tree_of k.query.now) queries.now)) }
{
    let mut all = Vec::new(alloc);
    for query in queries {
        add_asked(query, &mut all)?;
    }
    let terms = Terms::of(all)?;
    Ok(terms)
}

/// The number of a key that is a term.
fn number_of(terms: &Terms, key: &Key) -> u32
    requires { IsTrue (are_terms terms.now (key_of key.now ∷ [])) }
    ensures { number_of terms.now (key_of key.now) ≡ Some result }
{
    let Some(number) = terms.number(key) else {
        unreachable!();
    };
    number
}

/// Whether a list ends with a position.
fn ends_with(list: &[u32], position: u32) -> bool
    ensures { result ≡ ends_with list.now position }
{
    match list.last() {
        Some(last) => *last == position,
        None => false,
    }
}

/// Adds a position at the end of a list that does not end with it.
fn add_once(list: &mut Vec<u32>, position: u32) -> Result<(), NoMemory>
    ensures { OnOk result (list.new.items ≡ once_more list.old.items position) }
{
    if ends_with(list, position) {
        return Ok(());
    }
    list.push(position)?;
    Ok(())
}

/// Adds a position at the end of the list of a number, if that does not end with it.
fn add_to_list(lists: &mut Vec<Vec<u32>>, number: usize, position: u32) -> Result<(), NoMemory>
    requires { number < length lists.old.items }
    ensures { OnOk result (map vec_items lists.new.items
        ≡ set (map vec_items lists.old.items) number
        (once_more (get_or (map vec_items lists.old.items) number []) position)) }
{
    add_once(&mut lists[number], position)?;
    Ok(())
}

/// Adds a position to the list of a key that is a term, where each term has its list, if that does not end with it.
fn add_to_key(
    terms: &Terms,
    key: &Key,
    position: u32,
    lists: &mut Vec<Vec<u32>>,
) -> Result<(), NoMemory>
    requires rising { IsStrictlySortedBy key_cmp terms.now }
    requires term { IsTrue (are_terms terms.now (key_of key.now ∷ [])) }
    requires long { length lists.old.items ≡ length terms.now }
    ensures long { OnOk result (length lists.new.items ≡ length terms.now) }
    ensures added { OnOk result ((before : List KeyValue) (under : KeyValue → List ℕ) → NoneEnds under position
        → map vec_items lists.old.items ≡ map (with_positions before position under) terms.now
        → map vec_items lists.new.items
        ≡ map (with_positions (before ++ key_of key.now ∷ []) position under) terms.now) }
{
    add_to_list(lists, number_of(terms, key) as usize, position)?;
    Ok(())
}

/// Adds a query's position to the list of each of these keys of it, which are terms, where each term has its list.
fn add_position(
    terms: &Terms,
    keys: &[Key],
    position: u32,
    lists: &mut Vec<Vec<u32>>,
) -> Result<(), NoMemory>
    requires rising { IsStrictlySortedBy key_cmp terms.now }
    requires terms { IsTrue (are_terms terms.now (map key_of keys.now)) }
    requires long { length lists.old.items ≡ length terms.now }
    ensures { OnOk result ((under : KeyValue → List ℕ) → NoneEnds under position
        → map vec_items lists.old.items ≡ map under terms.now
        → map vec_items lists.new.items ≡ map (with_positions (map key_of keys.now) position under) terms.now) }
{
    for key in keys {
        add_to_key(terms, key, position, lists)?;
    }
    Ok(())
}

/// For each term the positions of the queries that have it as a key, and of those that have it as a second key, both
/// rising.
pub(crate) fn lists_of(
    alloc: Global,
    terms: &Terms,
    queries: &[Keyed],
) -> Result<TermLists, NoMemory>
    requires short { length queries.now ≤ MOST_POSITIONS }
    requires terms { terms.now ≡ terms_of (map (λ k. tree_of k.query.now) queries.now) }
    ensures { IfOk result (λ lists. AreListsOf terms.now (map (λ k. tree_of k.query.now) queries.now) lists) }
{
    let mut lists = TermLists::empty(alloc, terms.len())?;
    let mut position = 0;
    for query in queries {
        add_position(terms, &query.keys, position, &mut lists.positions)?;
        add_position(terms, &query.seconds, position, &mut lists.seconds)?;
        position += 1;
    }
    Ok(lists)
}

/// The plans of queries, in order.
pub(crate) fn plans_of(alloc: Global, terms: &Terms, queries: &[Keyed]) -> Result<Plans, NoMemory>
    requires { terms.now ≡ terms_of (map (λ k. tree_of k.query.now) queries.now) }
    ensures { IfOk result (λ plans.
        map (decoded terms.now) plans ≡ map plan_of (map (λ k. tree_of k.query.now) queries.now)) }
{
    let mut plans = Plans::new(alloc);
    for query in queries {
        plans.push(alloc, terms, query.query)?;
    }
    Ok(plans)
}
