//! Keys and weight of a query.
ghost use Rattle.std.specs.Prelude.{◌≡◌, ℕ, ◌++◌, ◌∷◌, [], ◌≤◌, List, map, true, length, take, drop, IfOk, vec_len};
ghost use Rattle.std.specs.Prelude.{option_map};
ghost use Rattle.std.specs.Str.{chars};
ghost use Rattle.std.specs.Arc.{arc_str_bytes};
ghost use Rattle.clip_grammar.specs.Tree.{tree_of};
ghost use Rattle.clip_grammar.specs.declared.query.Occur.{Occur};
ghost use Rattle.clip_extract.specs.Keys.{KeyValue, key_of};
ghost use Rattle.clip_extract.specs.Extraction.{Extracted, heaviest, word_extract, front_extract, unnarrowed, extract};
ghost use Rattle.clip_extract.specs.Extraction.{query_keys, query_weight};
ghost use Rattle.clip_extract.specs.Fronts.{key_front};
ghost use Rattle.clip_extract.specs.Steps.Groups.{group_from, next_found, counts, outweighs, kept_from};
ghost use Rattle.clip_extract.specs.Steps.Leaves.{Adds, IsNoGroup, word_found, leaf_found};

use crate::front::key_front;
use crate::key::Key;
use crate::sorting::sort_keys;
use clip_grammar::query::{Occur, Query};
use clip_words::NoMemory;
use std::alloc::Global;
use std::sync::ArcStr;

/// What was found among a group's clauses so far: nothing, Should children with their least weight, or a Must child
/// with its weight.
#[derive(Clone, Copy)]
enum FoundInGroup {
    Nothing,
    Optional(u64),
    Required(u64),
}

/// How many characters a word has.
fn characters(word: &str) -> u64
    ensures { result ≡ length (chars word.now) }
{
    word.chars().count() as u64
}

/// The heaviest word, the first on a tie, and its weight.
fn heaviest_word(words: &[ArcStr]) -> Option<(&ArcStr, u64)>
    ensures { (field : List ℕ) → heaviest (map (word_extract field) (map arc_str_bytes words.now))
        ≡ option_map (λ r. word_found field (arc_str_bytes r.0.now) r.1) result }
{
    let (first, others) = words.split_first()?;
    let mut best = first;
    let mut most = characters(first);
    for word in others {
        let weight = characters(word);
        if most < weight {
            best = word;
            most = weight;
        }
    }
    Some((best, most))
}

/// Whether a clause more can change what was found.
fn counts(found: FoundInGroup, occur: Occur) -> bool
    ensures { result ≡ counts found occur }
{
    match (found, occur) {
        (_, Occur::Must) => true,
        (_, Occur::MustNot) | (FoundInGroup::Required(_), Occur::Should) => false,
        _ => true,
    }
}

/// What is found with one clause more, whose child has this weight.
fn next_found(found: FoundInGroup, occur: Occur, weight: u64) -> FoundInGroup
    ensures { result ≡ next_found found occur weight }
{
    match (found, occur) {
        (FoundInGroup::Required(best), Occur::Must) => FoundInGroup::Required(best.max(weight)),
        (_, Occur::Must) => FoundInGroup::Required(weight),
        (FoundInGroup::Optional(least), Occur::Should) => FoundInGroup::Optional(least.min(weight)),
        (FoundInGroup::Nothing, Occur::Should) => FoundInGroup::Optional(weight),
        _ => found,
    }
}

/// The weight of what was found.
#[tactic(auto, unfolding(crate::specs::Steps::Groups::group_with))]
fn weight_found(found: FoundInGroup) -> u64
    ensures { (keys : List KeyValue) → (group_from found keys []).weight ≡ result }
{
    match found {
        FoundInGroup::Nothing => 0,
        FoundInGroup::Optional(weight) | FoundInGroup::Required(weight) => weight,
    }
}

/// What a query that is no group is found by: nothing that narrows the articles down, a word of a field with its
/// weight, or the first characters of a prefix in a field.
#[derive(Clone, Copy)]
enum Leaf<'a> {
    Any,
    Word(&'a ArcStr, &'a ArcStr, u64),
    Front(&'a ArcStr, &'a ArcStr),
}

/// What a query that is no group is found by.
fn leaf_of(query: &Query) -> Leaf<'_>
    ensures { IsNoGroup query.now → leaf_found result ≡ extract (tree_of query.now) }
{
    match query {
        Query::Term { field, word } => Leaf::Word(field, word, characters(word)),
        Query::Phrase { field, words } => match heaviest_word(words) {
            Some((word, weight)) => Leaf::Word(field, word, weight),
            None => Leaf::Any,
        },
        Query::Prefix { field, front } => Leaf::Front(field, front),
        Query::Span {
            field: _,
            low: _,
            high: _,
        } => Leaf::Any,
        Query::All => Leaf::Any,
        Query::Group(_) => Leaf::Any,
    }
}

/// The weight of what a query that is no group is found by.
fn leaf_weight(leaf: Leaf<'_>) -> u64
    ensures { result ≡ (leaf_found leaf.entry).weight }
{
    match leaf {
        Leaf::Any => 0,
        Leaf::Word(_, _, weight) => weight,
        Leaf::Front(_, front) => characters(key_front(front)),
    }
}

/// The weight of a query's keys: how many characters the word or the front has that decides, by the rules of `keys`; 0
/// for Any.
///
/// Takes no memory. Cost: one walk over the query.
pub fn weight(query: &Query) -> u64
    ensures { result ≡ query_weight (tree_of query.now) }
{
    match query {
        Query::Group(clauses) => {
            let mut found = FoundInGroup::Nothing;
            for (occur, child) in clauses {
                if !counts(found, *occur) {
                    continue;
                }
                found = next_found(found, *occur, weight(child));
            }
            weight_found(found)
        }
        _ => leaf_weight(leaf_of(query)),
    }
}

/// Takes the keys from `start` to `end` out.
fn remove(keys: &mut Vec<Key>, start: usize, end: usize)
    requires low { start ≤ end }
    requires high { end ≤ vec_len keys.old }
    ensures { keys.new.items ≡ take start keys.old.items ++ drop end keys.old.items }
{
    keys.drain(start..end);
}

/// Whether a Must child of this weight takes the place of what was found.
fn outweighs(found: FoundInGroup, weight: u64) -> bool
    ensures { result ≡ outweighs found weight }
{
    match found {
        FoundInGroup::Required(best) => best < weight,
        _ => true,
    }
}

/// Keeps of a group's keys, which begin at `start`, those that count with one clause more, whose child's begin at
/// `middle`.
fn keep(
    found: FoundInGroup,
    occur: Occur,
    weight: u64,
    keys: &mut Vec<Key>,
    start: usize,
    middle: usize,
)
    requires low { start ≤ middle }
    requires high { middle ≤ vec_len keys.old }
    ensures front { take start (map key_of keys.new.items) ≡ take start (map key_of keys.old.items) }
    ensures long { start ≤ vec_len keys.new }
    ensures kept { drop start (map key_of keys.new.items)
        ≡ kept_from found occur weight start middle (map key_of keys.old.items) }
{
    match occur {
        Occur::Must if outweighs(found, weight) => remove(keys, start, middle),
        Occur::Must => keys.truncate(middle),
        Occur::Should | Occur::MustNot => {}
    }
}

/// Adds the key that every article has.
fn push_any(keys: &mut Vec<Key>) -> Result<u64, NoMemory>
    ensures added { IfOk result (λ _. Adds unnarrowed keys.old.items keys.new.items) }
    ensures weight { IfOk result (λ weight. weight ≡ 0) }
{
    keys.push(Key::Any)?;
    Ok(0)
}

/// The first characters of a text, at most `MOST_FRONT_CHARACTERS`: the text itself where it has no more.
fn shared_front(alloc: Global, text: &ArcStr) -> Result<ArcStr, NoMemory>
    ensures { IfOk result (λ front. arc_str_bytes front ≡ key_front (arc_str_bytes text.now)) }
{
    let front = key_front(text);
    if front == text.as_str() {
        return Ok(text.clone()?);
    }
    Ok(ArcStr::from_str(alloc, front)?)
}

/// Adds the key of a front of a field, or Any for an empty one, and returns its weight.
fn push_front(
    alloc: Global,
    field: &ArcStr,
    text: &ArcStr,
    keys: &mut Vec<Key>,
) -> Result<u64, NoMemory>
    ensures added { IfOk result (λ _. Adds (front_extract (arc_str_bytes field.now)
        (key_front (arc_str_bytes text.now)))
        keys.old.items keys.new.items) }
    ensures weight { IfOk result (λ weight. weight
        ≡ (front_extract (arc_str_bytes field.now) (key_front (arc_str_bytes text.now))).weight) }
{
    let front = shared_front(alloc, text)?;
    if front.is_empty() {
        return push_any(keys);
    }
    let weight = characters(&front);
    keys.push(Key::Front(field.clone()?, front))?;
    Ok(weight)
}

/// Adds the key of a query that is no group, and returns its weight.
fn add_leaf_key(alloc: Global, query: &Query, keys: &mut Vec<Key>) -> Result<u64, NoMemory>
    requires { IsNoGroup query.now }
    ensures added { IfOk result (λ _. Adds (extract (tree_of query.now)) keys.old.items keys.new.items) }
    ensures weight { IfOk result (λ weight. weight ≡ query_weight (tree_of query.now)) }
{
    match leaf_of(query) {
        Leaf::Any => push_any(keys),
        Leaf::Word(field, word, weight) => {
            keys.push(Key::Word(field.clone()?, word.clone()?))?;
            Ok(weight)
        }
        Leaf::Front(field, text) => push_front(alloc, field, text, keys),
    }
}

/// Adds a query's keys, and returns its weight.
pub(crate) fn add_keys(alloc: Global, query: &Query, keys: &mut Vec<Key>) -> Result<u64, NoMemory>
    ensures added { IfOk result (λ _. Adds (extract (tree_of query.now)) keys.old.items keys.new.items) }
    ensures weight { IfOk result (λ weight. weight ≡ query_weight (tree_of query.now)) }
{
    match query {
        Query::Group(clauses) => {
            let start = keys.len();
            let mut found = FoundInGroup::Nothing;
            for (occur, child) in clauses {
                if !counts(found, *occur) {
                    continue;
                }
                let middle = keys.len();
                let weight = add_keys(alloc, child, keys)?;
                keep(found, *occur, weight, keys, start, middle);
                found = next_found(found, *occur, weight);
            }
            match found {
                FoundInGroup::Nothing => push_any(keys),
                _ => Ok(weight_found(found)),
            }
        }
        _ => add_leaf_key(alloc, query, keys),
    }
}

/// The `keys` of a query in the order in which they are extracted, some maybe more than once.
///
/// `NoMemory` where an allocation failed. Cost: that of `keys` without its sort.
pub fn loose_keys(alloc: Global, query: &Query) -> Result<Vec<Key>, NoMemory>
    ensures { IfOk result (λ found. map key_of found.items ≡ (extract (tree_of query.now)).keys) }
{
    let mut found = Vec::new(alloc);
    add_keys(alloc, query, &mut found)?;
    Ok(found)
}

/// The keys of a query, in order, each once: an article of which it holds has one of them.
///
/// As Lucene's term-filtered presearcher extracts terms: of a word its key, of a phrase that of its heaviest word, of a
/// prefix its first characters, at most `MOST_FRONT_CHARACTERS`, of a group those of its heaviest Must child or,
/// without one, of all its Should children; Any for what nothing narrows. The weight of a word or a front is the number
/// of its characters, and of equal weights the first counts. Texts are shared with the query, but for a front that has
/// to be cut.
///
/// `NoMemory` where an allocation failed. Cost: one walk over the query, which moves the keys that are kept at most
/// once for each group around them, and a sort of the keys.
pub fn keys(alloc: Global, query: &Query) -> Result<Vec<Key>, NoMemory>
    ensures { IfOk result (λ found. map key_of found.items ≡ query_keys (tree_of query.now)) }
{
    sort_keys(loose_keys(alloc, query)?)
}
