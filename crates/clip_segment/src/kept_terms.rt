//! The terms of the queries that are kept of several indexes.
ghost use Rattle.std.specs.Prelude.{◌≡◌, ◌++◌, ◌||◌, ◌<◌, ◌≤◌, true, ◌∷◌, [], ℕ, List, IfOk, OnOk, length};
ghost use Rattle.std.specs.Prelude.{map, flat_map, nat_eq};
ghost use Rattle.std.specs.Prelude.{unwrap_or, slice_get, vec_items};
ghost use Rattle.std.specs.List.{AllZip, list_any};
ghost use Rattle.std.specs.List.Sorted.{IsStrictlySortedBy};
ghost use Rattle.clip_grammar.specs.Tree.{Tree};
ghost use Rattle.clip_extract.specs.Keys.{KeyValue, key_of, key_cmp, is_same};
ghost use Rattle.clip_plan.specs.Plan.{names};
ghost use Rattle.clip_segment.specs.Index.{IsIndexOf, asked_of, terms_of};
ghost use Rattle.clip_indexed.specs.Selecting.{AreFlagsOf, flagged, kept_of};
ghost use Rattle.clip_segment.specs.Steps.Parts.{flag_at};

use crate::query_index::QueryIndex;
use clip_pieces::PackedLists;
use clip_plan::Plans;
use clip_terms::{Head, Terms, merged};
use clip_words::NoMemory;
use std::alloc::Global;

/// The flags of a list, none past the last list.
pub(crate) fn flags_of(kept: &[Vec<bool>], place: usize) -> &[bool]
    ensures { result.now ≡ unwrap_or (slice_get (map vec_items kept.now) place) [] }
{
    match kept.get(place) {
        Some(flags) => flags,
        None => &[],
    }
}

/// Whether the flag of a place is set; a missing one is not.
pub(crate) fn flag_at(flags: &[bool], place: usize) -> bool
    ensures { result ≡ flag_at flags.now place }
{
    match flags.get(place) {
        Some(flag) => *flag,
        None => false,
    }
}

/// Whether the flag of one of the positions is set.
fn any_flag(flags: &[bool], positions: &[u32]) -> bool
    ensures { result ≡ list_any (flag_at flags.now) positions.now }
{
    for position in positions {
        if flag_at(flags, *position as usize) {
            return true;
        }
    }
    false
}

/// The numbers that the kept plans name.
fn kept_numbers(alloc: Global, plans: &Plans, kept: &[bool]) -> Result<Vec<u32>, NoMemory>
    ensures { IfOk result (λ numbers. numbers.items ≡ flat_map names (flagged kept.now plans.now)) }
{
    let mut numbers = Vec::new(alloc);
    for position in 0..plans.len() {
        if flag_at(kept, position) {
            plans.add_numbers(position, &mut numbers)?;
        }
    }
    Ok(numbers)
}

/// Sets the flag of a number, if there is one.
fn set_flag(flags: &mut Vec<bool>, number: usize)
    ensures long { length flags.new.items ≡ length flags.old.items }
    ensures flags { (n : ℕ) → n < length flags.old.items
        → flag_at flags.new.items n ≡ (flag_at flags.old.items n || nat_eq n number) }
{
    if number < flags.len() {
        flags[number] = true;
    }
}

/// Sets the flags of numbers; one past the last flag is left out.
fn set_all(flags: &mut Vec<bool>, numbers: &[u32])
    ensures long { length flags.new.items ≡ length flags.old.items }
    ensures flags { (n : ℕ) → n < length flags.old.items
        → flag_at flags.new.items n ≡ (flag_at flags.old.items n || list_any (nat_eq n) numbers.now) }
{
    for number in numbers {
        set_flag(flags, *number as usize);
    }
}

/// Sets the flag of each list of which a position is kept; a list past the last flag is left out.
fn set_kept(flags: &mut Vec<bool>, lists: &PackedLists<u32>, kept: &[bool])
    ensures long { length flags.new.items ≡ length flags.old.items }
    ensures flags { (n : ℕ) → n < length flags.old.items → flag_at flags.new.items n
        ≡ (flag_at flags.old.items n || list_any (flag_at kept.now) (unwrap_or (slice_get lists.now n) [])) }
{
    for number in 0..flags.len() {
        if any_flag(kept, lists.get(number)) {
            set_flag(flags, number);
        }
    }
}

/// The terms whose flags are set.
fn flagged_heads<'a>(
    alloc: Global,
    terms: &'a Terms,
    flags: &[bool],
) -> Result<Vec<Head<'a>>, NoMemory>
    ensures rising { IfOk result (λ heads. IsStrictlySortedBy key_cmp heads.items) }
    ensures flagged { IfOk result (λ heads. heads.items ≡ flagged flags.now terms.now) }
{
    terms.order_law();
    let mut heads = Vec::with_capacity(alloc, terms.len())?;
    for number in 0..terms.len() {
        if flag_at(flags, number) {
            heads.push(terms.head(number))?;
        }
    }
    Ok(heads)
}

/// The terms of an index that its kept queries ask for, where some are not kept.
fn some_heads<'a>(
    alloc: Global,
    index: &'a QueryIndex,
    kept: &[bool],
) -> Result<Vec<Head<'a>>, NoMemory>
    ensures rising { IfOk result (λ heads. IsStrictlySortedBy key_cmp heads.items) }
    ensures asked { IfOk result (λ heads. (trees : List Tree) → IsIndexOf trees index.now → (key : KeyValue)
        → list_any (is_same key) heads.items
        ≡ list_any (is_same key) (flat_map asked_of (flagged kept.now trees))) }
{
    let mut used = vec![in alloc; false; index.terms.len()]?;
    set_kept(&mut used, &index.positions, kept);
    set_kept(&mut used, &index.seconds, kept);
    let numbers = kept_numbers(alloc, &index.plans, kept)?;
    set_all(&mut used, &numbers);
    flagged_heads(alloc, &index.terms, &used)
}

/// Whether at least so many flags are there, and each is set.
fn are_all_set(flags: &[bool], count: usize) -> bool
    ensures { result ≡ true → (trees : List Tree) → length trees ≤ count → flagged flags.now trees ≡ trees }
{
    if flags.len() < count {
        return false;
    }
    for flag in flags {
        if !*flag {
            return false;
        }
    }
    true
}

/// All terms.
fn all_heads<'a>(alloc: Global, terms: &'a Terms) -> Result<Vec<Head<'a>>, NoMemory>
    ensures rising { IfOk result (λ heads. IsStrictlySortedBy key_cmp heads.items) }
    ensures all { IfOk result (λ heads. heads.items ≡ terms.now) }
{
    terms.order_law();
    let mut heads = Vec::with_capacity(alloc, terms.len())?;
    for number in 0..terms.len() {
        heads.push(terms.head(number))?;
    }
    Ok(heads)
}

/// The terms of an index that its kept queries ask for: mostly all are kept.
fn kept_heads<'a>(
    alloc: Global,
    index: &'a QueryIndex,
    kept: &[bool],
) -> Result<Vec<Head<'a>>, NoMemory>
    ensures rising { IfOk result (λ heads. IsStrictlySortedBy key_cmp heads.items) }
    ensures asked { IfOk result (λ heads. (trees : List Tree) → IsIndexOf trees index.now → (key : KeyValue)
        → list_any (is_same key) heads.items
        ≡ list_any (is_same key) (flat_map asked_of (flagged kept.now trees))) }
{
    if are_all_set(kept, index.plans.len()) {
        let heads = all_heads(alloc, &index.terms)?;
        return Ok(heads);
    }
    some_heads(alloc, index, kept)
}

/// The terms of the kept queries of several indexes.
pub(crate) fn kept_terms(
    alloc: Global,
    indexes: &[&QueryIndex],
    kept: &[Vec<bool>],
) -> Result<Terms, NoMemory>
    ensures rising { IfOk result (λ terms. IsStrictlySortedBy key_cmp terms) }
    ensures terms { IfOk result (λ terms. (trees : List (List Tree))
        → AllZip IsIndexOf trees (map (λ i. i.now) indexes.now) → AreFlagsOf trees (map vec_items kept.now)
        → terms ≡ terms_of (kept_of trees (map vec_items kept.now))) }
{
    let mut heads = Vec::new(alloc);
    let mut place = 0;
    for index in indexes {
        let more = kept_heads(alloc, index, flags_of(kept, place))?;
        heads = merged(alloc, &heads, &more)?;
        place += 1;
    }
    Terms::of_heads(alloc, &heads)
}
