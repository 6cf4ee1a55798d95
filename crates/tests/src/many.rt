//! The candidates of articles among ten thousand queries.
use crate::making::query_of;
use crate::script::{answer, candidates_of};
use clip_match::{Registrar, View};
use clip_standing::Command;
use std::alloc::{AllocError, Global};
use std::test::Fail;

/// The text of the query of a number.
fn generated(alloc: Global, i: u64) -> Result<String, AllocError> {
    let a = i % 89;
    let b = i % 97;
    let c = i % 101;
    match i % 4 {
        0 => format!(in alloc; "w{a} w{b}"),
        1 => format!(in alloc; "+w{a} +word{c}"),
        2 => format!(in alloc; "\"w{b} w{c}\" w{a}"),
        _ => format!(in alloc; "+(w{a} w{c}) +w{b} -w{c}"),
    }
}

/// How many digits a number below 1,000 has.
fn digits(n: u64) -> u64 {
    match n {
        0..=9 => 1,
        10..=99 => 2,
        _ => 3,
    }
}

/// Whether the query of a number is a candidate of an article whose words are `w` before one of the numbers
/// `short`, and `word` before one of the numbers `long`.
///
/// Worked by hand from the four forms: a disjunction is found by each of its words, a conjunction by its longest
/// word, the first among equals, where a group counts by its shortest; `word1` is longer than `w99`.
fn is_wanted(i: u64, short: &[u64], long: &[u64]) -> bool {
    let a = i % 89;
    let b = i % 97;
    let c = i % 101;
    match i % 4 {
        0 => short.contains(&a) || short.contains(&b),
        1 => long.contains(&c),
        2 if digits(c) > digits(b) => short.contains(&c) || short.contains(&a),
        2 => short.contains(&b) || short.contains(&a),
        _ if digits(b) > digits(a) || digits(b) > digits(c) => short.contains(&b),
        _ => short.contains(&a) || short.contains(&c),
    }
}

/// How many queries are registered.
const MANY: u64 = 10000;

/// How many of the first ids are taken by later queries.
const REPLACED: u64 = 1000;

/// A register of the queries of these numbers.
fn numbered(alloc: Global, from: u64, to: u64) -> Result<Command, Fail> {
    let mut list = Vec::new(alloc);
    for i in from..to {
        let text = generated(alloc, i)?;
        list.push(query_of(alloc, i % (MANY - REPLACED), &text)?)?;
    }
    Ok(Command::Register(list))
}

/// Registers all queries, in lists of 1,000.
fn register_all(alloc: Global, registrar: &mut Registrar) -> Result<(), Fail> {
    for list in 0..10u64 {
        let command = numbered(alloc, list * 1000, list * 1000 + 1000)?;
        answer(alloc, registrar, 1, command)?;
    }
    Ok(())
}

/// The numbers of the queries that are to be candidates.
fn wanted_numbers(alloc: Global, short: &[u64], long: &[u64]) -> Result<Vec<u64>, AllocError> {
    let mut wanted = Vec::new(alloc);
    for i in REPLACED..MANY {
        if is_wanted(i, short, long) {
            wanted.push(i)?;
        }
    }
    Ok(wanted)
}

/// The numbers of the queries that are candidates of the article of a text.
fn found_numbers(alloc: Global, view: &View, text: &str) -> Result<Vec<u64>, Fail> {
    let entries = candidates_of(alloc, view, text)?;
    let mut found = Vec::new(alloc);
    for entry in &entries {
        found.push(entry.seq().wrapping_sub(1))?;
    }
    Ok(found)
}

/// Whether just the queries worked by hand are candidates of the article of a text.
fn finds(
    alloc: Global,
    view: &View,
    text: &str,
    short: &[u64],
    long: &[u64],
) -> Result<bool, Fail> {
    let found = found_numbers(alloc, view, text)?;
    Ok(found.as_slice() == wanted_numbers(alloc, short, long)?.as_slice())
}

/// Numbers.
type Numbers = &'static [u64];

/// Rows: the text of an article, and the numbers of its words after `w` and after `word`.
static ROWS: [(&str, Numbers, Numbers); 4] = [
    ("", &[], &[]),
    ("w1 w2 w3 w4 w5 w6 w7 w8", &[1, 2, 3, 4, 5, 6, 7, 8], &[]),
    ("word1 word50 word100 w88", &[88], &[1, 50, 100]),
    ("w10 w10 nothing w96 word3", &[10, 96], &[3]),
];

#[test]
fn ten_thousand_queries_have_just_the_candidates_worked_by_hand(
    rt: HostRuntime,
) -> Result<(), Fail> {
    let mut registrar = Registrar::new(rt.alloc());
    register_all(rt.alloc(), &mut registrar)?;
    let view = registrar.view()?;
    for (text, short, long) in &ROWS {
        assert!(rt; finds(rt.alloc(), &view, text, short, long)?, "{text}");
    }
    Ok(())
}
