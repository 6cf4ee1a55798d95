//! The numbers of an article's keys.
ghost use Rattle.std.specs.Prelude.{◌≡◌, ◌++◌, [], IfOk, OnOk, map};
ghost use Rattle.std.specs.Prelude.{option_map, option_to_list};
ghost use Rattle.std.specs.List.Sorted.{IsStrictlySortedBy};
ghost use Rattle.clip_extract.specs.Keys.{Word, Front, key_of, key_cmp, text_of};
ghost use Rattle.clip_extract.specs.Fronts.{fronts};
ghost use Rattle.clip_extract.specs.Covering.{front_keys};
ghost use Rattle.clip_terms.specs.Terms.{number_of};
ghost use Rattle.clip_terms.specs.Steps.KeysByField.{is_word, ordered_keys};
ghost use Rattle.clip_meaning.specs.Leads.{IsLead};
ghost use Rattle.clip_terms.specs.Steps.Leads.{AreLeads, IsShortLength, AreShortLengths};
ghost use Rattle.clip_terms.specs.Steps.Numbers.{known};
ghost use Rattle.clip_terms.specs.Steps.Fronts.{other_fronts, asked_fronts, AddsNumbersOf};

use crate::field_terms::FieldTerms;
use crate::leads::{Sought, SoughtText};
use crate::terms::Terms;
use clip_extract::{Fronts, Key};
use clip_meaning::{Field, Postings};
use clip_words::NoMemory;
use std::alloc::Global;

/// The numbers of words of a field, beside which their leads and short lengths are given, in order; none of a word that
/// is no term.
pub(crate) fn word_numbers(
    alloc: Global,
    of_field: &FieldTerms<'_>,
    words: &[&str],
    leads: &[u64],
    lengths: &[u8],
) -> Result<Vec<Option<u32>>, NoMemory>
    requires leads { AreLeads (map (λ w. Word of_field.now.field w.now) words.now) leads.now }
    requires lengths { AreShortLengths (map (λ w. Word of_field.now.field w.now) words.now) lengths.now }
    ensures { IfOk result (λ numbers. numbers.items ≡ map (number_of of_field.now.terms)
        (map (λ w. Word of_field.now.field w.now) words.now)) }
{
    let mut numbers = Vec::with_capacity(alloc, words.len())?;
    for place in 0..words.len() {
        let word = Sought::with(SoughtText::Text(words[place]), leads[place], lengths[place]);
        numbers.push(of_field.number(&word))?;
    }
    Ok(numbers)
}

/// How many terms are passed at most, one by one, to the place where the next key likely is.
const MOST_STEPS: usize = 16;

/// Where the term of a text with this lead likely is: at the first of some places from one on whose lead is not below.
fn likely_from(leads: &[u64], from: usize, lead: u64) -> usize {
    let mut place = from;
    for _ in 0..MOST_STEPS {
        if place >= leads.len() || leads[place] >= lead {
            return place;
        }
        place += 1;
    }
    place
}

/// Where the next term likely is: behind the number of this one, or where this one was looked for.
fn likely_behind(number: Option<u32>, likely: usize) -> usize {
    match number {
        Some(number) => number as usize + 1,
        None => likely,
    }
}

/// The number of a key, of whose text the lead and the short length are given, none of a key that is no term. Looks
/// first where it likely is. The terms of a field become those of its field.
fn key_number<'a>(
    terms: &'a Terms,
    of_field: &mut FieldTerms<'a>,
    key: &'a Key,
    lead: u64,
    short: u8,
    likely: usize,
) -> Option<u32>
    requires terms { of_field.old.terms ≡ terms.now }
    requires lead { IsLead (text_of (key_of key.now)) lead }
    requires short { IsShortLength (text_of (key_of key.now)) short }
    ensures terms { of_field.new.terms ≡ terms.now }
    ensures number { result ≡ number_of terms.now (key_of key.now) }
{
    let Key::Word(field, word) = key else {
        return terms.number(key);
    };
    if !of_field.is_of(field) {
        *of_field = terms.of_field(field);
    }
    of_field.number_from(&Sought::with(SoughtText::Word(word), lead, short), likely)
}

/// The numbers of keys, beside which their leads and short lengths are given, in order; none of a key that is no term.
/// Keys rise as terms do, so each is looked for first some places behind the one before it.
pub(crate) fn key_numbers<'a>(
    alloc: Global,
    terms: &'a Terms,
    keys: &'a [Key],
    leads: &[u64],
    lengths: &[u8],
) -> Result<Vec<Option<u32>>, NoMemory>
    requires leads { AreLeads (map key_of keys.now) leads.now }
    requires lengths { AreShortLengths (map key_of keys.now) lengths.now }
    ensures { IfOk result (λ numbers. numbers.items ≡ map (number_of terms.now) (map key_of keys.now)) }
{
    let mut numbers = Vec::with_capacity(alloc, keys.len())?;
    let mut of_field = terms.of_field("");
    let mut likely = 0;
    for place in 0..keys.len() {
        let key = &keys[place];
        let lead = leads[place];
        likely = likely_from(terms.leads(), likely, lead);
        let found = key_number(terms, &mut of_field, key, lead, lengths[place], likely);
        likely = likely_behind(found, likely);
        numbers.push(found)?;
    }
    Ok(numbers)
}

/// Adds a number, if it is one.
pub(crate) fn add_known(number: Option<u32>, numbers: &mut Vec<u32>) -> Result<(), NoMemory>
    ensures { OnOk result (numbers.new.items ≡ numbers.old.items ++ option_to_list number) }
{
    if let Some(number) = number {
        numbers.push(number)?;
    }
    Ok(())
}

/// Adds the numbers of the keys that have one, in order.
pub(crate) fn add_all_known(by_key: &[Option<u32>], numbers: &mut Vec<u32>) -> Result<(), NoMemory>
    ensures { OnOk result (numbers.new.items ≡ numbers.old.items ++ known by_key.now) }
{
    for number in by_key {
        add_known(*number, numbers)?;
    }
    Ok(())
}

/// Whether a text is there and is this one.
fn is_text(text: Option<&str>, wanted: &str) -> bool
    ensures { result ≡ is_word (option_map (λ w. w.now) text.entry) wanted.now }
{
    text == Some(wanted)
}

/// Adds the numbers of a word's fronts among the terms of a field, but for those that another word has too.
fn add_word_fronts(
    of_field: &FieldTerms<'_>,
    last: &str,
    word: &str,
    numbers: &mut Vec<u32>,
) -> Result<(), NoMemory>
    ensures { OnOk result (numbers.new.items ≡ numbers.old.items
        ++ known (map (number_of of_field.now.terms)
        (map (Front of_field.now.field) (other_fronts (fronts last.now) (fronts word.now))))) }
{
    let mut lasts = Fronts::of(last);
    let mut fronts = Fronts::of(word);
    while let Some(front) = fronts.next() {
        if is_text(lasts.next(), front) {
            continue;
        }
        add_known(of_field.front(front), numbers)?;
    }
    Ok(())
}

/// Adds the numbers of the fronts of a field's words, of each word those that the word before it does not have.
fn add_posting_fronts(
    of_field: &FieldTerms<'_>,
    postings: &Postings<'_>,
    numbers: &mut Vec<u32>,
) -> Result<(), NoMemory>
    ensures { OnOk result (numbers.new.items ≡ numbers.old.items
        ++ known (map (number_of of_field.now.terms)
        (map (Front of_field.now.field) (asked_fronts [] (map (λ p. p.0) postings.now))))) }
{
    let mut last = "";
    for place in 0..postings.len() {
        let posting = postings.at(place);
        let word = posting.word();
        if word == last {
            continue;
        }
        add_word_fronts(of_field, last, word, numbers)?;
        last = word;
    }
    Ok(())
}

/// How many fronts of a table a walk passes in less time than it takes to look the fronts of one word up in it.
const FRONTS_FOR_A_WORD: usize = 32;

/// Adds the numbers of the fronts of a field's words, whose leads these are, among the terms of the field. Walks over
/// the fronts among these, or looks each front of the words up where the words are so few that this takes less time.
pub(crate) fn add_field_fronts(
    of_field: &FieldTerms<'_>,
    field: &Field,
    leads: &[u64],
    numbers: &mut Vec<u32>,
) -> Result<(), NoMemory>
    requires strict { IsStrictlySortedBy key_cmp of_field.now.terms }
    requires field { of_field.now.field ≡ field.now.0 }
    requires leads { AreLeads (ordered_keys field.now) leads.now }
    ensures { OnOk result
        (AddsNumbersOf of_field.now.terms (front_keys field.now) numbers.old.items numbers.new.items) }
{
    let words = field.words();
    words.utf8_law();
    if of_field.front_count() / FRONTS_FOR_A_WORD <= words.len() {
        return of_field.add_fronts_of(field, leads, numbers);
    }
    add_posting_fronts(of_field, &field.postings(), numbers)?;
    Ok(())
}
