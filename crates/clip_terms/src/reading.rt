//! Articles as they are asked by the numbers of terms.
ghost use Rattle.std.specs.Prelude.{◌≡◌, ℕ, ◌<◌, ◌++◌, [], IfOk, OnOk, nat_eq, length, map, get_or};
ghost use Rattle.std.specs.FinMap as finite;
ghost use Rattle.std.specs.List.{All, IsDistinct, list_any, list_all};
ghost use Rattle.clip_terms.specs.Spots.{spots_among};
ghost use Rattle.clip_extract.specs.Covering.{field_keys, front_keys};
ghost use Rattle.clip_terms.specs.Terms.{number_of, term_at};
ghost use Rattle.clip_terms.specs.Reading.{has_key, has_run};
ghost use Rattle.clip_terms.specs.Steps.Fronts.{AddsNumbersOf};
ghost use Rattle.clip_terms.specs.Steps.KeysByField.{ordered_keys};
ghost use Rattle.clip_terms.specs.Steps.Numbers.{number_at, AreFlags, IsEachOnce};
ghost use Rattle.clip_terms.specs.Steps.Runs.{stands_among};

use crate::asking::{AskedField, Asking};
use crate::field_numbers::FieldNumbers;
use crate::numbering::{add_all_known, add_field_fronts, add_known};
use crate::spots::FieldSpots;
use crate::terms::Terms;
use clip_extract::Key;
use clip_meaning::Article;
use clip_pieces::Marks;
use clip_words::NoMemory;
use std::alloc::Global;
use std::marker::Model;

/// An article as it is asked by the numbers of terms: which terms are keys of it, and which term is at each place.
/// Contracts see the terms and the article.
#[derive(Drop)]
pub struct Reading<'a> {
    terms: &'a Terms,
    article: &'a Article,
    numbers: Vec<u32>,
    marks: Marks,
    fields: Vec<FieldNumbers>,
}

impl<'a> Model for Reading<'a> {
    ghost use Rattle.clip_terms.specs.Reading.{ReadingValue, reading_code};
    ghost use Rattle.clip_terms.specs.Steps.Reading.{reading_of, IsReading};

    ghost Value = { ReadingValue };

    ghost coded = { reading_code };

    ghost view = { reading_of };

    ghost invariant = { IsReading };
}

/// The numbers below a bound, of which these are marked. Of those that are the same the first is left.
fn marks_of_each(alloc: Global, numbers: &mut Vec<u32>, bound: usize) -> Result<Marks, NoMemory>
    requires { All (λ n. n < bound) numbers.old.items }
    ensures long { IfOk result (λ marks. length marks ≡ bound) }
    ensures flags { IfOk result (λ marks. AreFlags marks bound numbers.old.items) }
    ensures left { OnOk result (IsEachOnce numbers.old.items numbers.new.items) }
{
    let mut marks = Marks::new(alloc, bound)?;
    let mut left = 0;
    for place in 0..numbers.len() {
        let number = numbers[place];
        if marks.is_marked(number as usize) {
            continue;
        }
        marks.mark(number as usize);
        numbers[left] = number;
        left += 1;
    }
    numbers.truncate(left);
    Ok(marks)
}

/// The number of the key at a place, if there is one.
pub(crate) fn number_at(by_key: &[Option<u32>], place: usize) -> Option<u32>
    ensures { result ≡ number_at by_key.now place }
{
    match by_key.get(place) {
        Some(number) => *number,
        None => None,
    }
}

/// The numbers of the keys at these places.
fn numbers_at(
    alloc: Global,
    places: &[usize],
    by_key: &[Option<u32>],
) -> Result<Vec<Option<u32>>, NoMemory>
    ensures { IfOk result (λ numbers. numbers.items ≡ map (number_at by_key.now) places.now) }
{
    let mut numbers = Vec::with_capacity(alloc, places.len())?;
    for place in places {
        numbers.push(number_at(by_key, *place))?;
    }
    Ok(numbers)
}

/// Reads a field of an article by these terms: the numbers of its words. Adds the numbers of the terms among its keys.
fn read_field(
    alloc: Global,
    terms: &Terms,
    asked: &AskedField<'_>,
    numbers: &mut Vec<u32>,
) -> Result<FieldNumbers, NoMemory>
    ensures added { OnOk result (AddsNumbersOf terms.now (ordered_keys asked.now ++ front_keys asked.now)
        numbers.old.items numbers.new.items) }
    ensures read { IfOk result (λ read. read ≡ map (number_of terms.now) (field_keys asked.now)) }
{
    terms.order_law();
    let field = asked.field();
    let of_field = terms.of_field(field.name());
    let by_key = asked.numbers(alloc, &of_field)?;
    let by_place = numbers_at(alloc, asked.places(), &by_key)?;
    let read = FieldNumbers::of(alloc, terms, field, by_place)?;
    add_all_known(&by_key, numbers)?;
    add_field_fronts(&of_field, field, asked.leads(), numbers)?;
    Ok(read)
}

/// Room for so many numbers is made at once.
const NUMBERS_AT_ONCE: usize = 256;

impl<'a> Reading<'a> {
    /// Reads an article by these terms.
    ///
    /// `NoMemory` where an allocation failed. Cost: for each field of the article a search among the field's terms for
    /// each of its words that differs from the others, a step for each front of the field that is a term and a search
    /// among the field's words for each of these that may be had, or, where these are more than the words, a search
    /// among the terms for each front of the words; a step for each word of the article, and one for each 64 terms.
    pub fn of(alloc: Global, terms: &'a Terms, asking: &Asking<'a>) -> Result<Reading<'a>, NoMemory>
        ensures { IfOk result (λ reading. reading ≡ record { terms = terms.now; article = asking.now }) }
    {
        terms.order_law();
        let mut numbers = Vec::with_capacity(alloc, NUMBERS_AT_ONCE)?;
        add_known(terms.number(&Key::Any), &mut numbers)?;
        let mut fields = Vec::with_capacity(alloc, asking.fields().len())?;
        for asked in asking.fields() {
            fields.push(read_field(alloc, terms, asked, &mut numbers)?)?;
        }
        let marks = marks_of_each(alloc, &mut numbers, terms.len())?;
        Ok(Reading {
            terms,
            article: asking.article(),
            numbers,
            marks,
            fields,
        })
    }

    /// The article. Constant time.
    pub fn article(&self) -> &'a Article
        ensures { result.now ≡ self.now.article }
    {
        self.article
    }

    /// The terms. Constant time.
    pub(crate) fn terms(&self) -> &'a Terms
        ensures { result.now ≡ self.now.terms }
    {
        self.terms
    }

    /// The numbers of the terms that the article has, in any order, each once. Constant time.
    pub fn numbers(&self) -> &[u32]
        ensures once { IsDistinct nat_eq result.now }
        ensures within { All (λ n. n < length self.now.terms) result.now }
        ensures had { (n : ℕ) → n < length self.now.terms
            → list_any (nat_eq n) result.now ≡ has_key self.now.article.fields (term_at self.now.terms n) }
    {
        &self.numbers
    }

    /// Whether the article has the term of a number; past the last term it has. Takes no memory. Constant time.
    pub fn has(&self, number: u32) -> bool
        ensures { result ≡ has_key self.now.article.fields (term_at self.now.terms number) }
    {
        if number as usize >= self.terms.len() {
            return true;
        }
        self.marks.is_marked(number as usize)
    }

    /// Whether the words of these numbers are in some field next to each other, in order; false for no numbers. Takes
    /// no memory. Cost: a step for each number; in each field two binary searches for each number while those before
    /// it are frequent, and then a step for each place of the rarest of these and each number, or, where that is less,
    /// for each word of the field and each number, times the logarithm of their count.
    pub fn has_run(&self, run: &[u32]) -> bool
        ensures { result ≡ has_run self.now.article.fields (map (term_at self.now.terms) run.now) }
    {
        if run.is_empty() {
            return false;
        }
        if !self.has_all(run) {
            return false;
        }
        stands_in_any(&self.fields, run)
    }

    /// The fields, in the byte order of their names, with the numbers of their words' terms.
    ///
    /// `NoMemory` where an allocation failed. Cost: a step for each field.
    pub fn spots(&self, alloc: Global) -> Result<Vec<FieldSpots<'_>>, NoMemory>
        ensures { IfOk result (λ spots. spots.items
            ≡ map (spots_among self.now.terms) (finite.entries self.now.article.fields)) }
    {
        let count = self.article.fields().len();
        let mut spots = Vec::with_capacity(alloc, count)?;
        for place in 0..count {
            spots.push(self.spots_at(place))?;
        }
        Ok(spots)
    }

    /// The field of a place.
    fn spots_at(&self, place: usize) -> FieldSpots<'_>
        requires { place < length (finite.entries self.now.article.fields) }
        ensures { result
            ≡ spots_among self.now.terms (get_or (finite.entries self.now.article.fields) place ([], [])) }
    {
        FieldSpots::of(
            self,
            &self.article.fields()[place],
            &self.fields[place],
            place,
        )
    }

    /// Whether the article has each of the terms of these numbers.
    fn has_all(&self, run: &[u32]) -> bool
        ensures { result ≡ list_all (λ n. has_key self.now.article.fields (term_at self.now.terms n)) run.now }
    {
        for number in run {
            if !self.has(*number) {
                return false;
            }
        }
        true
    }
}

/// Whether the numbers of a run are next to each other, in order, in one of the fields.
fn stands_in_any(fields: &[FieldNumbers], run: &[u32]) -> bool
    requires { 0 < length run.now }
    ensures { result ≡ list_any (stands_among run.now) fields.now }
{
    for numbers in fields {
        if numbers.has_run(run) {
            return true;
        }
    }
    false
}
