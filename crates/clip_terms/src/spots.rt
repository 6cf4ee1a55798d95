//! Where the words of a field are, by the numbers of their terms.
ghost use Rattle.std.specs.Prelude.{◌≡◌, map, length};
ghost use Rattle.clip_meaning.specs.Steps.Marks.{AreRaised};
ghost use Rattle.clip_extract.specs.Covering.{field_keys};
ghost use Rattle.clip_terms.specs.Spots.{is_at, is_covered, is_word_of, spots_among};
ghost use Rattle.clip_terms.specs.Terms.{number_of, term_at};
ghost use Rattle.clip_terms.specs.Steps.Spots.{IsOfArticle};

use crate::field_numbers::FieldNumbers;
use crate::reading::Reading;
use crate::terms::Terms;
use clip_meaning::{Field, FieldFlags};
use std::marker::Model;
use std::ops::Range;

/// One field of an article that is asked by the numbers of terms, with the numbers of its words, and which numbers are
/// those of words of this field. Contracts see the terms and the field.
#[derive(Drop)]
pub struct FieldSpots<'a> {
    reading: &'a Reading<'a>,
    field: &'a Field,
    numbers: &'a FieldNumbers,
    range: Range<usize>,
}

impl<'a> Model for FieldSpots<'a> {
    ghost use Rattle.clip_terms.specs.Spots.{SpotsValue, spots_code};
    ghost use Rattle.clip_terms.specs.Steps.Spots.{spots_value, AreSpots};

    ghost Value = { SpotsValue };

    ghost coded = { spots_code };

    ghost view = { spots_value };

    ghost invariant = { AreSpots };
}

impl<'a> FieldSpots<'a> {
    /// A field of the article of a reading, of which these are the numbers of the words, in the order of the text, and
    /// whose place among the fields of the terms is likely this. Cost: that of `Terms::words_of`.
    pub(crate) fn of(
        reading: &'a Reading<'a>,
        field: &'a Field,
        numbers: &'a FieldNumbers,
        likely: usize,
    ) -> FieldSpots<'a>
        requires numbers { numbers.now ≡ map (number_of reading.now.terms) (field_keys field.now) }
        requires among { IsOfArticle reading.now.article.fields field.now }
        ensures { result ≡ spots_among reading.now.terms field.now }
    {
        let terms = reading.terms();
        terms.order_law();
        FieldSpots {
            reading,
            field,
            numbers,
            range: terms.words_of(field.name(), likely),
        }
    }

    /// The field. Constant time.
    pub fn field(&self) -> &'a Field
        ensures { result.now ≡ self.now.field }
    {
        self.field
    }

    /// The terms. Constant time.
    pub fn terms(&self) -> &'a Terms
        ensures { result.now ≡ self.now.terms }
    {
        self.reading.terms()
    }

    /// Whether the term of a number is of a word in a field of this name, which the article may lack; past the last
    /// term it isn't. Takes no memory. Constant time.
    pub fn is_of_field(&self, number: u32) -> bool
        ensures { result ≡ is_word_of self.now.field.0 (term_at self.now.terms number) }
    {
        let number = number as usize;
        self.range.start <= number && number < self.range.end
    }

    /// Raises the flags of the positions at which the term of a number occurs. Takes no memory. Cost: where the term is
    /// of this field and the article has it two binary searches among the field's words, and a step for each of these
    /// positions; constant where it isn't or doesn't.
    pub fn mark_term(&self, number: u32, flags: &mut FieldFlags)
        requires { length flags.old ≡ length self.now.field.1 }
        ensures long { length flags.new ≡ length flags.old }
        ensures raised { AreRaised flags.old flags.new
            (λ k. is_at self.now.field k (term_at self.now.terms number)) }
    {
        if !self.is_of_field(number) {
            return;
        }
        if !self.reading.has(number) {
            return;
        }
        self.mark_run(&[number], flags);
    }

    /// Raises the flags of the positions that the terms of these numbers cover where they are next to each other, in
    /// order; no numbers cover none. Takes no memory. Cost: two binary searches for each number while those before
    /// it are frequent, and then a step for each place of the rarest of these and each number, or, where that is less,
    /// for each word of the field and each number, times the logarithm of their count.
    pub fn mark_run(&self, run: &[u32], flags: &mut FieldFlags)
        ensures long { length flags.new ≡ length flags.old }
        ensures raised { AreRaised flags.old flags.new
            (λ k. is_covered self.now.field (map (term_at self.now.terms) run.now) k) }
    {
        if run.is_empty() {
            return;
        }
        self.numbers.mark_run(run, flags);
    }
}
