//! The terms of one field, found by the first bytes of their texts.
ghost use Rattle.std.specs.Prelude.{◌≡◌, ℕ, true, Some, ◌<◌, ◌≤◌, ◌^◌, if◌then◌else◌, OnOk, map, length, slice_index};
ghost use Rattle.std.specs.Str.{bytes_eq, IsUtf8};
ghost use Rattle.std.specs.List.{All};
ghost use Rattle.clip_extract.specs.Covering.{front_keys};
ghost use Rattle.clip_extract.specs.Keys.{Word, Front, key_of};
ghost use Rattle.clip_terms.specs.Terms.{number_of};
ghost use Rattle.clip_terms.specs.Steps.Fronts.{AddsNumbersOf};
ghost use Rattle.clip_terms.specs.Steps.Leads.{AreLeads, AreShortLengths, NeverFall, TextsRise, IsPlaceOf, IsPast};
ghost use Rattle.clip_terms.specs.Steps.KeysByField.{ordered_keys};

use crate::hints::{Hints, SLOTS_OF_A_WORD};
use crate::lead_marks::LeadMarks;
use crate::leads::Sought;
use crate::terms::Terms;
use clip_extract::{Key, has_front_key};
use clip_meaning::Field;
use clip_words::NoMemory;
use std::cmp::Ordering;
use std::marker::Model;
use std::ops::Range;

/// The terms of one field, and where they are among all terms. Contracts see the terms and the name of the field.
///
/// A text whose first eight bytes, as a number, have no mark is no term. Another word is looked for where hints say
/// that it likely is, and then by these bytes among those of the field's words, which lie side by side; texts are
/// compared only where these bytes are the same and the length does not settle it, since one of them is longer. Fronts
/// are found by such a search among the field's fronts.
#[derive(Drop)]
pub struct FieldTerms<'a> {
    keys: &'a [Key],
    leads: &'a [u64],
    lengths: &'a [u8],
    marks: &'a LeadMarks,
    hints: &'a Hints,
    field: &'a str,
    words: Range<usize>,
    fronts: Range<usize>,
}

impl<'a> Model for FieldTerms<'a> {
    ghost use Rattle.clip_terms.specs.FieldTerms.{FieldTermsValue, field_terms_code};
    ghost use Rattle.clip_terms.specs.Steps.FieldTerms.{field_terms_of, AreFieldTerms};

    ghost Value = { FieldTermsValue };

    ghost coded = { field_terms_code };

    ghost view = { field_terms_of };

    ghost invariant = { AreFieldTerms };
}

/// Two to this power where a step is taken, else 0. Shifted and neither branched to nor chosen, of which the compiler
/// makes a branch: which way a search goes can't be foreseen.
pub(crate) fn step_if(taken: bool, bits: u32) -> usize
    requires { bits < 64 }
    ensures { result ≡ (if taken then 2 ^ bits else 0) }
{
    usize::from(taken) << bits
}

/// The first place of a part whose lead is not below this one. In a part no lead is below one before it.
fn first_of_lead(leads: &[u64], part: &Range<usize>, lead: u64) -> usize
    requires within { part.now.end ≤ length leads.now }
    requires rise { NeverFall leads.now part.now.start part.now.end }
    ensures from { part.now.start ≤ result }
    ensures below { (n : ℕ) → part.now.start ≤ n → n < result → slice_index leads.now n < lead }
{
    let mut low = part.start;
    let count = part.end.saturating_sub(low);
    if count == 0 {
        return low;
    }
    let mut bits = count.ilog2();
    let most = 1usize << bits;
    if leads[low + (most - 1)] < lead {
        low += count - most + 1;
    }
    while bits > 0 {
        bits -= 1;
        let step = 1usize << bits;
        low += step_if(leads[low + (step - 1)] < lead, bits);
    }
    low
}

/// The first place from one on whose lead is not below this one.
fn first_from(leads: &[u64], from: usize, lead: u64) -> usize
    ensures { (n : ℕ) → from ≤ n → n < result → slice_index leads.now n < lead }
{
    let mut place = from;
    while place < leads.len() && leads[place] < lead {
        place += 1;
    }
    place
}

/// Whether the lead at a place, if there is one, is past those of the words that begin with a text of this lead and
/// this short length. Texts longer than a lead are not told apart by it: of these, and of an empty one, it says no.
fn is_past(leads: &[u64], place: usize, lead: u64, short: u8) -> bool
    ensures { result ≡ true → IsPast leads.now place lead short }
{
    if short == 0 || short > 8 {
        return false;
    }
    let Some(first) = leads.get(place) else {
        return true;
    };
    let span = 1u64 << (64 - 8 * u32::from(short));
    *first > lead && *first - lead >= span
}

/// Where the key of a text is among keys whose texts rise.
fn place_among(
    keys: &[Key],
    leads: &[u64],
    lengths: &[u8],
    part: &Range<usize>,
    sought: &Sought<'_>,
) -> Option<usize>
    requires within { part.now.end ≤ length keys.now }
    requires leads { AreLeads (map key_of keys.now) leads.now }
    requires lengths { AreShortLengths (map key_of keys.now) lengths.now }
    requires rise { TextsRise (map key_of keys.now) part.now.start part.now.end }
    ensures { IsPlaceOf (map key_of keys.now) part.now.start part.now.end sought.now result }
{
    let mut low = part.start;
    let mut high = part.end;
    while low < high {
        let middle = low + (high - low) / 2;
        match sought.order(&keys[middle], leads[middle], lengths[middle]) {
            Ordering::Less => low = middle + 1,
            Ordering::Greater => high = middle,
            Ordering::Equal => return Some(middle),
        }
    }
    None
}

/// Where the key of a text is among keys whose texts rise. Mostly this is the first key of the text's lead, or no
/// key has that lead: so the first is looked for by leads alone, and a key is looked at only where it has the lead.
fn place_of(
    keys: &[Key],
    leads: &[u64],
    lengths: &[u8],
    part: &Range<usize>,
    sought: &Sought<'_>,
) -> Option<usize>
    requires within { part.now.end ≤ length keys.now }
    requires leads { AreLeads (map key_of keys.now) leads.now }
    requires lengths { AreShortLengths (map key_of keys.now) lengths.now }
    requires rise { TextsRise (map key_of keys.now) part.now.start part.now.end }
    ensures { IsPlaceOf (map key_of keys.now) part.now.start part.now.end sought.now result }
{
    let lead = sought.lead();
    let first = first_of_lead(leads, part, lead);
    if first >= part.end {
        return None;
    }
    if leads[first] > lead {
        return None;
    }
    match sought.order(&keys[first], leads[first], lengths[first]) {
        Ordering::Less => place_among(keys, leads, lengths, &(first + 1..part.end), sought),
        Ordering::Greater => None,
        Ordering::Equal => Some(first),
    }
}

/// Whether the key of a text is at a place of a part.
fn is_at(
    keys: &[Key],
    leads: &[u64],
    lengths: &[u8],
    part: &Range<usize>,
    sought: &Sought<'_>,
    place: usize,
) -> bool
    requires within { part.now.end ≤ length keys.now }
    requires leads { AreLeads (map key_of keys.now) leads.now }
    requires lengths { AreShortLengths (map key_of keys.now) lengths.now }
    ensures { result ≡ true
        → IsPlaceOf (map key_of keys.now) part.now.start part.now.end sought.now (Some place) }
{
    if place < part.start || place >= part.end {
        return false;
    }
    sought.is_text_of(&keys[place], leads[place], lengths[place])
}

/// Where the key of a text is among keys whose texts rise. The places where it likely is are looked at first.
fn place_near(
    keys: &[Key],
    leads: &[u64],
    lengths: &[u8],
    part: &Range<usize>,
    sought: &Sought<'_>,
    hints: &Hints,
) -> Option<usize>
    requires within { part.now.end ≤ length keys.now }
    requires leads { AreLeads (map key_of keys.now) leads.now }
    requires lengths { AreShortLengths (map key_of keys.now) lengths.now }
    requires rise { TextsRise (map key_of keys.now) part.now.start part.now.end }
    ensures { IsPlaceOf (map key_of keys.now) part.now.start part.now.end sought.now result }
{
    let first = hints.slot(sought.lead(), part.start);
    for step in 0..SLOTS_OF_A_WORD {
        let likely = hints.place(first.wrapping_add(step));
        if is_at(keys, leads, lengths, part, sought, likely) {
            return Some(likely);
        }
    }
    place_of(keys, leads, lengths, part, sought)
}

impl<'a> FieldTerms<'a> {
    /// Looks for the words and the fronts of a field among terms.
    pub(crate) fn of(terms: &'a Terms, field: &'a str) -> FieldTerms<'a>
        ensures { result ≡ record { terms = terms.now; field = field.now } }
    {
        terms.order_law();
        let (words, fronts) = terms.ranges_of(field);
        FieldTerms {
            keys: terms.keys(),
            leads: terms.leads(),
            lengths: terms.lengths(),
            marks: terms.marks(),
            hints: terms.hints(),
            field,
            words,
            fronts,
        }
    }

    /// Whether these are the terms of this field. Takes no memory. Cost: one comparison.
    pub(crate) fn is_of(&self, field: &str) -> bool
        ensures { result ≡ bytes_eq self.now.field field.now }
    {
        self.field == field
    }

    /// The number of a word of the field, `None` where it is no term. Takes no memory. Cost: a look at a bit, which
    /// tells most words that are no terms; some looks where the word likely is; and where it is not there, a binary
    /// search among the field's words.
    pub fn word(&self, word: &str) -> Option<u32>
        ensures { result ≡ number_of self.now.terms (Word self.now.field word.now) }
    {
        self.number(&Sought::of(word))
    }

    /// The number of a word of the field, `None` where it is no term. Takes no memory. Cost: that of `word`.
    pub(crate) fn number(&self, word: &Sought<'_>) -> Option<u32>
        ensures { result ≡ number_of self.now.terms (Word self.now.field word.now) }
    {
        if !self.marks.may_have(word.lead()) {
            return None;
        }
        self.number_near(word)
    }

    /// The number of a word of the field, `None` where it is no term, looked for at a place first where it likely is.
    /// Takes no memory. Cost: that of `word`, where it is not there.
    pub(crate) fn number_from(&self, word: &Sought<'_>, likely: usize) -> Option<u32>
        ensures { result ≡ number_of self.now.terms (Word self.now.field word.now) }
    {
        if is_at(
            self.keys,
            self.leads,
            self.lengths,
            &self.words,
            word,
            likely,
        ) {
            return Some(likely as u32);
        }
        self.number(word)
    }

    /// The number of a word of the field, of whose lead there is a mark. A function of its own, so that the look at the
    /// mark stands in the loops over words.
    fn number_near(&self, word: &Sought<'_>) -> Option<u32>
        ensures { result ≡ number_of self.now.terms (Word self.now.field word.now) }
    {
        match place_near(
            self.keys,
            self.leads,
            self.lengths,
            &self.words,
            word,
            self.hints,
        ) {
            Some(place) => Some(place as u32),
            None => None,
        }
    }

    /// The number of a front of the field, `None` where it is no term. Takes no memory. Cost: a look at a bit, which
    /// tells most fronts that are no terms, and otherwise a binary search among the field's fronts.
    pub fn front(&self, text: &str) -> Option<u32>
        ensures { result ≡ number_of self.now.terms (Front self.now.field text.now) }
    {
        let text = Sought::of(text);
        if !self.marks.may_have(text.lead()) {
            return None;
        }
        match place_of(self.keys, self.leads, self.lengths, &self.fronts, &text) {
            Some(place) => Some(place as u32),
            None => None,
        }
    }

    /// How many fronts of the field are terms. Takes no memory. Constant time.
    pub(crate) fn front_count(&self) -> usize {
        self.fronts.end - self.fronts.start
    }

    /// Adds the numbers of the fronts that are fronts of the words of an article's field, whose leads these are. Both
    /// rise, so one walk over them tells which fronts may be had; only these are looked for. Cost: a step for each
    /// front of the field and for each of these words, and a binary search among the words for each front that may
    /// be had.
    pub(crate) fn add_fronts_of(
        &self,
        field: &Field,
        words: &[u64],
        numbers: &mut Vec<u32>,
    ) -> Result<(), NoMemory>
        requires field { self.now.field ≡ field.now.0 }
        requires texts { All IsUtf8 field.now.1 }
        requires words { AreLeads (ordered_keys field.now) words.now }
        ensures { OnOk result (AddsNumbersOf self.now.terms
            (front_keys field.now) numbers.old.items numbers.new.items) }
    {
        let mut place = 0;
        for number in self.fronts.start..self.fronts.end {
            let lead = self.leads[number];
            place = first_from(words, place, lead);
            if is_past(words, place, lead, self.lengths[number]) {
                continue;
            }
            let text = self.keys[number].text();
            if !has_front_key(field, text) {
                continue;
            }
            numbers.push(number as u32)?;
        }
        Ok(())
    }
}
