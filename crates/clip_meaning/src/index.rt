//! The words of a field in byte order, each with its position.
//!
//! Of each word just its lead and its position are kept: the words themselves lie one behind another in the field. The
//! words `tea for two` have, in byte order,
//!
//! ```text
//! words:        t e a f o r t w o      ends 3 6 9
//! occurrences:  (lead of `for`, 1) (lead of `tea`, 0) (lead of `two`, 2)
//! ```
ghost use Rattle.std.specs.Prelude.{◌≡◌, ◌≤◌, ◌<◌, [], map, take, drop, filter, not, get_or, length, IfOk};
ghost use Rattle.std.specs.Prelude.{IsPermutation, option_map, true, false, nat_lt};
ghost use Rattle.std.specs.List.{slice_get};
ghost use Rattle.std.specs.List.{All, list_any};
ghost use Rattle.std.specs.List.Sorted.{IsSorted, IsSortedByKey};
ghost use Rattle.std.specs.Str.{bytes_eq};
ghost use Rattle.std.specs.Ordering.{is_gt, is_lt};
ghost use Rattle.clip_words.specs.Order.{bytes_cmp};
ghost use Rattle.clip_grammar.specs.Tokens.{End};
ghost use Rattle.clip_grammar.specs.Tree.{end_of};
ghost use Rattle.clip_meaning.specs.Index.{numbered, posting_cmp};
ghost use Rattle.clip_meaning.specs.Leads.{IsLead};
ghost use Rattle.clip_meaning.specs.Steps.Occurrences.{posting_at, order_of, HasLeadOf, IsOccurrence, IsIndexOf};
ghost use Rattle.clip_meaning.specs.Steps.Occurrences.{AreRising};
ghost use Rattle.clip_meaning.specs.Steps.Searches.{from_low};
ghost use Rattle.clip_meaning.specs.Meaning.{below, begins_with, is_between};

use crate::arranged::arranged;
use crate::lead::{compare_by_leads, lead_ahead, lead_of};
use clip_grammar::query::Bound;
use clip_words::{NoMemory, Texts};
use std::alloc::Global;
use std::cmp::Ordering;
use std::marker::Model;

/// Where a word of a field occurs: its position among the field's words, from 0, and beside it the word's lead.
#[derive(Clone, Copy, Debug)]
pub(crate) struct Occurrence {
    pub(crate) lead: u64,
    pub(crate) position: usize,
}

impl Occurrence {
    /// The word's position.
    pub(crate) fn position(&self) -> usize
        ensures { result ≡ self.now.position }
    {
        self.position
    }
}

/// A word of a field and its position among the field's words, counted from 0. Contracts see the pair of both.
///
/// The word's lead is kept beside it, by which most words are told apart without a look at their texts.
#[derive(Drop)]
pub struct Posting<'a> {
    lead: u64,
    word: &'a str,
    position: usize,
}

impl<'a> Model for Posting<'a> {
    ghost use Rattle.std.specs.Prelude.{ℕ, List};

    ghost Value = { List ℕ × ℕ };

    ghost view = { λ p. (p.word.now, p.position) };

    ghost use Rattle.clip_meaning.specs.Leads.{IsLead};

    ghost invariant = { λ p. IsLead p.word.now p.lead };
}

impl<'a> Posting<'a> {
    /// The word, folded. Takes constant time.
    pub fn word(&self) -> &'a str
        ensures { result.now ≡ self.now.0 }
    {
        self.word
    }

    /// The word's position among the words of its field, counted from 0. Takes constant time.
    pub fn position(&self) -> usize
        ensures { result ≡ self.now.1 }
    {
        self.position
    }

    /// The word's lead: its first eight bytes as a number, the first as the greatest digit, and 0 past its end. Takes
    /// no memory. Constant time.
    pub fn lead(&self) -> u64
        ensures { IsLead self.now.0 result }
    {
        self.lead
    }

    /// Whether another posting is of the same word. Looks at the texts only where both have the same lead. Takes no
    /// memory.
    pub fn has_word_of(&self, other: &Posting<'_>) -> bool
        ensures { result ≡ bytes_eq self.now.0 other.now.0 }
    {
        self.lead == other.lead && self.word == other.word
    }
}

/// Compares postings by their words, and those of one word by their positions. Looks at the texts only where the words
/// have the same lead.
fn order(a: &Posting<'_>, b: &Posting<'_>) -> Ordering
    ensures { result ≡ posting_cmp a.now b.now }
{
    if a.lead != b.lead {
        return a.lead.cmp(&b.lead);
    }
    compare_by_leads(a.word, a.lead, b.word, b.lead).then(a.position.cmp(&b.position))
}

/// The word at a position, no text past the last.
pub(crate) fn word_at<'a>(words: &'a Texts, position: usize) -> &'a str
    ensures { result.now ≡ get_or words.now position [] }
{
    match words.get(position) {
        Some(word) => word,
        None => "",
    }
}

/// The words in order, each with its position.
fn postings_of<'a>(alloc: Global, words: &'a Texts) -> Result<Vec<Posting<'a>>, NoMemory>
    ensures { IfOk result (λ postings. postings.items ≡ numbered 0 words.now) }
{
    let mut postings = Vec::with_capacity(alloc, words.len())?;
    for position in 0..words.len() {
        let word = word_at(words, position);
        let posting = Posting {
            lead: lead_of(word),
            word,
            position,
        };
        postings.push(posting)?;
    }
    Ok(postings)
}

/// Where the words of a field occur, in the byte order of the words, and those of one word in the order of their
/// positions: all of them sorted, whatever order they come in.
fn sorted_occurrences(alloc: Global, words: &Texts) -> Result<Vec<Occurrence>, NoMemory>
    ensures { IfOk result (λ found. IsIndexOf words.now found.items) }
{
    let mut postings = postings_of(alloc, words)?;
    postings.sort_unstable_by(
        |a: &Posting<'_>, b: &Posting<'_>| -> Ordering
            ensures { result ≡ posting_cmp a.now b.now }
        { order(a, b) },
    );
    let mut found = Vec::with_capacity(alloc, postings.len())?;
    for posting in &postings {
        found.push(Occurrence {
            lead: posting.lead,
            position: posting.position,
        })?;
    }
    Ok(found)
}

/// The occurrences of words, in the order of the text.
fn occurrences_in_text(alloc: Global, words: &Texts) -> Result<Vec<Occurrence>, NoMemory>
    ensures { IfOk result (λ found. All (IsOccurrence words.now) found.items) }
{
    let mut found = Vec::with_capacity(alloc, words.len())?;
    for position in 0..words.len() {
        let lead = lead_ahead(words.ahead(position), word_at(words, position).len());
        found.push(Occurrence { lead, position })?;
    }
    Ok(found)
}

/// Whether an occurrence is of a word below another one's, or of the same word and before it. Looks at the texts only
/// where the words have the same lead.
fn is_before(words: &Texts, a: &Occurrence, b: &Occurrence) -> bool
    requires a { HasLeadOf words.now a.now }
    requires b { HasLeadOf words.now b.now }
    ensures { result ≡ is_lt (order_of words.now a.now b.now) }
{
    if a.lead != b.lead {
        return a.lead < b.lead;
    }
    compare_by_leads(
        word_at(words, a.position),
        a.lead,
        word_at(words, b.position),
        b.lead,
    )
    .then(a.position.cmp(&b.position))
    .is_lt()
}

/// Whether each occurrence is before the next one.
fn are_rising(words: &Texts, found: &[Occurrence]) -> bool
    requires { All (IsOccurrence words.now) found.now }
    ensures { result ≡ true → AreRising words.now found.now }
{
    for place in 1..found.len() {
        if !is_before(words, &found[place - 1], &found[place]) {
            return false;
        }
    }
    true
}

/// Where the words of a field occur, in the byte order of the words, and those of one word in the order of their
/// positions. They are brought near that order first, and mostly into it; where they aren't in it then, they are
/// sorted.
pub(crate) fn occurrences_of(alloc: Global, words: &Texts) -> Result<Vec<Occurrence>, NoMemory>
    ensures { IfOk result (λ found. IsIndexOf words.now found.items) }
{
    let found = arranged(alloc, words, occurrences_in_text(alloc, words)?)?;
    if found.len() == words.len() && are_rising(words, &found) {
        return Ok(found);
    }
    sorted_occurrences(alloc, words)
}

/// Postings of a field side by side, in the byte order of their words, and those of one word in the order of their
/// positions. Contracts see their list.
#[derive(Drop)]
pub struct Postings<'a> {
    words: &'a Texts,
    occurrences: &'a [Occurrence],
}

impl<'a> Model for Postings<'a> {
    ghost use Rattle.std.specs.Prelude.{ℕ, List};
    ghost use Rattle.clip_meaning.specs.Steps.PostingsView.{postings_in, ArePostings};

    ghost Value = { List (List ℕ × ℕ) };

    ghost view = { postings_in };

    ghost invariant = { ArePostings };
}

impl<'a> Postings<'a> {
    /// All postings of these words.
    pub(crate) fn of(words: &'a Texts, occurrences: &'a [Occurrence]) -> Postings<'a>
        requires { IsIndexOf words.now occurrences.now }
        ensures all { IsPermutation (numbered 0 words.now) result }
    {
        Postings { words, occurrences }
    }

    /// How many there are. Takes constant time.
    pub fn len(&self) -> usize
        ensures { result ≡ length self.now }
    {
        self.occurrences.len()
    }

    /// The posting at a place, from 0. Takes no memory. Constant time.
    pub fn at(&self, place: usize) -> Posting<'a>
        requires { place < length self.now }
        ensures { result ≡ get_or self.now place ([], 0) }
    {
        let words = self.words;
        let Some(found) = self.occurrences.get(place) else {
            unreachable!()
        };
        Posting {
            lead: found.lead,
            word: word_at(words, found.position),
            position: found.position,
        }
    }

    /// The position of the posting at a place, from 0, whose word is not looked at. Takes no memory. Constant time.
    pub fn position_at(&self, place: usize) -> usize
        requires { place < length self.now }
        ensures { result ≡ (get_or self.now place ([], 0)).1 }
    {
        let Some(found) = self.occurrences.get(place) else {
            unreachable!()
        };
        found.position
    }

    /// That they are in order.
    pub(crate) fn order_law(&self)
        ensures sorted { IsSortedByKey (λ p. p.0) bytes_cmp self.now }
        ensures in_order { IsSorted posting_cmp self.now }
    {
        let _words = self.words;
    }

    /// Where the words occur. Takes constant time.
    pub(crate) fn as_slice(&self) -> &'a [Occurrence]
        ensures { map (λ o. o.position) result.now ≡ map (λ p. p.1) self.now }
    {
        self.occurrences
    }

    /// The postings from a place on.
    fn from(&self, place: usize) -> Postings<'a>
        requires { place ≤ length self.now }
        ensures { result ≡ drop place self.now }
    {
        Postings {
            words: self.words,
            occurrences: self.occurrences.split_at(place).1,
        }
    }

    /// The postings before a place.
    fn before(&self, place: usize) -> Postings<'a>
        requires { place ≤ length self.now }
        ensures { result ≡ take place self.now }
    {
        Postings {
            words: self.words,
            occurrences: self.occurrences.split_at(place).0,
        }
    }

    /// The first word, if there is one.
    fn first_word(&self) -> Option<&'a str>
        ensures { option_map (λ word. word.now) result ≡ option_map (λ p. p.0) (slice_get self.now 0) }
    {
        let first = self.occurrences.first()?;
        Some(word_at(self.words, first.position))
    }

    /// Whether the word at a place, if there is one, is not below a word.
    fn reaches(&self, place: usize, word: &str) -> bool
        ensures { result ≡ true → place < length self.now
            → is_gt (bytes_cmp word.now (get_or self.now place ([], 0)).0) ≡ false }
    {
        if place >= self.occurrences.len() {
            return true;
        }
        word <= word_at(self.words, self.occurrences[place].position)
    }

    /// The postings of the words that are not below a word. Words are told apart by their leads, and where that doesn't
    /// do by their texts.
    fn not_below(&self, word: &str) -> Postings<'a>
        ensures { result ≡ from_low (End.With word.now) self.now }
    {
        let lead = lead_of(word);
        let place = self.occurrences.partition_point(
            |found: &Occurrence| -> bool
                ensures { result ≡ nat_lt found.now.lead lead }
            { found.lead < lead },
        );
        if self.reaches(place, word) {
            return self.from(place);
        }
        self.not_below_text(word)
    }

    /// The postings of the words that are not below a word, told apart by their texts alone.
    fn not_below_text(&self, word: &str) -> Postings<'a>
        ensures { result ≡ from_low (End.With word.now) self.now }
    {
        let words = self.words;
        let place = self.occurrences.partition_point(
            |found: &Occurrence| -> bool
                ensures { result ≡ is_gt (bytes_cmp word.entry.now (posting_at words.entry.now found.now).0) }
            { word > word_at(words, found.position) },
        );
        self.from(place)
    }

    /// The postings of the words that are above a word.
    fn above(&self, word: &str) -> Postings<'a>
        ensures { result ≡ from_low (End.Without word.now) self.now }
    {
        let words = self.words;
        let place = self.occurrences.partition_point(
            |found: &Occurrence| -> bool
                ensures { result ≡ not (is_lt (bytes_cmp word.entry.now (posting_at words.entry.now found.now).0)) }
            { word >= word_at(words, found.position) },
        );
        self.from(place)
    }

    /// The postings of the words that are not below the low end of a range.
    fn from_low(&self, low: &Bound) -> Postings<'a>
        ensures { result ≡ from_low (end_of low.now) self.now }
    {
        match low {
            Bound::Free => self.from(0),
            Bound::With(low) => self.not_below(low.as_str()),
            Bound::Without(low) => self.above(low.as_str()),
        }
    }

    /// The postings of a word.
    pub(crate) fn occurrences(&self, word: &str) -> Postings<'a>
        ensures { result ≡ filter (λ p. bytes_eq p.0 word.now) self.now }
    {
        self.order_law();
        let postings = self.not_below(word);
        let words = postings.words;
        let place = postings.occurrences.partition_point(
            |found: &Occurrence| -> bool
                ensures { result ≡ not (is_lt (bytes_cmp word.entry.now (posting_at words.entry.now found.now).0)) }
            { word >= word_at(words, found.position) },
        );
        postings.before(place)
    }

    /// The postings of the words that begin with a prefix.
    pub(crate) fn with_front(&self, front: &str) -> Postings<'a>
        ensures { result ≡ filter (λ p. begins_with front.now p.0) self.now }
    {
        self.order_law();
        let postings = self.not_below(front);
        let words = postings.words;
        let place = postings.occurrences.partition_point(
            |found: &Occurrence| -> bool
                ensures { result ≡ begins_with front.entry.now (posting_at words.entry.now found.now).0 }
            { has_front(word_at(words, found.position), front) },
        );
        postings.before(place)
    }

    /// The postings of the words between the bounds.
    pub(crate) fn between(&self, low: &Bound, high: &Bound) -> Postings<'a>
        ensures { result ≡ filter (λ p. is_between (end_of low.now) (end_of high.now) p.0) self.now }
    {
        self.order_law();
        let postings = self.from_low(low);
        let words = postings.words;
        let place = postings.occurrences.partition_point(
            |found: &Occurrence| -> bool
                ensures { result ≡ below (end_of high.entry.now) (posting_at words.entry.now found.now).0 }
            { is_below(high, word_at(words, found.position)) },
        );
        postings.before(place)
    }

    /// Whether a word is among the words.
    pub(crate) fn has_word(&self, word: &str) -> bool
        ensures { result ≡ list_any (λ p. bytes_eq p.0 word.now) self.now }
    {
        self.order_law();
        match self.not_below(word).first_word() {
            Some(first) => first == word,
            None => false,
        }
    }

    /// Whether a word begins with a prefix.
    pub(crate) fn has_front(&self, front: &str) -> bool
        ensures { result ≡ list_any (λ p. begins_with front.now p.0) self.now }
    {
        self.order_law();
        match self.not_below(front).first_word() {
            Some(first) => has_front(first, front),
            None => false,
        }
    }

    /// Whether a word lies between the bounds.
    pub(crate) fn has_between(&self, low: &Bound, high: &Bound) -> bool
        ensures { result ≡ list_any (λ p. is_between (end_of low.now) (end_of high.now) p.0) self.now }
    {
        self.order_law();
        match self.from_low(low).first_word() {
            Some(first) => is_below(high, first),
            None => false,
        }
    }
}

/// Whether a word begins with a prefix.
fn has_front(word: &str, front: &str) -> bool
    ensures { result ≡ begins_with front.now word.now }
{
    word.as_bytes().starts_with(front.as_bytes())
}

/// Whether a word is not above the high end of a range.
fn is_below(high: &Bound, word: &str) -> bool
    ensures { result ≡ below (end_of high.now) word.now }
{
    match high {
        Bound::Free => true,
        Bound::With(high) => word <= high.as_str(),
        Bound::Without(high) => word < high.as_str(),
    }
}
