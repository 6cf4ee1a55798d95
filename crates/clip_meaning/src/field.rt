//! The words of one field of an article.
ghost use Rattle.std.specs.Prelude.{◌≡◌, [], map, drop, length, get_or, IfOk, IsPermutation};
ghost use Rattle.std.specs.Arc.{arc_str_bytes};
ghost use Rattle.std.specs.List.{All, list_any, starts_with};
ghost use Rattle.std.specs.List.Sorted.{IsSorted, IsSortedByKey};
ghost use Rattle.std.specs.Str.{IsUtf8, bytes_eq};
ghost use Rattle.clip_words.specs.Order.{bytes_cmp};
ghost use Rattle.clip_words.specs.Words.{words_of};
ghost use Rattle.clip_grammar.specs.Tree.{end_of};
ghost use Rattle.clip_meaning.specs.Index.{numbered, posting_cmp};
ghost use Rattle.clip_meaning.specs.Steps.Searches.{stands_at};
ghost use Rattle.clip_meaning.specs.Meaning.{begins_with, has_phrase, is_between};
ghost use Rattle.clip_meaning.specs.Hits.{covers};
ghost use Rattle.clip_meaning.specs.Steps.Marks.{AreRaised, start_at};

use crate::flags::FieldFlags;
use crate::index::{Occurrence, Postings, occurrences_of, word_at};
use clip_grammar::query::Bound;
use clip_words::{NoMemory, Texts, packed_words};
use std::alloc::Global;
use std::marker::Model;
use std::sync::ArcStr;

/// A field of an article: its name, its words in the order of its text, and the same words sorted.
///
/// Contracts see the pair of the name's bytes and the list of the words' bytes.
#[derive(Debug, Drop)]
pub struct Field {
    name: ArcStr,
    words: Texts,
    occurrences: Vec<Occurrence>,
}

impl Model for Field {
    ghost use Rattle.std.specs.Prelude.{ℕ, List};
    ghost use Rattle.std.specs.Arc.{arc_str_bytes};
    ghost use Rattle.clip_meaning.specs.Steps.Occurrences.{IsIndexOf};

    ghost Value = { List ℕ × List (List ℕ) };

    ghost view = { λ f. (arc_str_bytes f.name, f.words) };

    ghost invariant = { λ f. IsIndexOf f.words f.occurrences.items };
}

impl Field {
    /// Cuts a field's text into words, folds them and sorts them.
    pub(crate) fn read(alloc: Global, name: &str, text: &str) -> Result<Field, NoMemory>
        ensures { IfOk result (λ field. field ≡ (name.now, words_of text.now)) }
    {
        let words = packed_words(alloc, text)?;
        let occurrences = occurrences_of(alloc, &words)?;
        Ok(Field {
            name: ArcStr::from_str(alloc, name)?,
            words,
            occurrences,
        })
    }

    /// The field's name. A `clone` of it shares the text. Takes constant time.
    pub fn name(&self) -> &ArcStr
        ensures { arc_str_bytes result.now ≡ self.now.0 }
    {
        &self.name
    }

    /// The field's words, each folded, in the order of the text. Takes constant time.
    pub fn words(&self) -> &Texts
        ensures { result.now ≡ self.now.1 }
    {
        &self.words
    }

    /// Each of the field's words with its position: by the bytes of the words, and equal words by their positions.
    /// Takes constant time.
    pub fn postings(&self) -> Postings<'_>
        ensures words { IsPermutation (numbered 0 self.now.1) result }
        ensures sorted { IsSortedByKey (λ p. p.0) bytes_cmp result }
        ensures in_order { IsSorted posting_cmp result }
    {
        let postings = Postings::of(&self.words, &self.occurrences);
        postings.order_law();
        postings
    }

    /// Whether a word is among the words. Compares about the logarithm of the number of words.
    pub(crate) fn has_word(&self, word: &str) -> bool
        ensures { result ≡ list_any (λ w. bytes_eq w word.now) self.now.1 }
    {
        self.postings().has_word(word)
    }

    /// Whether the words of a phrase are next to each other in order, as in Lucene's PhraseQuery with no slop; false
    /// for an empty phrase. Looks only where the phrase's first word occurs: at worst these places times the words of
    /// the phrase.
    pub(crate) fn has_phrase(&self, phrase: &[ArcStr]) -> bool
        ensures { result ≡ has_phrase self.now.1 (map arc_str_bytes phrase.now) }
    {
        let Some(first) = phrase.first() else {
            return false;
        };
        stands_at_any(
            &self.words,
            self.postings().occurrences(first).as_slice(),
            phrase,
        )
    }

    /// Whether a word begins with a prefix, as in Lucene's PrefixQuery. Takes no memory. Compares about the logarithm
    /// of the number of words.
    pub fn has_front(&self, front: &str) -> bool
        ensures front { result ≡ list_any (begins_with front.now) self.now.1 }
        ensures texts { All IsUtf8 self.now.1 }
    {
        self.words.utf8_law();
        self.postings().has_front(front)
    }

    /// Whether a word lies between the bounds by bytes, as in Lucene's TermRangeQuery. Compares about the logarithm of
    /// the number of words.
    pub(crate) fn has_between(&self, low: &Bound, high: &Bound) -> bool
        ensures { result ≡ list_any (is_between (end_of low.now) (end_of high.now)) self.now.1 }
    {
        self.postings().has_between(low, high)
    }

    /// Raises the flags of a word's positions. Compares about the logarithm of the number of words, and takes a step
    /// for each position.
    pub(crate) fn mark_word(&self, word: &str, flags: &mut FieldFlags)
        requires { length flags.old ≡ length self.now.1 }
        ensures long { length flags.new ≡ length flags.old }
        ensures raised { AreRaised flags.old flags.new
            (λ k. bytes_eq (get_or self.now.1 k []) word.now) }
    {
        flags.raise_all(self.postings().occurrences(word).as_slice());
    }

    /// Raises the flags of the positions that a phrase covers. Looks only where the phrase's first word occurs: at
    /// worst these places times the words of the phrase.
    pub(crate) fn mark_phrase(&self, phrase: &[ArcStr], flags: &mut FieldFlags)
        ensures long { length flags.new ≡ length flags.old }
        ensures raised { AreRaised flags.old flags.new
            (λ k. list_any (λ start. covers self.now.1 (map arc_str_bytes phrase.now) k start.1)
            (numbered 0 self.now.1)) }
    {
        if let Some(first) = phrase.first() {
            let found = self.postings().occurrences(first);
            mark_runs(&self.words, found.as_slice(), phrase, flags);
        }
    }

    /// Raises the flags of the words that begin with a prefix. Compares about the logarithm of the number of words, and
    /// takes a step for each such word.
    pub(crate) fn mark_front(&self, front: &str, flags: &mut FieldFlags)
        requires { length flags.old ≡ length self.now.1 }
        ensures long { length flags.new ≡ length flags.old }
        ensures raised { AreRaised flags.old flags.new
            (λ k. begins_with front.now (get_or self.now.1 k [])) }
    {
        flags.raise_all(self.postings().with_front(front).as_slice());
    }

    /// Raises the flags of the words between the bounds. Compares about the logarithm of the number of words, and takes
    /// a step for each such word.
    pub(crate) fn mark_between(&self, low: &Bound, high: &Bound, flags: &mut FieldFlags)
        requires { length flags.old ≡ length self.now.1 }
        ensures long { length flags.new ≡ length flags.old }
        ensures raised { AreRaised flags.old flags.new
            (λ k. is_between (end_of low.now) (end_of high.now) (get_or self.now.1 k [])) }
    {
        flags.raise_all(self.postings().between(low, high).as_slice());
    }
}

/// Whether a phrase begins at one of these occurrences.
fn stands_at_any(words: &Texts, found: &[Occurrence], phrase: &[ArcStr]) -> bool
    ensures { result ≡ list_any (λ o. stands_at words.now (map arc_str_bytes phrase.now) o.position) found.now }
{
    for occurrence in found {
        if stands_at(words, occurrence.position(), phrase) {
            return true;
        }
    }
    false
}

/// Raises the flags of the words of a phrase at those of these occurrences where it begins.
fn mark_runs(words: &Texts, found: &[Occurrence], phrase: &[ArcStr], flags: &mut FieldFlags)
    ensures long { length flags.new ≡ length flags.old }
    ensures raised { AreRaised flags.old flags.new
        (λ k. list_any (λ o. covers words.now (map arc_str_bytes phrase.now) k o.position) found.now) }
{
    flags.raise_runs(
        found,
        phrase.len(),
        |occurrence: &Occurrence| -> Option<usize>
            ensures { result
                ≡ start_at words.entry.now (map arc_str_bytes phrase.entry.now) occurrence.now.position }
        {
            if stands_at(words, occurrence.position(), phrase) {
                Some(occurrence.position())
            } else {
                None
            }
        },
    );
}

/// Whether the words of a phrase stand among these words from a position on. Takes no memory. Cost: a comparison for
/// each word of the phrase.
pub fn stands_at(words: &Texts, position: usize, phrase: &[ArcStr]) -> bool
    ensures { result ≡ starts_with bytes_eq (drop position words.now) (map arc_str_bytes phrase.now) }
{
    let count = words.len();
    let mut position = position;
    let mut phrase = phrase;
    while let Some((next, others)) = phrase.split_first() {
        if position >= count || next.as_str() != word_at(words, position) {
            return false;
        }
        position += 1;
        phrase = others;
    }
    true
}
