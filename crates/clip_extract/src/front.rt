//! Fronts: the prefixes of words that may be keys.
ghost use Rattle.std.specs.Prelude.{◌≡◌, ◌∷◌, [], MatchOption};
ghost use Rattle.std.specs.List.{list_any};
ghost use Rattle.clip_extract.specs.Covering.{front_keys};
ghost use Rattle.clip_extract.specs.Fronts.{fronts, key_front};
ghost use Rattle.clip_extract.specs.Keys.{Front, is_same};

use crate::key::MOST_FRONT_CHARACTERS;
use clip_meaning::Field;
use std::marker::Model;

/// The fronts of a word that may be keys, from the shortest: its first one to `MOST_FRONT_CHARACTERS` characters.
/// Contracts see the fronts that are still to come.
#[derive(Drop)]
pub struct Fronts<'a> {
    word: &'a str,
    end: usize,
    left: usize,
}

impl<'a> Model for Fronts<'a> {
    ghost use Rattle.std.specs.Prelude.{ℕ, List};
    ghost use Rattle.std.specs.Str.{IsCharBoundary};
    ghost use Rattle.clip_extract.specs.Steps.Fronts.{fronts_after};

    ghost Value = { List (List ℕ) };

    ghost view = { λ f. fronts_after f.word.now f.end f.left };

    ghost invariant = { λ f. IsCharBoundary f.word.now f.end };
}

impl<'a> Fronts<'a> {
    /// The fronts of a word. Takes no memory. Constant time.
    pub fn of(word: &'a str) -> Fronts<'a>
        ensures { result ≡ fronts word.now }
    {
        Fronts {
            word,
            end: 0,
            left: MOST_FRONT_CHARACTERS,
        }
    }

    /// The next front, `None` where there is none left. Takes no memory. Constant time.
    pub fn next(&mut self) -> Option<&'a str>
        ensures { MatchOption result ((self.old ≡ []) × (self.new ≡ [])) (λ front. self.old ≡ front.now ∷ self.new) }
    {
        if self.left == 0 {
            return None;
        }
        let word = self.word;
        let next = word[self.end..].chars().next()?;
        let end = self.end + next.len_utf8();
        self.end = end;
        self.left -= 1;
        Some(&word[..end])
    }
}

/// The first characters of a text, at most `MOST_FRONT_CHARACTERS`.
pub(crate) fn key_front(text: &str) -> &str
    ensures { result.now ≡ key_front text.now }
{
    let mut fronts = Fronts::of(text);
    let mut longest = "";
    while let Some(front) = fronts.next() {
        longest = front;
    }
    longest
}

/// Whether a text is a front of one of a field's words: whether the field has the text's key. Takes no memory. Cost: a
/// binary search among the field's words.
pub fn has_front_key(field: &Field, text: &str) -> bool
    ensures { result ≡ list_any (is_same (Front field.now.0 text.now)) (front_keys field.now) }
{
    if !field.has_front(text) {
        return false;
    }
    if text.is_empty() {
        return false;
    }
    key_front(text) == text
}
