//! Texts that lie in one longer text, each in a span of it.
//!
//! The words of `Ein Café!`, folded, lie in the text in lower case, and behind it those that are not in ASCII:
//!
//! ```text
//! all:     e i n   c a f é ! c a f é
//! spans:   0 to 3, 11 to 16
//! ```
ghost use Rattle.std.specs.Prelude.{◌≡◌, ◌≤◌, ◌∷◌, ◌++◌, [], IfOk, OnOk, length, map, string_bytes};
ghost use Rattle.std.specs.Prelude.{slice_range, take, ℕ, List, Some};
ghost use Rattle.std.specs.Char.{to_ascii_lowercase};
ghost use Rattle.std.specs.Iterator.{at_most};
ghost use Rattle.std.specs.List.{All, slice_get};
ghost use Rattle.std.specs.Map.Iter.{TakesFirst, deref};
ghost use Rattle.std.specs.Option.{option_copied};
ghost use Rattle.std.specs.Str.{IsCharBoundary, IsUtf8};
ghost use Rattle.clip_words.specs.Steps.TextsView.{texts_in, AreSpans};

use crate::NoMemory;
use std::alloc::Global;
use std::marker::Model;

/// Where a text lies in a longer one: from one byte up to another.
#[derive(Clone, Copy, Debug)]
struct Span {
    start: u32,
    end: u32,
}

/// A text, and spans of it.
#[derive(Debug, Drop)]
pub(crate) struct Spans {
    all: String,
    spans: Vec<Span>,
}

impl Spans {
    /// A text in lower case, as far as it is in ASCII, and no span of it, with room for so many.
    pub(crate) fn of_lowercase(alloc: Global, text: &str, room: usize) -> Result<Spans, NoMemory>
        ensures all { IfOk result (λ spans. string_bytes spans.all ≡ map to_ascii_lowercase text.now) }
        ensures none { IfOk result (λ spans. texts_in spans ≡ []) }
        ensures spans { IfOk result AreSpans }
    {
        let mut all = String::with_capacity(alloc, text.len())?;
        all.push_str(text)?;
        all.make_ascii_lowercase();
        Ok(Spans {
            all,
            spans: Vec::with_capacity(alloc, room)?,
        })
    }

    /// How many bytes the text has.
    fn end(&self) -> usize
        ensures { result ≡ length (string_bytes self.now.all) }
    {
        self.all.len()
    }

    /// Adds a span.
    ///
    /// `NoMemory` where an allocation failed, and where it ends past byte 4,294,967,295.
    #[inline(always)]
    pub(crate) fn push_span(&mut self, start: usize, end: usize) -> Result<(), NoMemory>
        requires spans { AreSpans self.old }
        requires rises { start ≤ end }
        requires from { IsCharBoundary (string_bytes self.old.all) start }
        requires upto { IsCharBoundary (string_bytes self.old.all) end }
        ensures all { OnOk result (string_bytes self.new.all ≡ string_bytes self.old.all) }
        ensures texts { OnOk result (texts_in self.new
            ≡ texts_in self.old ++ slice_range (string_bytes self.old.all) start end ∷ []) }
        ensures spans { OnOk result (AreSpans self.new) }
    {
        let Ok(start) = u32::try_from(start) else {
            return Err(NoMemory);
        };
        let Ok(end) = u32::try_from(end) else {
            return Err(NoMemory);
        };
        self.spans.push(Span { start, end })?;
        Ok(())
    }

    /// Adds a text behind the others, and its span.
    ///
    /// `NoMemory` where an allocation failed, and where the texts have more than 4,294,967,295 bytes then.
    #[inline(always)]
    pub(crate) fn push(&mut self, text: &str) -> Result<(), NoMemory>
        requires { AreSpans self.old }
        ensures all { OnOk result (string_bytes self.new.all ≡ string_bytes self.old.all ++ text.now) }
        ensures texts { OnOk result (texts_in self.new ≡ texts_in self.old ++ text.now ∷ []) }
        ensures spans { OnOk result (AreSpans self.new) }
    {
        let start = self.end();
        self.all.push_str(text)?;
        let end = self.end();
        self.push_span(start, end)
    }
}

/// Texts that lie in one longer text. Contracts see the list of the texts.
#[derive(Debug, Drop)]
pub struct Texts {
    spans: Spans,
}

impl Model for Texts {
    ghost use Rattle.std.specs.Prelude.{ℕ, List};
    ghost use Rattle.clip_words.specs.Steps.TextsView.{texts_in, AreSpans};

    ghost Value = { List (List ℕ) };

    ghost view = { λ t. texts_in t.spans };

    ghost invariant = { λ t. AreSpans t.spans };
}

/// How many texts there is to be room for, and for how many bytes of them together.
#[derive(Clone, Copy, Debug)]
pub struct Room {
    pub count: usize,
    pub bytes: usize,
}

impl Room {
    /// This, and room for one text more; no more than numbers go. Takes no memory. Constant time.
    pub fn and(self, text: &str) -> Room {
        Room {
            count: self.count.saturating_add(1),
            bytes: self.bytes.saturating_add(text.len()),
        }
    }
}

impl Texts {
    /// No texts. Takes no memory.
    pub fn new(alloc: Global) -> Texts
        ensures { result ≡ [] }
    {
        Texts {
            spans: Spans {
                all: String::new(alloc),
                spans: Vec::new(alloc),
            },
        }
    }

    /// No texts, with room for so many; `NoMemory` where an allocation failed. Cost: two allocations.
    pub fn with_room(alloc: Global, room: Room) -> Result<Texts, NoMemory>
        ensures { IfOk result (λ texts. texts ≡ []) }
    {
        Ok(Texts {
            spans: Spans {
                all: String::with_capacity(alloc, room.bytes)?,
                spans: Vec::with_capacity(alloc, room.count)?,
            },
        })
    }

    /// These texts and one more behind them.
    ///
    /// `NoMemory` where an allocation failed, and where they would have more than 4,294,967,295 bytes. Cost: a copy of
    /// the text, and at times a move of all texts.
    #[inline(always)]
    pub fn with(self, text: &str) -> Result<Texts, NoMemory>
        ensures { IfOk result (λ texts. texts ≡ self ++ text.now ∷ []) }
    {
        let Texts { mut spans } = self;
        spans.push(text)?;
        Ok(Texts { spans })
    }

    /// The texts of spans.
    pub(crate) fn of(spans: Spans) -> Texts
        requires { AreSpans spans }
        ensures { result ≡ texts_in spans }
    {
        Texts { spans }
    }

    /// How many texts there are. Takes no memory. Constant time.
    pub fn len(&self) -> usize
        ensures { result ≡ length self.now }
    {
        self.spans.spans.len()
    }

    /// The text at a place from 0, or `None` past the last. Takes no memory. Constant time.
    pub fn get(&self, place: usize) -> Option<&str>
        ensures { option_copied result ≡ slice_get self.now place }
    {
        let spans = &self.spans.spans;
        if place >= spans.len() {
            return None;
        }
        let span = spans[place];
        Some(&self.spans.all[span.start as usize..span.end as usize])
    }

    /// The text at a place from 0 with all bytes that lie behind it; none past the last. Takes no memory. Constant
    /// time.
    pub fn ahead(&self, place: usize) -> &[u8]
        ensures { (text : List ℕ) → slice_get self.now place ≡ Some text → take (length text) result.now ≡ text }
    {
        let spans = &self.spans.spans;
        if place >= spans.len() {
            return &[];
        }
        let start = spans[place].start as usize;
        &self.spans.all.as_bytes()[start..]
    }

    /// An iterator over the texts in order. Takes no memory. Cost: constant time for each text.
    pub fn iter(&self) -> TextsIter<'_>
        ensures { result ≡ self.now }
    {
        TextsIter {
            texts: self,
            place: 0,
        }
    }

    /// That each text is in UTF-8, for proofs. Takes no memory. Constant time.
    pub fn utf8_law(&self)
        ensures { All IsUtf8 self.now }
    {
        let _spans = &self.spans;
    }
}

/// An iterator over texts in order. Contracts see the texts that are left.
#[derive(Drop)]
pub struct TextsIter<'a> {
    texts: &'a Texts,
    place: usize,
}

impl<'a> Model for TextsIter<'a> {
    ghost use Rattle.std.specs.Prelude.{◌≤◌, ℕ, List, length, drop};

    ghost Value = { List (List ℕ) };

    ghost view = { λ iter. drop iter.place iter.texts.now };

    ghost invariant = { λ iter. iter.place ≤ length iter.texts.now };
}

impl<'a> Iterator for TextsIter<'a> {
    type Item = &'a str;

    ghost next_gives = { TakesFirst deref };

    ghost remaining = { λ left. at_most (length left) };

    fn next(&mut self) -> Option<&'a str> {
        let texts = self.texts;
        let place = self.place;
        if place == texts.len() {
            return None;
        }
        self.place = place + 1;
        texts.get(place)
    }
}

impl<'a> IntoIterator for &'a Texts {
    type Item = &'a str;

    type IntoIter = TextsIter<'a>;

    ghost into_iter_gives = { λ texts iter. iter ≡ texts.now };

    fn into_iter(self) -> TextsIter<'a> {
        self.iter()
    }
}
