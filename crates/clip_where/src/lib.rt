//! Where in a text its words stand, as the engine cuts them.
#![tactic(auto)]

ghost use Rattle.std.specs.Prelude.{◌≡◌, IfOk, map};
ghost use Rattle.std.specs.List.{All};
ghost use Rattle.clip_words.specs.Words.{fold_of, words_of};
ghost use Rattle.clip_where.specs.Spans.{piece, spans_of, AreApart, IsBetweenCharacters};

use clip_words::NoMemory;
use std::alloc::Global;
use unicode_segmentation::UnicodeSegmentation;

/// Where a word stands in a text: from byte `start` up to before byte `end`.
#[derive(Clone, Copy)]
pub struct WordSpan {
    /// The first byte of the word.
    pub start: usize,
    /// The byte behind its last one.
    pub end: usize,
}

/// Where the words of a text stand, in order: of each word that `words` of `clip_words` gives the span in the text, so
/// that the piece there, folded, is the word. The spans are apart, and begin and end between characters.
///
/// `NoMemory` where an allocation failed. The cost is linear in the bytes of the text; no word is folded.
pub fn word_spans(alloc: Global, text: &str) -> Result<Vec<WordSpan>, NoMemory>
    ensures spans { IfOk result (λ spans. spans.items ≡ spans_of text.now) }
    ensures words { IfOk result (λ spans. map (λ span. fold_of (piece text.now span)) spans.items
        ≡ words_of text.now) }
    ensures apart { IfOk result (λ spans. AreApart 0 spans.items) }
    ensures whole { IfOk result (λ spans. All (IsBetweenCharacters text.now) spans.items) }
{
    let mut spans = Vec::new(alloc);
    for (start, word) in text.unicode_word_indices() {
        let end = start + word.len();
        spans.push(WordSpan { start, end })?;
    }
    Ok(spans)
}
