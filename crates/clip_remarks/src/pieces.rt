//! The pieces of a text between its word boundaries, by UAX #29.
ghost use Rattle.std.specs.Prelude.{◌≡◌};
ghost use Rattle.unicode_segmentation.specs.Word.{words};
ghost use Rattle.clip_remarks.specs.Texts.{is_nonempty, has_several, is_between, is_capitals, is_operator, is_part};
ghost use Rattle.clip_remarks.specs.Texts.{has_piece};

use crate::sort::{Sort, has_char};
use unicode_segmentation::UnicodeSegmentation;

/// What a piece may be.
#[derive(Clone, Copy)]
pub enum Part {
    /// Between words, and no word.
    Between,
    /// Between words, with a character of the sort.
    BetweenWith(Sort),
    /// A word with a character of the sort.
    WordWith(Sort),
    /// Two or more capitals, and nothing else.
    Capitals,
    /// `AND`, `OR`, `NOT` or `NEAR`.
    Operator,
}

/// Whether the text has a word.
fn has_words(text: &str) -> bool
    ensures { result ≡ is_nonempty (words text.now) }
{
    text.unicode_words().next().is_some()
}

/// Whether the text has two or more words.
pub fn has_several_words(text: &str) -> bool
    ensures { result ≡ has_several (words text.now) }
{
    let mut words = text.unicode_words();
    words.next().is_some() && words.next().is_some()
}

/// Whether the piece is no word.
fn is_between(piece: &str) -> bool
    ensures { result ≡ is_between piece.now }
{
    !has_words(piece)
}

/// Whether the piece is two or more capitals.
fn is_capitals(piece: &str) -> bool
    ensures { result ≡ is_capitals piece.now }
{
    piece.len() >= 2 && !has_char(piece, Sort::NoCapital)
}

/// Whether the piece is spelled as an operator.
fn is_operator(piece: &str) -> bool
    ensures { result ≡ is_operator piece.now }
{
    piece == "AND" || piece == "OR" || piece == "NOT" || piece == "NEAR"
}

/// Whether the piece is this.
fn is_part(part: Part, piece: &str) -> bool
    ensures { result ≡ is_part part piece.now }
{
    match part {
        Part::Between => is_between(piece),
        Part::BetweenWith(sort) => is_between(piece) && has_char(piece, sort),
        Part::WordWith(sort) => !is_between(piece) && has_char(piece, sort),
        Part::Capitals => is_capitals(piece),
        Part::Operator => is_operator(piece),
    }
}

/// Whether the text has such a piece.
pub fn has_piece(text: &str, part: Part) -> bool
    ensures { result ≡ has_piece part text.now }
{
    for piece in text.split_word_bounds() {
        if is_part(part, piece) {
            return true;
        }
    }
    false
}
