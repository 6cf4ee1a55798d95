//! The lexemes of a query's text, with where they stand.
ghost use Rattle.std.specs.Prelude.{◌≡◌, ◌+◌, ◌-◌, ◌<◌, ◌≤◌, ◌^◌, IfOk, length, map, take, encode_utf8_all};
ghost use Rattle.clip_explain.specs.Lexemes.{IsCut, StandApart, placed_of};
ghost use Rattle.clip_explain.specs.Steps.Cutting.{IsCutUp};

use clip_syntax::{Token, lexeme};
use clip_words::NoMemory;
use std::alloc::Global;

/// As many lexemes as most queries have that say tokens.
const USUAL_LEXEMES: usize = 12;

/// A lexeme of a text that says a token, and where it stands: from byte `start` up to before byte `end`.
#[derive(Drop)]
pub struct Lexeme {
    /// What it says.
    pub token: Token,
    /// Its first byte.
    pub start: usize,
    /// The first byte behind it.
    pub end: usize,
}

/// The lexemes of a text that say tokens, as far as there are any.
#[derive(Drop)]
pub struct Lexed {
    /// Those that say a token, in order: white space says none.
    pub lexemes: Vec<Lexeme>,
    /// The byte up to which the text is cut into lexemes: its length where it is cut to its end, and else that of
    /// `QueryFault::Lexical`.
    pub end: usize,
}

/// How many bytes the characters take.
fn byte_len(chars: &[char]) -> usize
    requires { length (encode_utf8_all chars.now) < 2 ^ 64 }
    ensures { result ≡ length (encode_utf8_all chars.now) }
{
    let mut len = 0;
    for c in chars {
        len += c.len_utf8();
    }
    len
}

/// The characters before the rest of a text.
fn before<'a>(text: &'a [char], rest: &[char]) -> &'a [char]
    requires { length rest.now ≤ length text.now }
    ensures { result.now ≡ take (length text.now - length rest.now) text.now }
{
    &text[..text.len() - rest.len()]
}

/// The lexemes of a text's characters that say tokens, each with its place, as far as there are any.
fn cut_lexemes(alloc: Global, text: &[char]) -> Result<Lexed, NoMemory>
    requires { length (encode_utf8_all text.now) < 2 ^ 63 }
    ensures { IfOk result (λ lexed. IsCutUp text.now (map placed_of lexed.lexemes.items) lexed.end) }
{
    let mut lexemes = Vec::with_capacity(alloc, USUAL_LEXEMES)?;
    let mut rest = text;
    let mut start = 0;
    while let Some((token, after)) = lexeme(alloc, rest)? {
        let end = start + byte_len(before(rest, after));
        if let Some(token) = token {
            lexemes.push(Lexeme { token, start, end })?;
        }
        rest = after;
        start = end;
    }
    Ok(Lexed {
        lexemes,
        end: start,
    })
}

/// The lexemes of the text that say tokens, each with its place, as far as there are any.
///
/// `NoMemory` where an allocation failed. The cost is linear in the bytes of the text.
pub fn lexemes(alloc: Global, text: &str) -> Result<Lexed, NoMemory>
    ensures cut { IfOk result (λ lexed. IsCut text.now (map placed_of lexed.lexemes.items) lexed.end) }
    ensures apart { IfOk result (λ lexed. StandApart text.now 0 (map placed_of lexed.lexemes.items)) }
{
    let chars: Vec<char> = text.chars().collect(alloc)?;
    cut_lexemes(alloc, &chars)
}
