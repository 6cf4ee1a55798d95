//! Where the fault of a refused text is.
ghost use Rattle.std.specs.Prelude.{◌≡◌, ◌≢◌, ◌≤◌, ◌&&◌, IfOk, [], length, map};
ghost use Rattle.clip_grammar.specs.Reading.{IsFault, begins_colon_star};
ghost use Rattle.clip_grammar.specs.Steps.Parser.{begins_colon};
ghost use Rattle.clip_grammar.specs.Steps.LeftOut.{begins_left_out, is_star, is_colon};
ghost use Rattle.clip_grammar.specs.declared.fault.QueryFault.TheVariants as faults;
ghost use Rattle.clip_syntax.specs.Steps.TokenOf.{token_of};
ghost use Rattle.clip_explain.specs.Lexemes.{placed_of};
ghost use Rattle.clip_explain.specs.Places.{FirstOf, IsLeftOut, IsOutOfPlace, HasNoWords, IsPlace, tokens_in};

use crate::cutting::{Lexeme, lexemes};
use crate::fronts::ClausesBegun;
use clip_grammar::limits::MOST_TEXT_BYTES;
use clip_syntax::{QueryFault, Token, item_text};
use clip_words::{NoMemory, words};
use std::alloc::Global;

/// Whether a colon comes first.
fn begins_colon(lexemes: &[Lexeme]) -> bool
    ensures { result ≡ begins_colon (tokens_in (map placed_of lexemes.now)) }
{
    match lexemes {
        [first, ..] => matches!(first.token, Token::Colon),
        [] => false,
    }
}

/// Whether a colon and a star come first.
fn begins_colon_star(lexemes: &[Lexeme]) -> bool
    ensures { result ≡ begins_colon_star (tokens_in (map placed_of lexemes.now)) }
{
    match lexemes {
        [first, second, ..] => matches!(first.token, Token::Colon)
            && matches!(second.token, Token::Star),
        _ => false,
    }
}

/// Whether the token is a star.
fn is_star(token: &Token) -> bool
    ensures { result ≡ is_star (token_of token.now) }
{
    matches!(token, Token::Star)
}

/// Whether the token is a colon that stands after a star.
fn is_colon_after(token: &Token, after_star: bool) -> bool
    ensures { result ≡ (is_colon (token_of token.now) && after_star) }
{
    match token {
        Token::Colon => after_star,
        _ => false,
    }
}

/// Whether a token is left out, before these lexemes. `after_star_colon` says whether a star and a colon stand before
/// it.
fn is_left_out(token: &Token, later: &[Lexeme], after_star_colon: bool) -> bool
    ensures { result ≡ begins_left_out after_star_colon (token_of token.now) (tokens_in (map placed_of later.now)) }
{
    match token {
        Token::Other => true,
        Token::Star => !after_star_colon && !begins_colon_star(later),
        _ => false,
    }
}

/// The first byte of the first lexeme that is left out, or the end where none is.
fn left_out_place(lexemes: &[Lexeme], end: usize) -> usize
    ensures { FirstOf IsLeftOut [] (map placed_of lexemes.now) end result }
{
    let mut rest = lexemes;
    let mut after_star = false;
    let mut after_star_colon = false;
    while let Some((first, later)) = rest.split_first() {
        if is_left_out(&first.token, later, after_star_colon) {
            return first.start;
        }
        after_star_colon = is_colon_after(&first.token, after_star);
        after_star = is_star(&first.token);
        rest = later;
    }
    end
}

/// The first byte of the first lexeme with which the tokens are no beginning of clauses, or the end where none is so.
fn structure_place(lexemes: &[Lexeme], end: usize) -> usize
    ensures { FirstOf IsOutOfPlace [] (map placed_of lexemes.now) end result }
{
    let mut rest = lexemes;
    let mut front = ClausesBegun::start();
    while let Some((lexeme, later)) = rest.split_first() {
        let Some(next) = front.after(&lexeme.token) else {
            return lexeme.start;
        };
        front = next;
        rest = later;
    }
    end
}

/// The first byte of the first item that has no words, or the end where each has some.
fn wordless_place(alloc: Global, lexemes: &[Lexeme], end: usize) -> Result<usize, NoMemory>
    ensures { IfOk result (λ at. FirstOf HasNoWords [] (map placed_of lexemes.now) end at) }
{
    let mut rest = lexemes;
    while let Some((first, later)) = rest.split_first() {
        if let Some(text) = item_text(&first.token, begins_colon(later)) {
            if words(alloc, text)?.is_empty() {
                return Ok(first.start);
            }
        }
        rest = later;
    }
    Ok(end)
}

/// The byte of a refused text at which its fault is.
///
/// `NoMemory` where an allocation failed. The cost is linear in the bytes of the text.
pub fn place(alloc: Global, text: &str, fault: QueryFault) -> Result<usize, NoMemory>
    requires fault { IsFault text.now fault }
    requires kept { fault ≢ faults.NoMemory }
    ensures place { IfOk result (λ at. IsPlace text.now fault at) }
    ensures within { IfOk result (λ at. at ≤ length text.now) }
{
    match fault {
        QueryFault::TooLong => Ok(MOST_TEXT_BYTES),
        QueryFault::Lexical(at) => Ok(at),
        QueryFault::LeftOut => {
            let lexed = lexemes(alloc, text)?;
            Ok(left_out_place(&lexed.lexemes, lexed.end))
        }
        QueryFault::Structure => {
            let lexed = lexemes(alloc, text)?;
            Ok(structure_place(&lexed.lexemes, lexed.end))
        }
        QueryFault::NoWords => {
            let lexed = lexemes(alloc, text)?;
            wordless_place(alloc, &lexed.lexemes, lexed.end)
        }
        QueryFault::TooBig | QueryFault::NoMemory => Ok(text.len()),
    }
}
