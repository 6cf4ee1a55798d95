//! Texts read as queries.
ghost use Rattle.std.specs.Prelude.{◌≡◌, ◌<◌, ◌≤◌, ◌^◌, length, map, encode_utf8_all, IfOk, IfErr};
ghost use Rattle.clip_grammar.specs.Reading.{Reads, HasNoFault, IsFault, Says};
ghost use Rattle.clip_grammar.specs.declared.limits.TheConstants.{MOST_TEXT_BYTES};
ghost use Rattle.clip_grammar.specs.Tree.{tree_of};
ghost use Rattle.clip_syntax.specs.Steps.TokenOf.{token_of};

use crate::build::build;
use crate::lexer::lex;
use crate::parser::{are_clauses, has_left_out};
use crate::size::is_too_big;
use crate::token::Token;
use crate::words::item_words;
use clip_grammar::fault::QueryFault;
use clip_grammar::limits::MOST_TEXT_BYTES;
use clip_grammar::query::Query;
use std::alloc::Global;

/// How many bytes the characters take.
fn byte_len(chars: &[char]) -> usize
    requires { length (encode_utf8_all chars.now) < 2 ^ 64 }
    ensures { result ≡ length (encode_utf8_all chars.now) }
{
    let mut len = 0;
    for c in chars {
        len += c.len_utf8();
    }
    len
}

/// The tokens of the text's lexemes, or the place from which no lexemes go on.
fn tokens_of(alloc: Global, text: &str) -> Result<Vec<Token>, QueryFault>
    requires { length text.now ≤ MOST_TEXT_BYTES }
    ensures says { IfOk result (λ tokens. Says text.now (map token_of tokens.items)) }
    ensures refused { IfErr result (λ fault. IsFault text.now fault) }
{
    let chars: Vec<char> = text.chars().collect(alloc)?;
    let (tokens, rest) = lex(alloc, &chars)?;
    if !rest.is_empty() {
        let place = text.len() - byte_len(rest);
        return Err(QueryFault::Lexical(place));
    }
    Ok(tokens)
}

/// Reads the text of a query.
///
/// # Errors
///
/// The first of these that holds:
/// `TooLong`: the text has more than `MOST_TEXT_BYTES` bytes.
/// `Lexical(at)`: the text is cut into lexemes up to byte `at`, and no further.
/// `LeftOut`: it uses a form that is not supported.
/// `Structure`: its lexemes are not clauses.
/// `NoWords`: a word or a quoted text that is asked for has no words.
/// `TooBig`: the tree has more than `MOST_NODES` nodes, or more than `MOST_OPEN` parentheses are open at once.
/// `NoMemory`: an allocation failed; it may come in place of another answer.
///
/// The cost is linear in the bytes of the text.
pub fn read_query(alloc: Global, text: &str) -> Result<Query, QueryFault>
    ensures read { IfOk result (λ query. Reads text.now (tree_of query)) }
    ensures kept { IfOk result (λ _. HasNoFault text.now) }
    ensures refused { IfErr result (λ fault. IsFault text.now fault) }
{
    if text.len() > MOST_TEXT_BYTES {
        return Err(QueryFault::TooLong);
    }
    let tokens = tokens_of(alloc, text)?;
    let tokens = tokens.as_slice();
    if has_left_out(tokens) {
        return Err(QueryFault::LeftOut);
    }
    if !are_clauses(tokens) {
        return Err(QueryFault::Structure);
    }
    let Some(words) = item_words(alloc, tokens)? else {
        return Err(QueryFault::NoWords);
    };
    if is_too_big(tokens) {
        return Err(QueryFault::TooBig);
    }
    Ok(build(alloc, tokens, words)?)
}
