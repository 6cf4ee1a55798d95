//! The size of a query's tree.
ghost use Rattle.std.specs.Prelude.{◌≡◌, ◌+◌, ◌-◌, ◌<◌, ◌↔◌, IsTrue, map};
ghost use Rattle.std.specs.List.{count_by};
ghost use Rattle.clip_grammar.specs.Shape as shape;
ghost use Rattle.clip_grammar.specs.Shape.{Written, written_tree};
ghost use Rattle.clip_grammar.specs.Reading.{IsTooBig};
ghost use Rattle.clip_grammar.specs.Steps.LeftOut.{is_colon};
ghost use Rattle.clip_syntax.specs.Steps.Sizes.{is_node, open_after, most_open};
ghost use Rattle.clip_syntax.specs.Steps.TokenOf.{token_of, IfWritten};

use crate::token::Token;
use clip_grammar::limits::{MOST_NODES, MOST_OPEN};

/// Whether the token counts as a node.
fn is_node(token: &Token) -> bool
    ensures { result ≡ is_node (token_of token.now) }
{
    matches!(
        token,
        Token::Plain(_)
            | Token::Front(_)
            | Token::Phrase(_)
            | Token::Range(_, _)
            | Token::Star
            | Token::Open
    )
}

/// Whether the token is a colon.
fn is_colon(token: &Token) -> bool
    ensures { result ≡ is_colon (token_of token.now) }
{
    matches!(token, Token::Colon)
}

/// How many nodes the tree has, the outermost group among them.
///
/// A field is a word and a colon, and `*:*` two stars and a colon, so the colons are taken off.
fn node_count(tokens: &[Token]) -> usize
    ensures { result ≡ count_by (λ t. is_node (token_of t)) tokens.now
        + 1 - count_by (λ t. is_colon (token_of t)) tokens.now }
{
    let nodes = tokens.iter().filter(|token| is_node(token)).count();
    let colons = tokens.iter().filter(|token| is_colon(token)).count();
    (nodes + 1).saturating_sub(colons)
}

/// How many parentheses are open after the token.
fn open_after(token: &Token, open_before: usize) -> usize
    requires { open_before < usize.MAX }
    ensures { result ≡ open_after (token_of token.now) open_before }
{
    match token {
        Token::Open => open_before + 1,
        Token::Close => open_before.saturating_sub(1),
        _ => open_before,
    }
}

/// The most parentheses that are open at once.
fn most_open(tokens: &[Token]) -> usize
    ensures { result ≡ most_open (map token_of tokens.now) 0 }
{
    let mut open = 0;
    let mut most = 0;
    for token in tokens {
        open = open_after(token, open);
        most = most.max(open);
    }
    most
}

/// Whether the tree has more than `MOST_NODES` nodes, or more than `MOST_OPEN` parentheses are open at once.
///
/// The cost is linear in the tokens, and nothing nests.
pub fn is_too_big(tokens: &[Token]) -> bool
    ensures { IfWritten tokens.now (λ written. IsTrue result ↔ IsTooBig (written_tree written)) }
{
    node_count(tokens) > MOST_NODES || most_open(tokens) > MOST_OPEN
}
