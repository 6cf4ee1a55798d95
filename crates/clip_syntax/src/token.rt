//! Tokens: what the lexemes of a query's text say.
ghost use Rattle.std.specs.Prelude.{◌≡◌, ◌+◌, ◌∷◌, map, length, false, IfNone, IfSome};
ghost use Rattle.clip_grammar.specs.Tokens as spec;
ghost use Rattle.clip_grammar.specs.Steps.Parser.{begins_colon, begins_and};
ghost use Rattle.clip_grammar.specs.Reading.{begins_colon_star};
ghost use Rattle.clip_syntax.specs.Steps.TokenOf.{token_of};

use clip_grammar::query::Bound;

/// What a lexeme says, however it is spelled. Its texts have no quotes, and each escape stands as its character.
#[derive(Drop)]
pub enum Token {
    /// The sign `+`.
    Plus,
    /// The sign `-`.
    Minus,
    /// The sign `!`.
    Bang,
    /// The word `NOT`.
    Not,
    /// The word `AND` or `&&`.
    And,
    /// The word `OR` or `||`.
    Or,
    /// The sign `(`.
    Open,
    /// The sign `)`.
    Close,
    /// The sign `:`.
    Colon,
    /// A star alone.
    Star,
    /// A word without `*` and `?`.
    Plain(String),
    /// A word whose last character is its one star, without the star.
    Front(String),
    /// A quoted text.
    Phrase(String),
    /// A range, its ends not yet folded.
    Range(Bound, Bound),
    /// A form that is left out: a longer word with `&&` or `||`, a word with wild cards elsewhere, `~`, `^` or `/`.
    Other,
}

/// Whether a colon comes first.
pub fn begins_colon(tokens: &[Token]) -> bool
    ensures { result ≡ begins_colon (map token_of tokens.now) }
{
    after_colon(tokens).is_some()
}

/// Whether an `AND` comes first.
pub fn begins_and(tokens: &[Token]) -> bool
    ensures { result ≡ begins_and (map token_of tokens.now) }
{
    matches!(tokens, [Token::And, ..])
}

/// What is left after a colon.
pub fn after_colon(tokens: &[Token]) -> Option<&[Token]>
    ensures none { IfNone result (begins_colon (map token_of tokens.now) ≡ false) }
    ensures some { IfSome result (λ rest. map token_of tokens.now ≡ spec.Colon ∷ map token_of rest.now) }
    ensures shorter { IfSome result (λ rest. length rest.now + 1 ≡ length tokens.now) }
{
    match tokens {
        [Token::Colon, rest @ ..] => Some(rest),
        _ => None,
    }
}

/// What is left after a colon and a star.
pub fn after_colon_star(tokens: &[Token]) -> Option<&[Token]>
    ensures none { IfNone result (begins_colon_star (map token_of tokens.now) ≡ false) }
    ensures some { IfSome result (λ rest. map token_of tokens.now ≡ spec.Colon ∷ spec.Star ∷ map token_of rest.now) }
    ensures shorter { IfSome result (λ rest. length rest.now + 2 ≡ length tokens.now) }
{
    match tokens {
        [Token::Colon, Token::Star, rest @ ..] => Some(rest),
        _ => None,
    }
}
