//! Remarks that a single lexeme is enough for, by what it says.
ghost use Rattle.std.specs.Prelude.{◌≡◌, if◌then◌else◌};
ghost use Rattle.std.specs.List.{list_all};
ghost use Rattle.std.specs.Char.{is_ascii_digit};
ghost use Rattle.clip_grammar.specs.Tree.{end_of};
ghost use Rattle.clip_syntax.specs.Steps.TokenOf.{token_of};
ghost use Rattle.clip_remarks.specs.Tokens.{is_empty, is_named, is_joining, is_foreign, is_known_field};
ghost use Rattle.clip_remarks.specs.Tokens.{is_known_in_any_case};
ghost use Rattle.clip_remarks.specs.Tokens.{begins_with, has_other_quote, has_sign_apart, tells_of_word};
ghost use Rattle.clip_remarks.specs.Tokens.{tells_of_front, tells_of_phrase};
ghost use Rattle.clip_remarks.specs.Tokens.{has_digit, tells_of_range, tells_of_token};

use crate::pieces::{Part, has_piece, has_several_words};
use crate::rule::Rule;
use crate::sort::{Sort, has_char};
use clip_grammar::query::Bound;
use clip_syntax::Token;

/// Whether each byte is a digit.
fn are_digits(text: &[u8]) -> bool
    ensures { result ≡ list_all is_ascii_digit text.now }
{
    text.iter().all(|byte| byte.is_ascii_digit())
}

/// Whether the text is empty, or has digits alone where they are let in.
fn may_end(text: &[u8], digits: bool) -> bool
    ensures { result ≡ (if digits then list_all is_ascii_digit text.now else is_empty text.now) }
{
    if digits {
        are_digits(text)
    } else {
        text.is_empty()
    }
}

/// Whether the text is the name but for case; where digits are let in, some may stand behind it.
fn is_named(name: &[u8], text: &[u8], digits: bool) -> bool
    ensures { result ≡ is_named digits name.now text.now }
{
    let Some((first, name)) = name.split_first() else {
        return may_end(text, digits);
    };
    let Some((byte, text)) = text.split_first() else {
        return false;
    };
    byte.to_ascii_lowercase() == *first && is_named(name, text, digits)
}

/// Whether the word would be an operator in capitals.
fn is_joining(text: &str) -> bool
    ensures { result ≡ is_joining text.now }
{
    let text = text.as_bytes();
    is_named(b"and", text, false) || is_named(b"or", text, false) || is_named(b"not", text, false)
}

/// Whether the word is an operator of another syntax.
fn is_foreign(text: &str) -> bool
    ensures { result ≡ is_foreign text.now }
{
    let text = text.as_bytes();
    is_named(b"near", text, true)
        || is_named(b"onear", text, true)
        || is_named(b"adj", text, true)
        || is_named(b"atleast", text, true)
        || is_named(b"andnot", text, true)
        || is_named(b"xor", text, true)
}

/// Whether articles most likely have a field of this name.
pub fn is_known_field(name: &str) -> bool
    ensures { result ≡ is_known_field name.now }
{
    name == "title" || name == "text"
}

/// Whether articles most likely have a field of this name but for case.
pub fn is_known_in_any_case(name: &str) -> bool
    ensures { result ≡ is_known_in_any_case name.now }
{
    is_named(b"title", name.as_bytes(), false) || is_named(b"text", name.as_bytes(), false)
}

/// Whether the byte comes first.
fn begins_with(byte: u8, text: &str) -> bool
    ensures { result ≡ begins_with byte text.now }
{
    match text.as_bytes() {
        [] => false,
        [first, ..] => *first == byte,
    }
}

/// Whether the text has a quote that makes no phrase.
fn has_other_quote(text: &str) -> bool
    ensures { result ≡ has_other_quote text.now }
{
    begins_with(b'\'', text) || has_piece(text, Part::BetweenWith(Sort::Curly))
}

/// Whether the text has a sign that is no part of a word, and one word at most.
fn has_sign_apart(text: &str) -> bool
    ensures { result ≡ has_sign_apart text.now }
{
    (begins_with(b'.', text) || has_piece(text, Part::BetweenWith(Sort::Sign)))
        && !has_several_words(text)
}

/// Whether the rule tells of a word.
fn tells_of_word(rule: Rule, text: &str) -> bool
    ensures { result ≡ tells_of_word rule text.now }
{
    match rule {
        Rule::LowerCaseOperator => is_joining(text),
        Rule::ForeignOperator => is_foreign(text),
        Rule::CommaList => has_piece(text, Part::BetweenWith(Sort::Comma)),
        Rule::OtherQuote => has_other_quote(text),
        Rule::DroppedSign => has_sign_apart(text),
        Rule::SignMakesPhrase => has_several_words(text) && has_piece(text, Part::Between),
        Rule::Capitals => has_piece(text, Part::Capitals),
        Rule::Apostrophe => has_piece(text, Part::WordWith(Sort::Apostrophe)),
        _ => false,
    }
}

/// Whether the rule tells of a prefix.
fn tells_of_front(rule: Rule, text: &str) -> bool
    ensures { result ≡ tells_of_front rule text.now }
{
    match rule {
        Rule::CommaList => has_piece(text, Part::BetweenWith(Sort::Comma)),
        Rule::OtherQuote => has_other_quote(text),
        Rule::SignInPrefix => has_several_words(text)
            || has_piece(text, Part::BetweenWith(Sort::Sign)),
        Rule::Apostrophe => has_piece(text, Part::WordWith(Sort::Apostrophe)),
        _ => false,
    }
}

/// Whether the rule tells of a text between quotes.
fn tells_of_phrase(rule: Rule, text: &str) -> bool
    ensures { result ≡ tells_of_phrase rule text.now }
{
    match rule {
        Rule::WildcardInQuotes => has_char(text, Sort::Star),
        Rule::OperatorInQuotes => has_piece(text, Part::Operator),
        Rule::SignInQuotes => has_piece(text, Part::BetweenWith(Sort::Sign)),
        Rule::Capitals => has_piece(text, Part::Capitals),
        Rule::Apostrophe => has_piece(text, Part::WordWith(Sort::Apostrophe)),
        _ => false,
    }
}

/// Whether the end of a range has a digit.
fn has_digit(end: &Bound) -> bool
    ensures { result ≡ has_digit (end_of end.now) }
{
    match end {
        Bound::Free => false,
        Bound::With(text) => has_char(text, Sort::Digit),
        Bound::Without(text) => has_char(text, Sort::Digit),
    }
}

/// Whether the rule tells of a range.
fn tells_of_range(rule: Rule, low: &Bound, high: &Bound) -> bool
    ensures { result ≡ tells_of_range rule (end_of low.now) (end_of high.now) }
{
    match rule {
        Rule::RangeOfDigits => has_digit(low) || has_digit(high),
        _ => false,
    }
}

/// Whether the rule tells of a lexeme by what it says.
pub fn tells_of_token(rule: Rule, token: &Token) -> bool
    ensures { result ≡ tells_of_token rule (token_of token.now) }
{
    match token {
        Token::Plain(text) => tells_of_word(rule, text),
        Token::Front(text) => tells_of_front(rule, text),
        Token::Phrase(text) => tells_of_phrase(rule, text),
        Token::Range(low, high) => tells_of_range(rule, low, high),
        _ => false,
    }
}
