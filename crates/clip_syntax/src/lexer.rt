//! Query texts cut into lexemes, each said as a token. Blanks say nothing.
//!
//! A text is here the slice of its characters, and what is left of it a later part of that slice.
ghost use Rattle.std.specs.Prelude.{◌≡◌, [], ◌<◌, length, map, IfOk, IfSome, IsTrue, if◌then◌else◌, string_bytes};
ghost use Rattle.std.specs.Option.{option_map};
ghost use Rattle.clip_grammar.specs.Characters.{is_white, is_start, is_one_of, is_hex, hex_value, is_code, code_value};
ghost use Rattle.clip_grammar.specs.Characters.{quotable_char, end_char};
ghost use Rattle.clip_grammar.specs.Steps.Lexer.{ending_at, piece_at, code_at, escape_at, pieces_at, quoted_at};
ghost use Rattle.clip_grammar.specs.Steps.Lexer.{word_at, range_at, lexeme_at, span_white, gap_at, to_at, bracket_at};
ghost use Rattle.clip_syntax.specs.Steps.Lexing.{with_tokens, token_and_rest, tokens_and_rest, IsLexed};
ghost use Rattle.std.specs.List.{list_any};
ghost use Rattle.clip_syntax.specs.Steps.Glyphs.{class_test, and_rest, glyph_and_rest, glyphs_and_rest, glyphs_after};
ghost use Rattle.clip_grammar.specs.Tokens.{text_of, is_spelled, is_bare, is_wild, has_operator, is_and, is_or};
ghost use Rattle.clip_grammar.specs.Tokens.{ends_in_star, word_token, sign_token};
ghost use Rattle.clip_syntax.specs.Steps.TokenOf.{token_of};
ghost use Rattle.clip_syntax.specs.Steps.Ends.{text_and_rest, end_text_and_rest, end_with, quoted_end_at, bare_end_at};
ghost use Rattle.clip_grammar.specs.Tree.{end_of};

use crate::token::Token;
use clip_grammar::glyph::Glyph;
use clip_grammar::query::Bound;
use clip_words::NoMemory;
use std::alloc::Global;

/// As many glyphs as most words and quoted texts have: a list of so many rarely grows.
const USUAL_GLYPHS: usize = 24;

/// As many tokens as most queries have.
const USUAL_TOKENS: usize = 12;

/// Where a character stands, which decides whether it needs a backslash.
#[derive(Clone, Copy)]
pub enum Place {
    /// First in a word.
    WordStart,
    /// Later in a word.
    Word,
    /// Between quotes.
    Quoted,
    /// In the bare end of a range.
    End,
}

/// Whether the character separates lexemes. A no-break space does not: it is a character of words. Constant time.
pub fn is_white(c: char) -> bool
    ensures { result ≡ is_white c }
{
    matches!(c, ' ' | '\t' | '\n' | '\r' | '\u{3000}')
}

/// Whether a word may begin with the character and no backslash. Constant time.
pub fn is_start(c: char) -> bool
    ensures { result ≡ is_start c }
{
    !is_white(c)
        && !matches!(
            c,
            '+' | '-'
                | '!'
                | '('
                | ')'
                | ':'
                | '^'
                | '['
                | ']'
                | '"'
                | '{'
                | '}'
                | '~'
                | '*'
                | '?'
                | '\\'
                | '/'
        )
}

/// Whether the character may stand at the place with no backslash. A star and a question mark may stand in a word.
fn allows(place: Place, c: char) -> bool
    ensures { result ≡ class_test place c }
{
    match place {
        Place::WordStart => is_start(c) || matches!(c, '*' | '?'),
        Place::Word => is_start(c) || matches!(c, '*' | '?' | '+' | '-'),
        Place::Quoted => !matches!(c, '"' | '\\'),
        Place::End => !is_white(c) && !matches!(c, ']' | '}' | '\\'),
    }
}

/// Whether the character is a hexadecimal digit.
#[tactic(auto, using(crate::proofs::Hexes::hex_ranges))]
fn is_hex(c: char) -> bool
    ensures { result ≡ is_hex c }
{
    c.is_ascii_hexdigit()
}

/// The value of a hexadecimal digit.
fn hex_value(c: char) -> u32
    requires { IsTrue (is_hex c) }
    ensures value { result ≡ hex_value c }
    ensures small { result < 16 }
{
    match c {
        '0'..='9' => c as u32 - 48,
        'a'..='f' => c as u32 - 87,
        _ => c as u32 - 55,
    }
}

/// The character that four hexadecimal digits name. A surrogate is none.
fn code_char(a: char, b: char, c: char, d: char) -> Option<char>
    ensures { result ≡ (if is_code a b c d then Some (code_value a b c d) else None) }
{
    if !is_hex(a) || !is_hex(b) || !is_hex(c) || !is_hex(d) {
        return None;
    }
    let value = ((hex_value(a) * 16 + hex_value(b)) * 16 + hex_value(c)) * 16 + hex_value(d);
    if 0xD800 <= value && value < 0xE000 {
        return None;
    }
    char::from_u32(value)
}

/// The character whose code stands after `\u`, and what is left.
fn code(text: &[char]) -> Option<(Glyph, &[char])>
    ensures found { option_map and_rest result ≡ option_map glyph_and_rest (code_at text.now) }
    ensures shorter { IfSome result (λ found. length found.1.now < length text.now) }
{
    let (a, rest) = text.split_first()?;
    let (b, rest) = rest.split_first()?;
    let (c, rest) = rest.split_first()?;
    let (d, rest) = rest.split_first()?;
    match code_char(*a, *b, *c, *d) {
        Some(value) => Some((Glyph::Escaped(value), rest)),
        None => None,
    }
}

/// The character that a backslash before the text escapes, and what is left.
#[tactic(auto, unfolding(clip_grammar::specs::Steps::Lexer::escape_at))]
fn escape(text: &[char]) -> Option<(Glyph, &[char])>
    ensures found { option_map and_rest result ≡ option_map glyph_and_rest (escape_at text.now) }
    ensures shorter { IfSome result (λ found. length found.1.now < length text.now) }
{
    match text {
        ['u', rest @ ..] => code(rest),
        [first, rest @ ..] => Some((Glyph::Escaped(*first), rest)),
        [] => None,
    }
}

/// The first character or escape of the text, and what is left.
#[tactic(auto, unfolding(clip_grammar::specs::Steps::Lexer::piece_at))]
fn piece(text: &[char], place: Place) -> Option<(Glyph, &[char])>
    ensures found { option_map and_rest result ≡ option_map glyph_and_rest (piece_at (class_test place) text.now) }
    ensures shorter { IfSome result (λ found. length found.1.now < length text.now) }
{
    match text {
        ['\\', rest @ ..] => escape(rest),
        [first, rest @ ..] if allows(place, *first) => Some((Glyph::Bare(*first), rest)),
        _ => None,
    }
}

/// The glyphs, followed by those of the characters and escapes that the text begins with, and what is left.
#[tactic(auto, using(crate::proofs::Glyphs::glyph_step, crate::proofs::Glyphs::glyph_end))]
fn pieces(
    mut glyphs: Vec<Glyph>,
    text: &[char],
    place: Place,
) -> Result<(Vec<Glyph>, &[char]), NoMemory>
    ensures { IfOk result (λ found. glyphs_and_rest found
        ≡ glyphs_after glyphs.items (pieces_at (class_test place) text.now)) }
{
    let mut rest = text;
    while let Some((glyph, after)) = piece(rest, place) {
        glyphs.push(glyph)?;
        rest = after;
    }
    Ok((glyphs, rest))
}

/// The text that the glyphs stand for.
fn text_of(alloc: Global, glyphs: &[Glyph]) -> Result<String, NoMemory>
    ensures { IfOk result (λ text. string_bytes text ≡ text_of glyphs.now) }
{
    let mut text = String::with_capacity(alloc, glyphs.len())?;
    for glyph in glyphs {
        let c = match glyph {
            Glyph::Bare(c) => *c,
            Glyph::Escaped(c) => *c,
        };
        text.push(c)?;
    }
    Ok(text)
}

/// Whether the glyphs are these characters as they stand.
fn is_spelled(chars: &[char], glyphs: &[Glyph]) -> bool
    ensures { result ≡ is_spelled chars.now glyphs.now }
{
    let Some((c, chars)) = chars.split_first() else {
        return glyphs.is_empty();
    };
    let Some((glyph, glyphs)) = glyphs.split_first() else {
        return false;
    };
    is_bare(*c, *glyph) && is_spelled(chars, glyphs)
}

/// Whether the glyph is this character as it stands.
fn is_bare(c: char, glyph: Glyph) -> bool
    ensures { result ≡ is_bare c glyph }
{
    match glyph {
        Glyph::Bare(d) => c == d,
        Glyph::Escaped(_) => false,
    }
}

/// Whether the glyph is a star or a question mark as it stands.
fn is_wild(glyph: Glyph) -> bool
    ensures { result ≡ is_wild glyph }
{
    is_bare('*', glyph) || is_bare('?', glyph)
}

/// Whether some glyph is a wild card.
fn has_wild(glyphs: &[Glyph]) -> bool
    ensures { result ≡ list_any is_wild glyphs.now }
{
    glyphs.iter().any(|glyph| is_wild(*glyph))
}

/// Whether two ampersands or two bars follow each other as they stand.
fn has_operator(glyphs: &[Glyph]) -> bool
    ensures { result ≡ has_operator glyphs.now }
{
    let mut rest = glyphs;
    while let Some((first, after)) = rest.split_first() {
        let Some(second) = after.first() else {
            return false;
        };
        if is_bare('&', *first) && is_bare('&', *second)
            || is_bare('|', *first) && is_bare('|', *second)
        {
            return true;
        }
        rest = after;
    }
    false
}

/// Whether the glyphs are `AND` or `&&`.
fn is_and(glyphs: &[Glyph]) -> bool
    ensures { result ≡ is_and glyphs.now }
{
    is_spelled(&['A', 'N', 'D'], glyphs) || is_spelled(&['&', '&'], glyphs)
}

/// Whether the glyphs are `OR` or `||`.
fn is_or(glyphs: &[Glyph]) -> bool
    ensures { result ≡ is_or glyphs.now }
{
    is_spelled(&['O', 'R'], glyphs) || is_spelled(&['|', '|'], glyphs)
}

/// Whether a star is last, and no star or question mark is before it.
fn ends_in_star(glyphs: &[Glyph]) -> bool
    ensures { result ≡ ends_in_star glyphs.now }
{
    let mut rest = glyphs;
    while let Some((first, after)) = rest.split_first() {
        if after.is_empty() {
            return is_bare('*', *first);
        }
        if is_wild(*first) {
            return false;
        }
        rest = after;
    }
    false
}

/// What a word says.
#[tactic(auto, unfolding(clip_grammar::specs::Tokens::word_token))]
fn word_token(alloc: Global, glyphs: &[Glyph]) -> Result<Token, NoMemory>
    ensures { IfOk result (λ token. token_of token ≡ word_token glyphs.now) }
{
    if is_spelled(&['*'], glyphs) {
        return Ok(Token::Star);
    }
    if is_and(glyphs) {
        return Ok(Token::And);
    }
    if is_or(glyphs) {
        return Ok(Token::Or);
    }
    if has_operator(glyphs) {
        return Ok(Token::Other);
    }
    if is_spelled(&['N', 'O', 'T'], glyphs) {
        return Ok(Token::Not);
    }
    if !has_wild(glyphs) {
        return Ok(Token::Plain(text_of(alloc, glyphs)?));
    }
    if !ends_in_star(glyphs) {
        return Ok(Token::Other);
    }
    let front = &glyphs[..glyphs.len().saturating_sub(1)];
    Ok(Token::Front(text_of(alloc, front)?))
}

/// What a sign says.
#[tactic(auto, unfolding(clip_grammar::specs::Tokens::sign_token))]
fn sign_token(c: char) -> Token
    ensures { token_of result ≡ sign_token c }
{
    match c {
        '+' => Token::Plus,
        '-' => Token::Minus,
        '!' => Token::Bang,
        '(' => Token::Open,
        ')' => Token::Close,
        _ => Token::Colon,
    }
}

/// The quoted text after an opening quote, and what is left.
#[tactic(auto, unfolding(clip_grammar::specs::Steps::Lexer::quoted_at))]
fn lex_quoted(alloc: Global, text: &[char]) -> Result<Option<(Token, &[char])>, NoMemory>
    ensures { IfOk result (λ found. option_map token_and_rest found ≡ option_map with_tokens (quoted_at text.now)) }
{
    let glyphs = Vec::with_capacity(alloc, USUAL_GLYPHS)?;
    let (glyphs, rest) = pieces(glyphs, text, Place::Quoted)?;
    let ['"', rest @ ..] = rest else {
        return Ok(None);
    };
    Ok(Some((Token::Phrase(text_of(alloc, &glyphs)?), rest)))
}

/// The word that the text begins with, as long as it goes on, and what is left.
#[tactic(auto, unfolding(clip_grammar::specs::Steps::Lexer::word_at))]
fn word(alloc: Global, text: &[char]) -> Result<Option<(Token, &[char])>, NoMemory>
    ensures { IfOk result (λ found. option_map token_and_rest found ≡ option_map with_tokens (word_at text.now)) }
{
    let Some((first, rest)) = piece(text, Place::WordStart) else {
        return Ok(None);
    };
    let mut glyphs = Vec::with_capacity(alloc, USUAL_GLYPHS)?;
    glyphs.push(first)?;
    let (glyphs, rest) = pieces(glyphs, rest, Place::Word)?;
    Ok(Some((word_token(alloc, &glyphs)?, rest)))
}

/// What is left after white space.
#[tactic(auto, unfolding(clip_grammar::specs::Steps::Lexer::span_white))]
fn skip_white(text: &[char]) -> &[char]
    ensures { result.now ≡ (span_white text.now).1 }
{
    let mut rest = text;
    while let Some((first, after)) = rest.split_first() {
        if !is_white(*first) {
            return rest;
        }
        rest = after;
    }
    rest
}

/// What is left after white space, of which there is some.
#[tactic(auto, using(crate::proofs::Ranging::gap_some, crate::proofs::Ranging::gap_none, crate::proofs::Ranging::gap_nil))]
fn gap(text: &[char]) -> Option<&[char]>
    ensures { option_map (λ rest. rest.now) result ≡ option_map (λ found. found.1) (gap_at text.now) }
{
    let Some((first, rest)) = text.split_first() else {
        return None;
    };
    if is_white(*first) {
        Some(skip_white(rest))
    } else {
        None
    }
}

/// What is left after `TO`.
#[tactic(auto, unfolding(clip_grammar::specs::Steps::Lexer::to_at))]
fn to(text: &[char]) -> Option<&[char]>
    ensures { option_map (λ rest. rest.now) result ≡ to_at text.now }
{
    match text {
        ['T', 'O', rest @ ..] => Some(rest),
        _ => None,
    }
}

/// A closing bracket, and what is left.
#[tactic(auto, unfolding(clip_grammar::specs::Steps::Lexer::bracket_at))]
fn bracket(text: &[char]) -> Option<(char, &[char])>
    ensures { option_map and_rest result ≡ bracket_at text.now }
{
    match text {
        [first, rest @ ..] if matches!(*first, ']' | '}') => Some((*first, rest)),
        _ => None,
    }
}

/// A quoted end of a range, after its opening quote.
fn quoted_end(alloc: Global, text: &[char]) -> Result<Option<(Option<String>, &[char])>, NoMemory>
    ensures { IfOk result (λ found. option_map text_and_rest found ≡ quoted_end_at text.now) }
{
    let (glyphs, rest) = pieces(Vec::new(alloc), text, Place::Quoted)?;
    match rest {
        ['"', rest @ ..] if !glyphs.is_empty() => {
            Ok(Some((Some(text_of(alloc, &glyphs)?), rest)))
        }
        _ => Ok(None),
    }
}

/// A bare end of a range.
fn bare_end(alloc: Global, text: &[char]) -> Result<Option<(Option<String>, &[char])>, NoMemory>
    ensures { IfOk result (λ found. option_map text_and_rest found ≡ bare_end_at text.now) }
{
    let (glyphs, rest) = pieces(Vec::new(alloc), text, Place::End)?;
    if glyphs.is_empty() || is_spelled(&['T', 'O'], &glyphs) {
        return Ok(None);
    }
    if is_spelled(&['*'], &glyphs) {
        return Ok(Some((None, rest)));
    }
    Ok(Some((Some(text_of(alloc, &glyphs)?), rest)))
}

/// An end of a range: its text, or none for a star alone.
#[tactic(auto, using(crate::proofs::Ranging::ending_quoted, crate::proofs::Ranging::ending_bare, crate::proofs::Ranging::ending_nil))]
fn ending(alloc: Global, text: &[char]) -> Result<Option<(Option<String>, &[char])>, NoMemory>
    ensures { IfOk result (λ found. option_map text_and_rest found
        ≡ option_map end_text_and_rest (ending_at text.now)) }
{
    let Some((first, rest)) = text.split_first() else {
        return Ok(None);
    };
    if *first == '"' {
        return quoted_end(alloc, rest);
    }
    bare_end(alloc, text)
}

/// The end of a range, by whether its bracket lets it in.
fn end_with(closed: bool, text: Option<String>) -> Bound
    ensures { end_of result ≡ end_with closed (option_map string_bytes text) }
{
    match text {
        None => Bound::Free,
        Some(text) if closed => Bound::With(text),
        Some(text) => Bound::Without(text),
    }
}

/// The range after its opening bracket, and what is left.
fn range(alloc: Global, left: char, text: &[char]) -> Result<Option<(Token, &[char])>, NoMemory>
    ensures { IfOk result (λ found. option_map token_and_rest found ≡ option_map with_tokens (range_at left text.now)) }
{
    let Some((low, rest)) = ending(alloc, skip_white(text))? else {
        return Ok(None);
    };
    let Some(rest) = gap(rest) else {
        return Ok(None);
    };
    let Some(rest) = to(rest) else {
        return Ok(None);
    };
    let Some(rest) = gap(rest) else {
        return Ok(None);
    };
    let Some((high, rest)) = ending(alloc, rest)? else {
        return Ok(None);
    };
    let Some((right, rest)) = bracket(skip_white(rest)) else {
        return Ok(None);
    };
    let low = end_with(left == '[', low);
    let high = end_with(right == ']', high);
    Ok(Some((Token::Range(low, high), rest)))
}

/// What the first lexeme says, and what is left: no token where it is white space. `None` where no lexeme comes first,
/// as in an empty text.
///
/// `NoMemory` where an allocation failed. The cost is linear in the characters of the lexeme, and of what comes after
/// it where a quote or a range does not end.
#[tactic(auto, unfolding(clip_grammar::specs::Steps::Lexer::lexeme_at))]
pub fn lexeme(alloc: Global, text: &[char]) -> Result<Option<(Option<Token>, &[char])>, NoMemory>
    ensures { IfOk result (λ found. option_map tokens_and_rest found ≡ option_map with_tokens (lexeme_at text.now)) }
{
    let Some((first, rest)) = text.split_first() else {
        return Ok(None);
    };
    if is_white(*first) {
        return Ok(Some((None, rest)));
    }
    if matches!(*first, '+' | '-' | '!' | '(' | ')' | ':') {
        return Ok(Some((Some(sign_token(*first)), rest)));
    }
    if matches!(*first, '~' | '^' | '/') {
        return Ok(Some((Some(Token::Other), rest)));
    }
    let found = match *first {
        '"' => lex_quoted(alloc, rest)?,
        '[' | '{' => range(alloc, *first, rest)?,
        _ => word(alloc, text)?,
    };
    match found {
        Some((token, rest)) => Ok(Some((Some(token), rest))),
        None => Ok(None),
    }
}

/// What the lexemes say, as far as there are any, and what is left: nothing, or a text at which no lexeme begins.
///
/// The cost is linear in the characters.
#[tactic(auto, using(crate::proofs::Saying::lexing_more, crate::proofs::Saying::tokens_shorter, crate::proofs::Glyphs::mapped_none))]
pub fn lex(alloc: Global, text: &[char]) -> Result<(Vec<Token>, &[char]), NoMemory>
    ensures { IfOk result (λ found. IsLexed text.now (map token_of found.0.items) found.1.now) }
{
    let mut tokens = Vec::with_capacity(alloc, USUAL_TOKENS)?;
    let mut rest = text;
    while let Some((token, after)) = lexeme(alloc, rest)? {
        if let Some(token) = token {
            tokens.push(token)?;
        }
        rest = after;
    }
    Ok((tokens, rest))
}
