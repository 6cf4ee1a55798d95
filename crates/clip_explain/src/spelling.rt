//! Queries spelled with all their signs and fields.
ghost use Rattle.std.specs.Prelude.{◌≡◌, ◌++◌, [], IfOk, OnOk, map, string_bytes, if◌then◌else◌};
ghost use Rattle.std.specs.Arc.{arc_str_bytes};
ghost use Rattle.clip_grammar.specs.Tree.{tree_of, end_of};
ghost use Rattle.clip_explain.specs.Spelling.{plain_char, stands, escaped_char, escaped, in_quotes, is_operator};
ghost use Rattle.clip_explain.specs.Spelling.{field_spelling, gap, words_spelling, end_spelling, low_bracket};
ghost use Rattle.clip_explain.specs.Spelling.{high_bracket, range_spelling, sign_spelling, spelling_in, spelling};
ghost use Rattle.std.specs.Prelude.{false, true, encode_utf8, encode_utf8_all};

use clip_grammar::query::{Bound, Occur, Query};
use clip_syntax::is_start;
use clip_words::NoMemory;
use std::alloc::Global;
use std::sync::ArcStr;

/// Whether the character stands in a word as it is, wherever it stands there.
fn is_plain(c: char) -> bool
    ensures { result ≡ plain_char c }
{
    is_start(c) && !matches!(c, '&' | '|')
}

/// Whether the character stands as it is between quotes, or in a word.
fn stands(quoted: bool, c: char) -> bool
    ensures { result ≡ stands quoted c }
{
    if quoted {
        !matches!(c, '"' | '\\')
    } else {
        is_plain(c)
    }
}

/// Puts a character behind what is there, after a backslash where it doesn't stand as it is.
fn push_char(spelled: &mut String, quoted: bool, c: char) -> Result<(), NoMemory>
    ensures { OnOk result (string_bytes spelled.new
        ≡ string_bytes spelled.old ++ encode_utf8_all (escaped_char quoted c)) }
{
    if !stands(quoted, c) {
        spelled.push('\\')?;
    }
    spelled.push(c)?;
    Ok(())
}

/// Puts a text behind what is there, with a backslash before each character that doesn't stand as it is.
fn push_escaped(spelled: &mut String, quoted: bool, text: &str) -> Result<(), NoMemory>
    ensures { OnOk result (string_bytes spelled.new ≡ string_bytes spelled.old ++ escaped quoted text.now) }
{
    for c in text.chars() {
        push_char(spelled, quoted, c)?;
    }
    Ok(())
}

/// Whether the text would be read as an operator.
fn is_operator(text: &str) -> bool
    ensures { result ≡ is_operator text.now }
{
    text == "AND" || text == "OR" || text == "NOT"
}

/// Puts a field and a colon behind what is there.
fn push_field(spelled: &mut String, field: &str) -> Result<(), NoMemory>
    ensures { OnOk result (string_bytes spelled.new ≡ string_bytes spelled.old ++ field_spelling field.now) }
{
    if is_operator(field) {
        spelled.push('\\')?;
    }
    push_escaped(spelled, false, field)?;
    spelled.push(':')?;
    Ok(())
}

/// Puts a field and a word behind what is there.
fn push_word(spelled: &mut String, field: &str, word: &str) -> Result<(), NoMemory>
    ensures { OnOk result (string_bytes spelled.new
        ≡ string_bytes spelled.old ++ field_spelling field.now ++ escaped false word.now) }
{
    push_field(spelled, field)?;
    push_escaped(spelled, false, word)
}

/// Puts a text between quotes behind what is there.
fn push_quoted(spelled: &mut String, text: &str) -> Result<(), NoMemory>
    ensures { OnOk result (string_bytes spelled.new ≡ string_bytes spelled.old ++ in_quotes (escaped true text.now)) }
{
    spelled.push('"')?;
    push_escaped(spelled, true, text)?;
    spelled.push('"')?;
    Ok(())
}

/// Puts a blank behind what is there, but not before the first of some.
fn push_gap(spelled: &mut String, first: bool) -> Result<(), NoMemory>
    ensures { OnOk result (string_bytes spelled.new ≡ string_bytes spelled.old ++ gap first) }
{
    if !first {
        spelled.push(' ')?;
    }
    Ok(())
}

/// Puts a field and words between quotes behind what is there.
fn push_phrase(spelled: &mut String, field: &str, words: &[ArcStr]) -> Result<(), NoMemory>
    ensures { OnOk result (string_bytes spelled.new ≡ string_bytes spelled.old
        ++ field_spelling field.now ++ in_quotes (words_spelling true (map arc_str_bytes words.now))) }
{
    push_field(spelled, field)?;
    spelled.push('"')?;
    let mut first = true;
    for word in words {
        push_gap(spelled, first)?;
        push_escaped(spelled, true, word)?;
        first = false;
    }
    spelled.push('"')?;
    Ok(())
}

/// Puts an end of a range behind what is there.
fn push_end(spelled: &mut String, end: &Bound) -> Result<(), NoMemory>
    ensures { OnOk result (string_bytes spelled.new ≡ string_bytes spelled.old ++ end_spelling (end_of end.now)) }
{
    match end {
        Bound::Free => Ok(spelled.push('*')?),
        Bound::With(text) => push_quoted(spelled, text),
        Bound::Without(text) => push_quoted(spelled, text),
    }
}

/// Puts a field and a range behind what is there.
fn push_range(spelled: &mut String, field: &str, low: &Bound, high: &Bound) -> Result<(), NoMemory>
    ensures { OnOk result (string_bytes spelled.new ≡ string_bytes spelled.old
        ++ field_spelling field.now ++ range_spelling (end_of low.now) (end_of high.now)) }
{
    push_field(spelled, field)?;
    spelled.push(low_bracket(low))?;
    push_end(spelled, low)?;
    spelled.push_str(" TO ")?;
    push_end(spelled, high)?;
    spelled.push(high_bracket(high))?;
    Ok(())
}

/// The bracket before the low end of a range.
fn low_bracket(low: &Bound) -> char
    ensures { encode_utf8 result ≡ low_bracket (end_of low.now) }
{
    match low {
        Bound::Without(_) => '{',
        Bound::With(_) | Bound::Free => '[',
    }
}

/// The bracket behind the high end of a range.
fn high_bracket(high: &Bound) -> char
    ensures { encode_utf8 result ≡ high_bracket (end_of high.now) }
{
    match high {
        Bound::Without(_) => '}',
        Bound::With(_) | Bound::Free => ']',
    }
}

/// Puts the sign of a clause behind what is there.
fn push_sign(spelled: &mut String, occur: Occur) -> Result<(), NoMemory>
    ensures { OnOk result (string_bytes spelled.new ≡ string_bytes spelled.old ++ sign_spelling occur) }
{
    match occur {
        Occur::Must => Ok(spelled.push('+')?),
        Occur::Should => Ok(()),
        Occur::MustNot => Ok(spelled.push('-')?),
    }
}

/// Puts a parenthesis behind what is there, but not around the outermost query.
fn push_parenthesis(spelled: &mut String, outermost: bool, sign: char) -> Result<(), NoMemory>
    ensures { OnOk result (string_bytes spelled.new
        ≡ string_bytes spelled.old ++ (if outermost then [] else encode_utf8 sign)) }
{
    if !outermost {
        spelled.push(sign)?;
    }
    Ok(())
}

/// Puts a query behind what is there, its clauses in parentheses where it is a group and not the outermost.
fn push_query(spelled: &mut String, query: &Query, outermost: bool) -> Result<(), NoMemory>
    ensures { OnOk result (string_bytes spelled.new
        ≡ string_bytes spelled.old ++ spelling_in (tree_of query.now) outermost) }
{
    match query {
        Query::Term { field, word } => push_word(spelled, field, word),
        Query::Phrase { field, words } => push_phrase(spelled, field, words),
        Query::Prefix { field, front } => {
            push_word(spelled, field, front)?;
            Ok(spelled.push('*')?)
        }
        Query::Span { field, low, high } => push_range(spelled, field, low, high),
        Query::All => Ok(spelled.push_str("*:*")?),
        Query::Group(clauses) => {
            push_parenthesis(spelled, outermost, '(')?;
            let mut first = true;
            for (occur, child) in clauses {
                push_gap(spelled, first)?;
                push_sign(spelled, *occur)?;
                push_query(spelled, child, false)?;
                first = false;
            }
            push_parenthesis(spelled, outermost, ')')
        }
    }
}

/// A query as a text with all its signs and fields, as in `+text:tea +(text:pric* text:"green tea")`: the folded words
/// stand in it, the ends of ranges between quotes, and a character that is a sign elsewhere behind a backslash.
///
/// `NoMemory` where an allocation failed. The cost is linear in the bytes of the query's texts and in its nodes. It
/// recurses as deep as the query's groups nest.
pub fn spell(alloc: Global, query: &Query) -> Result<String, NoMemory>
    ensures { IfOk result (λ text. string_bytes text ≡ spelling (tree_of query.now)) }
{
    let mut spelled = String::new(alloc);
    push_query(&mut spelled, query, true)?;
    Ok(spelled)
}
