//! Remarks for which a lexeme's neighbours are asked.
ghost use Rattle.std.specs.Prelude.{◌≡◌, ◌<◌, ◌^◌, length, map};
ghost use Rattle.clip_explain.specs.Lexemes.{placed_of};
ghost use Rattle.clip_remarks.specs.Kinds.{kinds};
ghost use Rattle.clip_remarks.specs.Places.{later_kinds, is_found, any_found};
ghost use Rattle.clip_remarks.specs.Places.{follows_bare, begins_upper, word_before, are_names, beside_operator};
ghost use Rattle.clip_remarks.specs.Places.{is_bare_blank, is_blank_as_or, is_field, is_behind_field, only_excludes};
ghost use Rattle.clip_remarks.specs.Places.{is_and_beside_or, is_or_not, touches_before, is_behind_word, is_loose_sign};
ghost use Rattle.clip_remarks.specs.Places.{is_word_before_parenthesis, is_field_in_other_case, is_other_field};
ghost use Rattle.clip_remarks.specs.Places.{tells_of_place};

use crate::groups::{has_colon, next_joint, wants};
use crate::kind::{kind_at, kind_before, touches, word_at};
use crate::rule::Rule;
use crate::token_rules::{is_known_field, is_known_in_any_case};
use clip_explain::Lexeme;

/// Whether a clause without a sign begins at the place, right behind another one.
fn follows_bare(lexemes: &[Lexeme], i: usize) -> bool
    ensures { result ≡ follows_bare (map placed_of lexemes.now) i }
{
    kind_at(lexemes, i).starts_clause() && kind_before(lexemes, i, 1).ends_clause()
}

/// Whether the first character is a capital.
fn begins_upper(text: &str) -> bool
    ensures { result ≡ begins_upper text.now }
{
    match text.chars().next() {
        Some(c) => c.is_uppercase(),
        None => false,
    }
}

/// The word before the place, or an empty text.
fn word_before(lexemes: &[Lexeme], i: usize) -> &str
    ensures { result.now ≡ word_before (map placed_of lexemes.now) i }
{
    if i == 0 { "" } else { word_at(lexemes, i - 1) }
}

/// Whether the words at the place and before it begin with a capital.
fn are_names(lexemes: &[Lexeme], i: usize) -> bool
    ensures { result ≡ are_names (map placed_of lexemes.now) i }
{
    begins_upper(word_at(lexemes, i)) && begins_upper(word_before(lexemes, i))
}

/// Whether an operator stands before the clause before the place, or behind the place.
fn beside_operator(lexemes: &[Lexeme], i: usize) -> bool
    requires { i < length lexemes.now }
    ensures { result ≡ beside_operator (map placed_of lexemes.now) i }
{
    kind_before(lexemes, i, 2).is_operator() || kind_at(lexemes, i + 1).is_operator()
}

/// Whether a bare blank stands before the place, and is most likely not meant as OR.
fn is_bare_blank(lexemes: &[Lexeme], i: usize) -> bool
    requires { i < length lexemes.now }
    ensures { result ≡ is_bare_blank (map placed_of lexemes.now) i }
{
    follows_bare(lexemes, i) && (are_names(lexemes, i) || beside_operator(lexemes, i))
}

/// Whether a bare blank stands before the place, elsewhere.
fn is_blank_as_or(lexemes: &[Lexeme], i: usize) -> bool
    requires { i < length lexemes.now }
    ensures { result ≡ is_blank_as_or (map placed_of lexemes.now) i }
{
    follows_bare(lexemes, i) && !(are_names(lexemes, i) || beside_operator(lexemes, i))
}

/// Whether the lexeme is the name of a field.
fn is_field(lexemes: &[Lexeme], i: usize) -> bool
    requires { i < length lexemes.now }
    ensures { result ≡ is_field (map placed_of lexemes.now) i }
{
    kind_at(lexemes, i).is_word() && kind_at(lexemes, i + 1).is_colon()
}

/// Whether a clause without a field begins at the place, right behind one with a field.
fn is_behind_field(lexemes: &[Lexeme], i: usize) -> bool
    requires { i < length lexemes.now }
    ensures { result ≡ is_behind_field (map placed_of lexemes.now) i }
{
    follows_bare(lexemes, i)
        && kind_before(lexemes, i, 2).is_colon()
        && kind_before(lexemes, i, 3).is_word()
        && !kind_at(lexemes, i + 1).is_colon()
}

/// The lexemes behind the place.
#[tactic(auto, using(crate::proofs::Behind::kinds_behind))]
fn later(lexemes: &[Lexeme], i: usize) -> &[Lexeme]
    requires { i < length lexemes.now }
    ensures { kinds (map placed_of result.now) ≡ later_kinds (map placed_of lexemes.now) i }
{
    &lexemes[i + 1..]
}

/// Whether each clause of the text, or of the group that is opened at the place, excludes.
fn only_excludes(lexemes: &[Lexeme], i: usize) -> bool
    requires { i < length lexemes.now }
    ensures { result ≡ only_excludes (map placed_of lexemes.now) i }
{
    i == 0 && !wants(lexemes) || kind_at(lexemes, i).is_open() && !wants(later(lexemes, i))
}

/// Whether the next operator of the group is OR after AND, or AND after OR.
fn is_and_beside_or(lexemes: &[Lexeme], i: usize) -> bool
    requires { i < length lexemes.now }
    ensures { result ≡ is_and_beside_or (map placed_of lexemes.now) i }
{
    kind_at(lexemes, i).is_and() && next_joint(later(lexemes, i)).is_or()
        || kind_at(lexemes, i).is_or() && next_joint(later(lexemes, i)).is_and()
}

/// Whether a clause that excludes stands beside OR.
fn is_or_not(lexemes: &[Lexeme], i: usize) -> bool
    ensures { result ≡ is_or_not (map placed_of lexemes.now) i }
{
    kind_at(lexemes, i).excludes() && kind_before(lexemes, i, 1).is_or()
        || kind_at(lexemes, i).is_or() && kind_before(lexemes, i, 2).excludes()
}

/// Whether the lexeme before the place ends where that at the place begins.
fn touches_before(lexemes: &[Lexeme], i: usize) -> bool
    requires { i < length lexemes.now }
    ensures { result ≡ touches_before (map placed_of lexemes.now) i }
{
    i != 0 && touches(lexemes, i - 1)
}

/// Whether a sign stands right behind a word.
fn is_behind_word(lexemes: &[Lexeme], i: usize) -> bool
    requires { i < length lexemes.now }
    ensures { result ≡ is_behind_word (map placed_of lexemes.now) i }
{
    kind_at(lexemes, i).is_sign()
        && kind_before(lexemes, i, 1).is_word()
        && touches_before(lexemes, i)
}

/// Whether a blank follows a sign that stands behind no word.
fn is_loose_sign(lexemes: &[Lexeme], i: usize) -> bool
    requires { i < length lexemes.now }
    ensures { result ≡ is_loose_sign (map placed_of lexemes.now) i }
{
    kind_at(lexemes, i).is_sign() && !touches(lexemes, i) && !is_behind_word(lexemes, i)
}

/// Whether the lexeme has words that are looked for.
fn is_found(lexemes: &[Lexeme], i: usize) -> bool
    requires { i < length lexemes.now }
    ensures { result ≡ is_found (map placed_of lexemes.now) i }
{
    kind_at(lexemes, i).is_text() && !is_field(lexemes, i)
}

/// Whether some lexeme has words that are looked for.
fn any_found(lexemes: &[Lexeme]) -> bool
    ensures { result ≡ any_found (map placed_of lexemes.now) (length (map placed_of lexemes.now)) }
{
    let mut found = false;
    for i in 0..lexemes.len() {
        found = found || is_found(lexemes, i);
    }
    found
}

/// Whether a word stands right before the parenthesis at the place.
fn is_word_before_parenthesis(lexemes: &[Lexeme], i: usize) -> bool
    requires { i < length lexemes.now }
    ensures { result ≡ is_word_before_parenthesis (map placed_of lexemes.now) i }
{
    kind_at(lexemes, i).is_open()
        && kind_before(lexemes, i, 1).is_word()
        && touches_before(lexemes, i)
}

/// Whether the lexeme is the name of a field that is known but for case.
fn is_field_in_other_case(lexemes: &[Lexeme], i: usize) -> bool
    requires { i < length lexemes.now }
    ensures { result ≡ is_field_in_other_case (map placed_of lexemes.now) i }
{
    is_field(lexemes, i)
        && !is_known_field(word_at(lexemes, i))
        && is_known_in_any_case(word_at(lexemes, i))
}

/// Whether the lexeme is the name of another field.
fn is_other_field(lexemes: &[Lexeme], i: usize) -> bool
    requires { i < length lexemes.now }
    ensures { result ≡ is_other_field (map placed_of lexemes.now) i }
{
    is_field(lexemes, i) && !is_known_in_any_case(word_at(lexemes, i))
}

/// Whether the rule tells of a lexeme by its neighbours.
pub fn tells_of_place(rule: Rule, lexemes: &[Lexeme], i: usize) -> bool
    requires { i < length lexemes.now }
    ensures { result ≡ tells_of_place rule (map placed_of lexemes.now) i }
{
    match rule {
        Rule::OnlyExcludes => only_excludes(lexemes, i),
        Rule::BareBlank => is_bare_blank(lexemes, i),
        Rule::BlankIsOr => is_blank_as_or(lexemes, i),
        Rule::FieldOfOneClause => is_behind_field(lexemes, i),
        Rule::AndBesideOr => is_and_beside_or(lexemes, i),
        Rule::OrNot => is_or_not(lexemes, i),
        Rule::SignBehindWord => is_behind_word(lexemes, i),
        Rule::LooseSign => is_loose_sign(lexemes, i),
        Rule::WordBeforeParenthesis => is_word_before_parenthesis(lexemes, i),
        Rule::FieldCase => is_field_in_other_case(lexemes, i),
        Rule::OtherField => is_other_field(lexemes, i),
        Rule::TextFieldOnly => i == 0 && !has_colon(lexemes),
        Rule::ExactWords => i == 0 && any_found(lexemes),
        _ => false,
    }
}
