//! The remarks on a query's text.
ghost use Rattle.std.specs.Prelude.{◌≡◌, ◌<◌, ◌++◌, ◌∷◌, [], false, length, map, IfOk, OnOk};
ghost use Rattle.std.specs.List.{slice_get};
ghost use Rattle.std.specs.Option.{option_map_or};
ghost use Rattle.clip_explain.specs.Lexemes.{placed_of};
ghost use Rattle.clip_remarks.specs.Remarks.{tells_of_placed, tells, told, remarks_at, remarks_of, AreRemarks};

use crate::kind::start_at;
use crate::place_rules::tells_of_place;
use crate::rule::{RULES, Rule};
use crate::token_rules::tells_of_token;
use clip_explain::{Lexeme, lexemes};
use clip_words::NoMemory;
use std::alloc::Global;

/// A remark on a place of a text.
#[derive(Clone, Copy)]
pub struct Remark {
    /// The byte of the text at which the lexeme begins that is remarked on.
    pub at: usize,
    /// Why it is.
    pub rule: Rule,
}

/// Whether the rule tells of what the lexeme at the place says.
fn tells_alone(rule: Rule, lexemes: &[Lexeme], i: usize) -> bool
    ensures { result ≡ option_map_or (tells_of_placed rule) (slice_get (map placed_of lexemes.now) i) false }
{
    match lexemes.get(i) {
        Some(lexeme) => tells_of_token(rule, &lexeme.token),
        None => false,
    }
}

/// Whether the rule tells of the lexeme at the place.
fn tells(rule: Rule, lexemes: &[Lexeme], i: usize) -> bool
    requires { i < length lexemes.now }
    ensures { result ≡ tells rule (map placed_of lexemes.now) i }
{
    tells_alone(rule, lexemes, i) || tells_of_place(rule, lexemes, i)
}

/// Puts a remark behind those that are there, where the rule tells of the lexeme at the place.
fn push_told(
    remarks: &mut Vec<Remark>,
    at: usize,
    rule: Rule,
    lexemes: &[Lexeme],
    i: usize,
) -> Result<(), NoMemory>
    requires { i < length lexemes.now }
    ensures { OnOk result (remarks.new.items
        ≡ remarks.old.items ++ told (map placed_of lexemes.now) i at (rule ∷ [])) }
{
    if tells(rule, lexemes, i) {
        remarks.push(Remark { at, rule })?;
    }
    Ok(())
}

/// Puts the remarks on the lexeme at the place behind those that are there.
fn push_remarks(remarks: &mut Vec<Remark>, lexemes: &[Lexeme], i: usize) -> Result<(), NoMemory>
    requires { i < length lexemes.now }
    ensures { OnOk result (remarks.new.items ≡ remarks.old.items ++ remarks_at (map placed_of lexemes.now) i) }
{
    let at = start_at(lexemes, i);
    for rule in RULES {
        push_told(remarks, at, rule, lexemes, i)?;
    }
    Ok(())
}

/// The remarks on all lexemes.
fn remarks_of(alloc: Global, lexemes: &[Lexeme]) -> Result<Vec<Remark>, NoMemory>
    ensures { IfOk result (λ remarks. remarks.items ≡ remarks_of (map placed_of lexemes.now)) }
{
    let mut remarks = Vec::new(alloc);
    for i in 0..lexemes.len() {
        push_remarks(&mut remarks, lexemes, i)?;
    }
    Ok(remarks)
}

/// The remarks on a query's text, in the order of their places, and at one place in the order of `RULES`. A text that
/// is not cut into lexemes to its end has none.
///
/// `NoMemory` where an allocation failed. The cost is linear in the bytes of the text, times one more than how many
/// groups are open at once.
pub fn remarks(alloc: Global, text: &str) -> Result<Vec<Remark>, NoMemory>
    ensures { IfOk result (λ remarks. AreRemarks text.now remarks.items) }
{
    let lexed = lexemes(alloc, text)?;
    if lexed.end != text.len() {
        return Ok(Vec::new(alloc));
    }
    remarks_of(alloc, &lexed.lexemes)
}
