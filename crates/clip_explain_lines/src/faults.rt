//! Why a text is no query, in a word and in a sentence.
ghost use Rattle.std.specs.Prelude.{◌≡◌, IfOk};
ghost use Rattle.serde_json.specs.Written.{compact_text};
ghost use Rattle.clip_explain_lines.specs.Told.{fault_data, fault_word};

use crate::writing::{Member, object_text};
use clip_grammar::fault::QueryFault;
use clip_words::NoMemory;
use std::alloc::Global;

/// The word of a fault.
pub fn fault_word(fault: QueryFault) -> &'static str
    ensures { result.now ≡ fault_word fault }
{
    match fault {
        QueryFault::TooLong => "TooLong",
        QueryFault::Lexical(_) => "Lexical",
        QueryFault::LeftOut => "LeftOut",
        QueryFault::Structure => "Structure",
        QueryFault::NoWords => "NoWords",
        QueryFault::TooBig => "TooBig",
        QueryFault::NoMemory => "NoMemory",
    }
}

/// What is said where no lexeme begins, before these bytes.
fn lexical_says(rest: &[u8]) -> &'static str {
    match rest {
        [b'"', ..] => "This quote is never closed. Close it, or write \\\" for the sign itself.",
        [b'[' | b'{', ..] => {
            "No range is closed here. Write a range as [low TO high], or a backslash before the bracket for the sign."
        }
        [b']' | b'}', ..] => {
            "This bracket closes no range. Write a backslash before it for the sign itself."
        }
        [b'\\'] => "A backslash at the end takes no sign. Write \\\\ for a backslash.",
        [b'\\', ..] => {
            "Behind \\u have to stand four hexadecimal digits that name a character, as in \\u0041."
        }
        _ =>
            "The text can't be cut into words and signs from here on. Write a backslash before the sign.",
    }
}

/// What is said of a sign that no word may have in it.
fn sign_says(sign: u8) -> Option<&'static str> {
    match sign {
        b'?' => Some(
            "The wild card ? is not supported. List the words, or end a word in *, as in pric*.",
        ),
        b'*' => Some(
            "A star may stand only at the end of a word, as in pric*, and *:* stands for every article.",
        ),
        b'&' => Some("Write && by itself, with spaces around it, or a backslash before each sign."),
        b'|' => Some("Write || by itself, with spaces around it, or a backslash before each sign."),
        _ => None,
    }
}

/// What is said of a word with a sign that it may not have, before these bytes.
fn word_says(rest: &[u8]) -> &'static str {
    for byte in rest {
        if let Some(says) = sign_says(*byte) {
            return says;
        }
    }
    "This form of the query language is not supported."
}

/// What is said of a form that is left out, which stands before these bytes.
fn left_out_says(rest: &[u8]) -> &'static str {
    match rest {
        [b'~', ..] => {
            "Fuzzy words and loose phrases with ~ are not supported. List the spellings, as in (color colour)."
        }
        [b'^', ..] => {
            "Boosts with ^ are not supported, since nothing is ranked. Leave out the ^ and its number."
        }
        [b'/', ..] => { "Regular expressions are not supported. Write \\/ for the sign itself." }
        _ => word_says(rest),
    }
}

/// What is said of an operator that joins nothing.
const OPERATOR_SAYS: &str =
    "An operator has to stand between two clauses. For the word itself write a backslash before it, as in \\AND.";

/// What is said where the lexemes are no query, before these bytes.
fn structure_says(rest: &[u8]) -> &'static str {
    match rest {
        [] => "Something is missing at the end: a word, a phrase, or a closing parenthesis.",
        [b')', ..] => "This parenthesis closes nothing, or a group with nothing in it.",
        [b'(', ..] => "This parenthesis is not closed, or the group has nothing in it.",
        [b'+' | b'-' | b'!', ..] => {
            "A sign stands before one word, phrase or group, and only one sign at a time."
        }
        [b'A', b'N', b'D', ..] | [b'O', b'R', ..] | [b'&', b'&', ..] | [b'|', b'|', ..] =>
            OPERATOR_SAYS,
        [b'N', b'O', b'T', ..] =>
            "NOT has to stand before one word, phrase or group. For the word itself write \\NOT.",
        [b':', ..] =>
            "A colon stands between a field and what is looked for. Write \\: for the sign itself.",
        _ => "Here stands something that can't be read as part of a query.",
    }
}

/// The bytes of a text from a place on.
fn rest_of(text: &str, at: usize) -> &[u8] {
    match text.as_bytes().get(at..) {
        Some(rest) => rest,
        None => &[],
    }
}

/// A sentence for people on why a text is no query, and on what to write.
pub fn fault_says(text: &str, at: usize, fault: QueryFault) -> &'static str {
    let rest = rest_of(text, at);
    match fault {
        QueryFault::TooLong => "A query has at most 65,536 bytes. Split it into several queries.",
        QueryFault::Lexical(_) => lexical_says(rest),
        QueryFault::LeftOut => left_out_says(rest),
        QueryFault::Structure => structure_says(rest),
        QueryFault::NoWords => "There is no word here: a word has a letter or a digit.",
        QueryFault::TooBig => {
            "A query has at most 4,096 parts and 64 parentheses open at once. Split it into several queries."
        }
        QueryFault::NoMemory => "There was no memory to read it.",
    }
}

/// What is told of a text that is no query, for a reason at a byte: JSON.
pub fn fault_text(
    alloc: Global,
    at: usize,
    fault: QueryFault,
    says: &str,
) -> Result<Vec<u8>, NoMemory>
    ensures { IfOk result (λ text. text.items ≡ compact_text (fault_data at fault says.now)) }
{
    object_text(
        alloc,
        &[
            Member::Number("at", at as u64),
            Member::Text("fault", fault_word(fault)),
            Member::Text("says", says),
        ],
    )
}
