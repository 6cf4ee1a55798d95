//! Sentences that say what a query asks for.
use crate::pieces::push_all;
use clip_explain::Explanation;
use clip_grammar::query::{Bound, Occur, Query};
use clip_words::NoMemory;
use std::alloc::Global;
use std::sync::ArcStr;

/// Puts behind what is said a word between quotes, with what stands before it, and in which field it is looked for.
fn push_word(said: &mut String, before: &str, word: &str, field: &str) -> Result<(), NoMemory> {
    push_all(said, &[before, word, "\" in ", field])
}

/// Puts a phrase behind what is said.
fn push_phrase(said: &mut String, words: &[ArcStr], field: &str) -> Result<(), NoMemory> {
    said.push_str("the phrase \"")?;
    let mut before = "";
    for word in words {
        push_all(said, &[before, word.as_str()])?;
        before = " ";
    }
    push_all(said, &["\" in ", field])
}

/// Puts an end of a range behind what is said, with what tells before it whether the end itself is included.
fn push_end(
    said: &mut String,
    end: &Bound,
    included: &str,
    excluded: &str,
) -> Result<(), NoMemory> {
    match end {
        Bound::Free => Ok(()),
        Bound::With(text) => push_all(said, &[included, text.as_str(), "\""]),
        Bound::Without(text) => push_all(said, &[excluded, text.as_str(), "\""]),
    }
}

/// Puts a range behind what is said.
fn push_range(said: &mut String, low: &Bound, high: &Bound, field: &str) -> Result<(), NoMemory> {
    said.push_str("a word")?;
    push_end(said, low, " from \"", " after \"")?;
    push_end(said, high, " up to \"", " before \"")?;
    push_all(said, &[" in ", field])
}

/// Puts behind what is said what a leaf asks for, and nothing of a group.
fn push_leaf(said: &mut String, query: &Query) -> Result<(), NoMemory> {
    match query {
        Query::Term { field, word } => push_word(said, "\"", word, field),
        Query::Phrase { field, words } => push_phrase(said, words, field),
        Query::Prefix { field, front } => push_word(
            said,
            "a word that begins with \"",
            front,
            field,
        ),
        Query::Span { field, low, high } => push_range(said, low, high, field),
        Query::All => Ok(said.push_str("anything at all")?),
        Query::Group(_) => Ok(()),
    }
}

/// Whether clauses count in one way.
fn is_same(one: Occur, other: Occur) -> bool {
    match (one, other) {
        (Occur::Must, Occur::Must)
        | (Occur::Should, Occur::Should)
        | (Occur::MustNot, Occur::MustNot) => true,
        _ => false,
    }
}

/// Which of three a number is: none, one, or more.
#[derive(Clone, Copy)]
enum Many {
    None,
    One,
    More,
}

/// How many of the clauses count in a way.
fn how_many(clauses: &[(Occur, Query)], occur: Occur) -> Many {
    let mut found = Many::None;
    for (own, _) in clauses {
        if is_same(*own, occur) {
            found = match found {
                Many::None => Many::One,
                Many::One | Many::More => Many::More,
            };
        }
    }
    found
}

/// By which of its clauses a group holds: those that must hold, where there are such, and else those that should.
fn asked_of(clauses: &[(Occur, Query)]) -> Occur {
    match how_many(clauses, Occur::Must) {
        Many::None => Occur::Should,
        Many::One | Many::More => Occur::Must,
    }
}

/// What is said before clauses that count in a way.
fn opening(occur: Occur, many: Many) -> &'static str {
    match (occur, many) {
        (Occur::Must | Occur::Should, Many::One) | (Occur::Must | Occur::MustNot, Many::None) => "",
        (Occur::Should, Many::None) => "what no article has",
        (Occur::Must, Many::More) => "all of (",
        (Occur::Should, Many::More) => "any of (",
        (Occur::MustNot, Many::One) => ", but not ",
        (Occur::MustNot, Many::More) => ", but none of (",
    }
}

/// What is said behind so many clauses.
fn closing(many: Many) -> &'static str {
    match many {
        Many::None | Many::One => "",
        Many::More => ")",
    }
}

/// Puts behind what is said what a query asks for or, of a group, what it excludes. It recurses as deep as the query's
/// groups nest.
fn push_claim(said: &mut String, query: &Query, excludes: bool) -> Result<(), NoMemory> {
    match query {
        Query::Group(clauses) => {
            let occur = if excludes {
                Occur::MustNot
            } else {
                asked_of(clauses)
            };
            let many = how_many(clauses, occur);
            said.push_str(opening(occur, many))?;
            let mut first = true;
            for (own, child) in clauses {
                if is_same(*own, occur) {
                    said.push_str(if first { "" } else { "; " })?;
                    push_claim(said, child, false)?;
                    push_claim(said, child, true)?;
                    first = false;
                }
            }
            said.push_str(closing(many))?;
            Ok(())
        }
        _ => {
            if excludes {
                return Ok(());
            }
            push_leaf(said, query)
        }
    }
}

/// Puts the sentence behind what is said.
fn push_sentence(said: &mut String, told: &Explanation) -> Result<(), NoMemory> {
    if told.always {
        return Ok(said.push_str("Every article holds this query.")?);
    }
    said.push_str(if told.never {
        "No article can hold this query, which asks for "
    } else {
        "The article must have "
    })?;
    push_claim(said, &told.query, false)?;
    push_claim(said, &told.query, true)?;
    Ok(said.push('.')?)
}

/// A sentence for people that says which articles hold a query. `NoMemory` where an allocation failed. The cost is
/// linear in the sentence.
pub fn sentence(alloc: Global, told: &Explanation) -> Result<String, NoMemory> {
    let mut said = String::new(alloc);
    push_sentence(&mut said, told)?;
    Ok(said)
}
