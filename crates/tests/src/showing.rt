//! What calls give, as text.
use clip_extract::Key;
use clip_grammar::query::{Bound, Occur, Query};
use clip_standing::Alerts;
use std::alloc::{AllocError, Global};
use std::sync::ArcStr;

/// A key: `*` for Any, `field:word` for a word and `field:front*` for a front, a space after it.
fn show_key(key: &Key, text: &mut String) -> Result<(), AllocError> {
    match key {
        Key::Any => text.push_str("* "),
        Key::Word(field, word) => write!(text, "{field}:{word} "),
        Key::Front(field, front) => write!(text, "{field}:{front}* "),
    }
}

/// Keys, each with a space after it.
pub fn show_keys(alloc: Global, keys: &[Key]) -> Result<String, AllocError> {
    let mut text = String::new(alloc);
    for key in keys {
        show_key(key, &mut text)?;
    }
    Ok(text)
}

/// A query: `field=word`, `field="a phrase"`, `field=front*`, `field=['low' TO 'high'}`, `*:*`, and a group
/// in parentheses, its clauses with `+` or `-` before them.
pub fn show(query: &Query, text: &mut String) -> Result<(), AllocError> {
    match query {
        Query::Term { field, word } => write!(text, "{field}={word}"),
        Query::Phrase { field, words } => {
            write!(text, "{field}=")?;
            show_words(words, text)
        }
        Query::Prefix { field, front } => write!(text, "{field}={front}*"),
        Query::Span { field, low, high } => {
            write!(text, "{field}=")?;
            show_span(low, high, text)
        }
        Query::All => text.push_str("*:*"),
        Query::Group(clauses) => {
            text.push('(')?;
            for (place, (occur, clause)) in clauses.iter().enumerate() {
                if place > 0 {
                    text.push(' ')?;
                }
                text.push_str(show_occur(*occur))?;
                show(clause, text)?;
            }
            text.push_str(")")
        }
    }
}

/// The sign of a clause.
fn show_occur(occur: Occur) -> &'static str {
    match occur {
        Occur::Must => "+",
        Occur::Should => "",
        Occur::MustNot => "-",
    }
}

/// Words in quotation marks.
fn show_words(words: &[ArcStr], text: &mut String) -> Result<(), AllocError> {
    text.push('"')?;
    for (place, word) in words.iter().enumerate() {
        if place > 0 {
            text.push(' ')?;
        }
        text.push_str(word)?;
    }
    text.push_str("\"")
}

/// A range.
fn show_span(low: &Bound, high: &Bound, text: &mut String) -> Result<(), AllocError> {
    match low {
        Bound::Free => text.push_str("[* TO ")?,
        Bound::With(low) => write!(text, "['{low}' TO ")?,
        Bound::Without(low) => write!(text, "{{'{low}' TO ")?,
    }
    match high {
        Bound::Free => text.push_str("*]"),
        Bound::With(high) => write!(text, "'{high}']"),
        Bound::Without(high) => write!(text, "'{high}'}}"),
    }
}

/// A query as text.
pub fn tree(alloc: Global, query: &Query) -> Result<String, AllocError> {
    let mut text = String::new(alloc);
    show(query, &mut text)?;
    Ok(text)
}

/// Adds alerts: the article, the place and how many were asked, of each alert the query, the article and the
/// listener, and a full stop.
fn add_alerts(text: &mut String, found: &Alerts) -> Result<(), AllocError> {
    let (article, place, asked) = (&found.article, found.place, found.asked);
    write!(text, "{article} {place} {asked}")?;
    for alert in &found.alerts {
        let (query, article) = (alert.query(), alert.article().id());
        let listener = match alert.listener() {
            Some(name) => name.as_str(),
            None => "-",
        };
        write!(text, " {query}/{article}/{listener}")?;
    }
    text.push_str(". ")
}

/// Alerts of articles, one after the other.
pub fn told(alloc: Global, all: &[Alerts]) -> Result<String, AllocError> {
    let mut text = String::new(alloc);
    for found in all {
        add_alerts(&mut text, found)?;
    }
    Ok(text)
}

/// Places, each with a space after it.
pub fn places(alloc: Global, all: &[u32]) -> Result<String, AllocError> {
    let mut text = String::new(alloc);
    for place in all {
        write!(text, "{place} ")?;
    }
    Ok(text)
}
