//! Articles with the words marked that an alert's query names.
use clip_meaning::Hit;
use clip_standing::Alert;
use clip_words::NoMemory;
use std::alloc::Global;

/// Whether one of the hits is at this position of the field.
fn is_hit(hits: &[Hit], field: &str, position: u64) -> bool {
    hits.iter().any(|hit| hit.position == position && hit.field.as_str() == field)
}

/// Adds a word, in brackets where it is marked, and before it a space where there is a word before.
fn add_word(text: &mut String, word: &str, is_marked: bool) -> Result<(), NoMemory> {
    if !text.is_empty() {
        text.push_str(" ")?;
    }
    text.push_str(if is_marked { "[" } else { "" })?;
    text.push_str(word)?;
    text.push_str(if is_marked { "]" } else { "" })?;
    Ok(())
}

/// The words of a field of the alert's article, in order, with those in brackets that the alert's query names.
///
/// `NoMemory` where an allocation failed. Cost: that of `Alert::hits`, and each word is compared with each hit.
pub fn marked(alloc: Global, alert: &Alert, field: &str) -> Result<String, NoMemory> {
    let hits = alert.hits(alloc)?;
    let mut text = String::new(alloc);
    let words = alert.article().field(field);
    for position in 0..words.len() {
        if let Some(word) = words.get(position) {
            add_word(&mut text, word, is_hit(&hits, field, position as u64))?;
        }
    }
    Ok(text)
}
