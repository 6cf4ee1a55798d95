//! Texts for people, put together from pieces.
use clip_words::NoMemory;

/// Puts pieces behind a text, one after the other.
pub fn push_all(text: &mut String, pieces: &[&str]) -> Result<(), NoMemory> {
    for piece in pieces {
        text.push_str(*piece)?;
    }
    Ok(())
}
