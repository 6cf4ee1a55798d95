//! The words that a program is given.
use std::rt::Env;
use std::{env, io};

/// The words after the program's name. An error where there is no memory for them, or where one is no text. Linear in
/// the words.
pub fn words_of<R: Env + AllocGlobal>(rt: &R) -> io::Result<Vec<String>> {
    let mut words = Vec::new(rt.alloc());
    for word in env::args(rt)?.skip(1) {
        words.push(word)?;
    }
    Ok(words)
}
