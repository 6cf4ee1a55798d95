//! Commands on numbered queries.
use anyhow::Result;
use clip_standing::{Command, Standing};
use std::alloc::Global;
use std::sync::Arc;

/// How many words the queries are made of.
const WORDS: u64 = 10_000;

/// The query of a number: two words, both wanted.
fn standing(alloc: Global, number: u64) -> Result<Standing> {
    let id = format!(in alloc; "q{number}")?;
    let first = number % WORDS;
    let second = number / 7 % WORDS;
    let text = format!(in alloc; "+word{first} +word{second}")?;
    Ok(Standing::read(alloc, id, text, None)?)
}

/// A register of the queries from one number up to before another.
pub fn register_from(alloc: Global, from: u64, end: u64) -> Result<Command> {
    let mut list = Vec::new(alloc);
    for number in from..end {
        list.push(Arc::new(alloc, standing(alloc, number)?)?)?;
    }
    Ok(Command::Register(list))
}

/// What becomes of one query.
#[derive(Clone, Copy, PartialEq, Eq)]
pub enum Change {
    /// It is registered.
    Register,
    /// It is deleted.
    Delete,
}

/// The command that makes a change to the query of a number.
pub fn change_one(alloc: Global, change: Change, number: u64) -> Result<Command> {
    match change {
        Change::Register => register_from(alloc, number, number.saturating_add(1)),
        Change::Delete => {
            let id = format!(in alloc; "q{number}")?;
            Ok(Command::Delete(vec![in alloc; id]?))
        }
    }
}
