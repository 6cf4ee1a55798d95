//! Lists of commands that are known by arithmetic, and a plain map that does what they say.
use clip_registry::History;
use clip_standing::Command;
use std::alloc::{AllocError, Global};
use std::collections::BTreeMap;

/// How many commands a list has.
pub const STEPS: u64 = 2000;

/// How many ids a list names at most; later registers take the places of earlier ones.
const IDS: u64 = 1499;

/// What a list says at one place.
#[derive(Drop)]
pub struct Step {
    /// The id of the query.
    pub id: String,
    /// The text under which it is registered, empty where it is deleted.
    pub text: &'static str,
}

/// The text of the query of a number.
fn text_of(number: u64) -> &'static str {
    match number % 4 {
        0 => "tea",
        1 => "+tea -milk",
        2 => "coffee",
        _ => "+tea +coffee",
    }
}

/// The commands of a caller, on ids of its own: each third deletes what the one before registered.
pub fn steps_of(alloc: Global, caller: u32) -> Result<Vec<Step>, AllocError> {
    let mut steps = Vec::new(alloc);
    for number in 0..STEPS {
        let is_delete = number % 3 == 2;
        let place = if is_delete { number - 1 } else { number } % IDS;
        steps.push(Step {
            id: format!(in alloc; "{caller}-{place}")?,
            text: if is_delete { "" } else { text_of(number) },
        })?;
    }
    Ok(steps)
}

/// The id of the one query of a command and the text under which it is registered, empty where it is
/// deleted.
pub fn told(command: &Command) -> (&str, &str) {
    if let Command::Register(list) = command {
        if let Some(standing) = list.first() {
            return (standing.id(), standing.text());
        }
    }
    if let Command::Delete(ids) = command {
        if let Some(id) = ids.first() {
            return (id.as_str(), "");
        }
    }
    ("", "")
}

/// The texts of registered queries by their ids.
#[derive(Drop)]
pub struct Plain {
    alloc: Global,
    texts: BTreeMap<String, String>,
}

impl Plain {
    /// The map of no queries.
    pub fn new(alloc: Global) -> Plain {
        Plain {
            alloc,
            texts: BTreeMap::new(alloc),
        }
    }

    /// The texts by their ids.
    pub fn texts(&self) -> &BTreeMap<String, String> {
        &self.texts
    }

    /// Registers a query under an id, or deletes it where its text is empty.
    fn take(&mut self, id: &str, text: &str) -> Result<(), AllocError> {
        if text.is_empty() {
            self.texts.remove(id);
            return Ok(());
        }
        let id = String::from_str(self.alloc, id)?;
        self.texts.insert(id, String::from_str(self.alloc, text)?)?;
        Ok(())
    }

    /// Does what the steps say.
    pub fn take_steps(&mut self, steps: &[Step]) -> Result<(), AllocError> {
        for step in steps {
            self.take(&step.id, step.text)?;
        }
        Ok(())
    }

    /// Does what the commands of a history say.
    pub fn take_history(&mut self, history: &History<'_>) -> Result<(), AllocError> {
        for place in 0..history.len() {
            if let Some(entry) = history.get(place) {
                let (id, text) = told(&entry.command);
                self.take(id, text)?;
            }
        }
        Ok(())
    }
}
