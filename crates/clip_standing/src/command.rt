//! Commands, the entries of the history, and the answers to commands.
ghost use Rattle.std.specs.Prelude.{◌≡◌, IfOk};
ghost use Rattle.clip_model.specs.History.{fits};
ghost use Rattle.clip_standing.specs.Command.{command_of};

use crate::standing::Standing;
use clip_model::MOST_LISTED;
use clip_words::{NoMemory, are_ids};
use std::alloc::AllocFailed;
use std::sync::Arc;
use thiserror::Error;

/// A change of the registry. What a registrar takes fits: `Command::fits`.
#[derive(Drop)]
pub enum Command {
    /// Registers the queries in order; each takes the place of the one with its id.
    Register(Vec<Arc<Standing>>),
    /// Takes the queries with these ids out.
    Delete(Vec<String>),
    /// Takes all queries out.
    Clear,
}

/// A command that was accepted.
#[derive(Drop)]
pub struct HistoryEntry {
    /// Who gave it, from 1 to `MOST_CALLERS`.
    pub caller: u32,
    /// Its number among that caller's commands, from 1.
    pub number: u64,
    /// The command itself.
    pub command: Command,
}

/// The answer to a command that was accepted.
#[derive(Clone, Copy, Debug, PartialEq, Eq)]
pub enum Applied {
    /// How many distinct ids were registered.
    Registered(u64),
    /// How many distinct ids were deleted that were there.
    Deleted(u64),
    /// How many queries were there.
    Cleared(u64),
}

/// Why a command was not accepted.
#[derive(Clone, Copy, Debug, PartialEq, Eq, Error)]
pub enum Refused {
    /// More than `MOST_LIVE` queries would be registered, or more than `MOST_ENTRIES` commands accepted.
    #[error("the registry is full")]
    Full,
    /// An allocation failed.
    #[error("no memory")]
    NoMemory,
}

impl From<NoMemory> for Refused {
    ghost use Rattle.clip_standing.specs.declared.command.Refused.TheVariants as refused;

    ghost from_gives = { λ _ r. r ≡ refused.NoMemory };

    fn from(_error: NoMemory) -> Refused {
        Refused::NoMemory
    }
}

impl<T: Drop> From<AllocFailed<T>> for Refused {
    ghost use Rattle.clip_standing.specs.declared.command.Refused.TheVariants as refused;

    ghost from_gives = { λ _ r. r ≡ refused.NoMemory };

    fn from(_error: AllocFailed<T>) -> Refused {
        Refused::NoMemory
    }
}

impl Command {
    /// Whether a registrar takes the command: it lists at most `MOST_LISTED` queries or ids, and each id to delete is
    /// an id, of 1 to 256 bytes. It costs a step for each id to delete, and else constant time.
    pub fn fits(&self) -> bool
        ensures { result ≡ fits (command_of self.now) }
    {
        match self {
            Command::Register(standings) => standings.len() <= MOST_LISTED,
            Command::Delete(ids) => ids.len() <= MOST_LISTED && are_ids(ids),
            Command::Clear => true,
        }
    }

    /// A command with the same content, whose queries are shared and whose ids are copied, or `NoMemory` where an
    /// allocation failed.
    pub fn copy(&self) -> Result<Command, NoMemory>
        ensures { IfOk result (λ copy. command_of copy ≡ command_of self.now) }
    {
        match self {
            Command::Register(standings) => Ok(Command::Register(standings.clone()?)),
            Command::Delete(ids) => Ok(Command::Delete(ids.clone()?)),
            Command::Clear => Ok(Command::Clear),
        }
    }
}
