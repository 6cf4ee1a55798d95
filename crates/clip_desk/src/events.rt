//! What happened to the registry.
ghost use Rattle.std.specs.Prelude.{◌≡◌};
ghost use Rattle.clip_standing.specs.Command.{command_of};
ghost use Rattle.clip_desk.specs.Updates.{event_of};
ghost use Rattle.clip_desk.specs.Told.{told_value};

use clip_standing::{Command, Standing};
use std::sync::{Arc, ArcStr};

/// What happened to the registry, as update listeners are told it. It borrows what it tells of.
#[derive(Clone, Copy)]
pub enum Update<'a> {
    /// These queries were registered, in order.
    Updated(&'a [Arc<Standing>]),
    /// These ids were deleted, in order.
    Deleted(&'a [String]),
    /// All queries were taken out.
    Cleared,
    /// What stands for no registered query was cleared away.
    Purged,
}

/// What happened to the registry, as a log keeps it.
#[derive(Debug, Drop)]
pub enum UpdateEvent {
    /// Queries of these ids were registered, in order.
    Updated(Vec<ArcStr>),
    /// These ids were deleted, in order.
    Deleted(Vec<ArcStr>),
    /// All queries were taken out.
    Cleared,
    /// What stands for no registered query was cleared away.
    Purged,
}

impl<'a> Update<'a> {
    /// What a command tells: its queries or ids, as it lists them. It takes no memory and constant time.
    pub fn of(command: &'a Command) -> Update<'a>
        ensures { told_value result ≡ event_of (command_of command.now) }
    {
        match command {
            Command::Register(standings) => Update::Updated(standings),
            Command::Delete(ids) => Update::Deleted(ids),
            Command::Clear => Update::Cleared,
        }
    }
}
