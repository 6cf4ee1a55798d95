//! The right to add entries of one caller, which the caller's seat keeps.
ghost use Rattle.std.specs.Prelude.{◌≡◌, ◌+◌, ◌<◌};

use crate::chronicle::{Law, LoggedEntry};
use clip_model::{MOST_CALLERS, MOST_ENTRIES};
use logbook::Seen;
use std::marker::Model;

/// The right to add entries of one caller to a history, and how many were added with it. Each step that adds an entry
/// asks for it. A chronicle gives one for each caller where it is opened, and none can be made or copied after that.
#[derive(Drop)]
pub(crate) struct Right {
    seen: Seen<LoggedEntry, u64, Law>,
    caller: u32,
    made: u32,
}

impl Model for Right {
    ghost use Rattle.clip_desk.specs.Rights.{RightIs, right_code};

    ghost Value = { RightIs };

    ghost coded = { right_code };

    ghost view = { λ r. record { book = r.seen.book; caller = r.caller; made = r.made } };
}

/// The rights of a new chronicle that are still to be given, seen as how many were given.
#[derive(Drop)]
pub(crate) struct Rights {
    seen: Seen<LoggedEntry, u64, Law>,
    given: u32,
}

impl Model for Rights {
    ghost use Rattle.clip_desk.specs.Rights.{RightsAre, rights_code};

    ghost Value = { RightsAre };

    ghost coded = { rights_code };

    ghost view = { λ r. record { book = r.seen.book; given = r.given } };
}

impl Rights {
    /// The rights of all callers, of which none was given. Constant time.
    pub(crate) fn new(seen: &Seen<LoggedEntry, u64, Law>) -> Rights
        ensures { result ≡ record { book = seen.now.book; given = 0 } }
    {
        Rights {
            seen: seen.again(),
            given: 0,
        }
    }

    /// The right of the next caller. Constant time.
    pub(crate) fn give(&mut self) -> Right
        requires { self.old.given < MOST_CALLERS }
        ensures right { (result.book ≡ self.old.book) × (result.caller ≡ self.old.given + 1) × (result.made ≡ 0) }
        ensures given { self.new ≡ record self.old { given = self.old.given + 1 } }
    {
        self.given += 1;
        Right {
            seen: self.seen.again(),
            caller: self.given,
            made: 0,
        }
    }
}

impl Right {
    /// The caller. Constant time.
    pub(crate) fn caller(&self) -> u32
        ensures { result ≡ self.now.caller }
    {
        self.caller
    }

    /// How many entries were added with it. Constant time.
    pub(crate) fn made(&self) -> u32
        ensures { result ≡ self.now.made }
    {
        self.made
    }

    /// Counts an entry that was added with it.
    pub(crate) fn count(&mut self)
        requires { self.old.made < MOST_ENTRIES }
        ensures { self.new ≡ record self.old { made = self.old.made + 1 } }
    {
        self.made += 1;
    }
}
