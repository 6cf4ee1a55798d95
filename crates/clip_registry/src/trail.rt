//! The commands that were accepted, for proofs alone.
ghost use Rattle.std.specs.Prelude.{◌≡◌, [], ◌∷◌, ◌++◌};
ghost use Rattle.clip_model.specs.History.{History, history_code};
ghost use Rattle.clip_standing.specs.Command.{entry_of};

use clip_standing::HistoryEntry;
use std::marker::Model;

/// The commands that were accepted, in order. It has no bytes and its calls do nothing: only proofs read the list, as
/// `history`. Take one step for each command, where it is accepted.
#[derive(Drop)]
pub struct Trail {
    pub ghost history: { History } by { history_code },
}

impl Model for Trail {
    ghost use Rattle.std.specs.Borrow.{ftrue};

    ghost also_owns = { λ _. ftrue };
}

// A struct with `also_owns` has neither by itself. This one owns nothing.
unsafe impl Send for Trail {}

unsafe impl Sync for Trail {}

impl Trail {
    /// No command. Costs nothing.
    pub fn new() -> Trail
        ensures { result.history ≡ [] }
    {
        Trail {}
    }

    /// A trail of just these commands. Costs nothing.
    #[inline(always)]
    pub fn again(&self) -> Trail
        ensures { result.history ≡ self.now.history }
    {
        Trail {}
    }

    /// These commands, and then this one. Costs nothing.
    #[inline(always)]
    pub fn then(&self, _entry: &HistoryEntry) -> Trail
        ensures { result.history ≡ self.now.history ++ entry_of _entry.now ∷ [] }
    {
        Trail {}
    }
}
