//! Registries that lines are answered by.
ghost use Rattle.std.specs.Prelude.{◌≡◌};

use clip_standing::{Applied, Command};
use clip_words::NoMemory;
use std::alloc::Global;

/// A registry that lines are answered by: a change applies to it as caller 1, and it tells what is registered.
pub trait Registry {
    ghost use Rattle.std.specs.Prelude.{◌≡◌, IfOk, OnOk, IsTrue, option_map, string_bytes};
    ghost use Rattle.std.specs.FinMap as finite;
    ghost use Rattle.clip_model.specs.History.{History, fits, replay};
    ghost use Rattle.clip_standing.specs.Command.{command_of};
    ghost use Rattle.clip_front.specs.Steps.Registry.{IsJudged, text_under};

    /// What was accepted.
    ghost history_in: { Self → History };

    /// From the first state to the second by one purge, and by nothing else.
    ghost purges: { Self → Self → Type 0 };

    /// From the first state to the second by answering a change, a count or a show, which is no purge.
    ghost goes_on: { Self → Self → Type 0 };

    /// Accepts a command and answers it, or gives `None` where there is no room for it, with nothing changed.
    ///
    /// `NoMemory` where an allocation failed. Cost: that of the registry's own acceptance, and of what it does beside
    /// it.
    fn accept(&mut self, command: Command) -> Result<Option<Applied>, NoMemory>
        requires fits { IsTrue (fits (command_of command)) }
        ensures judged { IfOk result (λ answer.
            IsJudged (history_in self.old) (history_in self.new) (command_of command) answer) }
        ensures goes_on { OnOk result (goes_on self.old self.new) };

    /// Leaves dead entries out of the segments; what is registered stays.
    ///
    /// `NoMemory` where an allocation failed. Cost: that of the registry's own purge.
    fn purge_dead(&mut self) -> Result<(), NoMemory>
        ensures purged { OnOk result (purges self.old self.new) }
        ensures same { OnOk result (history_in self.new ≡ history_in self.old) };

    /// How many queries are registered.
    ///
    /// `NoMemory` where an allocation failed, or the count of the registry's holders is at its end.
    fn count(&mut self) -> Result<u64, NoMemory>
        ensures counted { IfOk result (λ count. count ≡ finite.len (replay (history_in self.old))) }
        ensures goes_on { OnOk result (goes_on self.old self.new) }
        ensures same { OnOk result (history_in self.new ≡ history_in self.old) };

    /// The text of the query under an id, if one is registered under it. Cost: one look-up by id, and a copy of the
    /// text.
    ///
    /// `NoMemory` where an allocation failed, or the count of the registry's holders is at its end.
    fn show(&mut self, alloc: Global, id: &str) -> Result<Option<String>, NoMemory>
        ensures shown { IfOk result (λ text. option_map string_bytes text ≡ text_under (history_in self.old) id.now) }
        ensures goes_on { OnOk result (goes_on self.old self.new) }
        ensures same { OnOk result (history_in self.new ≡ history_in self.old) };
}
