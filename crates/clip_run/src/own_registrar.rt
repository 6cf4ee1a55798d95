//! A registrar of one's own, behind the seam of the front.
ghost use Rattle.std.specs.Prelude.{◌≡◌, Ok, IfOk, IfErr, OnOk, OnErr, IsTrue, IsFalse, false};
ghost use Rattle.clip_model.specs.History.{applied, fits, has_room, with_command};
ghost use Rattle.clip_standing.specs.Command.{answer_of, command_of};
ghost use Rattle.clip_standing.specs.declared.command.Refused.TheVariants as refused;
ghost use Rattle.clip_registry.specs.Plan.{AreFew};
ghost use Rattle.clip_registry.specs.RegistryState.{beginning, state_after};
ghost use Rattle.clip_registry.specs.Steps.Turns.{TakesTurns};
ghost use Rattle.clip_run.specs.Unpurged.{HasMergedPaid};

use crate::merging::{Merging, merged_after};
use clip_front::Registry;
use clip_match::Registrar;
use clip_registry::{Payment, merge_all};
use clip_standing::{Applied, Command, Refused};
use clip_words::NoMemory;
use std::alloc::Global;

/// The caller of each change.
const CALLER: u32 = 1;

/// A registrar that nobody shares, as a run on one thread and an engine have it. Each accepted change is followed by
/// merge turns, and so are matched articles where they pay for it.
#[derive(Drop)]
pub struct OwnRegistrar {
    /// What is registered.
    pub registrar: Registrar,
    /// How the last merge turns ended: segments were few then where none was refused memory.
    pub merges: Result<(), NoMemory>,
}

impl OwnRegistrar {
    /// One with no query, which keeps no history to be read. Takes no memory. Constant time.
    pub fn new(alloc: Global) -> OwnRegistrar
        ensures registrar { result.registrar ≡ beginning false }
        ensures merges { result.merges ≡ Ok tt }
    {
        OwnRegistrar {
            registrar: Registrar::without_history(alloc),
            merges: Ok(()),
        }
    }

    /// Another with the same registry, which later changes to either don't change in the other. `NoMemory` where the
    /// count of the registry's holders is at its end. Constant time.
    pub fn copy(&self) -> Result<OwnRegistrar, NoMemory>
        ensures { IfOk result (λ copy. copy ≡ self.now) }
    {
        Ok(OwnRegistrar {
            registrar: self.registrar.copy()?,
            merges: self.merges,
        })
    }

    /// Accepts a command, and takes merge turns then, until segments are few or a turn is refused memory.
    ///
    /// After a refusal all is as it was: `Full` where there is no room for the command, and `NoMemory` where an
    /// allocation failed outside of a merge turn. Cost: that of `Registrar::apply` and of `merge_all`.
    pub fn commit(&mut self, command: Command) -> Result<Applied, Refused>
        requires fits { IsTrue (fits (command_of command)) }
        ensures turns { OnOk result
            (TakesTurns false (state_after self.old.registrar 1 (command_of command)) self.new.registrar) }
        ensures few { OnOk result (OnOk self.new.merges (AreFew self.new.registrar.segments)) }
        ensures accepted { OnOk result (self.new.registrar.history
            ≡ with_command self.old.registrar.history 1 (command_of command)) }
        ensures answer { IfOk result (λ answer. answer
            ≡ answer_of (command_of command) (applied self.old.registrar.history (command_of command))) }
        ensures room { OnOk result (IsTrue (has_room self.old.registrar.history (command_of command))) }
        ensures full { IfErr result (λ why. why ≡ refused.Full
            → IsFalse (has_room self.old.registrar.history (command_of command))) }
        ensures unchanged { OnErr result (self.new ≡ self.old) }
    {
        match self.registrar.apply(CALLER, command) {
            Ok(applied) => Ok(merged_after(applied, self)),
            Err((_, Refused::Full)) => Err(Refused::Full),
            Err((_, Refused::NoMemory)) => Err(Refused::NoMemory),
        }
    }

    /// Takes what so many matched articles pay. Where one segment in the place of all is due by that, merge turns make
    /// it, unless one is refused memory; what is registered stays as it is. Cost: that of `Registrar::is_merge_due`,
    /// and of `merge_all` where one is due.
    pub fn merge_paid(&mut self, payment: &mut Payment, matched: usize)
        ensures { HasMergedPaid self.old self.new payment.old payment.new matched }
    {
        if self.registrar.is_merge_due(payment, matched) {
            self.merges = merge_all(&mut self.registrar, true);
        }
    }
}

impl Merging for OwnRegistrar {
    ghost use Rattle.clip_run.specs.Unpurged.{HasTakenTurns};

    ghost merges = { HasTakenTurns };

    fn have_merged(&mut self) {
        self.merges = merge_all(&mut self.registrar, false);
    }
}

impl Registry for OwnRegistrar {
    ghost use Rattle.std.specs.Prelude.{◌≡◌};
    ghost use Rattle.clip_registry.specs.Merging.{purged};
    ghost use Rattle.clip_run.specs.Unpurged.{GoesOnUnpurged};

    ghost history_in = { λ o. o.registrar.history };

    ghost purges = { λ old new. new.registrar ≡ purged old.registrar };

    ghost goes_on = { GoesOnUnpurged };

    /// Accepts a command, and takes merge turns then, until segments are few or a turn is refused memory.
    fn accept(&mut self, command: Command) -> Result<Option<Applied>, NoMemory> {
        match self.commit(command) {
            Ok(applied) => Ok(Some(applied)),
            Err(Refused::Full) => Ok(None),
            Err(Refused::NoMemory) => Err(NoMemory),
        }
    }

    fn purge_dead(&mut self) -> Result<(), NoMemory> {
        self.registrar.purge()
    }

    fn count(&mut self) -> Result<u64, NoMemory> {
        Ok(self.registrar.view()?.count())
    }

    fn show(&mut self, alloc: Global, id: &str) -> Result<Option<String>, NoMemory> {
        self.registrar.view()?.copied_text(alloc, id)
    }
}
