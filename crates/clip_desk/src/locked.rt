//! What the lock keeps: the registrar, the writer's end, the word of the chronicle, and the update listeners with how
//! many purges they were told.
ghost use Rattle.std.specs.Prelude.{◌≡◌, ◌≢◌, ◌+◌, ◌^◌, ◌<◌, ◌≤◌, [], ◌∷◌, ◌++◌, IfOk, IfErr, OnOk, OnErr};
ghost use Rattle.std.specs.Prelude.{IsTrue, IsFalse, map};
ghost use mathlib.Core.List.{IsPrefix};
ghost use Rattle.clip_model.specs.History.{History, HistoryEntry, own, fits, has_room, applied, with_command, IsLegal};
ghost use Rattle.clip_standing.specs.Command.{command_of, answer_of};
ghost use Rattle.clip_registry.specs.RegistryState.{state_after};
ghost use Rattle.clip_desk.specs.Callers.{IsBy};
ghost use Rattle.clip_desk.specs.Updates.{AllFollow, AreTold, Purged, event_of, heard_by};
ghost use Rattle.clip_desk.specs.Locked.{IsSettled, IsSeatOf};

use crate::chronicle::{LengthWord, SeenHistory};
use crate::ends::show_surely;
use crate::events::Update;
use crate::growing::{Grown, grow};
use crate::published::{Published, WriterEnd};
use crate::refused::Refused;
use crate::seat::{Receipt, Seat};
use crate::update_listener::UpdateListener;
use crate::update_listeners::UpdateListeners;
use clip_indexed::Index;
use clip_registry::Registrar;
use clip_standing::Command;
use left_right::Absorb;
use std::alloc::Global;
use std::marker::{Brand, Model, PhantomData};
use std::sync::Wait;

/// Names one desk, in contracts only: its book, how many callers it has, whether it keeps its history to be read, and
/// what each of its listeners had heard before it.
pub trait DeskName {
    ghost use Rattle.std.specs.Prelude.{ℕ, Bool, List};
    ghost use Rattle.logbook.specs.Pages.{Book};
    ghost use Rattle.clip_desk.specs.Updates.{Event};

    ghost book: { Book };

    ghost callers: { ℕ };

    ghost keeps: { Bool };

    ghost heard_before: { List (List Event) };
}

impl DeskName for Brand {
    ghost use Rattle.std.specs.Prelude.{[], true};
    ghost use Rattle.clip_desk.specs.Chronicle.{no_book};

    ghost book = { no_book };

    ghost callers = { 0 };

    ghost keeps = { true };

    ghost heard_before = { [] };
}

/// What a desk's lock keeps, seen as the registry, how long its history was at the last purge, how many purges were
/// told, and what each listener has heard. What was published last is that registry too, and the listeners have heard
/// of its history, and of just so many purges.
pub struct Locked<N: DeskName, I: Index, L: UpdateListener>
where
    Published<I>: Absorb<Published<I>, State = Published<I>>,
{
    pub(crate) registrar: Registrar<I>,
    pub(crate) writer: WriterEnd<I>,
    pub(crate) head: LengthWord,
    pub(crate) seen_history: SeenHistory,
    pub(crate) updates: UpdateListeners<L>,
    purges: u64,
    pub(crate) alloc: Global,
    of: PhantomData<N>,
}

impl<N: DeskName, I: Index, L: UpdateListener> Model for Locked<N, I, L>
where
    Published<I>: Absorb<Published<I>, State = Published<I>>,
{
    ghost use Rattle.clip_desk.specs.Updates.{AllFollow};
    ghost use Rattle.clip_desk.specs.Locked.{LockedIs, locked_code, IsSettled};

    ghost Value = { LockedIs };

    ghost coded = { locked_code };

    ghost view = { λ s. record {
      registry = s.registrar;
      purged_at = s.writer.desk.shown.value.purged_at;
      purges = s.purges;
      updates = s.updates;
    } };

    ghost invariant = { λ s. IsSettled N.book N.callers N.keeps s.registrar s.head s.seen_history
        s.writer.desk.shown.value × AllFollow N.heard_before s.registrar.history s.purges s.updates };
}

/// Tells the listeners of the last entry of a registry, where there is one.
fn tell_last<I: Index, L: UpdateListener>(
    alloc: Global,
    registrar: &Registrar<I>,
    updates: &mut UpdateListeners<L>,
)
    ensures { (before : History) (e : HistoryEntry) → registrar.now.history ≡ before ++ e ∷ []
        → AreTold (event_of e.command) updates.old updates.new }
{
    if let Some(entry) = registrar.last_entry() {
        updates.tell(alloc, Update::of(&entry.command));
    }
}

impl<N: DeskName, I: Index, L: UpdateListener> Locked<N, I, L> {
    /// The lock's content of a desk that begins. Constant time.
    pub(crate) fn new(
        registrar: Registrar<I>,
        writer: WriterEnd<I>,
        head: LengthWord,
        seen_history: SeenHistory,
        updates: UpdateListeners<L>,
        alloc: Global,
    ) -> Locked<N, I, L>
        requires settled { IsSettled N.book N.callers N.keeps registrar head seen_history writer.desk.shown.value }
        requires follow { AllFollow N.heard_before registrar.history 0 updates }
        ensures { result ≡ record {
          registry = registrar;
          purged_at = writer.desk.shown.value.purged_at;
          purges = 0;
          updates = updates;
        } }
    {
        Locked {
            registrar,
            writer,
            head,
            seen_history,
            updates,
            purges: 0,
            alloc,
            of: PhantomData,
        }
    }

    /// Accepts a command as the next of the seat's caller, publishes the registry after it, tells the listeners of it,
    /// and answers the receipt of the history that ends with it; or leaves all as it was, tells nothing, and hands the
    /// command back: `Full` where it has no room, and `NoMemory` where an allocation failed. Nothing is refused once
    /// its entry stands in the chronicle, so the same call can be made again. It may wait for readers that look. It
    /// costs that of `Registrar::apply` while a view is held, and what each listener takes.
    pub fn commit<R: Wait>(
        &mut self,
        rt: &R,
        seat: &mut Seat<I>,
        command: Command,
    ) -> Result<Receipt, (Command, Refused)>
        requires desk { IsSeatOf N.book N.callers seat.old }
        requires fits { IsTrue (fits (command_of command)) }
        ensures entry { IfOk result (λ r. r.history
            ≡ with_command self.old.registry.history seat.old.caller (command_of command)) }
        ensures locked { OnOk result (self.new.registry
            ≡ state_after self.old.registry seat.old.caller (command_of command)) }
        ensures told { OnOk result (AreTold (event_of (command_of command)) self.old.updates self.new.updates) }
        ensures unpurged { (self.new.purged_at ≡ self.old.purged_at) × (self.new.purges ≡ self.old.purges) }
        ensures applied { IfOk result (λ r. r.applied
            ≡ answer_of (command_of command) (applied self.old.registry.history (command_of command))) }
        ensures legal { IfOk result (λ r. IsLegal r.history × IsBy N.callers r.history) }
        ensures seen { IfOk result (λ r. IsPrefix seat.old.seen r.history × (seat.new.seen ≡ r.history)) }
        ensures mine { IfOk result (λ r. (own r.history seat.old.caller ≡ seat.new.mine)
            × (seat.new.mine ≡ seat.old.mine ++ command_of command ∷ [])) }
        ensures receipt { IfOk result (λ r. (r.tag ≡ seat.old.tag) × (r.book ≡ N.book)) }

        ensures back { IfErr result (λ e. e.0 ≡ command) }
        ensures stays { OnErr result ((self.new ≡ self.old) × (seat.new.mine ≡ seat.old.mine)) }
        ensures later { IsPrefix seat.old.seen seat.new.seen }
        ensures full { IfErr result (λ e. e.1 ≡ Refused.Full → (seat.new.seen ≡ self.old.registry.history)
            × IsFalse (has_room seat.new.seen (command_of command)) × IsLegal seat.new.seen
            × IsBy N.callers seat.new.seen × (own seat.new.seen seat.old.caller ≡ seat.old.mine)) }
        ensures seat { seat.new ≡ record seat.old { seen = seat.new.seen; mine = seat.new.mine } }
        ensures never_foreign { IfErr result (λ e. e.1 ≢ Refused.Foreign) }
    {
        let caller = seat.caller();
        if !seat.agrees(&self.seen_history, self.registrar.number_of(caller)) {
            return Err((command, Refused::NoMemory));
        }
        let grown = match grow(&self.registrar, caller, &command) {
            Ok(grown) => grown,
            Err(refused) => {
                if refused == Refused::Full {
                    seat.see(&self.seen_history);
                }
                return Err((command, refused));
            }
        };
        let Grown {
            registrar,
            view,
            applied,
        } = grown;
        let mut seen_history = self.seen_history.again();
        if !seat.add(&mut seen_history, &self.head, &registrar) {
            return Err((command, Refused::NoMemory));
        }
        show_surely(rt, &mut self.writer, view, seen_history.again());
        self.registrar = registrar;
        self.seen_history = seen_history;
        tell_last(self.alloc, &self.registrar, &mut self.updates);
        Ok(Receipt::new(seat.tag(), self.seen_history.again(), applied))
    }

    /// How many purges were told. Constant time.
    pub(crate) fn purges(&self) -> u64
        ensures { result ≡ self.now.purges }
    {
        self.purges
    }

    /// Tells the listeners of a purge with a seat, and counts it here and there; the seat keeps how long the history
    /// was. Cost: what each listener takes.
    pub(crate) fn tell_purge(&mut self, seat: &mut Seat<I>, count: usize)
        requires room { (self.old.purges + 1 < 2 ^ 64) × (seat.old.purges + 1 < 2 ^ 64) }
        ensures told { AreTold Purged self.old.updates self.new.updates }
        ensures locked { self.new ≡ record self.old { purges = self.old.purges + 1; updates = self.new.updates } }
        ensures seat { seat.new ≡ record seat.old { purged_at = count; purges = seat.old.purges + 1 } }
    {
        self.updates.tell(self.alloc, Update::Purged);
        self.purges += 1;
        seat.count_purge(count);
    }

    /// Whether two numbers agree at a seat, and it is of this tag. It costs that of `Registrar::number_of`.
    pub(crate) fn agrees(&self, seat: &Seat<I>, tag: u64) -> bool
        requires { seat.now.tag ≡ tag → IsSeatOf N.book N.callers seat.now }
        ensures { IsTrue result → (seat.now.tag ≡ tag) × IsPrefix seat.now.seen self.now.registry.history
            × (own self.now.registry.history seat.now.caller ≡ seat.now.mine) }
    {
        if seat.tag() != tag {
            return false;
        }
        seat.agrees(&self.seen_history, self.registrar.number_of(seat.caller()))
    }

    /// Ends the writer, and gives the registrar, and the listeners with their marks. It may wait for readers that look.
    pub(crate) fn end<R: Wait>(self, rt: &R) -> (Registrar<I>, Vec<(L, bool)>)
        ensures same { result.0 ≡ self.registry }
        ensures legal { IsLegal result.0.history × IsBy N.callers result.0.history }
        ensures keeps { result.0.keeps ≡ N.keeps }
        ensures heard { map (heard_by L.heard) result.1.items ≡ self.updates }
        ensures follow { AllFollow N.heard_before result.0.history self.purges
            (map (heard_by L.heard) result.1.items) }
    {
        let Self {
            registrar,
            writer,
            head: _,
            seen_history: _,
            updates,
            purges: _,
            alloc: _,
            of: _,
        } = self;
        let _ = registrar.last_entry();
        writer.take(rt);
        (registrar, updates.into_parts())
    }
}
