//! Merges and purges of what the lock keeps: other segments, and the same history.
ghost use Rattle.std.specs.Prelude.{◌≡◌, ◌+◌, ◌≤◌, ℕ, length, true, Ok, None, IfOk, IfSome, OnOk, OnErr};
ghost use Rattle.clip_registry.specs.Plan.{AreFew, IsRun};
ghost use Rattle.clip_registry.specs.Price.{HavePaid};
ghost use Rattle.clip_registry.specs.Merging.{IsInstalled, IsStale, IsTurnBegun, purged};
ghost use Rattle.clip_desk.specs.Purges.{IsPurgedAt};
ghost use Rattle.clip_desk.specs.Updates.{AreTold, Purged};

use crate::ends::show;
use crate::locked::{DeskName, Locked};
use crate::seat::Seat;
use crate::update_listener::UpdateListener;
use clip_indexed::Index;
use clip_registry::{Installed, MergeJob, Merged, Payment, Registrar};
use clip_words::NoMemory;
use std::sync::Wait;

impl<N: DeskName, I: Index, L: UpdateListener> Locked<N, I, L> {
    /// Publishes a registry of the same history, and keeps it, with how long the history was at its last purge.
    /// `NoMemory` where an allocation failed, with nothing changed. It may wait for readers that look.
    fn put<R: Wait>(
        &mut self,
        rt: &R,
        registrar: Registrar<I>,
        purged_at: usize,
    ) -> Result<(), NoMemory>
        requires same { (registrar.history ≡ self.old.registry.history)
            × (registrar.keeps ≡ self.old.registry.keeps) }
        requires purged { IsPurgedAt registrar purged_at }
        ensures there { OnOk result (self.new ≡ record self.old { registry = registrar; purged_at = purged_at }) }
        ensures unchanged { OnErr result (self.new ≡ self.old) }
    {
        let view = registrar.view()?;
        let seen_history = self.seen_history.again();
        show(rt, &mut self.writer, view, seen_history, purged_at)?;
        self.registrar = registrar;
        Ok(())
    }

    /// Leaves each segment with just its live entries, takes the empty ones away, publishes that, and tells the
    /// listeners; the purge is counted here and at the seat, which keeps how long the history was. The history is kept,
    /// and so is what is registered. `NoMemory` where an allocation failed, with nothing changed and nothing told. It
    /// may wait for readers that look, and costs that of `Registrar::purge` and what each listener takes.
    pub fn purge<R: Wait>(&mut self, rt: &R, seat: &mut Seat<I>) -> Result<(), NoMemory>
        ensures purged { OnOk result (self.new.registry ≡ purged self.old.registry) }
        ensures purged_at { OnOk result ((self.new.purged_at ≡ length self.old.registry.history)
            × (seat.new.purged_at ≡ length self.old.registry.history)) }
        ensures told { OnOk result (AreTold Purged self.old.updates self.new.updates) }
        ensures counted { OnOk result ((self.new.purges ≡ self.old.purges + 1)
            × (seat.new.purges ≡ seat.old.purges + 1)) }
        ensures within { OnOk result ((length seat.old.seen ≤ seat.new.purged_at)
            × (length seat.old.mine ≤ seat.new.purged_at)) }
        ensures later { seat.old.purged_at ≤ seat.new.purged_at }
        ensures unchanged { OnErr result (self.new ≡ self.old) }
        ensures stays { OnErr result (seat.new ≡ seat.old) }
        ensures seat { seat.new ≡ record seat.old { purged_at = seat.new.purged_at; purges = seat.new.purges } }
    {
        let count = self.seen_history.count;
        if !seat.is_within(count) || self.purges() == u64::MAX || seat.purges() == u64::MAX {
            return Err(NoMemory);
        }
        let mut next = self.registrar.copy()?;
        next.purge()?;
        self.put(rt, next, count)?;
        self.tell_purge(seat, count);
        Ok(())
    }

    /// Begins the merge of a turn: a job over all segments where they are to become one, and else over the oldest four
    /// neighbouring segments of one level, or, where there are no such four, over all from the oldest on behind which
    /// one has a higher level. `None` where there are no two such segments; then segments are few: three at most for
    /// each level up to that of all their entries together, and at most one where they are to become one. `NoMemory`
    /// where an allocation failed. It costs that of `Registrar::begin_turn`.
    pub fn begin_turn(&self, to_one: bool) -> Result<Option<MergeJob<I>>, NoMemory>
        ensures begun { IfOk result (λ job. IfSome job (IsTurnBegun to_one self.now.registry)) }
        ensures nothing { result ≡ Ok None → (first : ℕ) → IsRun self.now.registry.segments first → ⊥ }
        ensures few { result ≡ Ok None → AreFew self.now.registry.segments }
        ensures one { result ≡ Ok None → to_one ≡ true → length self.now.registry.segments ≤ 1 }
    {
        self.registrar.begin_turn(to_one)
    }

    /// Takes what so many matched articles pay towards one segment in the place of all, and says whether it is due. It
    /// takes no memory, and costs that of `Registrar::is_merge_due`.
    pub fn is_merge_due(&self, payment: &mut Payment, matched: usize) -> bool
        ensures { HavePaid payment.old payment.new self.now.registry.segments matched result }
    {
        self.registrar.is_merge_due(payment, matched)
    }

    /// Installs a merge, wherever it was begun, and publishes the registry with it; a stale one changes and publishes
    /// nothing. The history is kept, and so is what is registered. `NoMemory` where an allocation failed, with nothing
    /// changed and the merge dropped. It may wait for readers that look, and costs that of `Registrar::install`.
    pub fn install<R: Wait>(&mut self, rt: &R, merged: Merged<I>) -> Result<Installed, NoMemory>
        ensures done { result ≡ Ok Installed.Done → IsInstalled self.old.registry self.new.registry merged }
        ensures stale { result ≡ Ok Installed.Stale → IsStale self.old.registry merged }
        ensures quiet { self.new.updates ≡ self.old.updates }
        ensures unpurged { (self.new.purged_at ≡ self.old.purged_at) × (self.new.purges ≡ self.old.purges) }
        ensures unchanged { (result ≡ Ok Installed.Done → ⊥) → self.new ≡ self.old }
    {
        let mut next = self.registrar.copy()?;
        match next.install(merged)? {
            Installed::Done => {
                let purged_at = self.writer.published().purged_at;
                self.put(rt, next, purged_at)?;
                Ok(Installed::Done)
            }
            Installed::Stale => Ok(Installed::Stale),
        }
    }
}
