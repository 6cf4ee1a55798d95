//! The desk that callers in threads share.
ghost use Rattle.std.specs.Prelude.{◌≡◌, ◌≢◌, ◌↔◌, ℕ, ◌+◌, ◌<◌, ◌≤◌, List, [], ◌∷◌, ◌++◌, slice_get, IfOk, IfErr, OnOk};
ghost use Rattle.std.specs.Prelude.{OnErr, IsTrue, IsFalse, vec_len, map};
ghost use mathlib.Core.List.{IsPrefix};
ghost use Rattle.clip_model.specs.History.{own, fits, has_room, applied, with_command, IsLegal};
ghost use Rattle.clip_model.specs.History as model;
ghost use Rattle.clip_standing.specs.Command.{command_of, answer_of};
ghost use Rattle.clip_desk.specs.Callers.{IsBy};
ghost use Rattle.clip_desk.specs.Updates.{AllFollow, all_heard, heard_by};
ghost use Rattle.clip_desk.specs.Seats.{SeatIs, AreSeated, IsAccounted, AreAll, purges_with};
ghost use Rattle.clip_desk.specs.Locked.{IsSeatOf, AreSeatsOf};

use crate::locked::{DeskName, Locked};
use crate::parts::DeskParts;
use crate::refused::Refused;
use crate::seat::{Receipt, Seat};
use crate::update_listener::UpdateListener;
use clip_indexed::Index;
use clip_registry::Registrar;
use clip_standing::Command;
use std::marker::Model;
use std::sync::{Mutex, MutexGuard, Wait};

/// A registry that callers share, each of whose segments keeps an index over its entries, and the listeners that hear
/// of its changes. It has no `Drop`, as a writer's end can't be dropped: end it by `close` or `end`.
pub struct Desk<N: DeskName, I: Index, L: UpdateListener> {
    pub(crate) locked: Mutex<Locked<N, I, L>>,
    pub(crate) tag: u64,
    callers: u32,
}

impl<N: DeskName, I: Index, L: UpdateListener> Model for Desk<N, I, L> {
    ghost use Rattle.std.specs.Prelude.{◌≡◌};
    ghost use Rattle.clip_desk.specs.Seats.{DeskIs};

    ghost Value = { DeskIs };

    ghost view = { λ d. record { tag = d.tag; callers = d.callers } };

    ghost invariant = { λ d. d.callers ≡ N.callers };
}

/// What a desk leaves.
#[derive(Drop)]
pub struct Closed<I: Index, L: UpdateListener> {
    /// The registry at its end, with its history.
    pub registrar: Registrar<I>,
    /// The update listeners, in order, each with its mark: whether it missed an event.
    pub updates: Vec<(L, bool)>,
}

/// What comes back from a desk that could not be closed.
pub struct SeatMissing<N: DeskName, I: Index, L: UpdateListener> {
    /// The desk, which goes on.
    pub desk: Desk<N, I, L>,
    /// The seats that were handed in.
    pub seats: Vec<Seat<I>>,
}

impl<N: DeskName, I: Index, L: UpdateListener> Desk<N, I, L> {
    /// A desk, and the seats of callers 1, 2, .. Its name says what its listeners had heard. Constant time.
    pub fn open(parts: DeskParts<I, L>) -> (Desk<N, I, L>, Vec<Seat<I>>)
        requires { (parts.book ≡ N.book) × (parts.callers ≡ N.callers) × (N.heard_before ≡ all_heard parts.updates)
            × (parts.keeps ≡ N.keeps) }
        ensures desk { (result.0.tag ≡ parts.tag) × (result.0.callers ≡ parts.callers) }
        ensures seats { AreSeated parts.tag parts.callers parts.keeps parts.book result.1.items
            × (vec_len result.1 ≡ parts.callers) }
        ensures all { AreSeatsOf N.book N.callers result.1.items }
        ensures keeps { (k : ℕ) (s : SeatIs) → slice_get result.1.items k ≡ Some s → s.keeps ≡ N.keeps }
    {
        let DeskParts {
            registrar,
            writer,
            head,
            seen_history,
            seats,
            updates,
            alloc,
            tag,
            callers,
        } = parts;
        let desk = Desk {
            locked: Mutex::new(Locked::new(registrar, writer, head, seen_history, updates, alloc)),
            tag,
            callers,
        };
        (desk, seats)
    }

    /// The tag of the desk, which its seats and receipts carry. Constant time.
    pub fn tag(&self) -> u64
        ensures { result ≡ self.now.tag }
    {
        self.tag
    }

    /// Accepts a command as the next of the seat's caller, publishes the registry after it, tells the listeners of it,
    /// and answers the receipt of the history that ends with it; or tells nothing and hands the command back: `Foreign`
    /// for a seat of another tag, `Full` where it has no room, and `NoMemory` where an allocation failed. It may wait
    /// for other callers' commits, and for readers that look. It costs that of `Registrar::apply` while a view is held,
    /// and what each listener takes.
    pub fn commit<R: Wait>(
        &self,
        rt: &R,
        seat: &mut Seat<I>,
        command: Command,
    ) -> Result<Receipt, (Command, Refused)>
        requires desk { seat.old.tag ≡ self.now.tag → IsSeatOf N.book N.callers seat.old }
        requires fits { IsTrue (fits (command_of command)) }
        ensures last { IfOk result (λ r. (before : model.History)
            × (r.history ≡ with_command before seat.old.caller (command_of command))
            × (r.applied ≡ answer_of (command_of command) (applied before (command_of command)))) }
        ensures legal { IfOk result (λ r. IsLegal r.history × IsBy self.now.callers r.history) }
        ensures seen { IfOk result (λ r. IsPrefix seat.old.seen r.history × (seat.new.seen ≡ r.history)) }
        ensures mine { IfOk result (λ r. (own r.history seat.old.caller ≡ seat.new.mine)
            × (seat.new.mine ≡ seat.old.mine ++ command_of command ∷ [])) }
        ensures receipt { IfOk result (λ r. (r.tag ≡ self.now.tag) × (r.book ≡ N.book)) }

        ensures back { IfErr result (λ e. e.0 ≡ command) }
        ensures foreign { (result ≡ Err (command, Refused.Foreign)) ↔ (seat.old.tag ≢ self.now.tag) }
        ensures foreign_leaves { seat.old.tag ≢ self.now.tag → seat.new ≡ seat.old }
        ensures stays { OnErr result (seat.new.mine ≡ seat.old.mine) }
        ensures later { IsPrefix seat.old.seen seat.new.seen }
        ensures full { IfErr result (λ e. e.1 ≡ Refused.Full
            → IsFalse (has_room seat.new.seen (command_of command)) × IsLegal seat.new.seen
            × IsBy self.now.callers seat.new.seen
            × (own seat.new.seen seat.old.caller ≡ seat.old.mine)) }
        ensures seat { seat.new ≡ record seat.old { seen = seat.new.seen; mine = seat.new.mine } }
    {
        if seat.tag() != self.tag {
            return Err((command, Refused::Foreign));
        }
        let mut guard = self.locked.lock(rt);
        let answer = guard.commit(rt, seat, command);
        MutexGuard::unlock(guard);
        answer
    }

    /// Ends the desk with all its seats, and gives the registry and as many listeners as it was opened with. Each
    /// unmarked one has heard, purges left out, what the one in its place had heard before and then one event for each
    /// entry of the history, in order; and just as many purges more as these seats' that were answered `Ok`. A marked
    /// one has heard some first ones of the former, and no more of the latter. `SeatMissing` where a caller's seat is
    /// missing, one is of another tag, or a purge was with none of these, and then desk and seats come back. It may
    /// wait for readers that look. It costs a search among the seats for each caller, and that of
    /// `Registrar::number_of` for each seat.
    pub fn close<R: Wait>(
        self,
        rt: &R,
        seats: Vec<Seat<I>>,
    ) -> Result<Closed<I, L>, SeatMissing<N, I, L>>
        requires { (k : ℕ) (s : SeatIs) → slice_get seats.items k ≡ Some s → s.tag ≡ self.tag
            → IsSeatOf N.book N.callers s }
        ensures legal { IfOk result (λ c. IsLegal c.registrar.history × IsBy self.callers c.registrar.history) }
        ensures keeps { IfOk result (λ c. c.registrar.keeps ≡ N.keeps) }
        ensures seats { IfOk result (λ c. AreAll self.tag self.callers c.registrar.history seats.items) }
        ensures told { IfOk result (λ c. AllFollow N.heard_before c.registrar.history (purges_with seats.items)
            (map (heard_by L.heard) c.updates.items)) }
        ensures back { IfErr result (λ e. (e.desk ≡ self) × (e.seats.items ≡ seats.items)) }
    {
        let Self {
            locked,
            tag,
            callers,
        } = self;
        let locked = locked.into_inner();
        if !all_agree(&locked, seats.as_slice(), tag)
            || !has_all(seats.as_slice(), callers)
            || !are_of_all_purges(seats.as_slice(), locked.purges())
        {
            let desk = Desk {
                locked: Mutex::new(locked),
                tag,
                callers,
            };
            return Err(SeatMissing { desk, seats });
        }
        let (registrar, updates) = locked.end(rt);
        Ok(Closed { registrar, updates })
    }

    /// Ends the desk without its seats. It may wait for readers that look, and takes no memory.
    pub fn end<R: Wait>(self, rt: &R) {
        let Self {
            locked,
            tag: _,
            callers: _,
        } = self;
        locked.into_inner().end(rt);
    }
}

/// Whether each seat is of this tag, and its numbers agree.
fn all_agree<N: DeskName, I: Index, L: UpdateListener>(
    locked: &Locked<N, I, L>,
    seats: &[Seat<I>],
    tag: u64,
) -> bool
    requires { (k : ℕ) (s : SeatIs) → slice_get seats.now k ≡ Some s → s.tag ≡ tag → IsSeatOf N.book N.callers s }
    ensures { IsTrue result → (k : ℕ) (s : SeatIs) → slice_get seats.now k ≡ Some s
        → IsAccounted tag locked.now.registry.history s }
{
    for seat in seats {
        if !locked.agrees(seat, tag) {
            return false;
        }
    }
    true
}

/// Whether these seats' purges are as many as were told. A step for each seat.
fn are_of_all_purges<I: Index>(seats: &[Seat<I>], told: u64) -> bool
    ensures { IsTrue result → purges_with seats.now ≡ told }
{
    let mut left = told;
    for seat in seats {
        if left < seat.purges() {
            return false;
        }
        left -= seat.purges();
    }
    left == 0
}

/// Whether each caller has a seat among these.
fn has_all<I: Index>(seats: &[Seat<I>], callers: u32) -> bool
    ensures { IsTrue result → (caller : ℕ) → 0 < caller → caller ≤ callers → (k : ℕ) × (s : SeatIs)
        × (slice_get seats.now k ≡ Some s) × (s.caller ≡ caller) }
{
    for number in 0..callers {
        if !has_one(seats, number + 1) {
            return false;
        }
    }
    true
}

/// Whether the caller has a seat among these.
fn has_one<I: Index>(seats: &[Seat<I>], caller: u32) -> bool
    ensures { IsTrue result → (k : ℕ) × (s : SeatIs) × (slice_get seats.now k ≡ Some s) × (s.caller ≡ caller) }
{
    for seat in seats {
        if seat.caller() == caller {
            return true;
        }
    }
    false
}
