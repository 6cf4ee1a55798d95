//! A desk of one caller with an update listener, which takes four queries, merges them, takes one more and purges.
ghost use Rattle.std.specs.Prelude.{◌≡◌, IfSome};
ghost use Rattle.clip_desk.specs.Updates.{all_heard};
ghost use Rattle.clip_desk.specs.Locked.{AreSeatsOf, IsSeatOf};

use crate::registry::registering;
use crate::telling::{answered, call, refused};
use clip_desk::{DeskName, Refused, SeatMissing, UpdateListeners, UpdateLog};
use clip_registry::MergeTurn;
use clip_segment::LabelledIndex;
use clip_words::NoMemory;
use std::alloc::Global;
use std::marker::Brand;
use std::sync::Wait;

/// A desk of a registry over the index by which articles are matched.
type Desk<N> = clip_desk::Desk<N, LabelledIndex, UpdateLog>;

/// A seat of such a desk.
type Seat = clip_desk::Seat<LabelledIndex>;

/// The parts of such a desk.
type DeskParts = clip_desk::DeskParts<LabelledIndex, UpdateLog>;

/// What such a desk leaves at its close.
type Closed = clip_desk::Closed<LabelledIndex, UpdateLog>;

/// How many events the listener hears where none is refused: those of five commits and of a purge.
const EVENTS: usize = 6;

/// The parts of a desk of one caller, with a listener that has heard nothing.
fn parts<R: Wait + AllocGlobal>(rt: &R) -> Option<DeskParts> {
    let alloc = rt.alloc();
    let logs = vec![in alloc; UpdateLog::new(alloc)].ok()?;
    let updates = UpdateListeners::new(alloc, logs).ok()?;
    DeskParts::new(rt, alloc, 1, 1, updates).ok()
}

/// Tells that a commit was refused, where a look shows so many commands as there were before it.
fn refused_after<R: Print>(rt: &R, seat: &mut Seat, before: u64)
    ensures { (seat.new.book ≡ seat.old.book) × (seat.new.callers ≡ seat.old.callers) }
{
    if let Ok(view) = seat.look() {
        if view.place() == before {
            refused(rt);
        }
    }
}

/// Commits a register after so many commands. It comes back where it is refused; of a receipt its place is printed.
fn of_commit<N: DeskName, R: Print + Wait>(
    rt: &R,
    alloc: Global,
    desk: &Desk<N>,
    seat: &mut Seat,
    id: &str,
    before: u64,
)
    requires { IsSeatOf N.book N.callers seat.old }
    ensures { IsSeatOf N.book N.callers seat.new }
{
    let Some(command) = registering(alloc, id) else {
        return;
    };
    call(rt, "Desk::commit");
    match desk.commit(rt, seat, command) {
        Ok(receipt) => {
            answered(rt, receipt.place());
        }
        Err((command, Refused::NoMemory)) => {
            refused_after(rt, seat, before);
            call(rt, "Desk::commit");
            if let Ok(receipt) = desk.commit(rt, seat, command) {
                answered(rt, receipt.place());
            }
        }
        Err(_) => {}
    }
}

/// Takes a look.
fn of_look<R: Print>(rt: &R, seat: &mut Seat) -> bool
    ensures { (seat.new.book ≡ seat.old.book) × (seat.new.callers ≡ seat.old.callers) }
{
    call(rt, "Seat::look");
    match seat.look() {
        Ok(view) => answered(rt, view.count()),
        Err(NoMemory) => refused(rt),
    }
}

/// Merges.
fn of_merge_once<N: DeskName, R: Print + Wait>(rt: &R, desk: &Desk<N>) -> bool {
    call(rt, "Desk::merge_once");
    match desk.merge_once(rt) {
        Ok(turn) => answered(rt, (turn == MergeTurn::Installed) as u64),
        Err(NoMemory) => refused(rt),
    }
}

/// Purges.
fn of_purge<N: DeskName, R: Print + Wait>(rt: &R, desk: &Desk<N>, seat: &mut Seat) -> bool
    ensures { (seat.new.book ≡ seat.old.book) × (seat.new.callers ≡ seat.old.callers) }
{
    call(rt, "Desk::purge");
    match desk.purge(rt, seat) {
        Ok(()) => answered(rt, 1),
        Err(_) => refused(rt),
    }
}

/// How many commands a closed desk has; none unless its listener has heard of each, or is marked.
fn closed_with(closed: &Closed) -> u64 {
    match closed.updates.as_slice() {
        [(log, is_marked)] if *is_marked || log.events().len() == EVENTS => {
            closed.registrar.history().len() as u64
        }
        _ => 0,
    }
}

/// Closes the desk with all its seats.
fn of_close<N: DeskName, R: Print + Wait>(rt: &R, desk: Desk<N>, all: Vec<Seat>)
    requires { AreSeatsOf N.book N.callers all.items }
{
    call(rt, "Desk::close");
    match desk.close(rt, all) {
        Ok(closed) => {
            answered(rt, closed_with(&closed));
        }
        Err(SeatMissing { desk, seats: _ }) => desk.end(rt),
    }
}

/// The one seat.
fn pop_seat<N: DeskName>(seats: &mut Vec<Seat>) -> Option<Seat>
    requires { AreSeatsOf N.book N.callers seats.old.items }
    ensures { IfSome result (IsSeatOf N.book N.callers) }
{
    seats.pop()
}

/// Makes each call at a desk of these parts.
fn use_desk<N: DeskName, R: Print + Wait>(rt: &R, alloc: Global, parts: DeskParts)
    requires book { (parts.book ≡ N.book) × (parts.callers ≡ N.callers) }
    requires heard { N.heard_before ≡ all_heard parts.updates }
    requires keeps { parts.keeps ≡ N.keeps }
{
    let (desk, mut seats) = Desk::<N>::open(parts);
    let Some(mut seat) = pop_seat::<N>(&mut seats) else {
        desk.end(rt);
        return;
    };
    of_commit(rt, alloc, &desk, &mut seat, "q1", 0);
    of_commit(rt, alloc, &desk, &mut seat, "q2", 1);
    of_commit(rt, alloc, &desk, &mut seat, "q3", 2);
    of_commit(rt, alloc, &desk, &mut seat, "q4", 3);
    let _ = of_look(rt, &mut seat) || of_look(rt, &mut seat);
    let _ = of_merge_once(rt, &desk) || of_merge_once(rt, &desk);
    of_commit(rt, alloc, &desk, &mut seat, "q1", 4);
    let _ = of_purge(rt, &desk, &mut seat) || of_purge(rt, &desk, &mut seat);
    match Vec::from_array(alloc, [seat]) {
        Ok(all) => of_close(rt, desk, all),
        Err(_) => desk.end(rt),
    }
}

/// Makes each call on a desk.
pub fn play<R: Print + Wait + AllocGlobal>(rt: &R) -> Option<()> {
    let parts = parts(rt)?;
    use_desk::<Brand, _>(rt, rt.alloc(), parts);
    Some(())
}
