//! What the tests give to calls: commands, and the seats of a desk.
ghost use Rattle.std.specs.Prelude.{◌≡◌, ◌<◌, IfSome, IsTrue};
ghost use Rattle.clip_model.specs.History.{fits};
ghost use Rattle.clip_standing.specs.Command.{command_of};
ghost use Rattle.clip_desk.specs.Updates.{all_heard};
ghost use Rattle.clip_desk.specs.Locked.{IsSeatOf, AreSeatsOf};

use crate::desk::types::{Desk, DeskParts, Seat};
use clip_desk::{DeskName, NewRefused, Receipt, UpdateListeners, UpdateLog};
use clip_samples::standing;
use clip_standing::Command;
use std::alloc::Global;
use std::process::Abort;
use std::sync::Wait;

/// The command that registers one query, or `None` where an allocation failed.
pub fn registering(alloc: Global, id: &str, text: &str) -> Option<Command>
    ensures { IfSome result (λ c. IsTrue (fits (command_of c))) }
{
    let standing = standing(alloc, id, text).ok()?;
    Some(Command::Register(vec![in alloc; standing].ok()?))
}

/// The command that registers one query.
pub fn register<R: Abort>(rt: &R, alloc: Global, id: &str, text: &str) -> Command
    ensures { IsTrue (fits (command_of result)) }
{
    match registering(alloc, id, text) {
        Some(command) => command,
        None => panic!(rt; "no command"),
    }
}

/// The parts of a desk with these logs.
pub fn parts_with<R: Wait>(
    rt: &R,
    alloc: Global,
    tag: u64,
    callers: u32,
    logs: Vec<UpdateLog>,
) -> Result<DeskParts, NewRefused>
    requires { 0 < callers }
{
    let Ok(updates) = UpdateListeners::new(alloc, logs) else {
        return Err(NewRefused::NoMemory);
    };
    match DeskParts::new(rt, alloc, tag, callers, updates) {
        Ok(parts) => Ok(parts),
        Err((_, refused)) => Err(refused),
    }
}

/// The parts of a desk without listeners.
pub fn parts_of<R: Wait>(
    rt: &R,
    alloc: Global,
    tag: u64,
    callers: u32,
) -> Result<DeskParts, NewRefused>
    requires { 0 < callers }
{
    parts_with(rt, alloc, tag, callers, Vec::new(alloc))
}

/// The last of the seats.
pub fn pop_seat<N: DeskName>(seats: &mut Vec<Seat>) -> Option<Seat>
    requires { AreSeatsOf N.book N.callers seats.old.items }
    ensures rest { AreSeatsOf N.book N.callers seats.new.items }
    ensures seat { IfSome result (IsSeatOf N.book N.callers) }
{
    seats.pop()
}

/// Commits a command, which is not refused.
pub fn commit<N: DeskName, R: Wait + Abort>(
    rt: &R,
    desk: &Desk<N>,
    seat: &mut Seat,
    command: Command,
) -> Receipt
    requires desk { IsSeatOf N.book N.callers seat.old }
    requires fits { IsTrue (fits (command_of command)) }
    ensures seat { IsSeatOf N.book N.callers seat.new }
    ensures receipt { result.book ≡ N.book }
{
    match desk.commit(rt, seat, command) {
        Ok(receipt) => receipt,
        Err((_, refused)) => panic!(rt; "refused: {refused:?}"),
    }
}

/// Opens a desk, and registers q1 to q4 from its last seat, each by a commit of its own.
pub fn open_with_four<N: DeskName, R: Wait + Abort>(
    rt: &R,
    alloc: Global,
    parts: DeskParts,
) -> (Desk<N>, Seat)
    requires book { (parts.book ≡ N.book) × (parts.callers ≡ N.callers) }
    requires heard { N.heard_before ≡ all_heard parts.updates }
    requires keeps { parts.keeps ≡ N.keeps }
    ensures { IsSeatOf N.book N.callers result.1 }
{
    let (desk, mut seats) = Desk::<N>::open(parts);
    let Some(mut seat) = pop_seat::<N>(&mut seats) else {
        panic!(rt; "one seat")
    };
    commit(rt, &desk, &mut seat, register(rt, alloc, "q1", "tea"));
    commit(rt, &desk, &mut seat, register(rt, alloc, "q2", "coffee"));
    commit(rt, &desk, &mut seat, register(rt, alloc, "q3", "milk"));
    commit(rt, &desk, &mut seat, register(rt, alloc, "q4", "water"));
    (desk, seat)
}

/// Purges, which is not refused.
pub fn purge<N: DeskName, R: Wait + Abort>(rt: &R, desk: &Desk<N>, seat: &mut Seat)
    requires { IsSeatOf N.book N.callers seat.old }
    ensures { IsSeatOf N.book N.callers seat.new }
{
    assert!(rt; desk.purge(rt, seat) == Ok(()));
}

/// A look shows so many queries and so many commands.
pub fn sees<R: Abort>(rt: &R, seat: &mut Seat, wanted: (u64, u64))
    ensures { (seat.new.book ≡ seat.old.book) × (seat.new.callers ≡ seat.old.callers) }
{
    match seat.look() {
        Ok(view) => assert!(rt; (view.count(), view.place()) == wanted),
        Err(_) => panic!(rt; "no look"),
    }
}
