//! Two callers of which each waits for the other's receipt before it commits.
ghost use Rattle.std.specs.Prelude.{◌≡◌};
ghost use Rattle.clip_desk.specs.Locked.{IsSeatOf};

use crate::desk::making::{commit, register};
use crate::desk::plain::told;
use crate::desk::room::{Handed, Room, Way};
use crate::desk::types::Seat;
use clip_desk::{DeskName, Nudge};
use clip_registry::History;
use std::marker::PhantomData;
use std::process::Abort;
use std::sync::Wait;
use std::thread::yield_now;

/// How many turns a caller waits for a receipt at most.
const MOST_TURNS: u32 = 1_000_000;

/// Waits for a receipt, up to the limit of turns, and learns it.
fn learn_next<N: DeskName, R: Wait + Abort>(rt: &R, way: &Way<N>, seat: &mut Seat)
    requires { IsSeatOf N.book N.callers seat.old }
    ensures { IsSeatOf N.book N.callers seat.new }
{
    for _ in 0..MOST_TURNS {
        if let Ok(handed) = way.receiver.try_recv(rt) {
            seat.learn(&handed.receipt);
            return;
        }
        yield_now();
    }
    panic!(rt; "the limit of turns is met")
}

/// Commits a register, whose receipt is to have this place, hands the receipt over, and nudges the merger.
fn commit_next<N: DeskName, R: Wait + Abort>(
    rt: &R,
    room: &Room<N>,
    seat: &mut Seat,
    way: &Way<N>,
    id: &str,
    place: u64,
)
    requires { IsSeatOf N.book N.callers seat.old }
    ensures { IsSeatOf N.book N.callers seat.new }
{
    let receipt = commit(rt, &room.desk, seat, register(rt, room.alloc, id, "tea"));
    assert!(rt; receipt.place() == place);
    let handed = Handed {
        receipt,
        of: PhantomData,
    };
    assert!(rt; way.sender.send(rt, handed).is_ok(), "handed over");
    assert!(rt; room.sender.send(rt, Nudge::Merge).is_ok(), "sent");
}

/// The first caller commits q1, and q3 after the second's q2; the second q2 after q1, and q4 after q3.
pub fn take_turns<N: DeskName, R: Wait + Abort>(rt: &R, room: &Room<N>, mut seat: Seat) -> Seat
    requires { IsSeatOf N.book N.callers seat }
    ensures { IsSeatOf N.book N.callers result }
{
    if seat.caller() == 1 {
        commit_next(rt, room, &mut seat, &room.firsts, "q1", 1);
        learn_next(rt, &room.seconds, &mut seat);
        commit_next(rt, room, &mut seat, &room.firsts, "q3", 3);
    } else {
        learn_next(rt, &room.firsts, &mut seat);
        commit_next(rt, room, &mut seat, &room.seconds, "q2", 2);
        learn_next(rt, &room.firsts, &mut seat);
        commit_next(rt, room, &mut seat, &room.seconds, "q4", 4);
    }
    seat
}

/// Checks that the callers took turns.
pub fn check_turns<R: Abort>(rt: &R, history: &History<'_>) {
    assert!(rt; history.len() == 4);
    let turns: [(&str, u32, u64); 4] = [("q1", 1, 1), ("q2", 2, 1), ("q3", 1, 2), ("q4", 2, 2)];
    for (place, (id, caller, number)) in turns.iter().enumerate() {
        let entry = history.get(place).expect(rt, "an entry");
        assert!(rt; told(&entry.command) == (*id, "tea"));
        assert!(rt; (entry.caller, entry.number) == (*caller, *number));
    }
}
