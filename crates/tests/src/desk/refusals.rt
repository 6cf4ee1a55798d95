//! What a desk refuses, and what it hands back.
ghost use Rattle.std.specs.Prelude.{◌≡◌, ◌≢◌, IfOk, IsTrue};
ghost use Rattle.clip_model.specs.History.{fits};
ghost use Rattle.clip_standing.specs.Command.{command_of};
ghost use Rattle.clip_desk.specs.Updates.{all_heard};

use crate::desk::making::{commit, open_with_four, parts_of, pop_seat, register};
use crate::desk::types::{Closed, Desk, DeskParts, Seat};
use clip_desk::{DeskName, NewRefused, Refused, SeatMissing};
use clip_standing::Command;
use std::alloc::Global;
use std::marker::Brand;
use std::process::Abort;
use std::sync::Wait;
use std::test::Fail;

#[test]
fn a_desk_has_64_callers_at_most(rt: HostRuntime) -> Result<(), Fail> {
    match parts_of(&rt, rt.alloc(), 1, 65) {
        Ok(_) => panic!(&rt; "65 callers"),
        Err(refused) => assert!(rt; refused == NewRefused::TooMany),
    }
    Ok(())
}

#[test]
fn a_desk_is_closed_with_all_its_seats(rt: HostRuntime) -> Result<(), Fail> {
    let parts = parts_of(&rt, rt.alloc(), 1, 1)?;
    run_close::<Brand, _>(&rt, rt.alloc(), parts);
    Ok(())
}

fn run_close<N: DeskName, R: Wait + Abort>(rt: &R, alloc: Global, parts: DeskParts)
    requires book { (parts.book ≡ N.book) × (parts.callers ≡ N.callers) }
    requires heard { N.heard_before ≡ all_heard parts.updates }
    requires keeps { parts.keeps ≡ N.keeps }
{
    let none = Vec::new(alloc);
    let (desk, mut seat) = open_with_four::<N, _>(rt, alloc, parts);
    commit(rt, &desk, &mut seat, Command::Clear);
    commit(rt, &desk, &mut seat, register(rt, alloc, "q5", "tea"));
    let SeatMissing { desk, seats: _ } = match desk.close(rt, none) {
        Ok(_) => panic!(rt; "a seat is missing"),
        Err(missing) => missing,
    };
    let all = match Vec::from_array(alloc, [seat]) {
        Ok(all) => all,
        Err(_) => panic!(rt; "no memory"),
    };
    match desk.close(rt, all) {
        Ok(closed) => check_numbers(rt, &closed),
        Err(_) => panic!(rt; "all seats are there"),
    }
}

fn check_numbers<R: Abort>(rt: &R, closed: &Closed) {
    let history = closed.registrar.history();
    assert!(rt; history.len() == 6);
    for place in 0..6usize {
        match history.get(place) {
            Some(entry) => {
                assert!(rt; entry.caller == 1);
                assert!(rt; entry.number == place as u64 + 1);
            }
            None => panic!(rt; "an entry"),
        }
    }
}

#[test]
fn a_foreign_seat_is_refused(rt: HostRuntime) -> Result<(), Fail> {
    match (
        parts_of(&rt, rt.alloc(), 1, 1),
        parts_of(&rt, rt.alloc(), 2, 1),
    ) {
        (Ok(parts), Ok(others)) => run_foreign::<Brand, Brand, _>(&rt, rt.alloc(), parts, others),
        _ => panic!(&rt; "two desks"),
    }
    Ok(())
}

fn run_foreign<N: DeskName, M: DeskName, R: Wait + Abort>(
    rt: &R,
    alloc: Global,
    parts: DeskParts,
    others: DeskParts,
)
    requires book { (parts.book ≡ N.book) × (parts.callers ≡ N.callers) }
    requires heard { N.heard_before ≡ all_heard parts.updates }
    requires keeps { parts.keeps ≡ N.keeps }
    requires other_book { (others.book ≡ M.book) × (others.callers ≡ M.callers) }
    requires other_heard { M.heard_before ≡ all_heard others.updates }
    requires other_keeps { others.keeps ≡ M.keeps }
{
    let (desk, _) = Desk::<N>::open(parts);
    let (other, mut strangers) = Desk::<M>::open(others);
    match pop_seat::<M>(&mut strangers) {
        Some(mut stranger) => hand_back(rt, &desk, &mut stranger, register(rt, alloc, "q1", "tea")),
        None => panic!(rt; "one seat"),
    }
    desk.end(rt);
    other.end(rt);
}

fn hand_back<N: DeskName, R: Wait + Abort>(
    rt: &R,
    desk: &Desk<N>,
    stranger: &mut Seat,
    command: Command,
)
    requires fits { IsTrue (fits (command_of command)) }
{
    assert!(rt; stranger.tag() != desk.tag(), "two tags");
    match desk.commit(rt, stranger, command) {
        Err((Command::Register(standings), Refused::Foreign)) => assert!(rt; standings.len() == 1),
        _ => panic!(rt; "the seat is of another desk"),
    }
}
