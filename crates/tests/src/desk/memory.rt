//! A commit that is refused memory leaves the desk as it was: the command that comes back is accepted when tried
//! again.
//! Where memory is ample no commit is refused, so this is to be run with an allocation that fails
//! (`rt try --test --fail-alloc N`).
ghost use Rattle.std.specs.Prelude.{◌≡◌};
ghost use Rattle.clip_desk.specs.Updates.{all_heard};
ghost use Rattle.clip_desk.specs.Locked.{IsSeatOf};

use crate::desk::making::{parts_of, pop_seat, registering};
use crate::desk::types::{Desk, DeskParts, Seat};
use clip_desk::DeskName;
use std::alloc::Global;
use std::marker::Brand;
use std::process::Abort;
use std::sync::Wait;

#[test]
fn a_refused_commit_is_accepted_when_tried_again(rt: HostRuntime) {
    if let Ok(parts) = parts_of(&rt, rt.alloc(), 1, 1) {
        run_again::<Brand, _>(&rt, rt.alloc(), parts);
    }
}

fn run_again<N: DeskName, R: Wait + Abort>(rt: &R, alloc: Global, parts: DeskParts)
    requires book { (parts.book ≡ N.book) × (parts.callers ≡ N.callers) }
    requires heard { N.heard_before ≡ all_heard parts.updates }
    requires keeps { parts.keeps ≡ N.keeps }
{
    let (desk, mut seats) = Desk::<N>::open(parts);
    if let Some(mut seat) = pop_seat::<N>(&mut seats) {
        let mut accepted = 0u64;
        for _ in 0..20u32 {
            accepted = accepted.wrapping_add(commit_twice_at_most(rt, alloc, &desk, &mut seat));
        }
        if let Ok(view) = seat.look() {
            assert!(rt; view.place() == accepted);
        }
    }
    desk.end(rt);
}

/// Commits a register, once more where it was refused, and gives how many commits were accepted: none where
/// there was no memory for the command itself.
fn commit_twice_at_most<N: DeskName, R: Wait + Abort>(
    rt: &R,
    alloc: Global,
    desk: &Desk<N>,
    seat: &mut Seat,
) -> u64
    requires { IsSeatOf N.book N.callers seat.old }
    ensures { IsSeatOf N.book N.callers seat.new }
{
    let Some(command) = registering(alloc, "q1", "tea") else {
        return 0;
    };
    if let Err((back, _)) = desk.commit(rt, seat, command) {
        assert!(rt; desk.commit(rt, seat, back).is_ok(), "again");
    }
    1
}
