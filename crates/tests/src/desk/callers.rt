//! Two callers at a desk: what one committed the other looks at, with its receipt and without.
ghost use Rattle.std.specs.Prelude.{◌≡◌};
ghost use Rattle.clip_desk.specs.Updates.{all_heard};
ghost use Rattle.clip_desk.specs.Locked.{IsSeatOf};

use crate::desk::making::{commit, parts_of, pop_seat, register, sees};
use crate::desk::types::{Desk, DeskParts, Seat};
use clip_desk::DeskName;
use clip_standing::Applied;
use std::alloc::Global;
use std::marker::Brand;
use std::process::Abort;
use std::sync::Wait;
use std::test::Fail;

#[test]
fn a_caller_sees_what_another_committed(rt: HostRuntime) -> Result<(), Fail> {
    let parts = parts_of(&rt, rt.alloc(), 1, 2)?;
    run_both::<Brand, _>(&rt, rt.alloc(), parts);
    Ok(())
}

fn run_both<N: DeskName, R: Wait + Abort>(rt: &R, alloc: Global, parts: DeskParts)
    requires book { (parts.book ≡ N.book) × (parts.callers ≡ N.callers) }
    requires heard { N.heard_before ≡ all_heard parts.updates }
    requires keeps { parts.keeps ≡ N.keeps }
{
    let (desk, mut seats) = Desk::<N>::open(parts);
    match (pop_seat::<N>(&mut seats), pop_seat::<N>(&mut seats)) {
        (Some(second), Some(first)) => take_turns(rt, alloc, &desk, first, second),
        _ => panic!(rt; "two seats"),
    }
    desk.end(rt);
}

fn take_turns<N: DeskName, R: Wait + Abort>(
    rt: &R,
    alloc: Global,
    desk: &Desk<N>,
    mut first: Seat,
    mut second: Seat,
)
    requires { IsSeatOf N.book N.callers first × IsSeatOf N.book N.callers second }
{
    let receipt = commit(rt, desk, &mut first, register(rt, alloc, "q1", "tea"));
    assert!(rt; receipt.place() == 1);
    assert!(rt; receipt.applied() == Applied::Registered(1));
    second.learn(&receipt);
    second.learn(&receipt);
    sees(rt, &mut second, (1, 1));
    commit(rt, desk, &mut first, register(rt, alloc, "q2", "coffee"));
    sees(rt, &mut second, (2, 2));
    sees(rt, &mut first, (2, 2));
}
