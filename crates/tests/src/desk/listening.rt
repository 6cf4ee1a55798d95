//! What update listeners of a desk hear.
ghost use Rattle.std.specs.Prelude.{◌≡◌};
ghost use Rattle.clip_desk.specs.Updates.{all_heard};
ghost use Rattle.clip_desk.specs.Locked.{IsSeatOf};

use crate::desk::making::{open_with_four, parts_with, purge};
use crate::desk::types::{Closed, Desk, DeskParts, Seat};
use crate::updates::lines;
use clip_desk::{DeskName, UpdateLog};
use std::alloc::Global;
use std::marker::Brand;
use std::process::Abort;
use std::sync::Wait;
use std::test::Fail;

#[test]
fn a_log_hears_four_commits_and_a_purge(rt: HostRuntime) -> Result<(), Fail> {
    let logs = Vec::from_array(rt.alloc(), [UpdateLog::new(rt.alloc())])?;
    let parts = parts_with(&rt, rt.alloc(), 1, 1, logs)?;
    run_purge::<Brand, _>(&rt, rt.alloc(), parts);
    Ok(())
}

fn run_purge<N: DeskName, R: Wait + Abort>(rt: &R, alloc: Global, parts: DeskParts)
    requires book { (parts.book ≡ N.book) × (parts.callers ≡ N.callers) }
    requires heard { N.heard_before ≡ all_heard parts.updates }
    requires keeps { parts.keeps ≡ N.keeps }
{
    let (desk, mut seat) = open_with_four::<N, _>(rt, alloc, parts);
    purge(rt, &desk, &mut seat);
    close_one(rt, alloc, desk, seat);
}

fn close_one<N: DeskName, R: Wait + Abort>(rt: &R, alloc: Global, desk: Desk<N>, seat: Seat)
    requires { IsSeatOf N.book N.callers seat }
{
    let Ok(all) = Vec::from_array(alloc, [seat]) else {
        desk.end(rt);
        return;
    };
    match desk.close(rt, all) {
        Ok(closed) => check_log(rt, alloc, &closed),
        Err(_) => panic!(rt; "all seats are there"),
    }
}

/// Checks that the one log heard all and missed nothing.
fn check_log<R: Abort>(rt: &R, alloc: Global, closed: &Closed) {
    let (log, missed) = closed.updates.first().expect(rt, "one log");
    assert!(rt; !*missed, "it missed nothing");
    let told = lines(alloc, log).ok().expect(rt, "no memory");
    assert!(rt; told.as_str() == "updated q1\nupdated q2\nupdated q3\nupdated q4\npurged\n");
}
