//! Merges and purges of a shared desk, as looks show them.
ghost use Rattle.std.specs.Prelude.{◌≡◌};
ghost use Rattle.clip_desk.specs.Updates.{all_heard};

use crate::desk::making::{commit, open_with_four, parts_of, purge, register};
use crate::desk::types::{Desk, DeskParts, Seat};
use clip_desk::{DeskName, Nudge};
use clip_registry::MergeTurn;
use crossbeam_channel::unbounded;
use std::alloc::Global;
use std::marker::Brand;
use std::process::Abort;
use std::sync::Wait;
use std::test::Fail;

/// How many segments a look shows, and how many entries they have.
fn look_inside<R: Abort>(rt: &R, seat: &mut Seat) -> (usize, usize)
    ensures { (seat.new.book ≡ seat.old.book) × (seat.new.callers ≡ seat.old.callers) }
{
    let view = match seat.look() {
        Ok(view) => view,
        Err(_) => panic!(rt; "no look"),
    };
    let segments = view.segments();
    let mut entries = 0usize;
    for segment in segments {
        entries = entries.wrapping_add(segment.len());
    }
    (segments.len(), entries)
}

/// A look shows so many segments, which have so many entries.
fn sees_inside<R: Abort>(rt: &R, seat: &mut Seat, wanted: (usize, usize))
    ensures { (seat.new.book ≡ seat.old.book) × (seat.new.callers ≡ seat.old.callers) }
{
    assert!(rt; look_inside(rt, seat) == wanted);
}

#[test]
fn four_segments_become_one_and_a_purge_leaves_no_dead_entry(rt: HostRuntime) -> Result<(), Fail> {
    let parts = parts_of(&rt, rt.alloc(), 1, 1)?;
    run_merge::<Brand, _>(&rt, rt.alloc(), parts);
    Ok(())
}

fn run_merge<N: DeskName, R: Wait + Abort>(rt: &R, alloc: Global, parts: DeskParts)
    requires book { (parts.book ≡ N.book) × (parts.callers ≡ N.callers) }
    requires heard { N.heard_before ≡ all_heard parts.updates }
    requires keeps { parts.keeps ≡ N.keeps }
{
    let (desk, mut seat) = open_with_four::<N, _>(rt, alloc, parts);
    sees_inside(rt, &mut seat, (4, 4));
    assert!(rt; desk.merge_once(rt) == Ok(MergeTurn::Installed));
    sees_inside(rt, &mut seat, (1, 4));
    assert!(rt; desk.merge_once(rt) == Ok(MergeTurn::Nothing));
    commit(rt, &desk, &mut seat, register(rt, alloc, "q1", "coffee"));
    sees_inside(rt, &mut seat, (2, 5));
    purge(rt, &desk, &mut seat);
    sees_inside(rt, &mut seat, (2, 4));
    desk.end(rt);
}

#[test]
fn nudges_are_served_until_stop(rt: HostRuntime) -> Result<(), Fail> {
    let parts = parts_of(&rt, rt.alloc(), 1, 1)?;
    run_nudges::<Brand, _>(&rt, rt.alloc(), parts);
    Ok(())
}

fn run_nudges<N: DeskName, R: Wait + Abort>(rt: &R, alloc: Global, parts: DeskParts)
    requires book { (parts.book ≡ N.book) × (parts.callers ≡ N.callers) }
    requires heard { N.heard_before ≡ all_heard parts.updates }
    requires keeps { parts.keeps ≡ N.keeps }
{
    let (desk, mut seat) = open_with_four::<N, _>(rt, alloc, parts);
    serve_each(rt, alloc, &desk, &[Nudge::Merge, Nudge::Stop]);
    sees_inside(rt, &mut seat, (1, 4));
    desk.end(rt);
}

/// Serves a channel that holds these nudges, and is closed behind them.
fn serve_each<N: DeskName, R: Wait + Abort>(
    rt: &R,
    alloc: Global,
    desk: &Desk<N>,
    standing: &[Nudge],
) {
    let (sender, nudges) = match unbounded(alloc) {
        Ok(ends) => ends,
        Err(_) => panic!(rt; "no channel"),
    };
    for nudge in standing {
        assert!(rt; sender.send(rt, *nudge).is_ok(), "sent");
    }
    drop(sender);
    desk.serve_merges(rt, &nudges);
    assert!(rt; nudges.len() == 0);
}

#[test]
fn matched_articles_pay_for_one_segment(rt: HostRuntime) -> Result<(), Fail> {
    let parts = parts_of(&rt, rt.alloc(), 1, 1)?;
    run_matched::<Brand, _>(&rt, rt.alloc(), parts);
    Ok(())
}

/// Four segments of one entry each, then one of four and one of one: an article pays 1 for the second, so the fifth
/// pays for all.
fn run_matched<N: DeskName, R: Wait + Abort>(rt: &R, alloc: Global, parts: DeskParts)
    requires book { (parts.book ≡ N.book) × (parts.callers ≡ N.callers) }
    requires heard { N.heard_before ≡ all_heard parts.updates }
    requires keeps { parts.keeps ≡ N.keeps }
{
    let (desk, mut seat) = open_with_four::<N, _>(rt, alloc, parts);
    serve_each(rt, alloc, &desk, &[Nudge::Merge]);
    commit(rt, &desk, &mut seat, register(rt, alloc, "q5", "coffee"));
    serve_each(rt, alloc, &desk, &[Nudge::Merge, Nudge::Matched(4)]);
    sees_inside(rt, &mut seat, (2, 5));
    serve_each(rt, alloc, &desk, &[Nudge::Matched(5), Nudge::Stop]);
    sees_inside(rt, &mut seat, (2, 5));
    serve_each(rt, alloc, &desk, &[Nudge::Matched(2), Nudge::Matched(3)]);
    sees_inside(rt, &mut seat, (1, 5));
    desk.end(rt);
}
