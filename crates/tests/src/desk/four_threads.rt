//! Two callers that commit, by lists or in turns, one that purges, and a merger, in four threads.
ghost use Rattle.std.specs.Prelude.{◌≡◌, IsTrue};
ghost use Rattle.clip_desk.specs.Updates.{all_heard};
ghost use Rattle.clip_model.specs.History.{fits};
ghost use Rattle.clip_standing.specs.Command.{command_of};
ghost use Rattle.clip_desk.specs.Locked.{IsSeatOf};

use crate::desk::making::{commit, parts_of, pop_seat, purge, register};
use crate::desk::plain::{Plain, STEPS, Step, steps_of, told};
use crate::desk::receipts::{check_turns, take_turns};
use crate::desk::room::{Plan, Room};
use crate::desk::types::{Desk, DeskParts, Seat};
use clip_desk::{DeskName, Nudge};
use clip_match::{Registrar, View, match_article};
use clip_meaning::Article;
use clip_registry::History;
use clip_samples::{article, owned};
use clip_standing::{Alert, Command};
use std::alloc::Global;
use std::marker::Brand;
use std::process::Abort;
use std::sync::Wait;
use std::test::Fail;
use std::thread::{Threads, join};

/// How often the third caller purges.
const PURGES: u32 = 300;

/// The article of a text.
fn article_of<R: Abort>(rt: &R, alloc: Global, text: &str) -> Article {
    article(alloc, "a", &[("text", text)])
        .ok()
        .expect(rt, "an article")
}

/// Checks that the alerts are those of just the queries with one of these two texts.
fn check_alerts<R: Abort>(rt: &R, plain: &Plain, alerts: &[Alert], texts: [&str; 2]) {
    let mut alerts = alerts.iter();
    for (id, text) in plain.texts().iter() {
        if text.as_str() == texts[0] || text.as_str() == texts[1] {
            let alert = alerts.next().expect(rt, "an alert");
            assert!(rt; alert.query().as_str() == id.as_str());
        }
    }
    assert!(rt; alerts.next().is_none());
}

/// Checks what a look answers of two articles: what a filter over its own history does.
fn check_view<R: Abort>(rt: &R, alloc: Global, view: &View) {
    let mut plain = Plain::new(alloc);
    assert!(rt; plain.take_history(&view.history()).is_ok(), "no memory");
    assert!(rt; view.count() == plain.texts().len() as u64);
    let tea = article_of(rt, alloc, "Green tea");
    match match_article(alloc, view, &tea) {
        Ok(found) => check_alerts(rt, &plain, &found.alerts, ["tea", "+tea -milk"]),
        Err(_) => panic!(rt; "no match"),
    }
    let coffee = article_of(rt, alloc, "Coffee with milk");
    match match_article(alloc, view, &coffee) {
        Ok(found) => check_alerts(rt, &plain, &found.alerts, ["coffee", "coffee"]),
        Err(_) => panic!(rt; "no match"),
    }
}

/// Takes a look, and checks what it answers.
fn check_look<R: Abort>(rt: &R, alloc: Global, seat: &mut Seat)
    ensures { (seat.new.book ≡ seat.old.book) × (seat.new.callers ≡ seat.old.callers) }
{
    match seat.look() {
        Ok(view) => check_view(rt, alloc, &view),
        Err(_) => panic!(rt; "no look"),
    }
}

/// The command of a step.
fn command<R: Abort>(rt: &R, alloc: Global, step: &Step) -> Command
    ensures { IsTrue (fits (command_of result)) }
{
    if step.text.is_empty() {
        return delete(rt, alloc, &step.id);
    }
    register(rt, alloc, &step.id, step.text)
}

/// The command that deletes one query.
fn delete<R: Abort>(rt: &R, alloc: Global, id: &str) -> Command
    ensures { IsTrue (fits (command_of result)) }
{
    let Ok(ids) = owned(alloc, &[id]) else {
        panic!(rt; "no memory")
    };
    let command = Command::Delete(ids);
    if !command.fits() {
        panic!(rt; "an id")
    }
    command
}

/// The commands of a caller.
fn steps<R: Abort>(rt: &R, alloc: Global, caller: u32) -> Vec<Step> {
    steps_of(alloc, caller).ok().expect(rt, "no memory")
}

/// Commits all commands of the seat's caller, nudges the merger after each, and looks now and then.
fn commit_steps<N: DeskName, R: Wait + Abort>(rt: &R, room: &Room<N>, mut seat: Seat) -> Seat
    requires { IsSeatOf N.book N.callers seat }
    ensures { IsSeatOf N.book N.callers result }
{
    for (number, step) in steps(rt, room.alloc, seat.caller()).iter().enumerate() {
        let command = command(rt, room.alloc, step);
        commit(rt, &room.desk, &mut seat, command);
        // A nudge that is refused memory is dropped.
        let _ = room.sender.send(rt, Nudge::Merge);
        if number % 100 == 99 {
            check_look(rt, room.alloc, &mut seat);
        }
    }
    seat
}

/// Does what the plan says for the seat's caller.
fn follow_plan<N: DeskName, R: Wait + Abort>(rt: &R, room: &Room<N>, seat: Seat) -> Seat
    requires { IsSeatOf N.book N.callers seat }
    ensures { IsSeatOf N.book N.callers result }
{
    match room.plan {
        Plan::Lists => commit_steps(rt, room, seat),
        Plan::Turns => take_turns(rt, room, seat),
    }
}

/// Purges, and looks now and then.
fn purge_often<N: DeskName, R: Wait + Abort>(rt: &R, room: &Room<N>, mut seat: Seat) -> Seat
    requires { IsSeatOf N.book N.callers seat }
    ensures { IsSeatOf N.book N.callers result }
{
    for number in 0..PURGES {
        purge(rt, &room.desk, &mut seat);
        if number % 15 == 14 {
            check_look(rt, room.alloc, &mut seat);
        }
    }
    seat
}

/// Merges until it is told to stop.
fn merge_often<N: DeskName, R: Wait>(rt: &R, room: &Room<N>) {
    room.desk.serve_merges(rt, &room.nudges);
}

/// The second caller commits while the third purges.
fn run_last<N: DeskName + Send + Sync, R: Threads + Wait + Abort + Sync>(
    rt: &R,
    room: &Room<N>,
    two: Seat,
    three: Seat,
) -> (Seat, Seat)
    requires { IsSeatOf N.book N.callers two × IsSeatOf N.book N.callers three }
    ensures { IsSeatOf N.book N.callers result.0 × IsSeatOf N.book N.callers result.1 }
{
    join(
        rt,
        || -> Seat
            requires { IsSeatOf N.book N.callers two }
            ensures { IsSeatOf N.book N.callers result }
        { follow_plan(rt, room, two) },
        || -> Seat
            requires { IsSeatOf N.book N.callers three }
            ensures { IsSeatOf N.book N.callers result }
        { purge_often(rt, room, three) },
    )
}

/// The first two callers commit while the third purges, and then the merger is told to stop.
fn run_callers<N: DeskName + Send + Sync, R: Threads + Wait + Abort + Sync>(
    rt: &R,
    room: &Room<N>,
    one: Seat,
    two: Seat,
    three: Seat,
) -> (Seat, (Seat, Seat))
    requires one { IsSeatOf N.book N.callers one }
    requires others { IsSeatOf N.book N.callers two × IsSeatOf N.book N.callers three }
    ensures one { IsSeatOf N.book N.callers result.0 }
    ensures others { IsSeatOf N.book N.callers result.1.0 × IsSeatOf N.book N.callers result.1.1 }
{
    let seats = join(
        rt,
        || -> Seat
            requires { IsSeatOf N.book N.callers one }
            ensures { IsSeatOf N.book N.callers result }
        { follow_plan(rt, room, one) },
        || -> (Seat, Seat)
            requires { IsSeatOf N.book N.callers two × IsSeatOf N.book N.callers three }
            ensures { IsSeatOf N.book N.callers result.0 × IsSeatOf N.book N.callers result.1 }
        { run_last(rt, room, two, three) },
    );
    assert!(rt; room.sender.send(rt, Nudge::Merge).is_ok(), "sent");
    assert!(rt; room.sender.send(rt, Nudge::Stop).is_ok(), "sent");
    seats
}

/// The three callers do their work beside the merger.
fn run_all<N: DeskName + Send + Sync, R: Threads + Wait + Abort + Sync>(
    rt: &R,
    room: &Room<N>,
    one: Seat,
    two: Seat,
    three: Seat,
) -> (Seat, (Seat, Seat))
    requires one { IsSeatOf N.book N.callers one }
    requires others { IsSeatOf N.book N.callers two × IsSeatOf N.book N.callers three }
    ensures one { IsSeatOf N.book N.callers result.0 }
    ensures others { IsSeatOf N.book N.callers result.1.0 × IsSeatOf N.book N.callers result.1.1 }
{
    let (_, seats) = join(
        rt,
        || merge_often(rt, room),
        || -> (Seat, (Seat, Seat))
            requires one { IsSeatOf N.book N.callers one }
            requires others { IsSeatOf N.book N.callers two × IsSeatOf N.book N.callers three }
            ensures one { IsSeatOf N.book N.callers result.0 }
            ensures others { IsSeatOf N.book N.callers result.1.0 × IsSeatOf N.book N.callers result.1.1 }
        { run_callers(rt, room, one, two, three) },
    );
    seats
}

#[test]
fn two_callers_a_purger_and_a_merger(rt: HostRuntime) -> Result<(), Fail> {
    run_plan(&rt, Plan::Lists)
}

#[test]
fn two_callers_wait_for_each_others_receipts(rt: HostRuntime) -> Result<(), Fail> {
    run_plan(&rt, Plan::Turns)
}

fn run_plan<R: Threads + Wait + Abort + Sync + AllocGlobal>(
    rt: &R,
    plan: Plan,
) -> Result<(), Fail> {
    let parts = parts_of(rt, rt.alloc(), 1, 3)?;
    run_four::<Brand, _>(rt, rt.alloc(), parts, plan);
    Ok(())
}

fn run_four<N: DeskName + Send + Sync, R: Threads + Wait + Abort + Sync>(
    rt: &R,
    alloc: Global,
    parts: DeskParts,
    plan: Plan,
)
    requires book { (parts.book ≡ N.book) × (parts.callers ≡ N.callers) }
    requires heard { N.heard_before ≡ all_heard parts.updates }
    requires keeps { parts.keeps ≡ N.keeps }
{
    let (desk, mut seats) = Desk::<N>::open(parts);
    let (Some(three), Some(two), Some(one)) = (
        pop_seat::<N>(&mut seats),
        pop_seat::<N>(&mut seats),
        pop_seat::<N>(&mut seats),
    ) else {
        panic!(rt; "three seats")
    };
    let room = Room::new(rt, alloc, desk, plan);
    let (one, (two, three)) = run_all(rt, &room, one, two, three);
    close_three(rt, room, one, two, three);
}

/// Closes the desk, and checks what it leaves.
fn close_three<N: DeskName, R: Wait + Abort>(
    rt: &R,
    room: Room<N>,
    one: Seat,
    two: Seat,
    three: Seat,
)
    requires one { IsSeatOf N.book N.callers one }
    requires others { IsSeatOf N.book N.callers two × IsSeatOf N.book N.callers three }
{
    let (alloc, plan, desk) = (room.alloc, room.plan, room.into_desk());
    let Ok(all) = Vec::from_array(alloc, [one, two, three]) else {
        desk.end(rt);
        return;
    };
    match desk.close(rt, all) {
        Ok(closed) => match plan {
            Plan::Lists => check_closed(rt, alloc, &closed.registrar),
            Plan::Turns => check_turns(rt, &closed.registrar.history()),
        },
        Err(_) => panic!(rt; "all seats are there"),
    }
}

/// Checks that the history has the commands of both lists and no more, that what is registered is what they
/// leave, and that nothing is left to merge.
fn check_closed<R: Abort>(rt: &R, alloc: Global, registrar: &Registrar) {
    let (ones, twos) = (steps(rt, alloc, 1), steps(rt, alloc, 2));
    let history = registrar.history();
    assert!(rt; history.len() as u64 == STEPS.wrapping_mul(2));
    check_caller(rt, &history, 1, &ones);
    check_caller(rt, &history, 2, &twos);
    let mut plain = Plain::new(alloc);
    assert!(rt; plain.take_steps(&ones).is_ok(), "no memory");
    assert!(rt; plain.take_steps(&twos).is_ok(), "no memory");
    match registrar.view() {
        Ok(view) => check_registered(rt, &view, &plain),
        Err(_) => panic!(rt; "no view"),
    }
    assert!(rt;
        matches!(registrar.begin(), Ok(None)),
        "nothing is left to merge"
    );
}

/// Checks that the caller's commands are in the history once each and in order.
fn check_caller<R: Abort>(rt: &R, history: &History<'_>, caller: u32, steps: &[Step]) {
    let mut steps = steps.iter();
    let mut made = 0u64;
    for place in 0..history.len() {
        let entry = history.get(place).expect(rt, "an entry");
        if entry.caller == caller {
            let step = steps.next().expect(rt, "a command too many");
            assert!(rt; told(&entry.command) == (step.id.as_str(), step.text));
            made = made.wrapping_add(1);
            assert!(rt; entry.number == made);
        }
    }
    assert!(rt; steps.next().is_none());
}

/// Checks that just the queries of the map are registered.
fn check_registered<R: Abort>(rt: &R, view: &View, plain: &Plain) {
    assert!(rt; view.count() == plain.texts().len() as u64);
    for (id, text) in plain.texts().iter() {
        assert!(rt; view.text_of(id.as_str()) == Some(text.as_str()));
    }
}
