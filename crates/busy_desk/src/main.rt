//! A desk of two callers, in one of two forms.
//!
//! Of three numbers the first says how many queries are registered first, in lists, and the others how many are
//! registered and deleted after that, one by one, by one caller while the other holds a look.
//!
//! After `merging` or `unmerged` a number says how many commits one thread makes, of one query each, while another
//! looks; a third merges, or does not. The times of the calls are printed.
#![tactic(auto)]

ghost use Rattle.std.specs.Prelude.{◌≡◌, IfSome, IsTrue};
ghost use Rattle.clip_desk.specs.Updates.{all_heard};
ghost use Rattle.clip_desk.specs.Locked.{IsSeatOf, AreSeatsOf};
ghost use Rattle.clip_model.specs.History.{fits};
ghost use Rattle.clip_standing.specs.Command.{command_of};

mod commands;
mod desk;
mod merging;

use crate::desk::{Desk, DeskParts, Seat};
use anyhow::{Result, bail};
use clip_desk::{DeskName, UpdateListeners};
use clip_match::View;
use clip_standing::Command;
use commands::{Change, change_one, register_from};
use merging::{Merger, Report, Times, measure};
use std::alloc::Global;
use std::env;
use std::marker::Brand;
use std::ops::Range;
use std::rt::Env;
use std::sync::Wait;

/// The most queries of one list.
const MOST_LISTED: u64 = 1024;

/// How many queries are registered in lists, and then one by one, and how many are deleted one by one.
#[derive(Clone, Copy)]
struct Work {
    listed: u64,
    registers: u64,
    deletes: u64,
}

/// One kind of change to queries of successive numbers.
struct Changes {
    change: Change,
    numbers: Range<u64>,
}

/// What the program is to do.
#[derive(Clone, Copy)]
enum Form {
    /// Commits while a look is held.
    Held(Work),
    /// So many commits beside looks, and beside a merger.
    Beside(u64, Merger),
}

/// What the program's words name.
fn form_of<R: Env + AllocGlobal>(rt: &R) -> Result<Form> {
    let mut words = Vec::new(rt.alloc());
    for word in env::args(rt)?.skip(1) {
        words.push(word)?;
    }
    match words.as_slice() {
        [listed, registers, deletes] => Ok(Form::Held(Work {
            listed: listed.parse()?,
            registers: registers.parse()?,
            deletes: deletes.parse()?,
        })),
        [kind, commits] => match kind.as_str() {
            "merging" => Ok(Form::Beside(commits.parse()?, Merger::Nudged)),
            "unmerged" => Ok(Form::Beside(commits.parse()?, Merger::Idle)),
            _ => bail!("busy_desk merging COMMITS, or unmerged COMMITS"),
        },
        _ => bail!(
            "usage: busy_desk LISTED REGISTERS DELETES, or merging COMMITS, or unmerged COMMITS"
        ),
    }
}

/// Commits a command, which is not refused.
fn commit<N: DeskName, R: Wait>(
    rt: &R,
    desk: &Desk<N>,
    seat: &mut Seat,
    command: Command,
) -> Result<()>
    requires desk { IsSeatOf N.book N.callers seat.old }
    ensures seat { IsSeatOf N.book N.callers seat.new }
{
    if !command.fits() {
        bail!("the command does not fit");
    }
    match desk.commit(rt, seat, command) {
        Ok(_) => Ok(()),
        Err((_, refused)) => Err(refused.into()),
    }
}

/// Registers queries in lists.
fn fill<N: DeskName, R: Wait>(
    rt: &R,
    alloc: Global,
    desk: &Desk<N>,
    seat: &mut Seat,
    listed: u64,
) -> Result<()>
    requires { IsSeatOf N.book N.callers seat.old }
    ensures { IsSeatOf N.book N.callers seat.new }
{
    for list in 0..listed.div_ceil(MOST_LISTED) {
        let first = list.saturating_mul(MOST_LISTED);
        let end = listed.min(first.saturating_add(MOST_LISTED));
        commit(rt, desk, seat, register_from(alloc, first, end)?)?;
    }
    Ok(())
}

/// Commits changes, each while a look is held that was taken just before.
fn change_each<N: DeskName, R: Wait>(
    rt: &R,
    alloc: Global,
    desk: &Desk<N>,
    writer: &mut Seat,
    reader: &mut Seat,
    changes: Changes,
) -> Result<()>
    requires { IsSeatOf N.book N.callers writer.old × IsSeatOf N.book N.callers reader.old }
    ensures { IsSeatOf N.book N.callers writer.new × IsSeatOf N.book N.callers reader.new }
{
    let Changes { change, numbers } = changes;
    for number in numbers {
        let held = reader.look()?;
        commit(rt, desk, writer, change_one(alloc, change, number)?)?;
        drop(held);
    }
    Ok(())
}

/// Does the work at a desk, and returns a last look.
fn work_at<N: DeskName, R: Wait>(
    rt: &R,
    alloc: Global,
    desk: &Desk<N>,
    mut seats: Vec<Seat>,
    work: Work,
) -> Result<View>
    requires { AreSeatsOf N.book N.callers seats.items }
{
    let (Some(mut reader), Some(mut writer)) = (seat_of::<N>(&mut seats), seat_of::<N>(&mut seats))
    else {
        bail!("a desk of two callers has two seats");
    };
    fill(rt, alloc, desk, &mut writer, work.listed)?;
    let registers = Changes {
        change: Change::Register,
        numbers: work.listed..work.listed.saturating_add(work.registers),
    };
    change_each(rt, alloc, desk, &mut writer, &mut reader, registers)?;
    let deletes = Changes {
        change: Change::Delete,
        numbers: 0..work.deletes,
    };
    change_each(rt, alloc, desk, &mut writer, &mut reader, deletes)?;
    Ok(reader.look()?)
}

/// The last of the seats.
fn seat_of<N: DeskName>(seats: &mut Vec<Seat>) -> Option<Seat>
    requires { AreSeatsOf N.book N.callers seats.old.items }
    ensures rest { AreSeatsOf N.book N.callers seats.new.items }
    ensures seat { IfSome result (IsSeatOf N.book N.callers) }
{
    seats.pop()
}

/// Opens a desk of these parts, does the work at it, and ends it.
fn play<N: DeskName, R: Wait>(rt: &R, alloc: Global, parts: DeskParts, work: Work) -> Result<View>
    requires { (parts.book ≡ N.book) × (parts.callers ≡ N.callers) × (N.heard_before ≡ all_heard parts.updates)
        × (parts.keeps ≡ N.keeps) }
{
    let (desk, seats) = Desk::<N>::open(parts);
    let last = work_at(rt, alloc, &desk, seats, work);
    desk.end(rt);
    last
}

/// The parts of a desk of two callers, without listeners.
fn parts_of<R: Wait>(rt: &R, alloc: Global) -> Result<DeskParts> {
    let Ok(updates) = UpdateListeners::new(alloc, Vec::new(alloc)) else {
        bail!("no memory");
    };
    match DeskParts::new(rt, alloc, 1, 2, updates) {
        Ok(parts) => Ok(parts),
        Err((_, refused)) => Err(refused.into()),
    }
}

/// Prints how often calls were made, and how many nanoseconds they took: the mean, and the longest.
fn print_times<R: Print>(rt: &R, name: &str, times: Times) -> Result<()> {
    let (mean, longest) = (times.mean(), times.longest());
    println!(rt; "{name} {} {mean} {longest}", times.count())?;
    Ok(())
}

fn print_report<R: Print>(rt: &R, report: Report) -> Result<()> {
    print_times(rt, "commits", report.commits)?;
    print_times(rt, "looks", report.looks.looks)?;
    print_times(rt, "matches", report.looks.matches)?;
    println!(rt; "segments {}", report.segments)?;
    println!(rt; "queries {}", report.queries)?;
    Ok(())
}

fn main(rt: HostRuntime) -> Result<()> {
    let form = form_of(&rt)?;
    let alloc = rt.alloc();
    let parts = parts_of(&rt, alloc)?;
    match form {
        Form::Held(work) => {
            let last = play::<Brand, _>(&rt, alloc, parts, work)?;
            println!(rt; "{} queries after {} commands", last.count(), last.place())?;
        }
        Form::Beside(commits, merger) => {
            print_report(
                &rt,
                measure::<Brand, _>(&rt, alloc, parts, commits, merger)?,
            )?;
        }
    }
    Ok(())
}
