//! A desk at which one thread commits, a second merges, and a third takes looks, with the times that calls took.
ghost use Rattle.std.specs.Prelude.{◌≡◌};
ghost use Rattle.clip_desk.specs.Updates.{all_heard};
ghost use Rattle.clip_desk.specs.Locked.{IsSeatOf};

use crate::commands::{Change, change_one};
use crate::desk::{Desk, DeskParts, Seat};
use crate::{commit, seat_of};
use anyhow::{Result, bail};
use clip_desk::{DeskName, Nudge};
use clip_match::match_article;
use clip_meaning::Article;
use crossbeam_channel::{Receiver, Sender, unbounded};
use std::alloc::Global;
use std::rt::Clock;
use std::sync::Wait;
use std::sync::atomic::{AtomicBool, Ordering};
use std::thread::{Threads, join};
use std::time::{Duration, Instant};

/// How many words the article has that is matched at each look.
const ARTICLE_WORDS: u64 = 20;

/// Whether the merger is told of commits.
#[derive(Clone, Copy, PartialEq, Eq)]
pub enum Merger {
    /// The merger is nudged after each commit.
    Nudged,
    /// The merger is told nothing, and merges nothing.
    Idle,
}

/// How long calls took.
#[derive(Clone, Copy)]
pub struct Times {
    count: u64,
    total: Duration,
    longest: Duration,
}

impl Times {
    fn none() -> Times {
        Times {
            count: 0,
            total: Duration::ZERO,
            longest: Duration::ZERO,
        }
    }

    fn add(&mut self, took: Duration) {
        self.count = self.count.saturating_add(1);
        self.total = self.total.saturating_add(took);
        self.longest = self.longest.max(took);
    }

    /// How many calls there were.
    pub fn count(&self) -> u64 {
        self.count
    }

    /// The mean of the calls in nanoseconds, or 0 where there was none.
    pub fn mean(&self) -> u128 {
        self.total
            .as_nanos()
            .checked_div(u128::from(self.count))
            .unwrap_or(0)
    }

    /// The longest of the calls in nanoseconds.
    pub fn longest(&self) -> u128 {
        self.longest.as_nanos()
    }
}

/// What the reader measured: its looks, and the matches at them.
#[derive(Clone, Copy)]
pub struct Looks {
    /// The looks.
    pub looks: Times,
    /// The matches of one article, one at each look.
    pub matches: Times,
}

/// What was measured.
#[derive(Clone, Copy)]
pub struct Report {
    /// The commits.
    pub commits: Times,
    /// The looks beside the commits.
    pub looks: Looks,
    /// How many segments there were in the end.
    pub segments: usize,
    /// How many queries there were in the end.
    pub queries: u64,
}

/// What the threads share.
struct Room<N: DeskName> {
    alloc: Global,
    desk: Desk<N>,
    sender: Sender<Nudge>,
    nudges: Receiver<Nudge>,
    is_done: AtomicBool,
    commits: u64,
    merger: Merger,
}

/// Registers one query by each commit, and returns the times of the commits alone.
fn commit_all<N: DeskName, R: Wait + Clock>(
    rt: &R,
    room: &Room<N>,
    seat: &mut Seat,
) -> Result<Times>
    requires { IsSeatOf N.book N.callers seat.old }
{
    let mut times = Times::none();
    for number in 0..room.commits {
        let command = change_one(room.alloc, Change::Register, number)?;
        let start = Instant::now(rt)?;
        commit(rt, &room.desk, seat, command)?;
        times.add(start.elapsed(rt)?);
        if room.merger == Merger::Nudged {
            // A nudge that is refused memory is dropped.
            let _ = room.sender.send(rt, Nudge::Merge);
        }
    }
    Ok(times)
}

/// Commits all, and then ends the other threads.
fn commit_and_end<N: DeskName, R: Wait + Clock>(
    rt: &R,
    room: &Room<N>,
    mut seat: Seat,
) -> (Seat, Result<Times>)
    requires { IsSeatOf N.book N.callers seat }
{
    let times = commit_all(rt, room, &mut seat);
    room.is_done.store(true, Ordering::SeqCst);
    let _ = room.sender.send(rt, Nudge::Stop);
    (seat, times)
}

/// An article of some words of the queries.
fn article(alloc: Global) -> Result<Article> {
    let mut text = String::new(alloc);
    for word in 0..ARTICLE_WORDS {
        text.push_str(format!(in alloc; "word{word} ")?.as_str())?;
    }
    let name = String::from_str(alloc, "text")?;
    Ok(Article::read(alloc, "a", &[(name, text)])?)
}

/// Takes a look, and matches the article at it.
fn look_once<R: Clock>(
    rt: &R,
    alloc: Global,
    seat: &mut Seat,
    article: &Article,
    taken: &mut Looks,
) -> Result<()> {
    let start = Instant::now(rt)?;
    let view = seat.look()?;
    taken.looks.add(start.elapsed(rt)?);
    let start = Instant::now(rt)?;
    match_article(alloc, &view, article)?;
    taken.matches.add(start.elapsed(rt)?);
    Ok(())
}

/// Takes looks until all is committed.
fn look_on<N: DeskName, R: Wait + Clock>(rt: &R, room: &Room<N>, mut seat: Seat) -> Result<Looks> {
    let article = article(room.alloc)?;
    let mut taken = Looks {
        looks: Times::none(),
        matches: Times::none(),
    };
    for _ in rt.forever() {
        if room.is_done.load(Ordering::SeqCst) {
            break;
        }
        look_once(rt, room.alloc, &mut seat, &article, &mut taken)?;
    }
    Ok(taken)
}

/// Takes looks until all is committed, or one is refused.
fn look_or_stop<N: DeskName, R: Wait + Clock>(rt: &R, room: &Room<N>, seat: Seat) -> Option<Looks> {
    look_on(rt, room, seat).ok()
}

/// Merges until it is told to stop.
fn merge_on<N: DeskName, R: Wait>(rt: &R, room: &Room<N>) {
    room.desk.serve_merges(rt, &room.nudges);
}

/// One thread commits while another looks.
fn run_callers<N: DeskName + Send + Sync, R: Threads + Wait + Clock + Sync>(
    rt: &R,
    room: &Room<N>,
    writer: Seat,
    reader: Seat,
) -> (Option<Looks>, (Seat, Result<Times>))
    requires { IsSeatOf N.book N.callers writer }
{
    join(
        rt,
        || look_or_stop(rt, room, reader),
        || -> (Seat, Result<Times>)
            requires { IsSeatOf N.book N.callers writer }
        { commit_and_end(rt, room, writer) },
    )
}

/// The two callers do their work beside the merger.
fn run_all<N: DeskName + Send + Sync, R: Threads + Wait + Clock + Sync>(
    rt: &R,
    room: &Room<N>,
    writer: Seat,
    reader: Seat,
) -> Result<Report>
    requires { IsSeatOf N.book N.callers writer }
{
    let (_, (looks, (mut seat, commits))) = join(
        rt,
        || merge_on(rt, room),
        || -> (Option<Looks>, (Seat, Result<Times>))
            requires { IsSeatOf N.book N.callers writer }
        { run_callers(rt, room, writer, reader) },
    );
    let Some(looks) = looks else {
        bail!("a look or a match failed");
    };
    let last = seat.look()?;
    Ok(Report {
        commits: commits?,
        looks,
        segments: last.segments().len(),
        queries: last.count(),
    })
}

/// Opens a desk of these parts, commits so often at it while looks are taken, and ends it.
pub fn measure<N: DeskName + Send + Sync, R: Threads + Wait + Clock + Sync>(
    rt: &R,
    alloc: Global,
    parts: DeskParts,
    commits: u64,
    merger: Merger,
) -> Result<Report>
    requires { (parts.book ≡ N.book) × (parts.callers ≡ N.callers) × (N.heard_before ≡ all_heard parts.updates)
        × (parts.keeps ≡ N.keeps) }
{
    let (desk, mut seats) = Desk::<N>::open(parts);
    let (Some(reader), Some(writer), Ok((sender, nudges))) = (
        seat_of::<N>(&mut seats),
        seat_of::<N>(&mut seats),
        unbounded(alloc),
    ) else {
        desk.end(rt);
        bail!("a desk of two callers has two seats, and its merger a channel");
    };
    let room = Room {
        alloc,
        desk,
        sender,
        nudges,
        is_done: AtomicBool::new(false),
        commits,
        merger,
    };
    let report = run_all(rt, &room, writer, reader);
    end_room(rt, room);
    report
}

/// Ends the desk.
fn end_room<N: DeskName, R: Wait>(rt: &R, room: Room<N>) {
    let Room {
        alloc: _,
        desk,
        sender: _sender,
        nudges: _nudges,
        is_done: _,
        commits: _,
        merger: _,
    } = room;
    desk.end(rt);
}
