//! Merges and purges of a shared desk. What is registered and the history stay.
ghost use Rattle.std.specs.Prelude.{◌≡◌, ◌≢◌, ◌+◌, ◌≤◌, ◌↔◌, length, OnOk, OnErr};

use crate::desk::Desk;
use crate::locked::DeskName;
use crate::refused::Refused;
use crate::seat::Seat;
use crate::update_listener::UpdateListener;
use clip_indexed::Index;
use clip_registry::{Installed, MergeJob, MergeTurn, Merged, Payment};
use clip_words::NoMemory;
use crossbeam_channel::Receiver;
use std::sync::{MutexGuard, Wait};

/// What a desk's merging thread is told.
#[derive(Clone, Copy, Debug, PartialEq, Eq)]
pub enum Nudge {
    /// There may be segments to merge.
    Merge,
    /// So many articles more were matched: once they have paid for it, all segments become one.
    Matched(usize),
    /// No more nudges come.
    Stop,
}

/// What nudges ask for together.
#[derive(Clone, Copy)]
struct Asked {
    merges: bool,
    matched: usize,
    stops: bool,
}

impl Asked {
    /// Adds what a nudge asks for.
    fn add(&mut self, nudge: Nudge) {
        match nudge {
            Nudge::Merge => self.merges = true,
            Nudge::Matched(articles) => self.matched = self.matched.saturating_add(articles),
            Nudge::Stop => self.stops = true,
        }
    }
}

/// Takes a nudge and those that stand in a channel, up to the first `Stop`, and gives what they ask for. It costs a
/// step for each of them.
fn take_standing<R: Wait>(rt: &R, first: Nudge, nudges: &Receiver<Nudge>) -> Asked {
    let mut asked = Asked {
        merges: false,
        matched: 0,
        stops: false,
    };
    asked.add(first);
    for _ in 0..nudges.len() {
        if asked.stops {
            return asked;
        }
        if let Ok(nudge) = nudges.try_recv(rt) {
            asked.add(nudge);
        }
    }
    asked
}

impl<N: DeskName, I: Index, L: UpdateListener> Desk<N, I, L> {
    /// Leaves each segment with just its live entries, takes the empty ones away, publishes that, and tells the
    /// listeners: `Foreign` for a seat of another tag, and `NoMemory` where an allocation failed, with nothing changed
    /// and nothing told. The seat counts the purge, and keeps how long the history was then, which is no shorter than
    /// what it has seen: a look with it shows no entry that was dead at that place. It may wait for other callers'
    /// commits, and for readers that look. It costs that of `Registrar::purge`, and what each listener takes.
    pub fn purge<R: Wait>(&self, rt: &R, seat: &mut Seat<I>) -> Result<(), Refused>
        ensures purged { OnOk result ((length seat.old.seen ≤ seat.new.purged_at)
            × (length seat.old.mine ≤ seat.new.purged_at)) }
        ensures counted { OnOk result (seat.new.purges ≡ seat.old.purges + 1) }
        ensures later { seat.old.purged_at ≤ seat.new.purged_at }
        ensures stays { OnErr result (seat.new ≡ seat.old) }
        ensures foreign { (result ≡ Err Refused.Foreign) ↔ (seat.old.tag ≢ self.now.tag) }
        ensures never_full { result ≢ Err Refused.Full }
        ensures seat { seat.new ≡ record seat.old { purged_at = seat.new.purged_at; purges = seat.new.purges } }
    {
        if seat.tag() != self.tag {
            return Err(Refused::Foreign);
        }
        let mut guard = self.locked.lock(rt);
        let answer = guard.purge(rt, seat);
        MutexGuard::unlock(guard);
        answer?;
        Ok(())
    }

    /// Whether so many matched articles more have paid for one segment in the place of all.
    fn is_merge_due<R: Wait>(&self, rt: &R, payment: &mut Payment, matched: usize) -> bool {
        let guard = self.locked.lock(rt);
        let is_due = guard.is_merge_due(payment, matched);
        MutexGuard::unlock(guard);
        is_due
    }

    /// A job over the segments that a merge turn makes one, where there are some.
    fn begin_turn<R: Wait>(&self, rt: &R, to_one: bool) -> Result<Option<MergeJob<I>>, NoMemory> {
        let guard = self.locked.lock(rt);
        let job = guard.begin_turn(to_one);
        MutexGuard::unlock(guard);
        job
    }

    /// Installs a merge, and publishes it.
    fn install<R: Wait>(&self, rt: &R, merged: Merged<I>) -> Result<Installed, NoMemory> {
        let mut guard = self.locked.lock(rt);
        let answer = guard.install(rt, merged);
        MutexGuard::unlock(guard);
        answer
    }

    /// Takes a merge turn, to one segment or not.
    fn take_turn<R: Wait>(&self, rt: &R, to_one: bool) -> Result<MergeTurn, NoMemory> {
        let Some(job) = self.begin_turn(rt, to_one)? else {
            return Ok(MergeTurn::Nothing);
        };
        let merged = job.run()?;
        match self.install(rt, merged)? {
            Installed::Done => Ok(MergeTurn::Installed),
            Installed::Stale => Ok(MergeTurn::Stale),
        }
    }

    /// Takes a merge turn: merges the oldest four neighbouring segments of one level, or, where there are no such four,
    /// all segments from the oldest on behind which one has a higher level, and publishes that. What is registered
    /// stays, and so does the history: commits of other threads while it merges are kept. It may find its merge stale
    /// where another thread merged or purged, or a clear came between. `NoMemory` where an allocation failed, with
    /// nothing changed; a later call may merge them.
    ///
    /// It may wait for other callers' commits, and for readers that look. It costs that of `Registrar::begin_turn`, and
    /// where there are segments to merge that of `MergeJob::run` and of `Registrar::install`. Commits go on while the
    /// job is run.
    pub fn merge_once<R: Wait>(&self, rt: &R) -> Result<MergeTurn, NoMemory> {
        self.take_turn(rt, false)
    }

    /// Takes merge turns, to one segment or not, until there is nothing to merge, or a merge is stale or is refused
    /// memory; then a later call may merge what is left. It waits as `merge_once` does, and costs that for each turn.
    pub fn merge_all<R: Wait>(&self, rt: &R, to_one: bool) {
        for _ in rt.forever() {
            let Ok(MergeTurn::Installed) = self.take_turn(rt, to_one) else {
                return;
            };
        }
    }

    /// Merges at each nudge, until a `Stop` comes or the channel is closed. It takes all nudges that stand in the
    /// channel at once, and then merges until nothing is left to merge, so one `Merge` does for many. At a `Matched` it
    /// merges once its articles and those before have paid for one segment in the place of all, which these become then
    /// (`Payment::is_due`), but not where a `Stop` stands behind it. Where a merge is stale, or is refused for want of
    /// memory, nothing is changed, and the next nudge merges again. A `Stop` ends it after the merges that stood before
    /// it.
    ///
    /// It waits for nudges, for other callers' commits, and for readers that look. Each merge costs that of
    /// `merge_once`, and each `Matched` a step for each segment.
    pub fn serve_merges<R: Wait>(&self, rt: &R, nudges: &Receiver<Nudge>) {
        let mut payment = Payment::towards(usize::MAX);
        for _ in rt.forever() {
            let Ok(first) = nudges.recv(rt) else {
                return;
            };
            if first == Nudge::Stop {
                return;
            }
            let asked = take_standing(rt, first, nudges);
            let to_one = !asked.stops
                && asked.matched > 0
                && self.is_merge_due(rt, &mut payment, asked.matched);
            if asked.merges || to_one {
                self.merge_all(rt, to_one);
            }
            if asked.stops {
                return;
            }
        }
    }
}
