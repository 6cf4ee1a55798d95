//! The run as the only caller at a desk.
ghost use Rattle.std.specs.Prelude.{◌≡◌, IfOk, OnOk};
ghost use Rattle.clip_desk.specs.Purges.{IsPurgedAt};
ghost use Rattle.clip_run.specs.Alone.{history_alone};
ghost use Rattle.clip_run.specs.Seated.{IsOnly};

use crate::desk::{Desk, Seat};
use crate::merging::{Merging, merged_after};
use clip_desk::{DeskName, Nudge, Refused};
use clip_front::Registry;
use clip_match::View;
use clip_standing::{Applied, Command};
use clip_words::NoMemory;
use crossbeam_channel::Sender;
use std::alloc::Global;
use std::marker::Model;
use std::sync::Wait;

/// How many matched articles the merging thread is told of at once, or more.
const ARTICLES_AT_ONCE: usize = 64;

/// The only caller at a desk, which has segments merged after each accepted command: by a merging thread that it tells,
/// or by merge turns of its own where there is none. It tells that thread of matched articles too. It is seen as what
/// was accepted, and how long the history was at its last purge.
#[derive(Drop)]
pub struct Caller<'r, 'd, R, N: DeskName> {
    rt: &'r R,
    desk: &'d Desk<N>,
    seat: Seat,
    nudges: Option<Sender<Nudge>>,
    matched: usize,
}

impl<'r, 'd, R, N: DeskName> Model for Caller<'r, 'd, R, N> {
    ghost use Rattle.clip_run.specs.Alone.{history_alone};
    ghost use Rattle.clip_run.specs.Caller.{CallerIs, caller_code};
    ghost use Rattle.clip_run.specs.Seated.{IsOnly};

    ghost Value = { CallerIs };

    ghost coded = { caller_code };

    ghost view = { λ c. record { history = history_alone c.seat.mine; purged_at = c.seat.purged_at } };

    ghost invariant = { λ c. IsOnly N.book N.callers c.desk.now c.seat };
}

impl<'r, 'd, R: Wait, N: DeskName> Caller<'r, 'd, R, N> {
    /// The caller of a seat, which merges by itself. Constant time.
    pub fn new(rt: &'r R, desk: &'d Desk<N>, seat: Seat) -> Caller<'r, 'd, R, N>
        requires { IsOnly N.book N.callers desk.now seat }
        ensures { result ≡ record { history = history_alone seat.mine; purged_at = seat.purged_at } }
    {
        Caller {
            rt,
            desk,
            seat,
            nudges: None,
            matched: 0,
        }
    }

    /// The caller, which tells a merging thread from now on. Constant time.
    pub fn with_merging_thread(self, nudges: Sender<Nudge>) -> Caller<'r, 'd, R, N>
        ensures { result ≡ self.entry }
    {
        Caller {
            rt: self.rt,
            desk: self.desk,
            seat: self.seat,
            nudges: Some(nudges),
            matched: self.matched,
        }
    }

    /// Counts matched articles, and tells the merging thread of 64 or more at once. A nudge that is refused memory is
    /// dropped. Constant time.
    pub fn count_matched(&mut self, articles: usize)
        ensures { self.new ≡ self.old }
    {
        let Some(nudges) = &self.nudges else {
            return;
        };
        self.matched = self.matched.saturating_add(articles);
        if self.matched >= ARTICLES_AT_ONCE {
            let _ = nudges.send(self.rt, Nudge::Matched(self.matched));
            self.matched = 0;
        }
    }

    /// What the caller starts threads by. Constant time.
    pub fn runtime(&self) -> &'r R {
        self.rt
    }

    /// The registry as it stands, with all that was accepted, and no entry that was dead at the caller's last purge.
    /// `NoMemory` where the desk's look answers it.
    pub fn look(&mut self) -> Result<View, NoMemory>
        ensures view { IfOk result (λ view. view.history ≡ self.old.history) }
        ensures purged { IfOk result (λ view. IsPurgedAt view self.old.purged_at) }
        ensures same { OnOk result (self.new ≡ self.old) }
    {
        self.seat.look()
    }

    /// Tells the merging thread to stop, and closes the channel to it.
    pub fn dismiss(&mut self)
        ensures { self.new ≡ self.old }
    {
        if let Some(nudges) = self.nudges.take() {
            let _ = nudges.send(self.rt, Nudge::Stop);
        }
    }
}

impl<'r, 'd, R: Wait, N: DeskName> Merging for Caller<'r, 'd, R, N> {
    ghost use Rattle.std.specs.Prelude.{◌≡◌};

    ghost merges = { λ old new. new ≡ old };

    /// A nudge that is refused memory is dropped.
    fn have_merged(&mut self) {
        match &self.nudges {
            Some(nudges) => {
                let _ = nudges.send(self.rt, Nudge::Merge);
            }
            None => self.desk.merge_all(self.rt, false),
        }
    }
}

impl<'r, 'd, R: Wait, N: DeskName> Registry for Caller<'r, 'd, R, N> {
    ghost use Rattle.clip_run.specs.Caller.{HasNotPurged, HasPurged};

    ghost history_in = { λ c. c.history };

    ghost purges = { HasPurged };

    ghost goes_on = { HasNotPurged };

    fn accept(&mut self, command: Command) -> Result<Option<Applied>, NoMemory> {
        match self.desk.commit(self.rt, &mut self.seat, command) {
            Ok(receipt) => Ok(Some(merged_after(receipt.applied(), self))),
            Err((_, Refused::Full)) => Ok(None),
            Err((_, Refused::NoMemory)) => Err(NoMemory),
            Err((_, Refused::Foreign)) => unreachable!(),
        }
    }

    fn purge_dead(&mut self) -> Result<(), NoMemory> {
        let Ok(()) = self.desk.purge(self.rt, &mut self.seat) else {
            return Err(NoMemory);
        };
        Ok(())
    }

    fn count(&mut self) -> Result<u64, NoMemory> {
        let view = self.look()?;
        Ok(view.count())
    }

    fn show(&mut self, alloc: Global, id: &str) -> Result<Option<String>, NoMemory> {
        let view = self.look()?;
        view.copied_text(alloc, id)
    }
}
