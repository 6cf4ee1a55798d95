//! The server of a run with workers.
//!
//!     lines    1 register   2 match [x y]      3 match [z]   4 register
//!     pending  text of 1    batch of x y       batch of z
//!     helpers                    y             z
//!
//! Each batch waits with the registry that the lines before it leave. Where no more lines stand read, or 32 batches
//! wait, this thread matches what no helper took (here x), and puts all that is owed in the order of the lines.
ghost use Rattle.std.specs.Prelude.{◌≡◌, ◌≢◌, ◌<◌, [], ◌∷◌, ◌++◌, map, false, true, Err, IfErr};
ghost use Rattle.std.specs.Prelude.{OnErr, OnOk};
ghost use Rattle.clip_stream.specs.Device.{AppendsFront, HandsOver};
ghost use Rattle.clip_front.specs.Outcome.{kept_rows};
ghost use Rattle.clip_front.specs.Steps.Serving.{AnswersInto, BreaksInto};
ghost use Rattle.clip_listen.specs.Heard.{told_all, HearsFront};
ghost use Rattle.clip_run.specs.Crews.{CrewIs, course, course_at};
ghost use Rattle.clip_run.specs.Due.{AreDue};
ghost use Rattle.clip_run.specs.Owed.{owed_of, matched, with_owed, BreaksIn, BreaksOff, PaysInto, StopsPaying, Turns};
ghost use Rattle.clip_run.specs.Owed.{TurnsIn, batches_owed};
ghost use Rattle.clip_run.specs.Pending.{owed_at, owed_by};

use crate::batch::{Batch, Pending};
use crate::caller::Caller;
use crate::giver::Giver;
use crate::group::{Answer, Group};
use crate::helpers::{Helpers, Load};
use clip_desk::{DeskName, Nudge};
use clip_front::{Settings, Step, take_line};
use clip_ledger::Ledger;
use clip_listen::Audience;
use clip_match::Gate;
use clip_protocol::JudgedDraft;
use clip_stream::{Flow, RunFault, Sink};
use clip_words::NoMemory;
use crossbeam_channel::Sender;
use std::alloc::Global;
use std::marker::Model;
use std::mem;
use std::sync::{Arc, Wait};
use std::thread::Threads;

/// The most batches that wait.
const MOST_WAITING: u32 = 32;

/// What answers the lines of a run: the only caller at a desk, what gives batches on its thread, what it owes, and the
/// threads that help it.
#[derive(Drop)]
pub struct Crew<'r, 'd, 'g, R, N: DeskName, G> {
    rt: &'r R,
    giver: Giver<'g, G>,
    caller: Caller<'r, 'd, R, N>,
    pending: Vec<Pending>,
    waiting: u32,
    load: Load,
    batches: u64,
    helpers: Helpers,
}

impl<'r, 'd, 'g, R, N: DeskName, G> Model for Crew<'r, 'd, 'g, R, N, G> {
    ghost use Rattle.std.specs.Prelude.{◌<◌, ◌≤◌, map};
    ghost use Rattle.clip_run.specs.Crews.{CrewIs, crew_code};
    ghost use Rattle.clip_run.specs.Owed.{batches_owed};
    ghost use Rattle.clip_run.specs.Pending.{owed_by};
    ghost use Rattle.clip_run.specs.declared.crew.TheConstants.{MOST_WAITING};

    ghost Value = { CrewIs };

    ghost coded = { crew_code };

    ghost view = { λ c. record {
      history = c.caller.history;
      rows = c.giver.books.ledger;
      settings = c.giver.books.settings;
      owed = map owed_by c.pending.items;
    } };

    ghost invariant = { λ c. c.waiting < MOST_WAITING → batches_owed (map owed_by c.pending.items) ≤ c.waiting };
}

impl<'r, 'd, 'g, R: Threads + Wait + Sync, N: DeskName, G: Gate + Clone + Send + 'static> Crew<
    'r,
    'd,
    'g,
    R,
    N,
    G,
> {
    /// The crew of a run that begins, of at least one worker. Constant time.
    pub fn new(
        alloc: Global,
        gate: &'g G,
        caller: Caller<'r, 'd, R, N>,
        settings: Settings,
    ) -> Crew<'r, 'd, 'g, R, N, G>
        ensures { result ≡ record { history = caller.entry.history; rows = []; settings = settings; owed = [] } }
    {
        Crew {
            rt: caller.runtime(),
            giver: Giver::new(alloc, gate, settings),
            caller,
            pending: Vec::new(alloc),
            waiting: 0,
            load: Load::none(),
            batches: 0,
            helpers: Helpers::new(alloc, settings.workers),
        }
    }

    /// The crew, which tells a merging thread of each change from now on. Constant time.
    pub fn with_merging_thread(self, nudges: Sender<Nudge>) -> Crew<'r, 'd, 'g, R, N, G>
        ensures { result ≡ self.entry }
    {
        Crew {
            caller: self.caller.with_merging_thread(nudges),
            ..self
        }
    }

    /// What the crew takes memory from. Constant time.
    pub fn allocator(&self) -> Global {
        self.giver.alloc
    }

    /// Puts what is owed to the line at a place of the lines into the flow, and delivers its alerts.
    fn settle<A: Audience, W: Sink>(
        &mut self,
        audience: &mut A,
        items: &[Pending],
        line: usize,
        answers: &mut Vec<Answer>,
        flow: &mut Flow<'_, W>,
    ) -> Result<(), RunFault>
        requires { AreDue self.old.settings items.now answers.old.items }
        ensures same_reference { flow.new.writer.ghost_name ≡ flow.old.writer.ghost_name }
        ensures heard { OnOk result (A.hearers audience.new
            ≡ told_all (owed_of (A.hearers audience.old) (owed_at items.now line)).alerts (A.hearers audience.old)) }
        ensures crew { OnOk result (self.new ≡ record self.old {
          rows = self.old.rows ++ kept_rows self.old.settings.keeps_rows
              (owed_of (A.hearers audience.old) (owed_at items.now line)).rows;
        }) }
        ensures due { OnOk result (AreDue self.old.settings items.now answers.new.items) }
        ensures moved { OnOk result (HandsOver (W.taken flow.old.writer.now) (flow.old.outbox.now
            ++ (owed_of (A.hearers audience.old) (owed_at items.now line)).text self.old.settings.form)
            (W.taken flow.new.writer.now) flow.new.outbox.now) }
        ensures well { OnOk result (W.has_failed flow.new.writer.now ≡ W.has_failed flow.old.writer.now) }
        ensures fault { IfErr result (λ e. e ≢ RunFault.Read) }
        ensures write { result ≡ Err RunFault.Write → W.has_failed flow.new.writer.now ≡ true }
        ensures err { OnErr result (HearsFront (owed_of (A.hearers audience.old) (owed_at items.now line)).alerts
            (A.hearers audience.old) (A.hearers audience.new)) }
        ensures front { OnErr result (AppendsFront (W.taken flow.old.writer.now) (W.taken flow.new.writer.now)
            (flow.old.outbox.now
            ++ (owed_of (A.hearers audience.old) (owed_at items.now line)).text self.old.settings.form)) }
    {
        let Some(item) = items.get(line) else {
            return Ok(());
        };
        match item {
            Pending::Ready(text) => flow.put(text),
            Pending::Waiting(batch) => {
                self.giver
                    .settle_batch(audience, line, batch, answers, flow)
            }
        }
    }

    /// Puts what is owed to each of these lines into the flow, in order, where nothing else is owed.
    fn settle_all<A: Audience, W: Sink>(
        &mut self,
        audience: &mut A,
        items: &[Pending],
        mut answers: Vec<Answer>,
        flow: &mut Flow<'_, W>,
    ) -> Result<(), RunFault>
        requires settled { self.old.owed ≡ [] }
        requires due { AreDue self.old.settings items.now answers.items }
        ensures same_reference { flow.new.writer.ghost_name ≡ flow.old.writer.ghost_name }
        ensures ok { OnOk result (PaysInto
            (with_owed (course self.old (A.hearers audience.old)) (map owed_by items.now))
            (course self.new (A.hearers audience.new)) (W.taken flow.old.writer.now) flow.old.outbox.now
            (W.taken flow.new.writer.now) flow.new.outbox.now) }
        ensures settled { OnOk result (self.new.owed ≡ []) }
        ensures well { OnOk result (W.has_failed flow.new.writer.now ≡ W.has_failed flow.old.writer.now) }
        ensures fault { IfErr result (λ e. e ≢ RunFault.Read) }
        ensures write { result ≡ Err RunFault.Write → W.has_failed flow.new.writer.now ≡ true }
        ensures err { OnErr result (StopsPaying
            (with_owed (course self.old (A.hearers audience.old)) (map owed_by items.now))
            (course self.new (A.hearers audience.new)) (W.taken flow.old.writer.now) flow.old.outbox.now
            (W.taken flow.new.writer.now)) }
    {
        for line in 0..items.len() {
            self.settle(audience, items, line, &mut answers, flow)?;
        }
        Ok(())
    }

    /// Puts all that is owed into the flow. The articles that wait are shared out among this thread and helpers first,
    /// where there are enough of them.
    fn pay<A: Audience, W: Sink>(
        &mut self,
        audience: &mut A,
        flow: &mut Flow<'_, W>,
    ) -> Result<(), RunFault>
        ensures same_reference { flow.new.writer.ghost_name ≡ flow.old.writer.ghost_name }
        ensures ok { OnOk result (PaysInto (course self.old (A.hearers audience.old))
            (course self.new (A.hearers audience.new)) (W.taken flow.old.writer.now) flow.old.outbox.now
            (W.taken flow.new.writer.now) flow.new.outbox.now) }
        ensures all { OnOk result (self.new.owed ≡ []) }
        ensures well { OnOk result (W.has_failed flow.new.writer.now ≡ W.has_failed flow.old.writer.now) }
        ensures fault { IfErr result (λ e. e ≢ RunFault.Read) }
        ensures write { result ≡ Err RunFault.Write → W.has_failed flow.new.writer.now ≡ true }
        ensures err { OnErr result (StopsPaying (course self.old (A.hearers audience.old))
            (course self.new (A.hearers audience.new)) (W.taken flow.old.writer.now) flow.old.outbox.now
            (W.taken flow.new.writer.now)) }
    {
        let alloc = self.giver.alloc;
        let items = mem::replace(&mut self.pending, Vec::new(alloc));
        let load = mem::replace(&mut self.load, Load::none());
        self.waiting = 0;
        self.helpers.greet(self.rt);
        let count = self.helpers.count_for(load, self.giver.gate.may_hold());
        if count == 0 {
            return self.settle_all(audience, &items, Vec::new(alloc), flow);
        }
        let gate = self.giver.gate.clone()?;
        let group = Arc::new(
            alloc,
            Group::of(alloc, items, self.giver.books.settings, gate)?,
        )?;
        let answers = self.helpers.answers(self.rt, &group, load, count);
        self.settle_all(audience, &group.items, answers, flow)
    }

    /// Lets a batch wait, to be matched at the registry as it stands.
    fn let_wait(
        &mut self,
        number: u64,
        drafts: Vec<JudgedDraft>,
        bytes: usize,
    ) -> Result<(), NoMemory>
        ensures { OnOk result (self.new ≡ record self.old {
          owed = self.old.owed ++ matched number self.old.history drafts.items ∷ [];
        }) }
    {
        let view = self.caller.look()?;
        self.caller.count_matched(drafts.len());
        self.batches = self.batches.wrapping_add(1);
        self.load = self.load.with(drafts.len(), bytes);
        self.waiting = self.waiting.saturating_add(1);
        self.pending.push(Pending::Waiting(Batch {
            number,
            batch: self.batches,
            view,
            drafts,
        }))?;
        Ok(())
    }

    /// Takes a line, and owes what it gives.
    fn take<A: Audience>(&mut self, audience: &A, number: u64, bytes: &[u8]) -> Result<(), NoMemory>
        ensures ok { OnOk result (Turns (course self.old (A.hearers audience.now))
            (course self.new (A.hearers audience.now)) number bytes.now []) }
        ensures err { OnErr result (BreaksOff (course self.old (A.hearers audience.now))
            (course self.new (A.hearers audience.now)) number bytes.now []) }
    {
        match take_line(self.giver.alloc, &mut self.caller, audience, number, bytes)? {
            Step::Reply(text) => {
                self.pending.push(Pending::Ready(text))?;
                Ok(())
            }
            Step::Match(drafts) => self.let_wait(number, drafts, bytes.len()),
        }
    }

    /// Takes the line of this number, and puts what is given now into the flow: all that is owed, or nothing yet, where
    /// another line stands read already. Where none does, nothing is owed after it, and fewer than 32 batches wait
    /// after any line.
    ///
    /// `NoMemory` where an allocation failed or a listener answers it, `Write` where the writer fails; the listeners
    /// have heard a prefix of the alerts of what was owed and of the line then, and a prefix of their text is put.
    /// Cost: that of `take_line`; and of what is given that of `Batch::find` for each article, shared among the
    /// helpers and this thread, and that of `MatchReply::add`. It waits for helpers that have taken an article.
    pub fn answer<A: Audience, W: Sink>(
        &mut self,
        audience: &mut A,
        flow: &mut Flow<'_, W>,
        number: u64,
        bytes: &[u8],
        has_more: bool,
    ) -> Result<(), RunFault>
        ensures same_reference { flow.new.writer.ghost_name ≡ flow.old.writer.ghost_name }
        ensures ok { OnOk result (AnswersInto (TurnsIn (course_at A.hearers)) (self.old, audience.old)
            (self.new, audience.new) number bytes.now
            (W.taken flow.old.writer.now) flow.old.outbox.now (W.taken flow.new.writer.now) flow.new.outbox.now) }
        ensures settled { OnOk result (has_more ≡ false → self.new.owed ≡ []) }
        ensures few { OnOk result (batches_owed self.new.owed < MOST_WAITING) }
        ensures well { OnOk result (W.has_failed flow.new.writer.now ≡ W.has_failed flow.old.writer.now) }
        ensures fault { IfErr result (λ e. e ≢ RunFault.Read) }
        ensures write { result ≡ Err RunFault.Write → W.has_failed flow.new.writer.now ≡ true }
        ensures err { OnErr result (BreaksInto (TurnsIn (course_at A.hearers)) (BreaksIn (course_at A.hearers))
            (self.old, audience.old) (self.new, audience.new) number bytes.now
            (W.taken flow.old.writer.now) flow.old.outbox.now (W.taken flow.new.writer.now)) }
    {
        self.take(audience, number, bytes)?;
        if has_more && 0 < self.waiting && self.waiting < MOST_WAITING {
            return Ok(());
        }
        self.pay(audience, flow)
    }

    /// Joins each helper that is late, lets go what is owed, and tells the merging thread to stop. It waits for the
    /// helpers.
    pub fn stop(&mut self)
        ensures { self.new.rows ≡ self.old.rows }
    {
        self.caller.dismiss();
        self.helpers.stop(self.rt);
    }

    /// The ledger of the run.
    pub fn into_ledger(self) -> Ledger
        ensures { result ≡ self.entry.rows }
    {
        self.giver.into_ledger()
    }
}
