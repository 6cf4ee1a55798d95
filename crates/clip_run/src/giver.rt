//! Batches, given article by article on the thread that takes the lines.
ghost use Rattle.std.specs.Prelude.{◌≡◌, ◌≢◌, ◌<◌, [], ◌++◌, vec_len, true, Err, IfErr, OnErr, OnOk};
ghost use Rattle.clip_stream.specs.Device.{AppendsFront, HandsOver};
ghost use Rattle.clip_listen.specs.Heard.{told_all, HearsFront};
ghost use Rattle.clip_match.specs.Due.{due_value, AreTheirHits};
ghost use Rattle.clip_protocol.specs.Steps.Putting.{stand};
ghost use Rattle.clip_front.specs.Giving.{GivesArticle, GivesDue, giving};
ghost use Rattle.clip_front.specs.Outcome.{kept_rows};
ghost use Rattle.clip_run.specs.Due.{IsTurn, KeepsDue, WaitsAt, due_to};
ghost use Rattle.clip_run.specs.Pending.{owed_to};

use crate::batch::Batch;
use crate::finding::{views_to_show, wants_alerts};
use crate::group::{Answer, take_answer};
use clip_front::{Books, MatchReply, Settings};
use clip_ledger::Ledger;
use clip_listen::Audience;
use clip_match::{DueEntries, Gate};
use clip_protocol::Found;
use clip_stream::{Flow, RunFault, Sink};
use std::alloc::Global;

/// An article of a batch whose turn has come, with what a helper found of it, if one has taken it.
#[derive(Drop)]
pub struct Turn<'a> {
    /// The batch.
    pub batch: &'a Batch,
    /// Its place among the articles of the batch.
    pub article: usize,
    /// What was found of it.
    pub found: Option<Found>,
}

/// What gives batches: the books of a run, and the gate that matches pass.
#[derive(Drop)]
pub struct Giver<'g, G> {
    /// What it takes memory from.
    pub alloc: Global,
    /// The gate.
    pub gate: &'g G,
    /// The books.
    pub books: Books,
}

/// Delivers what is due to an article, posts it, and puts what the reply shows of it. No alert is made where no query
/// has a listener and no rows are kept.
fn answer_article<A: Audience, W: Sink>(
    alloc: Global,
    audience: &mut A,
    books: &mut Books,
    flow: &mut Flow<'_, W>,
    answer: &mut MatchReply,
    due: DueEntries<'_>,
) -> Result<(), RunFault>
    requires { AreTheirHits due }
    ensures same_reference { flow.new.writer.ghost_name ≡ flow.old.writer.ghost_name }
    ensures gives { GivesArticle
        (giving (A.hearers audience.old) books.old.ledger books.old.settings answer.old
        (stand W.taken W.has_failed flow.old.writer.now flow.old.outbox.now))
        (giving (A.hearers audience.new) books.new.ledger books.new.settings answer.new
        (stand W.taken W.has_failed flow.new.writer.now flow.new.outbox.now)) (due_value due.entry) result }
    ensures well { OnOk result (W.has_failed flow.new.writer.now ≡ W.has_failed flow.old.writer.now) }
    ensures fault { IfErr result (λ e. e ≢ RunFault.Read) }
    ensures write { result ≡ Err RunFault.Write → W.has_failed flow.new.writer.now ≡ true }
{
    if wants_alerts(books.settings, &due) {
        let found = Found::Alerts(due.alerts(alloc)?);
        return answer.add(alloc, audience, books, flow, &found);
    }
    let queries = due.queries(alloc)?;
    let views = views_to_show(alloc, books.settings.form, &due)?;
    answer.add_unheard(alloc, flow, due.article_id(), &queries, views.as_deref())
}

impl<'g, G: Gate> Giver<'g, G> {
    /// The giver of a run that begins. Takes no memory. Constant time.
    pub fn new(alloc: Global, gate: &'g G, settings: Settings) -> Giver<'g, G>
        ensures ledger { result.books.ledger ≡ [] }
        ensures settings { result.books.settings ≡ settings }
    {
        Giver {
            alloc,
            gate,
            books: Books::new(alloc, settings),
        }
    }

    /// The ledger. Constant time.
    pub fn into_ledger(self) -> Ledger
        ensures { result ≡ self.entry.books.ledger }
    {
        self.books.ledger
    }

    /// Matches an article of a batch on this thread, delivers what is due to it, posts it, and puts what the reply to
    /// its line shows of it. What nobody hears is shown with no alert made, where it needs none.
    fn match_here<A: Audience, W: Sink>(
        &mut self,
        audience: &mut A,
        batch: &Batch,
        article: usize,
        reply: &mut MatchReply,
        flow: &mut Flow<'_, W>,
    ) -> Result<(), RunFault>
        requires { article < vec_len batch.now.drafts }
        ensures same_reference { flow.new.writer.ghost_name ≡ flow.old.writer.ghost_name }
        ensures gives { GivesDue (due_to batch.now) article
            (giving (A.hearers audience.old) self.old.books.ledger self.old.books.settings reply.old
            (stand W.taken W.has_failed flow.old.writer.now flow.old.outbox.now))
            (giving (A.hearers audience.new) self.new.books.ledger self.new.books.settings reply.new
            (stand W.taken W.has_failed flow.new.writer.now flow.new.outbox.now)) result }
        ensures well { OnOk result (W.has_failed flow.new.writer.now ≡ W.has_failed flow.old.writer.now) }
        ensures fault { IfErr result (λ e. e ≢ RunFault.Read) }
        ensures write { result ≡ Err RunFault.Write → W.has_failed flow.new.writer.now ≡ true }
    {
        let alloc = self.alloc;
        let draft = &batch.drafts[article];
        let read = draft.read(alloc)?;
        let due = batch.due(alloc, &read, article, self.books.settings, self.gate)?;
        answer_article(alloc, audience, &mut self.books, flow, reply, due)
    }

    /// Delivers what is due to an article whose turn has come, posts it, and puts what the reply to its line shows of
    /// it: by what a helper found of it, and else it is matched here.
    fn give<A: Audience, W: Sink>(
        &mut self,
        audience: &mut A,
        turn: &Turn<'_>,
        reply: &mut MatchReply,
        flow: &mut Flow<'_, W>,
    ) -> Result<(), RunFault>
        requires turn { IsTurn self.old.books.settings turn.now }
        ensures same_reference { flow.new.writer.ghost_name ≡ flow.old.writer.ghost_name }
        ensures gives { GivesDue (due_to turn.now.batch.now) turn.now.article
            (giving (A.hearers audience.old) self.old.books.ledger self.old.books.settings reply.old
            (stand W.taken W.has_failed flow.old.writer.now flow.old.outbox.now))
            (giving (A.hearers audience.new) self.new.books.ledger self.new.books.settings reply.new
            (stand W.taken W.has_failed flow.new.writer.now flow.new.outbox.now)) result }
        ensures well { OnOk result (W.has_failed flow.new.writer.now ≡ W.has_failed flow.old.writer.now) }
        ensures fault { IfErr result (λ e. e ≢ RunFault.Read) }
        ensures write { result ≡ Err RunFault.Write → W.has_failed flow.new.writer.now ≡ true }
    {
        match &turn.found {
            Some(found) => reply.add(self.alloc, audience, &mut self.books, flow, found),
            None => self.match_here(audience, turn.batch, turn.article, reply, flow),
        }
    }

    /// Gives what is owed to a line of which a batch waits at this place of the lines, article by article: what is due
    /// to one is delivered, and what the reply shows of it is put, before the next is taken.
    ///
    /// `NoMemory` where an allocation failed or a listener answers it, `Write` where the writer fails; the listeners
    /// have heard some first ones of the alerts then, and a front of the text is put. Cost: that of `MatchReply::add`
    /// for each article, and of `Batch::due` for each of which nothing was found.
    pub fn settle_batch<A: Audience, W: Sink>(
        &mut self,
        audience: &mut A,
        line: usize,
        batch: &Batch,
        answers: &mut Vec<Answer>,
        flow: &mut Flow<'_, W>,
    ) -> Result<(), RunFault>
        requires waits { WaitsAt self.old.books.settings line batch.now answers.old.items }
        ensures same_reference { flow.new.writer.ghost_name ≡ flow.old.writer.ghost_name }
        ensures heard { OnOk result (A.hearers audience.new
            ≡ told_all (owed_to (A.hearers audience.old) batch.now).alerts (A.hearers audience.old)) }
        ensures rows { OnOk result (self.new.books.ledger ≡ self.old.books.ledger
            ++ kept_rows self.old.books.settings.keeps_rows (owed_to (A.hearers audience.old) batch.now).rows) }
        ensures settings { OnOk result (self.new.books.settings ≡ self.old.books.settings) }
        ensures due { OnOk result
            (KeepsDue self.old.books.settings line batch.now answers.old.items answers.new.items) }
        ensures moved { OnOk result (HandsOver (W.taken flow.old.writer.now)
            (flow.old.outbox.now ++ (owed_to (A.hearers audience.old) batch.now).text self.old.books.settings.form)
            (W.taken flow.new.writer.now) flow.new.outbox.now) }
        ensures well { OnOk result (W.has_failed flow.new.writer.now ≡ W.has_failed flow.old.writer.now) }
        ensures fault { IfErr result (λ e. e ≢ RunFault.Read) }
        ensures write { result ≡ Err RunFault.Write → W.has_failed flow.new.writer.now ≡ true }
        ensures err { OnErr result (HearsFront (owed_to (A.hearers audience.old) batch.now).alerts
            (A.hearers audience.old) (A.hearers audience.new)) }
        ensures front { OnErr result (AppendsFront (W.taken flow.old.writer.now) (W.taken flow.new.writer.now)
            (flow.old.outbox.now ++ (owed_to (A.hearers audience.old) batch.now).text self.old.books.settings.form)) }
    {
        let alloc = self.alloc;
        let mut reply = MatchReply::begin(alloc, flow, batch.number)?;
        for article in 0..batch.drafts.len() {
            let turn = Turn {
                batch,
                article,
                found: take_answer(answers, line, article),
            };
            self.give(audience, &turn, &mut reply, flow)?;
        }
        reply.end(alloc, flow)
    }
}
