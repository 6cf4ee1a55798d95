//! Lines that wait for their turn, and what is found of an article of one of them.
ghost use Rattle.std.specs.Prelude.{◌≡◌, ◌<◌, vec_len, IfOk};
ghost use Rattle.clip_match.specs.Alerts.{alerts_due};
ghost use Rattle.clip_match.specs.Due.{due_value, AreTheirHits};
ghost use Rattle.clip_protocol.specs.Found.{found_value};
ghost use Rattle.clip_front.specs.Steps.Found.{IsFor};
ghost use Rattle.clip_run.specs.Due.{IsDue, due_to};

use crate::finding::{hits_found, views_to_show, wants_alerts};
use clip_front::Settings;
use clip_match::{DueEntries, Gate, View, entries_due};
use clip_meaning::Article;
use clip_protocol::{AlertsSaid, Found, JudgedDraft, Shown};
use clip_words::NoMemory;
use std::alloc::Global;

/// The articles of a match line, and the registry at which they are matched.
#[derive(Drop)]
pub struct Batch {
    /// The number of its line.
    pub number: u64,
    /// Its own number, from 1, by which gates know it.
    pub batch: u64,
    /// The registry that the lines before its own leave.
    pub view: View,
    /// Its articles, which are not read yet.
    pub drafts: Vec<JudgedDraft>,
}

/// What a run owes to a line.
#[derive(Drop)]
pub enum Pending {
    /// The text of its reply.
    Ready(Vec<u8>),
    /// Its articles are still to be matched.
    Waiting(Batch),
}

/// What the alerts that are due to the article at the view say, for proofs alone. Costs nothing.
#[inline(always)]
fn alerts_said(_view: &View, _article: &Article) -> AlertsSaid
    ensures { result.value ≡ alerts_due _view.now _article.now }
{
    AlertsSaid {}
}

/// What a run with these settings finds of an article: the alerts that are due where rows are kept or somebody is to
/// hear them, and else what a reply shows of them, with no alert made.
fn found_of(
    alloc: Global,
    settings: Settings,
    due: DueEntries<'_>,
    said: AlertsSaid,
) -> Result<Found, NoMemory>
    requires hits { AreTheirHits due }
    requires said { said.value ≡ due_value due }
    ensures value { IfOk result (λ found. found_value found ≡ due_value due.entry) }
    ensures fit { IfOk result (λ found. IsFor settings found) }
{
    if wants_alerts(settings, &due) {
        return Ok(Found::Alerts(due.alerts(alloc)?));
    }
    let queries = due.queries(alloc)?;
    let views = views_to_show(alloc, settings.form, &due)?;
    let shown = Shown::unmade(alloc, due.article_id(), &queries, views.as_deref(), said)?;
    Ok(Found::Shown(shown))
}

/// The number of the piece that an article is.
fn piece_of(article: usize) -> u32 {
    u32::try_from(article).unwrap_or(u32::MAX)
}

impl Batch {
    /// What is due to one of its articles, which was read. It is matched between the gate's `enter` and its `leave`, as
    /// the piece of the batch that its place says, and its hits are found when a run with these settings wants them.
    ///
    /// `NoMemory` where an allocation failed. Cost: that of `entries_due`.
    pub fn due<'a, G: Gate>(
        &'a self,
        alloc: Global,
        read: &'a Article,
        place: usize,
        settings: Settings,
        gate: &G,
    ) -> Result<DueEntries<'a>, NoMemory>
        ensures due { IfOk result (λ due. due_value due ≡ alerts_due self.now.view read.now) }
        ensures hits { IfOk result (λ due. AreTheirHits due) }
    {
        let piece = piece_of(place);
        let hits = hits_found(settings);
        gate.enter(self.batch, piece);
        let due = entries_due(alloc, &self.view, read, hits);
        gate.leave(self.batch, piece);
        due
    }

    /// What is found of one of its articles. It is read and then matched, all on the thread that calls, which also
    /// makes the alerts, or writes what a reply shows where none are made.
    ///
    /// `NoMemory` where an allocation failed. Cost: that of `JudgedDraft::read` and of `Batch::due`; and of
    /// `DueEntries::alerts`, or of `DueEntries::queries`, `views_to_show` and `Shown::unmade`.
    pub fn find<G: Gate>(
        &self,
        alloc: Global,
        article: usize,
        settings: Settings,
        gate: &G,
    ) -> Result<Found, NoMemory>
        requires { article < vec_len self.now.drafts }
        ensures { IfOk result (λ found. IsDue settings (due_to self.now) article found) }
    {
        let draft = &self.drafts[article];
        let read = draft.read(alloc)?;
        let due = self.due(alloc, &read, article, settings, gate)?;
        found_of(alloc, settings, due, alerts_said(&self.view, &read))
    }
}
