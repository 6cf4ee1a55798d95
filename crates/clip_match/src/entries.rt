//! What is due to an article, before alerts are made of it.
ghost use Rattle.std.specs.Prelude.{◌≡◌, map};
ghost use Rattle.std.specs.List.{list_any};
ghost use Rattle.clip_match.specs.Steps.Positions.{has_listener};

use crate::held::Held;
use crate::matching::{alerts, views};
use clip_meaning::{Article, Hit};
use clip_standing::{AlertView, Alerts};
use clip_words::NoMemory;
use std::alloc::Global;
use std::sync::Arc;

/// What is due to an article at a view, before an alert is made of it: the entries of the queries that hold of it, in
/// the byte order of their ids. An alert counts as a holder of its query and of its article; what nobody hears can be
/// shown from here, with no alert made.
#[derive(Drop)]
pub struct DueEntries<'a> {
    pub(crate) article: &'a Article,
    pub(crate) place: u64,
    pub(crate) asked: u64,
    pub(crate) judged: u64,
    pub(crate) read: u64,
    pub(crate) held: Vec<Held<'a>>,
    pub(crate) all_hits: Arc<Vec<Hit>>,
    pub(crate) is_heard: bool,
    pub(crate) ghost heard: { is_heard ≡ list_any has_listener (map (λ h. h.registered.now) held.items) },
}

impl<'a> DueEntries<'a> {
    ghost use Rattle.std.specs.Prelude.{◌≡◌, true, map, is_some, IfOk};
    ghost use Rattle.std.specs.List.{All, list_any};
    ghost use Rattle.clip_standing.specs.Alerts.{alerts_value, has_hits};
    ghost use Rattle.clip_match.specs.Due.{due_value, AreTheirHits, HaveTheirHits};

    /// The id of the article. Constant time.
    pub fn article_id(&self) -> &'a str
        ensures { result.now ≡ (due_value self.now).article }
    {
        self.article.shared_id().as_str()
    }

    /// How many queries were tried. Constant time.
    pub fn asked(&self) -> u64
        ensures { result ≡ (due_value self.now).asked }
    {
        self.asked
    }

    /// How many plans of queries were judged: at most one for each query that was tried, and one for each that is due.
    /// Constant time.
    pub fn judged(&self) -> u64
        ensures { result ≡ self.now.judged }
    {
        self.judged
    }

    /// How many positions were read to find the queries that were tried: of each segment those under each key of the
    /// article, of queries that have it as a key and of those that have it as a second key. Constant time.
    pub fn positions_read(&self) -> u64
        ensures { result ≡ self.now.read }
    {
        self.read
    }

    /// Whether one of the queries has a listener. Constant time.
    pub fn has_listener(&self) -> bool
        ensures { result ≡ list_any (λ a. is_some a.listener) (due_value self.now).alerts }
    {
        self.is_heard
    }

    /// The ids of the queries, in their byte order.
    ///
    /// `NoMemory` where an allocation failed. Cost: a step for each of them.
    pub fn queries(&self, alloc: Global) -> Result<Vec<&'a str>, NoMemory>
        ensures { IfOk result (λ ids. map (λ id. id.now) ids.items ≡ map (λ a. a.query) (due_value self.now).alerts) }
    {
        let mut ids = Vec::with_capacity(alloc, self.held.len())?;
        let held = self.held.as_slice();
        for one in held {
            ids.push(one.id())?;
        }
        Ok(ids)
    }

    /// What the alerts say, with their hits where these were found. None is made, and no entry is looked at.
    ///
    /// `NoMemory` where an allocation failed. Cost: a step for each of them.
    pub fn views(&self, alloc: Global) -> Result<Vec<AlertView<'_>>, NoMemory>
        requires { AreTheirHits self.now }
        ensures { IfOk result (λ views. views.items ≡ (due_value self.now).alerts) }
    {
        views(alloc, &self.held, self.article, &self.all_hits)
    }

    /// The alerts, with their hits where these were found: each carries its own, where those of each query were.
    ///
    /// `NoMemory` where an allocation failed, or where the count of holders of a query or of the article is at its end.
    /// Cost: a step for each of them.
    pub fn alerts(self, alloc: Global) -> Result<Alerts, NoMemory>
        requires { AreTheirHits self }
        ensures value { IfOk result (λ found. alerts_value found ≡ due_value self.entry) }
        ensures found { HaveTheirHits self.entry → IfOk result (λ found.
            All (λ alert. has_hits alert ≡ true) found.alerts.items) }
    {
        let DueEntries {
            article,
            place,
            asked,
            held,
            all_hits,
            ..
        } = self;
        Ok(Alerts {
            article: article.shared_id().clone()?,
            place,
            asked,
            alerts: alerts(alloc, held, article, &all_hits)?,
        })
    }
}
