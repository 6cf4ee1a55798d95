//! Open batches.
ghost use Rattle.std.specs.Prelude.{◌≡◌, ◌+◌, ◌<◌, map, take, length, nat_lt, OnOk, OnErr};
ghost use Rattle.clip_standing.specs.Alerts.{alerts_value};
ghost use Rattle.clip_trace.specs.Event.{found_of, found_after};
ghost use Rattle.clip_trace.specs.Schedule.{fresh_batch, with_matched};

use clip_match::{View, match_article, match_batch};
use clip_meaning::Article;
use clip_standing::Alerts;
use clip_words::NoMemory;
use std::alloc::Global;
use std::marker::Model;

/// Articles that are matched on one view, seen as the view's history, the articles, and how many are matched.
#[derive(Drop)]
pub struct Batch {
    alloc: Global,
    view: View,
    articles: Vec<Article>,
    found: Vec<Alerts>,
}

impl Model for Batch {
    ghost use Rattle.clip_trace.specs.Schedule as schedule;

    ghost Value = { schedule.Batch };

    ghost coded = { schedule.batch_code };

    ghost use Rattle.clip_trace.specs.Steps.Batch.{batch_inside, IsBatchInside};

    ghost view = { batch_inside };

    ghost invariant = { IsBatchInside };
}

impl Batch {
    /// A batch of which no article is matched. Takes no memory.
    pub fn new(alloc: Global, view: View, articles: Vec<Article>) -> Batch
        ensures { result ≡ fresh_batch view.history articles.items }
    {
        Batch {
            alloc,
            view,
            articles,
            found: Vec::new(alloc),
        }
    }

    /// Whether an article is not matched yet. Constant time.
    pub fn is_unmatched(&self) -> bool
        ensures { result ≡ nat_lt self.now.matched (length self.now.articles) }
    {
        self.found.len() < self.articles.len()
    }

    /// Matches the first article that is not matched yet. `NoMemory` where an allocation failed, with nothing changed.
    /// Cost: that of `match_article`.
    pub fn match_next(&mut self) -> Result<(), NoMemory>
        requires { self.old.matched < length self.old.articles }
        ensures matched { OnOk result (self.new ≡ with_matched self.old (self.old.matched + 1)) }
        ensures unchanged { OnErr result (self.new ≡ self.old) }
    {
        let article = &self.articles[self.found.len()];
        let alerts = match_article(self.alloc, &self.view, article)?;
        self.found.push(alerts)?;
        Ok(())
    }

    /// Matches all articles that are not matched yet. `NoMemory` where an allocation failed, with nothing changed.
    /// Cost: that of `match_batch` for those articles.
    pub fn match_rest(&mut self) -> Result<(), NoMemory>
        ensures matched { OnOk result (self.new ≡ with_matched self.old (length self.old.articles)) }
        ensures unchanged { OnErr result (self.new ≡ self.old) }
    {
        let rest = &self.articles[self.found.len()..];
        let mut found = match_batch(self.alloc, &self.view, rest)?;
        self.found.append(&mut found)?;
        Ok(())
    }

    /// The alerts of the articles that are matched, in their order. Constant time.
    pub fn into_found(self) -> Vec<Alerts>
        ensures { map (λ a. found_of (alerts_value a)) result.items
            ≡ map (found_after self.history) (take self.matched self.articles) }
    {
        self.found
    }
}
