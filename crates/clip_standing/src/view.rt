//! What an alert says, where none is made.
ghost use Rattle.std.specs.Prelude.{◌≡◌, is_some, map, IfOk, IfSome};
ghost use Rattle.clip_meaning.specs.Hits.{hit_value};
ghost use Rattle.clip_model.specs.Alerts.{alert_for};

use crate::standing::Standing;
use clip_meaning::{Article, Hit};
use clip_words::NoMemory;
use std::alloc::Global;
use std::marker::Model;
use std::sync::Arc;

/// What an alert says of a standing query that holds of an article. It borrows both, and counts as a holder of neither,
/// so that to make one touches neither. Where the hits were found, it has them. Contracts see what the alert says.
#[derive(Drop)]
pub struct AlertView<'a> {
    standing: &'a Arc<Standing>,
    article: &'a Article,
    found: Option<&'a [Hit]>,
}

impl<'a> Model for AlertView<'a> {
    ghost use Rattle.clip_model.specs.Alerts as model;
    ghost use Rattle.clip_standing.specs.Steps.AlertView.{alert_code, alert_seen, HasFound};

    ghost Value = { model.Alert };

    ghost coded = { alert_code };

    ghost view = { alert_seen };

    ghost invariant = { HasFound };
}

impl<'a> AlertView<'a> {
    /// What the alert of a standing query that holds of an article says, with its hits where they were found already.
    /// Neither is looked at. Takes constant time.
    pub fn of(
        standing: &'a Arc<Standing>,
        article: &'a Article,
        found: Option<&'a [Hit]>,
    ) -> AlertView<'a>
        requires { IfSome found (λ hits. map hit_value hits.now ≡ (alert_for standing.now.value article.now).hits) }
        ensures { result ≡ alert_for standing.now.value article.now }
    {
        AlertView {
            standing,
            article,
            found,
        }
    }

    /// The id of the query. Takes constant time.
    pub fn query(&self) -> &'a str
        ensures { result.now ≡ self.now.query }
    {
        self.standing.id()
    }

    /// The hits, where they were found already: those that `hits` returns. Takes constant time.
    pub fn found_hits(&self) -> Option<&'a [Hit]>
        ensures { IfSome result (λ hits. map hit_value hits.now ≡ self.now.hits) }
    {
        self.found
    }

    /// Where in the article the query holds: the positions of the words that its leaves name, by the bytes of their
    /// fields' names and then by position. They are copied where they were found already, and else found at each call.
    ///
    /// `NoMemory` where an allocation failed. Cost: a step for each hit where they were found, else that of
    /// `Standing::hits_in`.
    pub fn hits(&self, alloc: Global) -> Result<Vec<Hit>, NoMemory>
        ensures { IfOk result (λ hits. map hit_value hits.items ≡ self.now.hits) }
    {
        match self.found {
            Some(hits) => Ok(hits.to_vec(alloc)?),
            None => self.standing.hits_in(alloc, self.article),
        }
    }
}
