//! Alerts: which queries hold of an article.
ghost use Rattle.std.specs.Prelude.{◌≡◌, map, true, IfOk, IfSome, is_some, option_map};
ghost use Rattle.std.specs.Arc.{arc_str_bytes};
ghost use Rattle.std.specs.Option.{option_copied};
ghost use Rattle.clip_meaning.specs.Hits.{hit_value};
ghost use Rattle.clip_model.specs.Alerts.{alert_for};
ghost use Rattle.clip_standing.specs.Steps.FoundHits.{AreFound, one_way_found};

use crate::found::FoundHits;
use crate::standing::Standing;
use crate::view::AlertView;
use clip_meaning::{Article, Hit};
use clip_words::NoMemory;
use std::alloc::Global;
use std::sync::{Arc, ArcStr};

/// A query holds of an article. It shares both, so that to make one copies no text, and what it is of stays in memory
/// as long as it does. Where its hits were found when it was made, it keeps them.
#[derive(Debug)]
pub struct Alert {
    standing: Arc<Standing>,
    article: Article,
    found: Option<FoundHits>,
    ghost found_are: { AreFound standing.value article found } by { one_way_found standing.value article found },
}

impl Drop for Alert {
    fn drop(self) {
        let Alert {
            standing: _,
            article: _,
            found: _,
        } = self;
    }
}

impl Alert {
    ghost use Rattle.clip_standing.specs.Alerts.{alert_value, has_hits};

    /// The alert of a standing query that holds of an article. Takes constant time.
    ///
    /// `NoMemory` where the count of holders of one of the two is at its end.
    pub fn of(standing: &Arc<Standing>, article: &Article) -> Result<Alert, NoMemory>
        ensures value { IfOk result (λ alert. alert_value alert ≡ alert_for standing.now.value article.now) }
        ensures article { IfOk result (λ alert. alert.article ≡ article.now) }
    {
        Ok(Alert {
            standing: standing.clone()?,
            article: article.copy()?,
            found: None,
        })
    }

    /// The alert of a standing query that holds of the article, with its hits, which were found already. Takes constant
    /// time.
    ///
    /// `NoMemory` where the count of holders of one of the two is at its end.
    pub fn with_hits(
        standing: &Arc<Standing>,
        article: &Article,
        hits: FoundHits,
    ) -> Result<Alert, NoMemory>
        requires { hits ≡ (alert_for standing.now.value article.now).hits }
        ensures value { IfOk result (λ alert. alert_value alert ≡ alert_for standing.now.value article.now) }
        ensures article { IfOk result (λ alert. alert.article ≡ article.now) }
        ensures found { IfOk result (λ alert. has_hits alert ≡ true) }
    {
        Ok(Alert {
            standing: standing.clone()?,
            article: article.copy()?,
            found: Some(hits),
        })
    }

    /// The id of the query, as a text that a `clone` shares. Takes constant time.
    pub fn query(&self) -> &ArcStr
        ensures { arc_str_bytes result.now ≡ (alert_value self.now).query }
    {
        self.standing.shared_id()
    }

    /// The article. Takes constant time.
    pub fn article(&self) -> &Article
        ensures id { result.now.id ≡ (alert_value self.now).article }
        ensures article { result.now ≡ self.now.article }
    {
        &self.article
    }

    /// The name of the query's listener, if it has one, as a text that a `clone` shares. Takes constant time.
    pub fn listener(&self) -> Option<&ArcStr>
        ensures { option_map arc_str_bytes (option_copied result) ≡ (alert_value self.now).listener }
    {
        self.standing.shared_listener()
    }

    /// The hits, where they were found when the alert was made: those that `hits` returns. Takes constant time.
    pub fn found_hits(&self) -> Option<&[Hit]>
        ensures found { is_some result ≡ has_hits self.now }
        ensures hits { IfSome result (λ hits. map hit_value hits.now ≡ (alert_value self.now).hits) }
    {
        match &self.found {
            Some(hits) => Some(hits.as_slice()),
            None => None,
        }
    }

    /// What it says, with its hits where they were found when it was made. Takes constant time.
    pub fn as_view(&self) -> AlertView<'_>
        ensures { result ≡ alert_value self.now }
    {
        AlertView::of(&self.standing, &self.article, self.found_hits())
    }

    /// Where in the article the query holds: the positions of the words that its leaves name, by the bytes of their
    /// fields' names and then by position. They are copied where they were found when the alert was made, and else
    /// found at each call.
    ///
    /// `NoMemory` where an allocation failed. Cost: that of `AlertView::hits`.
    pub fn hits(&self, alloc: Global) -> Result<Vec<Hit>, NoMemory>
        ensures { IfOk result (λ hits. map hit_value hits.items ≡ (alert_value self.now).hits) }
    {
        self.as_view().hits(alloc)
    }

    /// A copy of the alert. It shares the query and the article; hits that were found are not copied, so `hits`
    /// finds those of the copy anew. Takes constant time.
    ///
    /// `NoMemory` where the count of holders of one of the two is at its end.
    pub fn copy(&self) -> Result<Alert, NoMemory>
        ensures value { IfOk result (λ alert. alert_value alert ≡ alert_value self.now) }
        ensures article { IfOk result (λ alert. alert.article ≡ self.now.article) }
    {
        Alert::of(&self.standing, &self.article)
    }
}

/// The alerts of one article.
#[derive(Debug, Drop)]
pub struct Alerts {
    /// The article's id.
    pub article: ArcStr,
    /// How many commands were accepted before the view was taken.
    pub place: u64,
    /// How many queries were tried on the article: its candidates.
    pub asked: u64,
    /// One alert for each registered query that holds of the article, in the byte order of the queries' ids.
    pub alerts: Vec<Alert>,
}

impl Alerts {
    ghost use Rattle.clip_standing.specs.Alerts.{alerts_value};

    /// What each of the alerts says, in their order.
    ///
    /// `NoMemory` where an allocation failed. Cost: a step for each of them.
    pub fn views(&self, alloc: Global) -> Result<Vec<AlertView<'_>>, NoMemory>
        ensures { IfOk result (λ views. views.items ≡ (alerts_value self.now).alerts) }
    {
        let mut views = Vec::with_capacity(alloc, self.alerts.len())?;
        let alerts = self.alerts.as_slice();
        for alert in alerts {
            views.push(alert.as_view())?;
        }
        Ok(views)
    }
}
