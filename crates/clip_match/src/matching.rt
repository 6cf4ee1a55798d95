//! The alerts of an article, and of a batch of articles.
ghost use Rattle.std.specs.Prelude.{◌≡◌, true, map, is_some, IfOk, IsPermutation};
ghost use Rattle.std.specs.List.{All};
ghost use Rattle.std.specs.List.Sorted.{IsSortedByKey};
ghost use Rattle.clip_words.specs.Order.{bytes_cmp};
ghost use Rattle.clip_meaning.specs.Hits.{hit_value};
ghost use Rattle.clip_standing.specs.Alerts.{alert_value, alerts_value, has_hits};
ghost use Rattle.clip_match.specs.Alerts.{alert_due, alerts_due};
ghost use Rattle.clip_match.specs.Candidates.{candidates_of, positions_of};
ghost use Rattle.clip_match.specs.Due.{due_value, AreItsHits, AreJudged, AreTheirHits, HaveTheirHits};

use crate::entries::DueEntries;
use crate::held::{Held, HitPlaces, HitsFound};
use crate::registry::View;
use crate::trying::{HeldEntries, Judged, judge_candidates};
use clip_meaning::{Article, Hit};
use clip_standing::{Alert, AlertView, Alerts, FoundHits};
use clip_words::NoMemory;
use std::alloc::Global;
use std::cmp::Ordering;
use std::sync::Arc;

/// Sorts entries by the ids of their queries.
fn sort_by_id(held: &mut Vec<Held>)
    ensures moved { IsPermutation held.old.items held.new.items }
    ensures sorted { IsSortedByKey (λ r. r.standing.id) bytes_cmp (map (λ h. h.registered.now) held.new.items) }
{
    held.sort_unstable_by(
        |a: &Held, b: &Held| -> Ordering
            ensures { result ≡ bytes_cmp a.now.registered.now.standing.id b.now.registered.now.standing.id }
        { a.order(b) },
    );
}

/// The alert of an entry whose query holds of the article, with its hits where they were found, which stand among those
/// of all.
fn alert_of(held: Held<'_>, article: &Article, all_hits: &Arc<Vec<Hit>>) -> Result<Alert, NoMemory>
    requires { AreItsHits article.now (map hit_value all_hits.now.value.items) held }
    ensures value { IfOk result (λ alert. alert_value alert ≡ alert_due article.now held.entry.registered.now) }
    ensures found { IfOk result (λ alert. is_some held.entry.hits ≡ true → has_hits alert ≡ true) }
{
    let Held {
        registered,
        hits,
        ..
    } = held;
    match hits {
        Some(HitPlaces { start, end }) => {
            let hits = FoundHits::among(all_hits, start, end)?;
            Alert::with_hits(registered.standing(), article, hits)
        }
        None => Alert::of(registered.standing(), article),
    }
}

/// What the alert of an entry whose query holds of the article says, with its hits where they were found, which stand
/// among those of all. The entry is not looked at.
fn view_of<'a>(held: &Held<'a>, article: &'a Article, all_hits: &'a [Hit]) -> AlertView<'a>
    requires { AreItsHits article.now (map hit_value all_hits.now) held.now }
    ensures { result ≡ alert_due article.now held.now.registered.now }
{
    let standing = held.registered.standing();
    let hits = held.hits;
    match hits {
        Some(HitPlaces { start, end }) => {
            AlertView::of(standing, article, Some(&all_hits[start..end]))
        }
        None => AlertView::of(standing, article, None),
    }
}

/// What the alerts of queries that hold of the article say, in their order, with their hits where these were found,
/// which stand among those of all.
pub(crate) fn views<'a>(
    alloc: Global,
    held: &[Held<'a>],
    article: &'a Article,
    all_hits: &'a [Hit],
) -> Result<Vec<AlertView<'a>>, NoMemory>
    requires { All (AreItsHits article.now (map hit_value all_hits.now)) held.now }
    ensures { IfOk result (λ views. views.items
        ≡ map (alert_due article.now) (map (λ h. h.registered.now) held.now)) }
{
    let mut views = Vec::with_capacity(alloc, held.len())?;
    for one in held {
        views.push(view_of(one, article, all_hits))?;
    }
    Ok(views)
}

/// The alerts of queries that hold of the article, in their order, with their hits where these were found, which stand
/// among those of all.
pub(crate) fn alerts(
    alloc: Global,
    held: Vec<Held<'_>>,
    article: &Article,
    all_hits: &Arc<Vec<Hit>>,
) -> Result<Vec<Alert>, NoMemory>
    requires { All (AreItsHits article.now (map hit_value all_hits.now.value.items)) held.items }
    ensures value { IfOk result (λ alerts. map alert_value alerts.items
        ≡ map (alert_due article.now) (map (λ h. h.registered.now) held.entry.items)) }
    ensures found { IfOk result (λ alerts. All (λ h. is_some h.hits ≡ true) held.entry.items
        → All (λ alert. has_hits alert ≡ true) alerts.items) }
{
    let mut alerts = Vec::with_capacity(alloc, held.len())?;
    for one in held {
        alerts.push(alert_of(one, article, all_hits)?)?;
    }
    Ok(alerts)
}

/// What is due to an article at a view: of each registered query that holds of it one entry, in the byte order of their
/// ids, and of no other; with the view's place, and how many queries were tried. Just the article's candidates are
/// tried: at most one plan is judged for each, and one is for each query that holds. Just those positions are read that
/// stand under the article's keys, once under each, as keys and as second keys. Where hits are found at once, they are
/// kept until the alerts are made, which carry them then.
///
/// `NoMemory` where an allocation failed, or, where hits are found at once, where the count of a field's name is at its
/// end. Cost: a step for each word of the article, a look-up in each segment for each of its keys, a step for each
/// position that is read and the judging of the plans; and a sort of those that hold. No text is copied, and a query
/// without a key of the article costs nothing. Where hits are found at once, in each segment of which a query holds
/// that of `SegmentReading::spots`, and for each query that holds that of `SegmentSpots::add_hits`.
pub fn entries_due<'a>(
    alloc: Global,
    view: &'a View,
    article: &'a Article,
    hits: HitsFound,
) -> Result<DueEntries<'a>, NoMemory>
    ensures due { IfOk result (λ due. due_value due ≡ alerts_due view.now article.now) }
    ensures hits { IfOk result (λ due. AreTheirHits due) }
    ensures there { hits ≡ HitsFound.AtOnce → IfOk result (λ due. HaveTheirHits due) }
    ensures judged { IfOk result (λ due. AreJudged (candidates_of view.now article.now) due) }
    ensures read { IfOk result (λ due. due.read ≡ positions_of view.now article.now) }
{
    let Judged {
        asked,
        plans: judged,
        read,
        entries,
        is_heard,
    } = judge_candidates(alloc, view, article, hits)?;
    let HeldEntries { mut held, all_hits } = entries;
    let all_hits = Arc::new(alloc, all_hits)?;
    sort_by_id(&mut held);
    Ok(DueEntries {
        article,
        place: view.place(),
        asked,
        judged,
        read,
        held,
        all_hits,
        is_heard,
    })
}

/// The alerts of an article at a view: of each registered query that holds of it one, in the byte order of their ids,
/// and of no other; with the view's place, and how many queries were tried. Their hits are found when they are asked
/// for; where they are to be found at once, go by `entries_due`.
///
/// Just the article's candidates are tried.
///
/// `NoMemory` where an allocation failed. Cost: that of `entries_due`, and a step for each alert.
pub fn match_article(alloc: Global, view: &View, article: &Article) -> Result<Alerts, NoMemory>
    ensures { IfOk result (λ found. alerts_value found ≡ alerts_due view.now article.now) }
{
    entries_due(alloc, view, article, HitsFound::WhenAsked)?.alerts(alloc)
}

/// The alerts of each article of a batch, in the order of the articles, all at one view.
///
/// `NoMemory` where an allocation failed. Cost: that of `match_article` for each article.
pub fn match_batch(
    alloc: Global,
    view: &View,
    articles: &[Article],
) -> Result<Vec<Alerts>, NoMemory>
    ensures { IfOk result (λ found. map alerts_value found.items ≡ map (alerts_due view.now) articles.now) }
{
    let mut found = Vec::new(alloc);
    for article in articles {
        found.push(match_article(alloc, view, article)?)?;
    }
    Ok(found)
}
