//! What the parts of a divided registry found, as one.
ghost use Rattle.std.specs.Prelude.{◌≡◌, ◌≤◌, ◌<◌, ◌^◌, ◌↔◌, None, map, sum_by, length, slice_index};
ghost use Rattle.std.specs.Prelude.{Err, IfOk, IfSome, IsTrue, OnOk};
ghost use Rattle.clip_meaning.specs.Article.{ArticleValue};
ghost use Rattle.clip_model.specs.History.{History};
ghost use Rattle.clip_model.specs.Alerts.{alerts};
ghost use Rattle.clip_model.specs.Shards.{Division, merged_of, sum_of};
ghost use Rattle.clip_standing.specs.Alerts.{alert_value};
ghost use Rattle.clip_gather.specs.Gather.{found_by, given, query_of, AreOfShards, AlertsNeverFall};
ghost use Rattle.clip_gather.specs.Merged.{NeverFalls, NoneFalls};
ghost use Rattle.clip_gather.specs.Steps.Merging.{values};

use crate::merging::{merge_all, never_falls};
use clip_model::law_of_shards;
use clip_standing::{Alert, Alerts};
use clip_words::NoMemory;
use std::alloc::Global;
use std::collections::VecDeque;
use thiserror::Error;

/// What the parts found of an article.
#[derive(Debug, Drop)]
pub struct Gathered {
    /// How many queries were tried on the article in all.
    pub asked: u64,
    /// The alerts of all parts, in the byte order of the queries' ids.
    pub alerts: Vec<Alert>,
}

/// Why what parts found is not gathered, the first that holds in this order; `NoMemory` comes wherever an allocation
/// failed.
#[derive(Clone, Copy, Debug, PartialEq, Eq, Error)]
pub enum GatherFault {
    /// More queries were tried than 64 bits can count.
    #[error("over 18446744073709551615 queries tried")]
    TooMany,
    /// In a part an id is above the next.
    #[error("ids of a part out of order")]
    Order,
    /// An allocation failed.
    #[error("no memory")]
    NoMemory,
}

impl From<NoMemory> for GatherFault {
    ghost use Rattle.clip_gather.specs.declared.parts.GatherFault.TheVariants as faults;

    ghost from_gives = { λ _ fault. fault ≡ faults.NoMemory };

    fn from(_error: NoMemory) -> GatherFault {
        GatherFault::NoMemory
    }
}

/// The alerts due to an article stand in the byte order of their queries' ids.
pub fn alerts_never_fall()
    ensures { AlertsNeverFall }
{}

/// How many queries all parts tried, where 64 bits can count them.
fn asked_by(parts: &[Alerts]) -> Option<u64>
    ensures some { IfSome result (λ asked. asked ≡ sum_by (λ part. part.asked) parts.now) }
    ensures none { result ≡ None → 2 ^ 64 ≤ sum_by (λ part. part.asked) parts.now }
{
    let mut rest = parts;
    let mut asked: u64 = 0;
    while let Some((part, later)) = rest.split_first() {
        asked = asked.checked_add(part.asked)?;
        rest = later;
    }
    Some(asked)
}

/// Whether in a part no id is above the next.
fn is_in_order(part: &Alerts) -> bool
    ensures { IsTrue result ↔ NeverFalls query_of (found_by part.now) }
{
    never_falls(part.alerts.as_slice())
}

/// Whether in no part an id is above the next.
fn are_in_order(parts: &[Alerts]) -> bool
    ensures { IsTrue result ↔ NoneFalls query_of (map found_by parts.now) }
{
    let mut rest = parts;
    while let Some((part, later)) = rest.split_first() {
        if !is_in_order(part) {
            return false;
        }
        rest = later;
    }
    true
}

/// The alerts of each part.
fn lists_of(alloc: Global, parts: Vec<Alerts>) -> Result<VecDeque<VecDeque<Alert>>, NoMemory>
    ensures { IfOk result (λ lists. map values lists.items ≡ map found_by parts.items) }
{
    let mut lists = VecDeque::new(alloc);
    for part in parts {
        lists.push_back(VecDeque::from(part.alerts))?;
    }
    Ok(lists)
}

/// Gathers what the parts of a divided registry found of an article: the alerts of all, merged by the ids of their
/// queries, and how many queries were tried in all. Where the parts are those of one history, these are the alerts due
/// at the whole; so whoever delivers them to listeners has the notes of the whole too. Alerts that are due stand in the
/// byte order of their ids (`alerts_never_fall`).
///
/// Cost: for each alert a step and a comparison of two ids for each time that the number of parts can be halved, and
/// one more.
///
/// # Errors
///
/// The first that holds: `TooMany` where 64 bits can't count the queries that were tried; `Order` where in a part an id
/// is above the next. `NoMemory` where an allocation failed.
pub fn gather(alloc: Global, parts: Vec<Alerts>) -> Result<Gathered, GatherFault>
    ensures alerts { IfOk result (λ all. map alert_value all.alerts.items
        ≡ merged_of (length parts.items) (given (map found_by parts.items))) }
    ensures asked { IfOk result (λ all. all.asked
        ≡ sum_of (length parts.items) (slice_index (map (λ part. part.asked) parts.items))) }
    ensures whole { IfOk result (λ all. (d : Division) (h : History) (article : ArticleValue)
        → length parts.items ≡ d.parts → AreOfShards d h article (given (map found_by parts.items))
        → map alert_value all.alerts.items ≡ alerts h article) }
    ensures in_order { OnOk result (NoneFalls query_of (map found_by parts.items)) }
    ensures many { result ≡ Err GatherFault.TooMany → 2 ^ 64 ≤ sum_by (λ part. part.asked) parts.items }
    ensures order { result ≡ Err GatherFault.Order → NoneFalls query_of (map found_by parts.items) → ⊥ }
{
    law_of_shards();
    let Some(asked) = asked_by(&parts) else {
        return Err(GatherFault::TooMany);
    };
    if !are_in_order(&parts) {
        return Err(GatherFault::Order);
    }
    let alerts = merge_all(alloc, lists_of(alloc, parts)?)?;
    Ok(Gathered {
        asked,
        alerts: Vec::from(alerts),
    })
}
