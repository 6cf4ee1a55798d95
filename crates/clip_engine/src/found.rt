//! What was found of an article, as bytes that a caller outside of Rattle can take apart.
ghost use Rattle.std.specs.Prelude.{◌≡◌, ◌++◌, true, IfOk, OnOk, map};
ghost use Rattle.clip_match.specs.Due.{due_value, AreTheirHits};
ghost use Rattle.clip_meaning.specs.Hits.{hit_value};
ghost use Rattle.clip_engine.specs.Found.{alert_bytes, alerts_bytes, found_bytes, hits_bytes, number_bytes, text_bytes};
ghost use Rattle.clip_engine.specs.Found.{plain_alert_bytes, plain_alerts_bytes};

use clip_match::DueEntries;
use clip_meaning::Hit;
use clip_standing::AlertView;
use clip_words::NoMemory;
use std::alloc::Global;

/// Adds a number: eight bytes, the lowest first.
pub(crate) fn add_number(bytes: &mut Vec<u8>, number: u64) -> Result<(), NoMemory>
    ensures { OnOk result (bytes.new.items ≡ bytes.old.items ++ number_bytes number) }
{
    bytes.extend_from_slice(&number.to_le_bytes())?;
    Ok(())
}

/// Adds a text after its length.
pub(crate) fn add_text(bytes: &mut Vec<u8>, text: &str) -> Result<(), NoMemory>
    ensures { OnOk result (bytes.new.items ≡ bytes.old.items ++ text_bytes text.now) }
{
    add_number(bytes, text.len() as u64)?;
    bytes.extend_from_slice(text.as_bytes())?;
    Ok(())
}

/// Adds hits after their count.
fn add_hits(bytes: &mut Vec<u8>, hits: &[Hit]) -> Result<(), NoMemory>
    ensures { OnOk result (bytes.new.items ≡ bytes.old.items ++ hits_bytes (map hit_value hits.now)) }
{
    add_number(bytes, hits.len() as u64)?;
    for hit in hits {
        add_text(bytes, hit.field.as_str())?;
        add_number(bytes, hit.position)?;
    }
    Ok(())
}

/// Adds an alert: the id of its query, and its hits.
fn add_alert(alloc: Global, bytes: &mut Vec<u8>, alert: &AlertView<'_>) -> Result<(), NoMemory>
    ensures { OnOk result (bytes.new.items ≡ bytes.old.items ++ alert_bytes true alert.now) }
{
    add_text(bytes, alert.query())?;
    match alert.found_hits() {
        Some(hits) => add_hits(bytes, hits),
        None => add_hits(bytes, &alert.hits(alloc)?),
    }
}

/// Adds alerts after their count, each with its hits.
fn add_alerts(alloc: Global, bytes: &mut Vec<u8>, alerts: &[AlertView<'_>]) -> Result<(), NoMemory>
    ensures { OnOk result (bytes.new.items ≡ bytes.old.items ++ alerts_bytes true alerts.now) }
{
    add_number(bytes, alerts.len() as u64)?;
    for alert in alerts {
        add_alert(alloc, bytes, alert)?;
    }
    Ok(())
}

/// Adds an alert of which no hits are shown: the id of its query, and that there are none.
fn add_plain_alert(bytes: &mut Vec<u8>, query: &str) -> Result<(), NoMemory>
    ensures { OnOk result (bytes.new.items ≡ bytes.old.items ++ plain_alert_bytes query.now) }
{
    add_text(bytes, query)?;
    add_hits(bytes, &[])
}

/// Adds the alerts of these queries after their count, of which no hits are shown.
fn add_plain_alerts(bytes: &mut Vec<u8>, queries: &[&str]) -> Result<(), NoMemory>
    ensures { OnOk result (bytes.new.items
        ≡ bytes.old.items ++ plain_alerts_bytes (map (λ query. query.now) queries.now)) }
{
    add_number(bytes, queries.len() as u64)?;
    for query in queries {
        add_plain_alert(bytes, query)?;
    }
    Ok(())
}

/// Adds what is due after its count, with the hits of each alert where they are shown.
#[tactic(auto, using(crate::proofs::Plain::plain_are))]
fn add_due(
    alloc: Global,
    bytes: &mut Vec<u8>,
    due: &DueEntries<'_>,
    shows_hits: bool,
) -> Result<(), NoMemory>
    requires { AreTheirHits due.now }
    ensures { OnOk result (bytes.new.items
        ≡ bytes.old.items ++ alerts_bytes shows_hits (due_value due.now).alerts) }
{
    if shows_hits {
        return add_alerts(alloc, bytes, &due.views(alloc)?);
    }
    add_plain_alerts(bytes, &due.queries(alloc)?)
}

/// What is due to an article as bytes: how many queries were tried, the count of alerts, and then for each the id of
/// the query and its hits, of which there are none where they are not shown. A text stands after its length, hits after
/// their count, and a hit is a field's name and a position; numbers are eight bytes, the lowest first. No alert is
/// made.
///
/// `NoMemory` where an allocation failed. Cost: a copy of the ids, and where hits are shown that of `AlertView::hits`
/// for each alert whose hits were not found.
pub(crate) fn bytes_of_due(
    alloc: Global,
    due: &DueEntries<'_>,
    shows_hits: bool,
) -> Result<Vec<u8>, NoMemory>
    requires { AreTheirHits due.now }
    ensures { IfOk result (λ bytes. bytes.items
        ≡ found_bytes shows_hits (due_value due.now).asked (due_value due.now).alerts) }
{
    let mut bytes = Vec::new(alloc);
    add_number(&mut bytes, due.asked())?;
    add_due(alloc, &mut bytes, due, shows_hits)?;
    Ok(bytes)
}
