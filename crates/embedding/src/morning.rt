//! A morning's articles.
ghost use Rattle.std.specs.Prelude.{◌≡◌, map, IfOk, OnOk};
ghost use Rattle.std.specs.List.{flat_map};
ghost use Rattle.clip_model.specs.Alerts.{alerts};
ghost use Rattle.clip_listen.specs.Heard.{note_value, notes_of, told_all};

use clip_ledger::Ledger;
use clip_listen::{Audience, Note, deliver_to};
use clip_match::{View, match_article};
use clip_meaning::Article;
use clip_words::NoMemory;
use std::alloc::Global;

/// Matches the articles in order, and tells the alerts of each to the audience and to the ledger, under the article's
/// number from 1. Answers what was said.
///
/// `NoMemory` where an allocation failed or a listener answers it; what was told until then stays told.
pub fn morning<A: Audience>(
    alloc: Global,
    view: &View,
    articles: &[Article],
    audience: &mut A,
    ledger: &mut Ledger,
) -> Result<Vec<Note>, NoMemory>
    ensures heard { OnOk result (A.hearers audience.new
        ≡ told_all (flat_map (alerts view.now.history) articles.now) (A.hearers audience.old)) }
    ensures notes { IfOk result (λ notes. map note_value notes.items
        ≡ notes_of (A.hearers audience.old) (flat_map (alerts view.now.history) articles.now)) }
{
    let mut notes = Vec::new(alloc);
    for (place, article) in articles.iter().enumerate() {
        let alerts = match_article(alloc, view, article)?;
        let mut said = deliver_to(alloc, audience, &alerts)?;
        ledger.post(place as u64 + 1, &alerts, &said)?;
        notes.append(&mut said)?;
    }
    Ok(notes)
}
