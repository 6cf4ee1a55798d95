//! A line answered.
ghost use Rattle.std.specs.Prelude.{◌≡◌, false, map, IfOk, OnOk};
ghost use Rattle.std.specs.List.{All};
ghost use Rattle.clip_match.specs.Alerts.{alerts_due};
ghost use Rattle.clip_protocol.specs.Found.{found_value};
ghost use Rattle.clip_registry.specs.Merging.{purged};
ghost use Rattle.clip_protocol.specs.LineMeaning.{Means, matching, purging};
ghost use Rattle.clip_protocol.specs.Reply.{reply};
ghost use Rattle.clip_front.specs.Outcome.{names_in};
ghost use Rattle.clip_front.specs.Steps.Found.{IsFor};
ghost use Rattle.clip_front.specs.Steps.Taking.{PurgesIf};
ghost use Rattle.clip_run.specs.Unpurged.{GoesOnUnpurged};
ghost use Rattle.clip_engine.specs.Engine.{Answers, house};

use crate::house::House;
use clip_front::{Books, Settings, Step, deliver, take_line};
use clip_listen::Audience;
use clip_match::{View, entries_due};
use clip_meaning::Article;
use clip_protocol::{Found, articles_of};
use clip_run::{OwnRegistrar, hits_found};
use clip_stream::Form;
use clip_words::NoMemory;
use std::alloc::Global;

/// The alerts of each article, in the order of the articles, all at one view; none are shown already.
fn found_of_each(
    alloc: Global,
    view: &View,
    settings: Settings,
    articles: &[Article],
) -> Result<Vec<Found>, NoMemory>
    ensures value { IfOk result (λ found. map found_value found.items ≡ map (alerts_due view.now) articles.now) }
    ensures any { IfOk result (λ found. (s : Settings) → All (IsFor s) found.items) }
{
    let hits = hits_found(settings);
    let mut found = Vec::new(alloc);
    for article in articles {
        let due = entries_due(alloc, view, article, hits)?;
        found.push(Found::Alerts(due.alerts(alloc)?))?;
    }
    Ok(found)
}

/// The settings of an engine whose replies have this form: no row is kept, and no worker matches.
pub(crate) fn settings_of(form: Form) -> Settings
    ensures { result ≡ record { form = form; keeps_rows = false; workers = 0 } }
{
    Settings {
        form,
        keeps_rows: false,
        workers: 0,
    }
}

/// The text of the reply to the line of this number, which matches these articles.
fn match_reply(
    alloc: Global,
    view: &View,
    listeners: &mut House,
    form: Form,
    number: u64,
    articles: &[Article],
) -> Result<Vec<u8>, NoMemory>
    requires { ⟦<House as Audience>⟧.hearers listeners.old ≡ house }
    ensures { IfOk result (λ text. text.items ≡ reply form house number view.now.history (matching articles.now)) }
{
    let settings = settings_of(form);
    let found = found_of_each(alloc, view, settings, articles)?;
    let mut books = Books::new(alloc, settings);
    deliver(alloc, listeners, &mut books, number, &found)
}

/// Answers the line of this number: the text of its reply, or nothing for a blank line.
pub(crate) fn answer(
    alloc: Global,
    owned: &mut OwnRegistrar,
    form: Form,
    number: u64,
    line: &[u8],
) -> Result<Vec<u8>, NoMemory>
    ensures answers { IfOk result (λ text. Answers form owned.old.registrar.history owned.new.registrar.history number
        line.now text.items) }
    ensures purges { OnOk result (PurgesIf (Means (names_in house) owned.old.registrar.history line.now purging)
        (λ old new. new.registrar ≡ purged old.registrar) GoesOnUnpurged owned.old owned.new) }
{
    let mut listeners = House::new(alloc)?;
    match take_line(alloc, owned, &listeners, number, line)? {
        Step::Reply(text) => Ok(text),
        Step::Match(drafts) => {
            let articles = articles_of(alloc, &drafts)?;
            let view = owned.registrar.view()?;
            match_reply(alloc, &view, &mut listeners, form, number, &articles)
        }
    }
}
