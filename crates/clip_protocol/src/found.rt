//! What was found of an article, and the text of the reply to a match.
ghost use Rattle.std.specs.Prelude.{◌≡◌, ◌∷◌, [], ◌++◌, All, IfOk, OnOk, false, is_some, map, not, true};
ghost use Rattle.std.specs.Arc.{arc_str_bytes};
ghost use Rattle.std.specs.List.{list_any};
ghost use Rattle.json.specs.Print.{print};
ghost use Rattle.serde_json.specs.View.{items_of};
ghost use Rattle.serde_json.specs.Written.{comma_if, items_text};
ghost use Rattle.clip_standing.specs.Alerts.{alert_value, alerts_value};
ghost use Rattle.clip_protocol.specs.Found.{IsShownIn, found_value, is_shown};
ghost use Rattle.clip_protocol.specs.Reply as reply;
ghost use Rattle.clip_protocol.specs.Reply.{alerts_data, reply_text};
ghost use Rattle.clip_protocol.specs.Steps.Flowing.{closing, opening};
ghost use Rattle.clip_protocol.specs.Steps.Printing.{data_tokens};
ghost use Rattle.clip_protocol.specs.Steps.Views.{alerts_by_id};

use crate::printing::{alerts_text, write_notes, write_number};
use crate::reply::{begin_reply, line_of};
use crate::shown::Shown;
use clip_listen::Note;
use clip_standing::{Alert, Alerts};
use clip_stream::Form;
use clip_words::NoMemory;
use json::Writer;
use std::alloc::Global;

/// What was found of an article.
#[derive(Drop)]
pub enum Found {
    /// Its alerts.
    Alerts(Alerts),
    /// What a reply shows of its alerts, which were let go, or of which none was made.
    Shown(Shown),
}

/// Whether the query of the alert has a listener.
fn has_listener(alert: &Alert) -> bool
    ensures { result ≡ is_some (alert_value alert.now).listener }
{
    alert.listener().is_some()
}

/// Whether the query of one of the alerts has a listener.
fn have_listener(alerts: &[Alert]) -> bool
    ensures { result ≡ list_any (λ a. is_some (alert_value a).listener) alerts.now }
{
    alerts.iter().any(|alert| has_listener(alert))
}

impl Found {
    /// What a reply of this form shows of the alerts, where no query among them has a listener, and else the alerts as
    /// they are. So what nobody is told of is written, and let go, where it was found.
    ///
    /// `NoMemory` where an allocation failed. Its cost is linear in the text; with hits that of `Alert::hits` comes to
    /// it for each alert that carries none.
    pub fn shown(alloc: Global, form: Form, alerts: Alerts) -> Result<Found, NoMemory>
        ensures value { IfOk result (λ found. found_value found ≡ alerts_value alerts) }
        ensures form { IfOk result (λ found. IsShownIn form found) }
        ensures unheard { IfOk result (λ found.
            is_shown found ≡ not (list_any (λ a. is_some a.listener) (alerts_value alerts).alerts)) }
    {
        let is_heard = have_listener(&alerts.alerts);
        if is_heard {
            return Ok(Found::Alerts(alerts));
        }
        Ok(Found::Shown(Shown::of(alloc, form, &alerts)?))
    }
}

/// The reply to a match up to what it shows of the first article. `NoMemory` where an allocation failed.
pub fn opened_text(alloc: Global) -> Result<Vec<u8>, NoMemory>
    ensures { IfOk result (λ text. text.items ≡ opening) }
{
    let mut out = begin_reply(alloc)?;
    out.key("alerts")?;
    out.begin_array()?;
    Ok(out.into_inner())
}

/// Adds a comma to the text, where what comes stands after another.
pub fn separate(text: &mut Vec<u8>, later: bool) -> Result<(), NoMemory>
    ensures { OnOk result (text.new.items ≡ text.old.items ++ comma_if later) }
{
    if later {
        text.push(b',')?;
    }
    Ok(())
}

/// The text, and after it what a reply shows of an article.
fn with_article(
    mut text: Vec<u8>,
    alloc: Global,
    form: Form,
    found: &Found,
) -> Result<Vec<u8>, NoMemory>
    requires { IsShownIn form found.now }
    ensures { IfOk result (λ after. after.items
        ≡ text.items ++ print (data_tokens (alerts_data form (alerts_by_id (found_value found.now))))) }
{
    match found {
        Found::Alerts(alerts) => alerts_text(text, alloc, form, alerts),
        Found::Shown(shown) => {
            text.extend_from_slice(shown.as_slice())?;
            Ok(text)
        }
    }
}

/// The text, and after it what a reply shows of each article, with commas between.
fn with_articles(
    mut text: Vec<u8>,
    alloc: Global,
    form: Form,
    all: &[Found],
) -> Result<Vec<u8>, NoMemory>
    requires { All (IsShownIn form) all.now }
    ensures { IfOk result (λ after. after.items ++ 93 ∷ [] ≡ text.items ++ items_text false
        (items_of (map (alerts_data form) (map alerts_by_id (map found_value all.now))))) }
{
    for (place, found) in all.iter().enumerate() {
        separate(&mut text, place > 0)?;
        text = with_article(text, alloc, form, found)?;
    }
    Ok(text)
}

/// The text, and after it the end of the articles and the rest of the reply to a match. `NoMemory` where an allocation
/// failed. Its cost is linear in what it adds.
pub fn closed_text(text: Vec<u8>, number: u64, notes: &[Note]) -> Result<Vec<u8>, NoMemory>
    ensures { IfOk result (λ whole. whole.items
        ≡ text.items ++ closing number (map (λ n. arc_str_bytes n.text) notes.now)) }
{
    let mut out = Writer::new(text);
    out.end_array()?;
    out.key("line")?;
    write_number(&mut out, number)?;
    out.key("notes")?;
    write_notes(&mut out, notes)?;
    line_of(out)
}

/// The text of the reply to the match on the line of this number: compact JSON and a line feed, with what was found of
/// each article in this form, and what the listeners said. What is shown already is copied.
///
/// `NoMemory` where an allocation failed. Its cost is linear in the text, which allocates only as it grows; with hits
/// that of `Alert::hits` comes to it for each alert that is kept and carries none.
pub fn found_text(
    alloc: Global,
    form: Form,
    number: u64,
    found: &[Found],
    notes: &[Note],
) -> Result<Vec<u8>, NoMemory>
    requires { All (IsShownIn form) found.now }
    ensures { IfOk result (λ text. text.items ≡ reply_text number (reply.matched form
        (map alerts_by_id (map found_value found.now)) (map (λ n. arc_str_bytes n.text) notes.now))) }
{
    let text = with_articles(opened_text(alloc)?, alloc, form, found)?;
    closed_text(text, number, notes)
}
