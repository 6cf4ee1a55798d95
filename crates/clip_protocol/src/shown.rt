//! The text that a reply has of an article whose alerts nobody hears.
ghost use Rattle.std.specs.Prelude.{◌≡◌, All, IfOk, None, map, option_map};
ghost use Rattle.std.proofs.Props.{props};
ghost use Rattle.json.specs.Print.{print};
ghost use Rattle.clip_standing.specs.Alerts.{alerts_value};
ghost use Rattle.clip_protocol.specs.Reply.{alerts_data, form_with, unheard_data};
ghost use Rattle.clip_protocol.specs.Steps.Printing.{data_tokens};
ghost use Rattle.clip_protocol.specs.Steps.Views.{alerts_by_id};

use crate::printing::{alerts_text, unheard_text};
use crate::said::AlertsSaid;
use clip_standing::{AlertView, Alerts};
use clip_stream::Form;
use clip_words::NoMemory;
use std::alloc::Global;

/// What a reply to a match shows of an article, whose alerts are let go or were never made, since no query among them
/// has a listener.
#[derive(Drop)]
pub struct Shown {
    /// The form.
    pub form: Form,
    text: Vec<u8>,
    /// What its alerts say, for proofs alone. It takes no bytes.
    pub alerts: AlertsSaid,
    pub ghost written: { text.items ≡ print (data_tokens (alerts_data form (alerts_by_id alerts.value))) },
    pub ghost unheard: { All (λ a. a.listener ≡ None) alerts.value.alerts } by { Prim.hlevel props },
}

/// The form that shows hits where what alerts say is given, which tells them.
fn form_of_views(views: Option<&[AlertView<'_>]>) -> Form
    ensures { result ≡ form_with (option_map (λ v. v.now) views.entry) }
{
    match views {
        None => Form::Plain,
        Some(_) => Form::WithHits,
    }
}

impl Shown {
    /// What a reply of this form shows of these alerts.
    ///
    /// `NoMemory` where an allocation failed. Its cost is linear in the text; with hits that of `Alert::hits` comes to
    /// it for each alert that carries none.
    pub fn of(alloc: Global, form: Form, alerts: &Alerts) -> Result<Shown, NoMemory>
        requires { All (λ a. a.listener ≡ None) (alerts_value alerts.now).alerts }
        ensures form { IfOk result (λ shown. shown.form ≡ form) }
        ensures alerts { IfOk result (λ shown. shown.alerts.value ≡ alerts_value alerts.now) }
    {
        let text = alerts_text(Vec::new(alloc), alloc, form, alerts)?;
        Ok(Shown {
            form,
            text,
            alerts: AlertsSaid::of(alerts),
        })
    }

    /// What a reply shows of an article whose alerts were not made: its id, and the ids of the queries that hold of it;
    /// in the form with hits also where they hold, which what the alerts would say tells. Where that is not given, the
    /// form is the plain one.
    ///
    /// `NoMemory` where an allocation failed. Its cost is linear in the text; with hits that of `AlertView::hits` comes
    /// to it for each alert whose hits were not found.
    pub fn unmade(
        alloc: Global,
        article: &str,
        queries: &[&str],
        views: Option<&[AlertView<'_>]>,
        alerts: AlertsSaid,
    ) -> Result<Shown, NoMemory>
        requires unheard { All (λ a. a.listener ≡ None) alerts.value.alerts }
        requires data { unheard_data article.now (map (λ id. id.now) queries.now) (option_map (λ v. v.now) views)
            ≡ alerts_data (form_with (option_map (λ v. v.now) views)) (alerts_by_id alerts.value) }
        ensures form { IfOk result (λ shown. shown.form ≡ form_with (option_map (λ v. v.now) views.entry)) }
        ensures alerts { IfOk result (λ shown. shown.alerts.value ≡ alerts.value) }
    {
        let text = unheard_text(alloc, article, queries, views)?;
        Ok(Shown {
            form: form_of_views(views),
            text,
            alerts,
        })
    }

    /// The text. Takes constant time.
    pub fn as_slice(&self) -> &[u8]
        ensures { result.now ≡ print (data_tokens
            (alerts_data self.now.form (alerts_by_id self.now.alerts.value))) }
    {
        &self.text
    }
}
