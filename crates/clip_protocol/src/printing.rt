//! The values in replies, written token by token.
ghost use Rattle.std.specs.Prelude.{◌≡◌, ◌++◌, IfOk, false, flat_map, map, option_map, string_bytes};
ghost use Rattle.std.specs.Arc.{arc_str_bytes};
ghost use Rattle.json.specs.Print.{print};
ghost use Rattle.serde_json.specs.Data.{string};
ghost use Rattle.clip_meaning.specs.Hits.{hit_value};
ghost use Rattle.clip_standing.specs.Alerts.{alert_value, alerts_value};
ghost use Rattle.clip_protocol.specs.Reply.{alerts_data, article_data, hit_data, hits_data, ids_data, number_of};
ghost use Rattle.clip_protocol.specs.Reply.{query_ids, text_or_null, unheard_data};
ghost use Rattle.clip_protocol.specs.Request.{array_of};
ghost use Rattle.clip_protocol.specs.Steps.Flowing.{article_begun, items_begun};
ghost use Rattle.clip_protocol.specs.Steps.Printing.{Appends, alerts_with_hits, data_tokens, hits_tokens};
ghost use Rattle.clip_protocol.specs.Steps.Views.{alerts_by_id};

use clip_listen::Note;
use clip_meaning::Hit;
use clip_standing::{Alert, AlertView, Alerts};
use clip_stream::Form;
use clip_words::NoMemory;
use json::Writer;
use std::alloc::Global;

/// Writes a number.
pub fn write_number(out: &mut Writer, number: u64) -> Result<(), NoMemory>
    ensures { Appends result out.old out.new (data_tokens (number_of number)) }
{
    out.u64(number)?;
    Ok(())
}

/// Writes a text.
pub fn write_text(out: &mut Writer, text: &str) -> Result<(), NoMemory>
    ensures { Appends result out.old out.new (data_tokens (string text.now)) }
{
    out.string(text)?;
    Ok(())
}

/// Writes a text, or `null` where there is none.
pub fn write_text_or_null(out: &mut Writer, text: &Option<String>) -> Result<(), NoMemory>
    ensures { Appends result out.old out.new (data_tokens (text_or_null (option_map string_bytes text.now))) }
{
    match text {
        Some(text) => out.string(text)?,
        None => out.null()?,
    }
    Ok(())
}

/// Writes the name of a field and a position in it.
fn write_hit(out: &mut Writer, hit: &Hit) -> Result<(), NoMemory>
    ensures { Appends result out.old out.new (data_tokens (hit_data (hit_value hit.now))) }
{
    out.begin_object()?;
    out.key("field")?;
    out.string(hit.field.as_str())?;
    out.key("position")?;
    out.u64(hit.position)?;
    out.end_object()?;
    Ok(())
}

/// Writes hits, one after the other.
fn write_each_hit(out: &mut Writer, hits: &[Hit]) -> Result<(), NoMemory>
    ensures { Appends result out.old out.new (flat_map data_tokens (map hit_data (map hit_value hits.now))) }
{
    for hit in hits {
        write_hit(out, hit)?;
    }
    Ok(())
}

/// The text, and after it hits, with commas between.
pub fn hits_text(text: Vec<u8>, hits: &[Hit]) -> Result<Vec<u8>, NoMemory>
    ensures { IfOk result (λ after. after.items
        ≡ text.items ++ items_begun false (map hit_data (map hit_value hits.now))) }
{
    let mut out = Writer::new(text);
    write_each_hit(&mut out, hits)?;
    Ok(out.into_inner())
}

/// Writes where a query holds.
fn write_hits(out: &mut Writer, hits: &[Hit]) -> Result<(), NoMemory>
    ensures { Appends result out.old out.new
        (data_tokens (array_of (map hit_data (map hit_value hits.now)))) }
{
    out.begin_array()?;
    write_each_hit(out, hits)?;
    out.end_array()?;
    Ok(())
}

/// Writes where the query of an alert holds: what was found already, or what is found now.
fn write_hits_of(out: &mut Writer, alloc: Global, alert: &AlertView<'_>) -> Result<(), NoMemory>
    ensures { Appends result out.old out.new
        (data_tokens (array_of (map hit_data alert.now.hits))) }
{
    match alert.found_hits() {
        Some(hits) => write_hits(out, hits),
        None => write_hits(out, &alert.hits(alloc)?),
    }
}

/// Writes for each alert where its query holds.
fn write_hits_of_all(
    out: &mut Writer,
    alloc: Global,
    alerts: &[AlertView<'_>],
) -> Result<(), NoMemory>
    ensures { Appends result out.old out.new (data_tokens (hits_data alerts.now)) }
{
    out.begin_array()?;
    for alert in alerts {
        write_hits_of(out, alloc, alert)?;
    }
    out.end_array()?;
    Ok(())
}

/// The ids of the queries of alerts, in their order.
pub fn query_ids<'a>(alloc: Global, alerts: &'a [Alert]) -> Result<Vec<&'a str>, NoMemory>
    ensures { IfOk result (λ ids. map (λ id. id.now) ids.items ≡ query_ids (map alert_value alerts.now)) }
{
    let mut ids = Vec::with_capacity(alloc, alerts.len())?;
    for alert in alerts {
        ids.push(alert.query().as_str())?;
    }
    Ok(ids)
}

/// What alerts say where the form shows it, in their order, and nothing in the plain form.
pub fn views_with_hits(
    alloc: Global,
    form: Form,
    alerts: &Alerts,
) -> Result<Vec<AlertView<'_>>, NoMemory>
    ensures { IfOk result (λ views. views.items ≡ alerts_with_hits form (alerts_value alerts.now).alerts) }
{
    match form {
        Form::Plain => Ok(Vec::new(alloc)),
        Form::WithHits => alerts.views(alloc),
    }
}

/// Writes ids, one after the other.
fn write_each_id(out: &mut Writer, ids: &[&str]) -> Result<(), NoMemory>
    ensures { Appends result out.old out.new (flat_map data_tokens (map string (map (λ id. id.now) ids.now))) }
{
    for id in ids {
        out.string(id)?;
    }
    Ok(())
}

/// The text, and after it ids, with commas between.
pub fn ids_text(text: Vec<u8>, ids: &[&str]) -> Result<Vec<u8>, NoMemory>
    ensures { IfOk result (λ after. after.items
        ≡ text.items ++ items_begun false (map string (map (λ id. id.now) ids.now))) }
{
    let mut out = Writer::new(text);
    write_each_id(&mut out, ids)?;
    Ok(out.into_inner())
}

/// Writes ids as an array.
fn write_ids(out: &mut Writer, ids: &[&str]) -> Result<(), NoMemory>
    ensures { Appends result out.old out.new (data_tokens (ids_data (map (λ id. id.now) ids.now))) }
{
    out.begin_array()?;
    write_each_id(out, ids)?;
    out.end_array()?;
    Ok(())
}

/// Writes the member that tells where the queries hold, if the form shows it.
fn write_hits_member(
    out: &mut Writer,
    alloc: Global,
    form: Form,
    alerts: &[AlertView<'_>],
) -> Result<(), NoMemory>
    ensures { Appends result out.old out.new (hits_tokens form alerts.now) }
{
    match form {
        Form::Plain => Ok(()),
        Form::WithHits => {
            out.key("hits")?;
            write_hits_of_all(out, alloc, alerts)
        }
    }
}

/// Writes what a form shows of an article: its id, the ids of the queries, and with hits where each of them holds.
fn write_article(
    out: &mut Writer,
    alloc: Global,
    form: Form,
    article: &str,
    queries: &[&str],
    alerts: &[AlertView<'_>],
) -> Result<(), NoMemory>
    ensures { Appends result out.old out.new
        (data_tokens (article_data form article.now (map (λ id. id.now) queries.now) alerts.now)) }
{
    out.begin_object()?;
    out.key("article")?;
    out.string(article)?;
    write_hits_member(out, alloc, form, alerts)?;
    out.key("queries")?;
    write_ids(out, queries)?;
    out.end_object()?;
    Ok(())
}

/// Writes an article's alerts in a form.
fn write_alerts(out: &mut Writer, alloc: Global, form: Form, found: &Alerts) -> Result<(), NoMemory>
    ensures { Appends result out.old out.new
        (data_tokens (alerts_data form (alerts_by_id (alerts_value found.now)))) }
{
    let queries = query_ids(alloc, &found.alerts)?;
    let alerts = views_with_hits(alloc, form, found)?;
    write_article(out, alloc, form, found.article.as_str(), &queries, &alerts)
}

/// The text, and after it the beginning of an article's alerts, up to its id.
pub fn article_begun_text(text: Vec<u8>, article: &str) -> Result<Vec<u8>, NoMemory>
    ensures { IfOk result (λ after. after.items ≡ text.items ++ article_begun article.now) }
{
    let mut out = Writer::new(text);
    out.begin_object()?;
    out.key("article")?;
    out.string(article)?;
    Ok(out.into_inner())
}

/// What a reply shows of an article whose alerts nobody hears: with hits where what these say is given, which tells
/// them.
pub fn unheard_text(
    alloc: Global,
    article: &str,
    queries: &[&str],
    alerts: Option<&[AlertView<'_>]>,
) -> Result<Vec<u8>, NoMemory>
    ensures { IfOk result (λ text. text.items ≡ print (data_tokens (unheard_data article.now
        (map (λ id. id.now) queries.now) (option_map (λ v. v.now) alerts.entry)))) }
{
    let mut out = Writer::new(Vec::new(alloc));
    match alerts {
        None => write_article(&mut out, alloc, Form::Plain, article, queries, &[])?,
        Some(alerts) => write_article(&mut out, alloc, Form::WithHits, article, queries, alerts)?,
    }
    Ok(out.into_inner())
}

/// The text, and after it an article's alerts in a form.
pub fn alerts_text(
    text: Vec<u8>,
    alloc: Global,
    form: Form,
    found: &Alerts,
) -> Result<Vec<u8>, NoMemory>
    ensures { IfOk result (λ after. after.items
        ≡ text.items ++ print (data_tokens (alerts_data form (alerts_by_id (alerts_value found.now))))) }
{
    let mut out = Writer::new(text);
    write_alerts(&mut out, alloc, form, found)?;
    Ok(out.into_inner())
}

/// Writes the alerts of each article in a form.
pub fn write_alerts_of_all(
    out: &mut Writer,
    alloc: Global,
    form: Form,
    found: &[Alerts],
) -> Result<(), NoMemory>
    ensures { Appends result out.old out.new (data_tokens (array_of
        (map (alerts_data form) (map alerts_by_id (map alerts_value found.now))))) }
{
    out.begin_array()?;
    for alerts in found {
        write_alerts(out, alloc, form, alerts)?;
    }
    out.end_array()?;
    Ok(())
}

/// Writes what the listeners said.
pub fn write_notes(out: &mut Writer, notes: &[Note]) -> Result<(), NoMemory>
    ensures { Appends result out.old out.new
        (data_tokens (array_of (map string (map (λ n. arc_str_bytes n.text) notes.now)))) }
{
    out.begin_array()?;
    for note in notes {
        out.string(note.text.as_str())?;
    }
    out.end_array()?;
    Ok(())
}
