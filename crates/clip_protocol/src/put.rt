//! What is put into a flow of the reply to a match, piece by piece.
ghost use Rattle.std.specs.Prelude.{◌≡◌, ◌≢◌, [], ◌∷◌, ◌++◌, codes, false, map, true, Err, IfErr, OnErr, OnOk};
ghost use Rattle.json.specs.Print.{quoted};
ghost use Rattle.serde_json.specs.Data.{string};
ghost use Rattle.serde_json.specs.Written.{compact_text};
ghost use Rattle.clip_meaning.specs.Hits.{hit_value};
ghost use Rattle.clip_standing.specs.Alerts.{alerts_value};
ghost use Rattle.clip_stream.specs.Device.{AppendsFront, HandsOver};
ghost use Rattle.clip_protocol.specs.Reply.{alerts_data, hit_data};
ghost use Rattle.clip_protocol.specs.Request.{array_of};
ghost use Rattle.clip_protocol.specs.Steps.Flowing.{hits_member, item_text, items_begun};
ghost use Rattle.clip_protocol.specs.Steps.Parts.{part_text};
ghost use Rattle.clip_protocol.specs.Steps.Putting.{PutsText, stand};
ghost use Rattle.clip_protocol.specs.Steps.Views.{alerts_by_id};

use crate::found::separate;
use crate::printing::{article_begun_text, hits_text, ids_text, query_ids, views_with_hits};
use clip_meaning::Hit;
use clip_standing::{AlertView, Alerts};
use clip_stream::{Flow, Form, RunFault, Sink};
use std::alloc::Global;

/// So many bytes of a text are a piece, which is put before more is written behind it.
const PIECE_BYTES: usize = 1024;

/// At most so many ids or hits are written before it is seen whether they are a piece.
const PIECE_ITEMS: usize = 64;

/// Puts the text where it is a piece, and gives back what is left to put, in the room that it has.
fn put_piece<W: Sink>(flow: &mut Flow<'_, W>, mut text: Vec<u8>) -> Result<Vec<u8>, RunFault>
    ensures same_reference { flow.new.writer.ghost_name ≡ flow.old.writer.ghost_name }
    ensures puts { PutsText result
        (stand W.taken W.has_failed flow.old.writer.now (flow.old.outbox.now ++ text.items))
        (stand W.taken W.has_failed flow.new.writer.now flow.new.outbox.now) [] }
{
    if text.len() < PIECE_BYTES {
        return Ok(text);
    }
    flow.put(&text)?;
    text.clear();
    Ok(text)
}

/// Puts an array of hits behind the text, and gives back what is left to put.
fn put_hits<W: Sink>(
    flow: &mut Flow<'_, W>,
    mut text: Vec<u8>,
    hits: &[Hit],
) -> Result<Vec<u8>, RunFault>
    ensures same_reference { flow.new.writer.ghost_name ≡ flow.old.writer.ghost_name }
    ensures puts { PutsText result
        (stand W.taken W.has_failed flow.old.writer.now (flow.old.outbox.now ++ text.items))
        (stand W.taken W.has_failed flow.new.writer.now flow.new.outbox.now)
        (compact_text (array_of (map hit_data (map hit_value hits.now)))) }
{
    text.push(b'[')?;
    let mut at = 0;
    while at < hits.len() {
        let end = hits.len().min(at.saturating_add(PIECE_ITEMS));
        separate(&mut text, at > 0)?;
        text = hits_text(text, &hits[at..end])?;
        text = put_piece(flow, text)?;
        at = end;
    }
    text.push(b']')?;
    Ok(text)
}

/// Puts the hits of an alert behind the text: those that were found, or those that are found now.
fn put_hits_of<W: Sink>(
    flow: &mut Flow<'_, W>,
    text: Vec<u8>,
    alloc: Global,
    alert: &AlertView<'_>,
) -> Result<Vec<u8>, RunFault>
    ensures same_reference { flow.new.writer.ghost_name ≡ flow.old.writer.ghost_name }
    ensures puts { PutsText result
        (stand W.taken W.has_failed flow.old.writer.now (flow.old.outbox.now ++ text.items))
        (stand W.taken W.has_failed flow.new.writer.now flow.new.outbox.now)
        (compact_text (array_of (map hit_data alert.now.hits))) }
{
    match alert.found_hits() {
        Some(hits) => put_hits(flow, text, hits),
        None => put_hits(flow, text, &alert.hits(alloc)?),
    }
}

/// Puts the hits of each alert behind the text, with commas between.
fn put_hits_of_all<W: Sink>(
    flow: &mut Flow<'_, W>,
    mut text: Vec<u8>,
    alloc: Global,
    alerts: &[AlertView<'_>],
) -> Result<Vec<u8>, RunFault>
    ensures same_reference { flow.new.writer.ghost_name ≡ flow.old.writer.ghost_name }
    ensures puts { PutsText result
        (stand W.taken W.has_failed flow.old.writer.now (flow.old.outbox.now ++ text.items))
        (stand W.taken W.has_failed flow.new.writer.now flow.new.outbox.now)
        (items_begun false (map (λ a. array_of (map hit_data a.hits)) alerts.now)) }
{
    for (place, alert) in alerts.iter().enumerate() {
        separate(&mut text, place > 0)?;
        text = put_hits_of(flow, text, alloc, alert)?;
        text = put_piece(flow, text)?;
    }
    Ok(text)
}

/// Puts the member that tells where the queries hold behind the text, if the form shows it.
fn put_hits_member<W: Sink>(
    flow: &mut Flow<'_, W>,
    mut text: Vec<u8>,
    alloc: Global,
    form: Form,
    alerts: &[AlertView<'_>],
) -> Result<Vec<u8>, RunFault>
    ensures same_reference { flow.new.writer.ghost_name ≡ flow.old.writer.ghost_name }
    ensures puts { PutsText result
        (stand W.taken W.has_failed flow.old.writer.now (flow.old.outbox.now ++ text.items))
        (stand W.taken W.has_failed flow.new.writer.now flow.new.outbox.now)
        (hits_member form alerts.now) }
{
    match form {
        Form::Plain => Ok(text),
        Form::WithHits => {
            text.extend_from_slice(b",\"hits\":[")?;
            text = put_hits_of_all(flow, text, alloc, alerts)?;
            text.push(b']')?;
            Ok(text)
        }
    }
}

/// Puts ids behind the text, with commas between.
fn put_ids<W: Sink>(
    flow: &mut Flow<'_, W>,
    mut text: Vec<u8>,
    ids: &[&str],
) -> Result<Vec<u8>, RunFault>
    ensures same_reference { flow.new.writer.ghost_name ≡ flow.old.writer.ghost_name }
    ensures puts { PutsText result
        (stand W.taken W.has_failed flow.old.writer.now (flow.old.outbox.now ++ text.items))
        (stand W.taken W.has_failed flow.new.writer.now flow.new.outbox.now)
        (items_begun false (map string (map (λ id. id.now) ids.now))) }
{
    let mut at = 0;
    while at < ids.len() {
        let end = ids.len().min(at.saturating_add(PIECE_ITEMS));
        separate(&mut text, at > 0)?;
        text = ids_text(text, &ids[at..end])?;
        text = put_piece(flow, text)?;
        at = end;
    }
    Ok(text)
}

/// What a reply to a match shows of an article.
#[derive(Clone, Copy)]
pub struct ArticlePart<'a> {
    /// The form of the reply.
    pub form: Form,
    /// Whether it stands behind another article.
    pub later: bool,
    /// The article's id.
    pub article: &'a str,
    /// The ids of the queries that hold of it.
    pub queries: &'a [&'a str],
    /// What their alerts say, which tells the hits. The plain form shows nothing of it.
    pub alerts: &'a [AlertView<'a>],
}

/// Puts what a reply shows of an article behind the text, after a comma where it stands behind another.
fn put_article<W: Sink>(
    flow: &mut Flow<'_, W>,
    mut text: Vec<u8>,
    alloc: Global,
    part: ArticlePart<'_>,
) -> Result<Vec<u8>, RunFault>
    ensures same_reference { flow.new.writer.ghost_name ≡ flow.old.writer.ghost_name }
    ensures puts { PutsText result
        (stand W.taken W.has_failed flow.old.writer.now (flow.old.outbox.now ++ text.items))
        (stand W.taken W.has_failed flow.new.writer.now flow.new.outbox.now)
        (part_text part.entry) }
{
    separate(&mut text, part.later)?;
    text = article_begun_text(text, part.article)?;
    text = put_hits_member(flow, text, alloc, part.form, part.alerts)?;
    text.extend_from_slice(b",\"queries\":[")?;
    text = put_ids(flow, text, part.queries)?;
    text.extend_from_slice(b"]}")?;
    Ok(text)
}

/// Puts what a reply shows of an article, after a comma where it stands behind another. It goes by pieces, so the whole
/// of it is never held.
///
/// `NoMemory` where an allocation failed, `Write` where the writer fails; a front of it may be put then. Its cost is
/// linear in the text; with hits that of `AlertView::hits` comes to it for each alert whose hits were not found.
pub fn put_part<W: Sink>(
    flow: &mut Flow<'_, W>,
    alloc: Global,
    part: ArticlePart<'_>,
) -> Result<(), RunFault>
    ensures same_reference { flow.new.writer.ghost_name ≡ flow.old.writer.ghost_name }
    ensures moved { OnOk result (HandsOver (W.taken flow.old.writer.now) (flow.old.outbox.now ++ part_text part.entry)
        (W.taken flow.new.writer.now) flow.new.outbox.now) }
    ensures well { OnOk result (W.has_failed flow.new.writer.now ≡ W.has_failed flow.old.writer.now) }
    ensures fault { IfErr result (λ e. e ≢ RunFault.Read) }
    ensures write { result ≡ Err RunFault.Write → W.has_failed flow.new.writer.now ≡ true }
    ensures front { OnErr result (AppendsFront (W.taken flow.old.writer.now) (W.taken flow.new.writer.now)
        (flow.old.outbox.now ++ part_text part.entry)) }
{
    let text = put_article(flow, Vec::new(alloc), alloc, part)?;
    flow.put(&text)
}

/// Puts what a reply of this form shows of an article, after a comma where it stands behind another. It goes by pieces,
/// so the whole of it is never held.
///
/// `NoMemory` where an allocation failed, `Write` where the writer fails; a front of it may be put then. Its cost is
/// linear in the text; with hits that of `Alert::hits` comes to it for each alert that carries none.
pub fn put_alerts<W: Sink>(
    flow: &mut Flow<'_, W>,
    alloc: Global,
    form: Form,
    later: bool,
    alerts: &Alerts,
) -> Result<(), RunFault>
    ensures same_reference { flow.new.writer.ghost_name ≡ flow.old.writer.ghost_name }
    ensures moved { OnOk result (HandsOver (W.taken flow.old.writer.now)
        (flow.old.outbox.now ++ item_text later (alerts_data form (alerts_by_id (alerts_value alerts.now))))
        (W.taken flow.new.writer.now) flow.new.outbox.now) }
    ensures well { OnOk result (W.has_failed flow.new.writer.now ≡ W.has_failed flow.old.writer.now) }
    ensures fault { IfErr result (λ e. e ≢ RunFault.Read) }
    ensures write { result ≡ Err RunFault.Write → W.has_failed flow.new.writer.now ≡ true }
    ensures front { OnErr result (AppendsFront (W.taken flow.old.writer.now) (W.taken flow.new.writer.now)
        (flow.old.outbox.now ++ item_text later (alerts_data form (alerts_by_id (alerts_value alerts.now))))) }
{
    let queries = query_ids(alloc, &alerts.alerts)?;
    let views = views_with_hits(alloc, form, alerts)?;
    let part = ArticlePart {
        form,
        later,
        article: alerts.article.as_str(),
        queries: &queries,
        alerts: &views,
    };
    put_part(flow, alloc, part)
}
