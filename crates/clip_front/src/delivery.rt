//! The delivery of a line's alerts.
ghost use Rattle.std.specs.Prelude.{◌≡◌, ◌≢◌, ◌++◌, [], map, option_map, true, false, Err, IfErr, IfOk, OnOk, OnErr};
ghost use Rattle.std.specs.Arc.{arc_str_bytes};
ghost use Rattle.std.specs.List.{All};
ghost use Rattle.clip_standing.specs.Alerts.{alerts_value};
ghost use Rattle.clip_listen.specs.Heard.{told_all, note_value, notes_of, alerts_of, HearsFront};
ghost use Rattle.clip_front.specs.Giving.{GivesArticle, giving};
ghost use Rattle.clip_front.specs.Outcome.{kept_rows, rows_of_article};
ghost use Rattle.clip_stream.specs.Device.{AppendsFront, HandsOver};
ghost use Rattle.clip_protocol.specs.Found.{found_value};
ghost use Rattle.clip_protocol.specs.Reply.{alerts_data, unheard_data};
ghost use Rattle.clip_protocol.specs.Steps.Flowing.{closing, item_text, opening};
ghost use Rattle.clip_protocol.specs.Steps.Putting.{stand};
ghost use Rattle.clip_protocol.specs.Steps.Views.{alerts_by_id};
ghost use Rattle.clip_front.specs.Steps.Found.{IsFor, told_in, rows_in, found_text};

use crate::books::Books;
use crate::settings::Settings;
use clip_listen::{Audience, Note, deliver_to};
use clip_protocol::{
    ArticlePart, Found, Shown, closed_text, found_text, opened_text, put_alerts, put_part,
};
use clip_standing::{AlertView, Alerts};
use clip_stream::{Flow, Form, RunFault, Sink};
use clip_words::NoMemory;
use std::alloc::Global;

/// Delivers an article's alerts, posts them, and gives what the listeners said.
fn deliver_article<A: Audience>(
    alloc: Global,
    audience: &mut A,
    books: &mut Books,
    line: u64,
    alerts: &Alerts,
) -> Result<Vec<Note>, NoMemory>
    ensures notes { IfOk result (λ notes. map note_value notes.items
        ≡ notes_of (A.hearers audience.old) (alerts_of alerts.now)) }
    ensures heard { OnOk result (A.hearers audience.new
        ≡ told_all (alerts_of alerts.now) (A.hearers audience.old)) }
    ensures rows { OnOk result (books.new.ledger ≡ books.old.ledger ++ kept_rows books.old.settings.keeps_rows
        (rows_of_article (A.hearers audience.old) line (alerts_of alerts.now))) }
    ensures settings { books.new.settings ≡ books.old.settings }
    ensures err { OnErr result (HearsFront (alerts_of alerts.now)
        (A.hearers audience.old) (A.hearers audience.new)) }
{
    let notes = deliver_to(alloc, audience, alerts)?;
    books.post(line, alerts, &notes)?;
    Ok(notes)
}

/// Delivers what was found of an article, posts it, and gives what the listeners said: nothing of what is shown
/// already, since nobody hears it.
fn deliver_one<A: Audience>(
    alloc: Global,
    audience: &mut A,
    books: &mut Books,
    line: u64,
    found: &Found,
) -> Result<Vec<Note>, NoMemory>
    requires { IsFor books.old.settings found.now }
    ensures notes { IfOk result (λ notes. map note_value notes.items
        ≡ notes_of (A.hearers audience.old) (found_value found.now).alerts) }
    ensures heard { OnOk result (A.hearers audience.new
        ≡ told_all (found_value found.now).alerts (A.hearers audience.old)) }
    ensures rows { OnOk result (books.new.ledger ≡ books.old.ledger ++ kept_rows books.old.settings.keeps_rows
        (rows_of_article (A.hearers audience.old) line (found_value found.now).alerts)) }
    ensures settings { books.new.settings ≡ books.old.settings }
    ensures err { OnErr result (HearsFront (found_value found.now).alerts
        (A.hearers audience.old) (A.hearers audience.new)) }
{
    match found {
        Found::Alerts(alerts) => deliver_article(alloc, audience, books, line, alerts),
        Found::Shown(_) => Ok(Vec::new(alloc)),
    }
}

/// Delivers what was found of each article, posts it, and gives what the listeners said, all in order.
///
/// `NoMemory` where an allocation failed or a listener answers it; the listeners have heard some first ones of the
/// alerts then. Cost: that of `deliver_to` and of `Books::post` for each article whose alerts are not shown already.
fn deliver_all<A: Audience>(
    alloc: Global,
    audience: &mut A,
    books: &mut Books,
    line: u64,
    found: &[Found],
) -> Result<Vec<Note>, NoMemory>
    requires { All (IsFor books.old.settings) found.now }
    ensures notes { IfOk result (λ notes. map note_value notes.items
        ≡ notes_of (A.hearers audience.old) (told_in (map found_value found.now))) }
    ensures heard { OnOk result (A.hearers audience.new
        ≡ told_all (told_in (map found_value found.now)) (A.hearers audience.old)) }
    ensures rows { OnOk result (books.new.ledger ≡ books.old.ledger ++ kept_rows books.old.settings.keeps_rows
        (rows_in (A.hearers audience.old) line (map found_value found.now))) }
    ensures settings { books.new.settings ≡ books.old.settings }
    ensures err { OnErr result (HearsFront (told_in (map found_value found.now))
        (A.hearers audience.old) (A.hearers audience.new)) }
{
    let mut notes = Vec::new(alloc);
    for one in found {
        let mut said = deliver_one(alloc, audience, books, line, one)?;
        notes.append(&mut said)?;
    }
    Ok(notes)
}

/// Delivers what was found of a line's articles, posts it, and gives the text of the reply to the line of this number:
/// the ids of the queries of each article, with hits where the books' settings ask for them, and what the listeners
/// said, all in order. What is shown already was shown for these settings.
///
/// `NoMemory` where an allocation failed or a listener answers it; the listeners have heard some first ones of the
/// alerts then, and some first rows may be posted. Cost: that of `deliver_to` and of `Books::post` for each article
/// whose alerts are not shown already, and of the text.
pub fn deliver<A: Audience>(
    alloc: Global,
    audience: &mut A,
    books: &mut Books,
    number: u64,
    found: &[Found],
) -> Result<Vec<u8>, NoMemory>
    requires { All (IsFor books.old.settings) found.now }
    ensures text { IfOk result (λ text. text.items
        ≡ found_text books.old.settings.form (A.hearers audience.old) number (map found_value found.now)) }
    ensures heard { OnOk result (A.hearers audience.new
        ≡ told_all (told_in (map found_value found.now)) (A.hearers audience.old)) }
    ensures rows { OnOk result (books.new.ledger ≡ books.old.ledger ++ kept_rows books.old.settings.keeps_rows
        (rows_in (A.hearers audience.old) number (map found_value found.now))) }
    ensures settings { books.new.settings ≡ books.old.settings }
    ensures err { OnErr result (HearsFront (told_in (map found_value found.now))
        (A.hearers audience.old) (A.hearers audience.new)) }
{
    let form = books.settings.form;
    let notes = deliver_all(alloc, audience, books, number, found)?;
    found_text(alloc, form, number, found, &notes)
}

/// Puts what is shown already of an article, after a comma where it stands behind another.
fn put_article_text<W: Sink>(
    flow: &mut Flow<'_, W>,
    later: bool,
    shown: &Shown,
) -> Result<(), RunFault>
    ensures same_reference { flow.new.writer.ghost_name ≡ flow.old.writer.ghost_name }
    ensures moved { OnOk result (HandsOver (W.taken flow.old.writer.now)
        (flow.old.outbox.now ++ item_text later
        (alerts_data shown.now.form (alerts_by_id shown.now.alerts.value)))
        (W.taken flow.new.writer.now) flow.new.outbox.now) }
    ensures well { OnOk result (W.has_failed flow.new.writer.now ≡ W.has_failed flow.old.writer.now) }
    ensures fault { IfErr result (λ e. e ≢ RunFault.Read) }
    ensures write { result ≡ Err RunFault.Write → W.has_failed flow.new.writer.now ≡ true }
    ensures front { OnErr result (AppendsFront (W.taken flow.old.writer.now) (W.taken flow.new.writer.now)
        (flow.old.outbox.now ++ item_text later
        (alerts_data shown.now.form (alerts_by_id shown.now.alerts.value)))) }
{
    if !later {
        return flow.put(shown.as_slice());
    }
    flow.put(b",")?;
    flow.put(shown.as_slice())
}

/// Puts what a reply shows of an article, after a comma where it stands behind another: of its alerts in the form of
/// the settings, or the text that is shown already, which is of that form.
fn put_found<W: Sink>(
    flow: &mut Flow<'_, W>,
    alloc: Global,
    settings: Settings,
    later: bool,
    found: &Found,
) -> Result<(), RunFault>
    requires { IsFor settings found.now }
    ensures same_reference { flow.new.writer.ghost_name ≡ flow.old.writer.ghost_name }
    ensures moved { OnOk result (HandsOver (W.taken flow.old.writer.now)
        (flow.old.outbox.now ++ item_text later (alerts_data settings.form (alerts_by_id (found_value found.now))))
        (W.taken flow.new.writer.now) flow.new.outbox.now) }
    ensures well { OnOk result (W.has_failed flow.new.writer.now ≡ W.has_failed flow.old.writer.now) }
    ensures fault { IfErr result (λ e. e ≢ RunFault.Read) }
    ensures write { result ≡ Err RunFault.Write → W.has_failed flow.new.writer.now ≡ true }
    ensures front { OnErr result (AppendsFront (W.taken flow.old.writer.now) (W.taken flow.new.writer.now)
        (flow.old.outbox.now
        ++ item_text later (alerts_data settings.form (alerts_by_id (found_value found.now))))) }
{
    match found {
        Found::Alerts(alerts) => put_alerts(flow, alloc, settings.form, later, alerts),
        Found::Shown(shown) => put_article_text(flow, later, shown),
    }
}

/// The reply to a match that is on its way, article by article.
#[derive(Drop)]
pub struct MatchReply {
    /// The number of its line.
    pub number: u64,
    /// What the listeners said of the alerts of its articles so far.
    pub notes: Vec<Note>,
    /// Whether it shows an article already.
    pub has_article: bool,
}

impl MatchReply {
    /// Puts the beginning of the reply to the match on the line of this number.
    ///
    /// `NoMemory` where an allocation failed, `Write` where the writer fails. Constant time, but for the writer's.
    pub fn begin<W: Sink>(
        alloc: Global,
        flow: &mut Flow<'_, W>,
        number: u64,
    ) -> Result<MatchReply, RunFault>
        ensures same_reference { flow.new.writer.ghost_name ≡ flow.old.writer.ghost_name }
        ensures begun { IfOk result (λ reply. (reply.number ≡ number) × (reply.notes.items ≡ [])
            × (reply.has_article ≡ false)) }
        ensures moved { OnOk result (HandsOver (W.taken flow.old.writer.now) (flow.old.outbox.now ++ opening)
            (W.taken flow.new.writer.now) flow.new.outbox.now) }
        ensures well { OnOk result (W.has_failed flow.new.writer.now ≡ W.has_failed flow.old.writer.now) }
        ensures fault { IfErr result (λ e. e ≢ RunFault.Read) }
        ensures write { result ≡ Err RunFault.Write → W.has_failed flow.new.writer.now ≡ true }
        ensures front { OnErr result (AppendsFront (W.taken flow.old.writer.now) (W.taken flow.new.writer.now)
            (flow.old.outbox.now ++ opening)) }
    {
        let text = opened_text(alloc)?;
        flow.put(&text)?;
        Ok(MatchReply {
            number,
            notes: Vec::new(alloc),
            has_article: false,
        })
    }

    /// Delivers what was found of an article, posts it, and puts what the reply shows of it. Of what is shown already,
    /// for these books' settings, nobody hears, no row is kept, and the text is put as it is.
    ///
    /// `NoMemory` where an allocation failed or a listener answers it, `Write` where the writer fails; the listeners
    /// have heard some first ones of the alerts then, and a front of the text may be put. Its cost is linear in the
    /// text; where it is not shown already, that of `deliver_to` and of `Books::post` comes to it, and with hits that
    /// of `Alert::hits` for each alert that carries none.
    pub fn add<A: Audience, W: Sink>(
        &mut self,
        alloc: Global,
        audience: &mut A,
        books: &mut Books,
        flow: &mut Flow<'_, W>,
        found: &Found,
    ) -> Result<(), RunFault>
        requires { IsFor books.old.settings found.now }
        ensures same_reference { flow.new.writer.ghost_name ≡ flow.old.writer.ghost_name }
        ensures gives { GivesArticle
            (giving (A.hearers audience.old) books.old.ledger books.old.settings self.old
            (stand W.taken W.has_failed flow.old.writer.now flow.old.outbox.now))
            (giving (A.hearers audience.new) books.new.ledger books.new.settings self.new
            (stand W.taken W.has_failed flow.new.writer.now flow.new.outbox.now)) (found_value found.now) result }
        ensures well { OnOk result (W.has_failed flow.new.writer.now ≡ W.has_failed flow.old.writer.now) }
        ensures fault { IfErr result (λ e. e ≢ RunFault.Read) }
        ensures write { result ≡ Err RunFault.Write → W.has_failed flow.new.writer.now ≡ true }
    {
        let settings = books.settings;
        let mut said = deliver_one(alloc, audience, books, self.number, found)?;
        self.notes.append(&mut said)?;
        let later = self.has_article;
        self.has_article = true;
        put_found(flow, alloc, settings, later, found)
    }

    /// Puts what the reply shows of an article whose alerts nobody hears: its id, and the ids of the queries that hold
    /// of it; in the form with hits also where they hold, which what the alerts say tells. Where that is not given, the
    /// form is the plain one.
    ///
    /// `NoMemory` where an allocation failed, `Write` where the writer fails; a front of the text may be put then. Its
    /// cost is linear in the text; with hits that of `AlertView::hits` comes to it for each alert whose hits were not
    /// found.
    pub fn add_unheard<W: Sink>(
        &mut self,
        alloc: Global,
        flow: &mut Flow<'_, W>,
        article: &str,
        queries: &[&str],
        alerts: Option<&[AlertView<'_>]>,
    ) -> Result<(), RunFault>
        ensures same_reference { flow.new.writer.ghost_name ≡ flow.old.writer.ghost_name }
        ensures number { self.new.number ≡ self.old.number }
        ensures notes { self.new.notes.items ≡ self.old.notes.items }
        ensures later { OnOk result (self.new.has_article ≡ true) }
        ensures moved { OnOk result (HandsOver (W.taken flow.old.writer.now)
            (flow.old.outbox.now ++ item_text self.old.has_article
            (unheard_data article.now (map (λ id. id.now) queries.now) (option_map (λ v. v.now) alerts.entry)))
            (W.taken flow.new.writer.now) flow.new.outbox.now) }
        ensures well { OnOk result (W.has_failed flow.new.writer.now ≡ W.has_failed flow.old.writer.now) }
        ensures fault { IfErr result (λ e. e ≢ RunFault.Read) }
        ensures write { result ≡ Err RunFault.Write → W.has_failed flow.new.writer.now ≡ true }
        ensures front { OnErr result (AppendsFront (W.taken flow.old.writer.now) (W.taken flow.new.writer.now)
            (flow.old.outbox.now ++ item_text self.old.has_article
            (unheard_data article.now (map (λ id. id.now) queries.now) (option_map (λ v. v.now) alerts.entry)))) }
    {
        let plain = ArticlePart {
            form: Form::Plain,
            later: self.has_article,
            article,
            queries,
            alerts: &[],
        };
        self.has_article = true;
        match alerts {
            None => put_part(flow, alloc, plain),
            Some(alerts) => put_part(
                flow,
                alloc,
                ArticlePart {
                    form: Form::WithHits,
                    alerts,
                    ..plain
                },
            ),
        }
    }

    /// Puts the end of the reply, with what the listeners said.
    ///
    /// `NoMemory` where an allocation failed, `Write` where the writer fails. Its cost is linear in the notes.
    pub fn end<W: Sink>(self, alloc: Global, flow: &mut Flow<'_, W>) -> Result<(), RunFault>
        ensures same_reference { flow.new.writer.ghost_name ≡ flow.old.writer.ghost_name }
        ensures moved { OnOk result (HandsOver (W.taken flow.old.writer.now) (flow.old.outbox.now
            ++ closing self.number (map (λ n. arc_str_bytes n.text) self.notes.items))
            (W.taken flow.new.writer.now) flow.new.outbox.now) }
        ensures well { OnOk result (W.has_failed flow.new.writer.now ≡ W.has_failed flow.old.writer.now) }
        ensures fault { IfErr result (λ e. e ≢ RunFault.Read) }
        ensures write { result ≡ Err RunFault.Write → W.has_failed flow.new.writer.now ≡ true }
        ensures front { OnErr result (AppendsFront (W.taken flow.old.writer.now) (W.taken flow.new.writer.now)
            (flow.old.outbox.now
            ++ closing self.number (map (λ n. arc_str_bytes n.text) self.notes.items))) }
    {
        let text = closed_text(Vec::new(alloc), self.number, &self.notes)?;
        flow.put(&text)
    }
}
