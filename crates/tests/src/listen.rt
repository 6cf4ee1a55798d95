//! Listeners: worked examples.
ghost use Rattle.std.specs.Prelude.{◌≡◌, IfOk};
ghost use Rattle.clip_listen.specs.Heard.{style_value};

use crate::making::{alert, alerts};
use clip_listen::{Folder, Listener, Listeners, Named, Note, Render, Style, Teller, Told, Wording};
use clip_samples::{add_listener, folder, teller};
use clip_standing::Alert;
use clip_words::NoMemory;
use std::alloc::{AllocError, Global};
use std::cell::Cell;
use std::sync::Arc;
use std::sync::atomic::AtomicU64;
use std::sync::atomic::Ordering::SeqCst;
use std::test::Fail;

/// A listener of the test's own, which keeps nothing and counts what it sends.
#[derive(Drop)]
struct Postcard {
    sent: Arc<AtomicU64>,
    told: Told,
}

impl Listener for Postcard {
    ghost use Rattle.std.specs.Prelude.{codes, false};

    ghost style = { λ p. record { head = codes "card "; middle = codes " on " } };

    ghost heard = { λ p. p.told.alerts };

    ghost keeps = { λ p. false };

    fn hear(&mut self, alloc: Global, alert: &Alert) -> Result<String, NoMemory> {
        let mut text = String::from_str(alloc, "card ")?;
        text.push_str(alert.query())?;
        text.push_str(" on ")?;
        text.push_str(alert.article().id())?;
        self.sent.fetch_add(1, SeqCst);
        self.told = self.told.then(alert);
        Ok(text)
    }

    fn heard(&self) -> Option<&[Alert]> {
        None
    }
}

/// A postcard that counts here what it sends.
fn card(alloc: Global, sent: &Arc<AtomicU64>) -> Result<Box<Postcard>, NoMemory> {
    let sent = sent.clone()?;
    let told = Told::new();
    Ok(Box::new(alloc, Postcard { sent, told })?)
}

/// A wording that refuses its second call.
#[derive(Drop)]
struct Once {
    called: Cell<bool>,
}

impl Wording for Once {
    ghost use Rattle.std.specs.Prelude.{codes, []};

    ghost style = { λ o. record { head = codes "x"; middle = [] } };

    fn text(&self, alloc: Global, alert: &Alert) -> Result<String, NoMemory> {
        if self.called.get() {
            return Err(NoMemory);
        }
        self.called.set(true);
        let mut text = String::from_str(alloc, "x")?;
        text.push_str(alert.query())?;
        text.push_str(alert.article().id())?;
        Ok(text)
    }
}

/// A folder whose wording refuses its second call.
fn folder_of_once(alloc: Global) -> Result<Folder<Once>, NoMemory> {
    let style = Style::new(alloc, "x", "")?;
    let wording = Once {
        called: Cell::new(false),
    };
    Ok(Folder::new(alloc, Render::new(style, wording)))
}

/// Adds the notes as lines: the listener, the query and the text.
fn add_notes(text: &mut String, notes: &[Note]) -> Result<(), AllocError> {
    for note in notes {
        let (listener, query, said) = (&note.listener, &note.query, &note.text);
        write!(text, "{listener} {query} {said}\n")?;
    }
    Ok(())
}

/// Adds a name and the queries of the alerts that were heard, as a line.
fn add_heard(text: &mut String, name: &str, heard: &[Alert]) -> Result<(), AllocError> {
    text.push_str(name)?;
    for alert in heard {
        text.push_str(" ")?;
        text.push_str(alert.query())?;
    }
    text.push_str("\n")
}

/// Adds what each listener heard that reports it, as lines.
fn add_all_heard(text: &mut String, parts: &[Named]) -> Result<(), AllocError> {
    for part in parts {
        if let Some(heard) = part.1.heard() {
            add_heard(text, part.0.as_str(), heard)?;
        }
    }
    Ok(())
}

/// The name of a desk, and a teller with it.
fn desk(alloc: Global, number: u32) -> Result<(String, Box<Teller<Style>>), NoMemory> {
    let head = format!(in alloc; "desk{number}: ")?;
    let teller = teller(alloc, &head, " in ")?;
    Ok((format!(in alloc; "desk{number}")?, teller))
}

/// What is said of the alerts on queries, and what each listener heard that reports it, as lines.
fn told(
    alloc: Global,
    parts: Vec<Named>,
    queries: &[(&str, Option<&str>)],
) -> Result<String, Fail> {
    let mut listeners = Listeners::new(parts).ok().ok_or("a name repeats")?;
    let notes = listeners.deliver(alloc, &alerts(alloc, queries)?)?;
    let mut text = String::new(alloc);
    add_notes(&mut text, &notes)?;
    add_all_heard(&mut text, &listeners.into_parts())?;
    Ok(text)
}

/// Queries, each with the name of its listener or none.
static QUERIES: [(&str, Option<&str>); 7] = [
    ("q1", Some("card")),
    ("q2", Some("feed")),
    ("q3", Some("desk300")),
    ("q4", Some("mail")),
    ("q5", None),
    ("q6", Some("desk299")),
    ("q7", Some("desk0")),
];

/// What is said of the alerts on `QUERIES`, and what `mail` heard.
const TOLD: &str = "\
card q1 card q1 on a1
feed q2 feed q2/a1
mail q4 mail: q4 in a1
desk299 q6 desk299: q6 in a1
desk0 q7 desk0: q7 in a1
mail q4
";

#[test]
fn among_listeners_of_each_kind_each_alert_is_heard_by_its_own(
    rt: HostRuntime,
) -> Result<(), Fail> {
    let alloc = rt.alloc();
    let mut parts: Vec<Named> = Vec::new(alloc);
    add_listener(alloc, &mut parts, "mail", folder(alloc, "mail: ", " in ")?)?;
    add_listener(alloc, &mut parts, "feed", teller(alloc, "feed ", "/")?)?;
    let sent = Arc::new(alloc, AtomicU64::new(0))?;
    add_listener(alloc, &mut parts, "card", card(alloc, &sent)?)?;
    for number in 0..300u32 {
        let (name, teller) = desk(alloc, number)?;
        parts.push((name, teller))?;
    }
    let told = told(alloc, parts, &QUERIES)?;
    assert!(rt; told.as_str() == TOLD, "{told}");
    Ok(())
}

/// Queries, three of which have the listener `card`.
static CARDS: [(&str, Option<&str>); 5] = [
    ("q1", Some("card")),
    ("q2", Some("mail")),
    ("q3", Some("card")),
    ("q4", None),
    ("q5", Some("card")),
];

#[test]
fn a_listener_that_keeps_nothing_sends_each_of_its_alerts_once(
    rt: HostRuntime,
) -> Result<(), Fail> {
    let alloc = rt.alloc();
    let sent = Arc::new(alloc, AtomicU64::new(0))?;
    let mut parts: Vec<Named> = Vec::new(alloc);
    add_listener(alloc, &mut parts, "mail", teller(alloc, "mail: ", " in ")?)?;
    add_listener(alloc, &mut parts, "card", card(alloc, &sent)?)?;
    let mut listeners = Listeners::new(parts).ok().ok_or("a name repeats")?;
    listeners.deliver(alloc, &alerts(alloc, &CARDS)?)?;
    let sent = sent.load(SeqCst);
    assert!(rt; sent == 3, "{sent}");
    Ok(())
}

/// Which of the listeners that were handed back report what they heard, a letter for each; `taken` where none
/// were.
fn handed_back(alloc: Global, parts: Vec<Named>) -> Result<String, AllocError> {
    let Err(twice) = Listeners::new(parts) else {
        return String::from_str(alloc, "taken");
    };
    let mut text = String::new(alloc);
    for part in &twice.parts {
        text.push_str(if part.1.heard().is_some() { "t" } else { "n" })?;
    }
    Ok(text)
}

#[test]
fn a_name_that_repeats_hands_the_listeners_back(rt: HostRuntime) -> Result<(), Fail> {
    let alloc = rt.alloc();
    let mut parts: Vec<Named> = Vec::new(alloc);
    add_listener(alloc, &mut parts, "mail", folder(alloc, "mail: ", " in ")?)?;
    add_listener(alloc, &mut parts, "mail", teller(alloc, "feed ", "/")?)?;
    let back = handed_back(alloc, parts)?;
    assert!(rt; back.as_str() == "tn", "{back}");
    Ok(())
}

/// What a folder says of the alert on a query, or `refused`.
fn said(alloc: Global, folder: &mut Folder<Once>, query: &str) -> Result<String, Fail> {
    let alert = alert(alloc, query, None)?;
    match folder.hear(alloc, &alert) {
        Ok(said) => Ok(said),
        Err(NoMemory) => Ok(String::from_str(alloc, "refused")?),
    }
}

/// What a folder whose wording refuses its second call says of two alerts, and what it heard.
fn told_by_once(alloc: Global) -> Result<String, Fail> {
    let mut folder = folder_of_once(alloc)?;
    let mut text = said(alloc, &mut folder, "q1")?;
    text.push_str(&said(alloc, &mut folder, "q2")?)?;
    if let Some(heard) = folder.heard() {
        add_heard(&mut text, " once", heard)?;
    }
    Ok(text)
}

#[test]
fn a_folder_asks_its_wording_and_hears_nothing_where_it_refuses(
    rt: HostRuntime,
) -> Result<(), Fail> {
    let told = told_by_once(rt.alloc())?;
    assert!(rt; told.as_str() == "xq1a1refused once q1\n", "{told}");
    Ok(())
}
