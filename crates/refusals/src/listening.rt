//! Two listeners, alerts of theirs, and a ledger.
use crate::matching::three_queries;
use crate::telling::{answered, call, refused};
use clip_ledger::Ledger;
use clip_listen::{Listeners, Named, Note};
use clip_match::match_article;
use clip_samples::{add_listener, article, folder};
use clip_standing::Alerts;
use clip_words::NoMemory;
use std::alloc::Global;

/// The alerts of an article `tea coffee milk` on the three queries: one for `mail`, one for `feed` and one for none.
fn alerts(alloc: Global) -> Option<Alerts> {
    let view = three_queries(alloc)?;
    let article = article(alloc, "a1", &[("text", "tea coffee milk")]).ok()?;
    match_article(alloc, &view, &article).ok()
}

/// Delivers alerts to two listeners that have heard nothing, and returns the notes.
fn of_deliver<R: Print + AllocGlobal>(rt: &R, alerts: &Alerts) -> Option<Vec<Note>> {
    let alloc = rt.alloc();
    let mut parts: Vec<Named> = Vec::new(alloc);
    for name in ["mail", "feed"] {
        add_listener(alloc, &mut parts, name, folder(alloc, name, " in ").ok()?).ok()?;
    }
    let mut listeners = Listeners::new(parts).ok()?;
    call(rt, "Listeners::deliver");
    match listeners.deliver(alloc, alerts) {
        Ok(notes) => {
            answered(rt, notes.len() as u64);
            Some(notes)
        }
        Err(NoMemory) => {
            refused(rt);
            None
        }
    }
}

/// Posts alerts.
fn of_post<R: Print>(rt: &R, ledger: &mut Ledger, alerts: &Alerts, notes: &[Note]) -> bool {
    call(rt, "Ledger::post");
    match ledger.post(2, alerts, notes) {
        Ok(()) => answered(rt, ledger.rows().len() as u64),
        Err(NoMemory) => refused(rt),
    }
}

/// Makes each call on listeners and a ledger.
pub fn play<R: Print + AllocGlobal>(rt: &R) -> Option<()> {
    let alloc = rt.alloc();
    let alerts = alerts(alloc)?;
    let notes = match of_deliver(rt, &alerts) {
        Some(notes) => notes,
        None => of_deliver(rt, &alerts)?,
    };
    let mut ledger = Ledger::new(alloc);
    let _ = of_post(rt, &mut ledger, &alerts, &notes) || of_post(rt, &mut ledger, &alerts, &notes);
    Some(())
}
