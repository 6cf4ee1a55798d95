//! Three queries and three articles.
use crate::telling::{answered, call, refused};
use clip_match::{HitsFound, OpenGate, Registrar, View, entries_due, match_article, match_pieces};
use clip_meaning::Article;
use clip_samples::article;
use clip_standing::{Alerts, Command, Standing};
use clip_words::NoMemory;
use std::alloc::Global;
use std::sync::Arc;
use std::thread::Threads;

/// The alerts of an article.
fn of_match_article<R: Print + AllocGlobal>(rt: &R, view: &View, article: &Article) -> bool {
    call(rt, "match_article");
    match match_article(rt.alloc(), view, article) {
        Ok(found) => answered(rt, found.alerts.len() as u64),
        Err(NoMemory) => refused(rt),
    }
}

/// The alerts of an article with their hits.
fn with_hits(alloc: Global, view: &View, article: &Article) -> Result<Alerts, NoMemory> {
    entries_due(alloc, view, article, HitsFound::AtOnce)?.alerts(alloc)
}

/// The alerts of an article with their hits, and what came of it.
fn of_finding_hits<R: Print + AllocGlobal>(rt: &R, view: &View, article: &Article) -> bool {
    call(rt, "entries_due");
    match with_hits(rt.alloc(), view, article) {
        Ok(found) => answered(rt, found.alerts.len() as u64),
        Err(NoMemory) => refused(rt),
    }
}

/// How many alerts were found.
fn count_of(found: &[Alerts]) -> u64 {
    let mut count = 0u64;
    for alerts in found {
        count = count.saturating_add(alerts.alerts.len() as u64);
    }
    count
}

/// The alerts of a batch in two pieces.
fn of_match_pieces<R: Print + Threads + Sync + AllocGlobal>(
    rt: &R,
    view: &View,
    articles: &[Article],
) -> bool {
    call(rt, "match_pieces");
    match match_pieces(rt, rt.alloc(), view, articles, 1, 2, &OpenGate) {
        Ok(found) => answered(rt, count_of(&found)),
        Err(NoMemory) => refused(rt),
    }
}

/// The query of a text under an id, for a listener or, where its name is empty, for none.
fn query(alloc: Global, id: &str, text: &str, listener: &str) -> Option<Arc<Standing>> {
    let id = String::from_str(alloc, id).ok()?;
    let text = String::from_str(alloc, text).ok()?;
    let listener = match listener {
        "" => None,
        name => Some(String::from_str(alloc, name).ok()?),
    };
    let standing = Standing::read(alloc, id, text, listener).ok()?;
    Arc::new(alloc, standing).ok()
}

/// The command that registers q1 `tea` for `mail`, q2 `coffee` for `feed` and q3 `+tea +milk` for none.
fn registering_three(alloc: Global) -> Option<Command> {
    let mut list = Vec::new(alloc);
    for (id, text, listener) in [
        ("q1", "tea", "mail"),
        ("q2", "coffee", "feed"),
        ("q3", "+tea +milk", ""),
    ] {
        list.push(query(alloc, id, text, listener)?).ok()?;
    }
    Some(Command::Register(list))
}

/// A view of a registrar that took the three queries.
pub fn three_queries(alloc: Global) -> Option<View> {
    let command = registering_three(alloc)?;
    let mut registrar = Registrar::new(alloc);
    if !command.fits() || registrar.apply(1, command).is_err() {
        return None;
    }
    registrar.view().ok()
}

/// Articles a1 `tea`, a2 `coffee milk` and a3 `tea milk`.
fn three_articles(alloc: Global) -> Option<Vec<Article>> {
    let mut list = Vec::new(alloc);
    for (id, text) in [("a1", "tea"), ("a2", "coffee milk"), ("a3", "tea milk")] {
        list.push(article(alloc, id, &[("text", text)]).ok()?).ok()?;
    }
    Some(list)
}

/// Makes each call that matches articles.
pub fn play<R: Print + Threads + Sync + AllocGlobal>(rt: &R) -> Option<()> {
    let view = three_queries(rt.alloc())?;
    let articles = three_articles(rt.alloc())?;
    for article in &articles {
        let _ = of_match_article(rt, &view, article) || of_match_article(rt, &view, article);
        let _ = of_finding_hits(rt, &view, article) || of_finding_hits(rt, &view, article);
    }
    let _ = of_match_pieces(rt, &view, &articles) || of_match_pieces(rt, &view, &articles);
    Some(())
}
