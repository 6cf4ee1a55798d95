//! A program of one's own over the engine: the standing queries of a newspaper, three listeners, and a morning's
//! articles.
#![tactic(auto)]

mod desk;
mod marked;
mod morning;

use anyhow::{Result, bail};
use clip_ledger::Ledger;
use clip_listen::{Folder, Listener, Listeners, Named, Render, Style, Teller};
use clip_match::{Registrar, View};
use clip_meaning::{Article, ArticleFault};
use clip_standing::{Alert, Command, Standing, StandingFault};
use clip_words::NoMemory;
use desk::Desk;
use marked::marked;
use morning::morning;
use std::alloc::Global;
use std::sync::Arc;

/// Each standing query: its id, its text, and the name of its listener.
const QUERIES: [(&str, &str, &str); 4] = [
    ("budget", "+budget +(city council)", "city"),
    ("fire", "fire* -drill", "wire"),
    ("harbour", "\"harbour bridge\"", "city"),
    ("schools", "school schools", "archive"),
];

/// Each article: its id and its text.
const ARTICLES: [(&str, &str); 3] = [
    ("a1", "The city council passed the budget."),
    (
        "a2",
        "Firefighters closed the Harbour Bridge. Schools shut.",
    ),
    ("a3", "Rain, and more rain."),
];

/// A standing query, with the name of its listener.
fn standing(
    alloc: Global,
    id: &str,
    text: &str,
    listener: &str,
) -> Result<Standing, StandingFault> {
    let id = String::from_str(alloc, id)?;
    let text = String::from_str(alloc, text)?;
    let listener = String::from_str(alloc, listener)?;
    Standing::read(alloc, id, text, Some(listener))
}

/// A registrar with the standing queries.
fn registrar(alloc: Global) -> Result<Registrar> {
    let mut standings = Vec::new(alloc);
    for (id, text, listener) in QUERIES {
        let standing = standing(alloc, id, text, listener)?;
        standings.push(Arc::new(alloc, standing)?)?;
    }
    registered(alloc, Command::Register(standings))
}

/// A registrar that has applied the command.
fn registered(alloc: Global, command: Command) -> Result<Registrar> {
    if !command.fits() {
        bail!("too many queries in one command");
    }
    let mut registrar = Registrar::new(alloc);
    match registrar.apply(1, command) {
        Ok(_) => Ok(registrar),
        Err((_, refused)) => Err(refused.into()),
    }
}

/// An article of one field, `text`.
fn article(alloc: Global, id: &str, text: &str) -> Result<Article, ArticleFault> {
    let name = String::from_str(alloc, "text")?;
    let text = String::from_str(alloc, text)?;
    Article::read(alloc, id, &[(name, text)])
}

/// The articles.
fn articles(alloc: Global) -> Result<Vec<Article>> {
    let mut articles = Vec::new(alloc);
    for (id, text) in ARTICLES {
        articles.push(article(alloc, id, text)?)?;
    }
    Ok(articles)
}

/// What words an alert with the head before the query's id and ` in ` before the article's.
fn render(alloc: Global, head: &str) -> Result<Render<Style>, NoMemory> {
    Render::in_style(Style::new(alloc, head, " in ")?)
}

/// A desk of the city's news.
fn city(alloc: Global) -> Result<Desk, NoMemory> {
    Desk::new(alloc, render(alloc, "city desk: ")?, 64)
}

/// The listeners under their names.
fn named(
    alloc: Global,
    city: Box<dyn Listener + Send>,
    wire: Box<dyn Listener + Send>,
    archive: Box<dyn Listener + Send>,
) -> Result<Vec<Named>, NoMemory> {
    let mut parts: Vec<Named> = Vec::new(alloc);
    parts.push((String::from_str(alloc, "city")?, city))?;
    parts.push((String::from_str(alloc, "wire")?, wire))?;
    parts.push((String::from_str(alloc, "archive")?, archive))?;
    Ok(parts)
}

/// Says of each alert its query, and the words of its article with those marked that the query names.
fn show<R: Print + AllocGlobal>(rt: &R, kept: &[Alert]) -> Result<()> {
    for alert in kept {
        let words = marked(rt.alloc(), alert, "text")?;
        println!(rt; "  {}: {words}", alert.query())?;
    }
    Ok(())
}

/// Says how many rows of the ledger are each listener's, and what it has kept, where it reports that.
fn report<R: Print + AllocGlobal>(rt: &R, listeners: Listeners, ledger: &Ledger) -> Result<()> {
    for (name, listener) in &listeners.into_parts() {
        let rows = ledger.total(name);
        match listener.heard() {
            Some(kept) => {
                println!(rt; "{name}: {rows} in the ledger, {} kept", kept.len())?;
                show(rt, kept)?;
            }
            None => println!(rt; "{name}: {rows} in the ledger")?,
        }
    }
    Ok(())
}

/// Plays the morning to the listeners, and says what they said.
fn play<R: Print + AllocGlobal>(rt: &R, view: &View, parts: Vec<Named>) -> Result<()> {
    let Ok(mut listeners) = Listeners::new(parts) else {
        bail!("two listeners have one name");
    };
    let mut ledger = Ledger::new(rt.alloc());
    let articles = articles(rt.alloc())?;
    for note in &morning(rt.alloc(), view, &articles, &mut listeners, &mut ledger)? {
        println!(rt; "{}", note.text)?;
    }
    report(rt, listeners, &ledger)
}

/// Boxes the listeners, and plays the morning to them.
fn open<R: Print + AllocGlobal>(rt: &R, view: &View) -> Result<()> {
    let alloc = rt.alloc();
    let city = Box::new(alloc, city(alloc)?)?;
    let wire = Box::new(alloc, Teller::new(render(alloc, "wire: ")?))?;
    let archive = Box::new(alloc, Folder::new(alloc, render(alloc, "archive: ")?))?;
    play(rt, view, named(alloc, city, wire, archive)?)
}

fn main(rt: HostRuntime) -> Result<()> {
    let view = registrar(rt.alloc())?.view()?;
    open(&rt, &view)
}
