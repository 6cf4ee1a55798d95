//! Scripts: steps with a registrar, and what each is to give.
use crate::showing::told;
use clip_match::{Registrar, View, match_batch};
use clip_meaning::Article;
use clip_model::MOST_CALLERS;
use clip_presearch::candidates;
use clip_samples::{article, owned, standing};
use clip_segment::Segment;
use clip_standing::{Command, Entry, Standing};
use std::alloc::{AllocError, Global};
use std::process::Abort;
use std::sync::Arc;
use std::test::Fail;

/// A step of a script.
pub enum Step {
    /// A register of queries, each an id and a text: the answer.
    Register(&'static [(&'static str, &'static str)]),
    /// A register of one query with a listener: an id, a text, and the listener's name. The answer.
    Listen(&'static str, &'static str, &'static str),
    /// A delete of ids: the answer.
    Delete(&'static [&'static str]),
    /// A clear by a caller: the answer.
    Clear(u32),
    /// How many commands were accepted, and how many queries are there.
    Count,
    /// Of each segment how many entries it has and how many of them are live.
    Segments,
    /// The ids of the candidates of the article of a text.
    Candidates(&'static str),
    /// The alerts of articles, each an id and a text.
    Batch(&'static [(&'static str, &'static str)]),
}

/// The answer to a command of a caller.
pub fn answer(
    alloc: Global,
    registrar: &mut Registrar,
    caller: u32,
    command: Command,
) -> Result<String, AllocError> {
    if !command.fits() || caller == 0 || caller > MOST_CALLERS {
        return String::from_str(alloc, "does not fit");
    }
    match registrar.apply(caller, command) {
        Ok(applied) => format!(in alloc; "{applied:?}"),
        Err((_, refused)) => format!(in alloc; "{refused:?}"),
    }
}

/// The standing queries of ids and texts.
fn standings(alloc: Global, queries: &[(&str, &str)]) -> Result<Vec<Arc<Standing>>, Fail> {
    let mut standings = Vec::new(alloc);
    for (id, text) in queries {
        standings.push(standing(alloc, id, text)?)?;
    }
    Ok(standings)
}

/// A list of one standing query with a listener.
fn listening(alloc: Global, id: &str, text: &str, name: &str) -> Result<Vec<Arc<Standing>>, Fail> {
    let (id, text) = (String::from_str(alloc, id)?, String::from_str(alloc, text)?);
    let name = String::from_str(alloc, name)?;
    let standing = Standing::read(alloc, id, text, Some(name))?;
    Ok(vec![in alloc; Arc::new(alloc, standing)?]?)
}

/// How many commands were accepted, and how many queries are there.
fn count(alloc: Global, view: &View) -> Result<String, AllocError> {
    let (place, count) = (view.place(), view.count());
    format!(in alloc; "{place} {count}")
}

/// How many entries of a segment are live.
fn live(view: &View, segment: &Segment) -> u64 {
    let mut live = 0u64;
    for entry in segment.entries() {
        if view.is_live(entry) {
            live = live.saturating_add(1);
        }
    }
    live
}

/// Adds two numbers with a stroke between them and a space after them.
fn add_two(text: &mut String, first: u64, second: u64) -> Result<(), AllocError> {
    write!(text, "{first}/{second} ")
}

/// Of each segment how many entries it has and how many of them are live.
fn segments(alloc: Global, view: &View) -> Result<String, AllocError> {
    let mut text = String::new(alloc);
    for segment in view.segments() {
        add_two(&mut text, segment.len() as u64, live(view, segment))?;
    }
    Ok(text)
}

/// The article of an id and of a text in its field `text`.
fn article_of(alloc: Global, id: &str, text: &str) -> Result<Article, Fail> {
    Ok(article(alloc, id, &[("text", text)])?)
}

/// The candidates of the article of a text.
pub fn candidates_of<'a>(
    alloc: Global,
    view: &'a View,
    text: &str,
) -> Result<Vec<&'a Entry>, Fail> {
    let article = article_of(alloc, "a1", text)?;
    Ok(candidates(alloc, view, &article)?)
}

/// Adds an id with a space after it.
fn add_id(ids: &mut String, id: &str) -> Result<(), AllocError> {
    ids.push_str(id)?;
    ids.push_str(" ")
}

/// The ids of the candidates of the article of a text, each with a space after it.
fn candidate_ids(alloc: Global, view: &View, text: &str) -> Result<String, Fail> {
    let found = candidates_of(alloc, view, text)?;
    let mut ids = String::new(alloc);
    for entry in &found {
        add_id(&mut ids, entry.standing().id())?;
    }
    Ok(ids)
}

/// The articles of ids and texts.
fn articles(alloc: Global, texts: &[(&str, &str)]) -> Result<Vec<Article>, Fail> {
    let mut articles = Vec::new(alloc);
    for (id, text) in texts {
        articles.push(article_of(alloc, id, text)?)?;
    }
    Ok(articles)
}

/// The alerts of articles.
fn batch_matched(alloc: Global, view: &View, texts: &[(&str, &str)]) -> Result<String, Fail> {
    let articles = articles(alloc, texts)?;
    Ok(told(alloc, &match_batch(alloc, view, &articles)?)?)
}

/// What a step asks of a view.
fn viewed(alloc: Global, view: &View, step: &Step) -> Result<String, Fail> {
    match step {
        Step::Segments => Ok(segments(alloc, view)?),
        Step::Candidates(text) => candidate_ids(alloc, view, text),
        Step::Batch(texts) => batch_matched(alloc, view, texts),
        _ => Ok(count(alloc, view)?),
    }
}

/// The command of a step, and its caller.
fn command(alloc: Global, step: &Step) -> Result<Option<(u32, Command)>, Fail> {
    match step {
        Step::Register(queries) => Ok(Some((1, Command::Register(standings(alloc, queries)?)))),
        Step::Listen(id, text, name) => {
            let standings = listening(alloc, id, text, name)?;
            Ok(Some((1, Command::Register(standings))))
        }
        Step::Delete(ids) => Ok(Some((1, Command::Delete(owned(alloc, ids)?)))),
        Step::Clear(caller) => Ok(Some((*caller, Command::Clear))),
        _ => Ok(None),
    }
}

/// What a step gives.
fn played(alloc: Global, registrar: &mut Registrar, step: &Step) -> Result<String, Fail> {
    if let Some((caller, command)) = command(alloc, step)? {
        return Ok(answer(alloc, registrar, caller, command)?);
    }
    viewed(alloc, &registrar.view()?, step)
}

/// Plays a script: each step gives what is beside it.
pub fn play(
    rt: &impl Abort,
    alloc: Global,
    registrar: &mut Registrar,
    script: &[(Step, &str)],
) -> Result<(), Fail> {
    for (step, wanted) in script {
        let told = played(alloc, registrar, step)?;
        assert!(rt; told.as_str() == *wanted, "{told} and not {wanted}");
    }
    Ok(())
}
