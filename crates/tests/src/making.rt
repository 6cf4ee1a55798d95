//! What the tests give to calls: long texts, standing queries, entries, segments, alerts.
ghost use Rattle.std.specs.Prelude.{◌≡◌, IfOk};

use clip_extract::Key;
use clip_indexed::MOST_POSITIONS;
use clip_samples::{article, standing};
use clip_segment::Segment;
use clip_standing::{Alert, Alerts, Entry, Standing};
use std::alloc::{AllocError, Global};
use std::sync::{Arc, ArcStr};
use std::test::Fail;

/// Adds a piece to a text, so many times.
fn add(text: &mut String, piece: &str, count: usize) -> Result<(), AllocError> {
    for _ in 0..count {
        text.push_str(piece)?;
    }
    Ok(())
}

/// The pieces one after the other, each so many times.
pub fn spelled(alloc: Global, pieces: &[(&str, usize)]) -> Result<String, AllocError> {
    let mut text = String::new(alloc);
    for (piece, count) in pieces {
        add(&mut text, piece, *count)?;
    }
    Ok(text)
}

/// A shared standing query with the id `q` and a number.
pub fn query_of(alloc: Global, number: u64, text: &str) -> Result<Arc<Standing>, Fail> {
    let id = format!(in alloc; "q{number}")?;
    Ok(standing(alloc, &id, text)?)
}

/// The entry of a query's text under a number.
pub fn entry(alloc: Global, seq: u64, text: &str) -> Result<Arc<Entry>, Fail>
    ensures { IfOk result (λ entry. entry.value.seq ≡ seq) }
{
    let standing = standing(alloc, "q1", text)?;
    Ok(Arc::new(alloc, Entry::new(seq, standing))?)
}

/// The segment of the entries of texts, with the seqs 0, 1, ..
pub fn segment_of(alloc: Global, texts: &[String]) -> Result<Segment, Fail> {
    if texts.len() > MOST_POSITIONS {
        return Err("too many texts".into());
    }
    let mut entries = Vec::new(alloc);
    for seq in 0..texts.len() {
        entries.push(entry(alloc, seq as u64, &texts[seq])?)?;
    }
    Ok(Segment::build(alloc, entries)?)
}

/// The segment of two entries, with the seqs 1 and 2.
pub fn segment(alloc: Global) -> Result<Segment, Fail> {
    let entries = vec![in alloc;
        entry(alloc, 1, "tea coffee")?,
        entry(alloc, 2, "+tea +coffee")?,
    ]?;
    Ok(Segment::build(alloc, entries)?)
}

/// The key of a word of the field `text`.
pub fn text_key(alloc: Global, word: &str) -> Result<Key, AllocError> {
    let word = ArcStr::from_str(alloc, word)?;
    Ok(Key::Word(ArcStr::from_str(alloc, "text")?, word))
}

/// The standing query `tea` under an id, with the name of its listener or none.
fn tea(alloc: Global, id: &str, listener: Option<&str>) -> Result<Arc<Standing>, Fail> {
    let listener = match listener {
        Some(name) => Some(String::from_str(alloc, name)?),
        None => None,
    };
    let id = String::from_str(alloc, id)?;
    let standing = Standing::read(alloc, id, String::from_str(alloc, "tea")?, listener)?;
    Ok(Arc::new(alloc, standing)?)
}

/// The alert of article a1, whose text is `tea`, on the query `tea` under an id, with the name of its listener or none.
pub fn alert(alloc: Global, query: &str, listener: Option<&str>) -> Result<Alert, Fail> {
    let article = article(alloc, "a1", &[("text", "tea")])?;
    Ok(Alert::of(&tea(alloc, query, listener)?, &article)?)
}

/// The alerts of article a1 on queries, each with the name of its listener or none.
pub fn alerts(alloc: Global, queries: &[(&str, Option<&str>)]) -> Result<Alerts, Fail> {
    let mut alerts = Vec::new(alloc);
    for (query, listener) in queries {
        alerts.push(alert(alloc, query, *listener)?)?;
    }
    Ok(Alerts {
        article: ArcStr::from_str(alloc, "a1")?,
        place: 3,
        asked: 3,
        alerts,
    })
}
