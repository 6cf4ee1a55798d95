//! Rows of texts, cut into words, with what holds by hand.
use crate::{NoPlaces, near_holds, wider};
use clip_grammar::query::{Occur, Query};
use clip_meaning::{Article, holds};
use clip_words::shared_words;
use std::alloc::Global;
use std::sync::ArcStr;
use std::test::Fail;

/// Two queries, each words that are next to each other or a prefix before `*`, the most words between, whether in
/// order, and whether they are near in the text.
type Row = (&'static str, &'static str, usize, bool, bool);

static TEXT: &str = "The press-office of the Tea Board, Colombo: TEA prices";

#[rattlefmt::skip]
static ROWS: [Row; 12] = [
    ("press", "office", 0, true, true),
    ("office", "press", 9, true, false),
    ("office", "press", 0, false, true),
    ("press", "board", 4, true, true),
    ("press", "board", 3, false, false),
    ("press office", "tea board", 2, true, true),
    ("press office", "tea board", 1, true, false),
    ("press office", "office of", 9, false, false),
    ("tea", "tea", 2, true, true),
    ("tea", "tea", 1, false, false),
    ("pri*", "colom*", 1, false, true),
    ("pri*", "milk", 99, false, false),
];

/// The query of a row.
fn query(alloc: Global, text: &str) -> Result<Query, Fail> {
    let field = ArcStr::from_str(alloc, "text")?;
    if let Some(front) = text.strip_suffix("*") {
        return Ok(Query::Prefix {
            field,
            front: ArcStr::from_str(alloc, front)?,
        });
    }
    let words = shared_words(alloc, text)?;
    Ok(Query::Phrase { field, words })
}

/// The article of the text.
fn article(alloc: Global) -> Result<Article, Fail> {
    let mut fields = Vec::new(alloc);
    let name = String::from_str(alloc, "text")?;
    fields.push((name, String::from_str(alloc, TEXT)?))?;
    Ok(Article::read(alloc, "a1", &fields)?)
}

#[test]
fn words_and_phrases_are_near_as_far_as_is_said(rt: HostRuntime) -> Result<(), Fail> {
    let alloc = rt.alloc();
    let article = article(alloc)?;
    for (first, second, between, ordered, wanted) in &ROWS {
        let (one, other) = (query(alloc, first)?, query(alloc, second)?);
        let near = near_holds(&one, &other, *between, *ordered, &article)?;
        assert!(rt; near == *wanted, "{first}, {second} {between}");
        let both = wider(alloc, one, other)?;
        assert!(rt; holds(&both, &article) || !near, "{first}, {second}");
    }
    Ok(())
}

#[test]
fn all_articles_and_what_is_excluded_have_no_place(rt: HostRuntime) -> Result<(), Fail> {
    let alloc = rt.alloc();
    let article = article(alloc)?;
    let press = query(alloc, "press")?;
    let near = near_holds(&press, &Query::All, 0, false, &article);
    assert!(rt; near == Err(NoPlaces));
    let excluded = Query::Group(vec![in alloc; (Occur::MustNot, query(alloc, "tea")?)]?);
    let near = near_holds(&excluded, &press, 0, false, &article);
    assert!(rt; near == Err(NoPlaces));
    Ok(())
}
