//! The alerts of a batch are the same, however it is cut.
mod gates;
mod making;
mod memory;

use crate::pieces::gates::{BATCH, Counts, Overlap};
use crate::pieces::making::{ALERTS_OF_THREE, article_of, three_articles, three_queries};
use crate::showing::told;
use clip_match::{OpenGate, View, match_article, match_batch, match_piece, match_pieces};
use clip_meaning::Article;
use std::alloc::Global;
use std::process::Abort;
use std::test::Fail;
use std::thread::Threads;

/// The alerts of a batch, matched in pieces by so many workers, as a text.
fn in_pieces<R: Threads + Sync>(
    rt: &R,
    alloc: Global,
    view: &View,
    articles: &[Article],
    workers: u32,
) -> Result<String, Fail> {
    let found = match_pieces(rt, alloc, view, articles, 1, workers, &OpenGate)?;
    Ok(told(alloc, &found)?)
}

/// The alerts of a batch are these, matched whole and in pieces.
fn are_matched<R: Threads + Abort + Sync>(
    rt: &R,
    alloc: Global,
    view: &View,
    articles: &[Article],
    wanted: &str,
) -> Result<(), Fail> {
    let whole = told(alloc, &match_batch(alloc, view, articles)?)?;
    assert!(rt; whole.as_str() == wanted, "{whole}");
    for workers in [0u32, 1, 2, 3, 4, 64] {
        let told = in_pieces(rt, alloc, view, articles, workers)?;
        assert!(rt; told.as_str() == wanted, "{workers}: {told}");
    }
    Ok(())
}

/// The alerts of one article, matched alone, are these.
fn is_matched(
    rt: &impl Abort,
    alloc: Global,
    view: &View,
    article: &Article,
    wanted: &str,
) -> Result<(), Fail> {
    let one = vec![in alloc; match_article(alloc, view, article)?]?;
    let told = told(alloc, &one)?;
    assert!(rt; told.as_str() == wanted, "{told}");
    Ok(())
}

#[test]
fn one_article_is_matched_alike_by_each_call(rt: HostRuntime) -> Result<(), Fail> {
    let alloc = rt.alloc();
    let view = three_queries(alloc).expect(&rt, "a view");
    let article = article_of(alloc, "a1", "tea").expect(&rt, "an article");
    is_matched(&rt, alloc, &view, &article, "a1 1 1 q1/a1/-. ")?;
    are_matched(&rt, alloc, &view, &[article], "a1 1 1 q1/a1/-. ")
}

#[test]
fn three_articles_give_what_a_batch_gives(rt: HostRuntime) -> Result<(), Fail> {
    let alloc = rt.alloc();
    let view = three_queries(alloc).expect(&rt, "a view");
    let articles = three_articles(alloc).expect(&rt, "articles");
    are_matched(&rt, alloc, &view, &articles, ALERTS_OF_THREE)
}

/// The sums of the marks of what was entered and left, where articles are matched by so many workers.
fn sums<R: Threads + Abort + Sync>(
    rt: &R,
    alloc: Global,
    articles: &[Article],
    workers: u32,
) -> Result<(u64, u64), Fail> {
    let gate = Counts::new();
    let view = three_queries(alloc).expect(rt, "a view");
    let found = match_pieces(rt, alloc, &view, articles, BATCH, workers, &gate)?;
    assert!(rt; found.len() == articles.len());
    Ok(gate.sums())
}

/// Rows: a number of workers, and the sum of the marks of three articles' pieces.
#[rattlefmt::skip]
const SUMS: [(u32, u64); 6] = [(0, 1), (1, 1), (2, 101), (3, 10101), (4, 10101), (64, 10101)];

#[test]
fn each_piece_is_entered_and_left_once(rt: HostRuntime) -> Result<(), Fail> {
    let alloc = rt.alloc();
    let articles = three_articles(alloc).expect(&rt, "articles");
    for (workers, wanted) in SUMS {
        assert!(rt; sums(&rt, alloc, &articles, workers)? == (wanted, wanted));
    }
    for workers in [0u32, 1, 64] {
        assert!(rt; sums(&rt, alloc, &[], workers)? == (0, 0));
    }
    Ok(())
}

#[test]
fn a_piece_matched_alone_is_entered_and_left(rt: HostRuntime) -> Result<(), Fail> {
    let alloc = rt.alloc();
    let gate = Counts::new();
    let view = three_queries(alloc).expect(&rt, "a view");
    let articles = three_articles(alloc).expect(&rt, "articles");
    let found = match_piece(alloc, &view, &articles, BATCH, 2, &gate)?;
    assert!(rt; told(alloc, &found)?.as_str() == ALERTS_OF_THREE);
    assert!(rt; gate.sums() == (10000, 10000));
    Ok(())
}

#[test]
fn two_pieces_are_matched_at_one_time(rt: HostRuntime) -> Result<(), Fail> {
    let alloc = rt.alloc();
    let gate = Overlap::new();
    let view = three_queries(alloc).expect(&rt, "a view");
    let articles = vec![in alloc;
        article_of(alloc, "a1", "tea").expect(&rt, "an article"),
        article_of(alloc, "a2", "coffee").expect(&rt, "an article"),
    ]?;
    let found = match_pieces(&rt, alloc, &view, &articles, 1, 2, &gate)?;
    assert!(rt; told(alloc, &found)?.as_str() == "a1 1 1 q1/a1/-. a2 1 1 q2/a2/-. ");
    assert!(rt; gate.is_met(), "one piece was held to the limit");
    Ok(())
}
