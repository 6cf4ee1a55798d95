//! The alerts of a batch, matched in pieces by threads.
ghost use Rattle.std.specs.Prelude.{◌≡◌, ◌+◌, ◌*◌, ◌/◌, ◌%◌, ◌^◌, ◌<◌, ◌≤◌, map, min, max, length, IfOk};
ghost use Rattle.std.specs.Thread.{IsSync};
ghost use Rattle.clip_standing.specs.Alerts.{alerts_value};
ghost use Rattle.clip_match.specs.Alerts.{alerts_due};

use crate::gate::Gate;
use crate::matching::match_batch;
use crate::registry::View;
use clip_meaning::Article;
use clip_standing::Alerts;
use clip_words::NoMemory;
use std::alloc::Global;
use std::thread::{Threads, join};

/// The alerts of a piece of a batch: `match_batch` between the gate's `enter` and its `leave`, which is called also
/// where memory was refused.
///
/// `NoMemory` where an allocation failed. Cost: that of `match_batch`, and of the gate.
pub fn match_piece<G: Gate>(
    alloc: Global,
    view: &View,
    articles: &[Article],
    batch: u64,
    piece: u32,
    gate: &G,
) -> Result<Vec<Alerts>, NoMemory>
    ensures { IfOk result (λ found. map alerts_value found.items ≡ map (alerts_due view.now) articles.now) }
{
    gate.enter(batch, piece);
    let found = match_batch(alloc, view, articles);
    gate.leave(batch, piece);
    found
}

/// The alerts of each article of a batch, in the order of the articles, all at one view: what `match_batch` gives,
/// whatever the number of workers.
///
/// The articles are cut into neighbouring pieces, whose sizes differ by at most one, as many as there are workers, or
/// as there are articles where these are fewer; 0 workers count as 1. The pieces are numbered from 0 in the order of
/// the articles. Each is matched between the gate's `enter` and its `leave`, in a thread of its own, or by the caller
/// where none can be made. One piece takes no thread, and no articles make no piece.
///
/// `NoMemory` where an allocation failed, after all pieces have ended. Cost: that of `match_batch`, shared among the
/// pieces, and the start of a thread for each piece but one. It waits for its threads.
pub fn match_pieces<R: Threads + Sync, G: Gate>(
    rt: &R,
    alloc: Global,
    view: &View,
    articles: &[Article],
    batch: u64,
    workers: u32,
    gate: &G,
) -> Result<Vec<Alerts>, NoMemory>
    ensures { IfOk result (λ found. map alerts_value found.items ≡ map (alerts_due view.now) articles.now) }
{
    if articles.is_empty() {
        return Ok(Vec::new(alloc));
    }
    let pieces = Pieces {
        batch,
        first: 0,
        count: pieces_of(articles.len(), workers.max(1)),
    };
    match_from(rt, alloc, view, articles, pieces, gate)
}

/// Pieces of a batch that are side by side: the number of the batch and of the first of them, and how many they are.
#[derive(Clone, Copy)]
struct Pieces {
    batch: u64,
    first: u32,
    count: u32,
}

/// The lesser of two numbers.
fn pieces_of(articles: usize, workers: u32) -> u32
    ensures { result ≡ min articles workers }
{
    match u32::try_from(articles) {
        Ok(articles) => articles.min(workers),
        Err(_) => workers,
    }
}

/// How many of so many articles are in the first ones of their pieces, whose sizes differ by at most one: the first
/// pieces have one more than the others. Constant time.
fn articles_in(first: u32, pieces: u32, articles: usize) -> usize
    requires { (0 < pieces) × (first ≤ pieces) }
    ensures cut { result ≡ articles / pieces * first + min (articles % pieces) first }
    ensures within { result ≤ articles }
{
    let each = articles / pieces as usize;
    let over = articles % pieces as usize;
    each * first as usize + over.min(first as usize)
}

/// The alerts of articles that are to be cut into these pieces. The pieces are halved at each step, so the stack grows
/// as the logarithm of their count.
#[cycle(pieces)]
fn match_from<R: Threads + Sync, G: Gate>(
    rt: &R,
    alloc: Global,
    view: &View,
    articles: &[Article],
    pieces: Pieces,
    gate: &G,
) -> Result<Vec<Alerts>, NoMemory>
    requires { (0 < pieces.count) × (pieces.first + pieces.count < 2 ^ 32) }
    ensures { IfOk result (λ found. map alerts_value found.items ≡ map (alerts_due view.now) articles.now) }
{
    let Pieces {
        batch,
        first,
        count,
    } = pieces;
    if count == 1 {
        return match_piece(alloc, view, articles, batch, first, gate);
    }
    let half = count / 2;
    let low = Pieces {
        batch,
        first,
        count: half,
    };
    let high = Pieces {
        batch,
        first: first + half,
        count: count - half,
    };
    let (front, back) = articles.split_at(articles_in(half, count, articles.len()));
    let (first, second) = join(
        rt,
        move || -> Result<Vec<Alerts>, NoMemory>
            requires { IsSync R.row × IsSync G.row × (0 < low.count) × (low.first + low.count < 2 ^ 32) }
            ensures { IfOk result (λ found.
                map alerts_value found.items ≡ map (alerts_due view.entry.now) front.entry.now) }
        { match_from(rt, alloc, view, front, low, gate) },
        move || -> Result<Vec<Alerts>, NoMemory>
            requires { IsSync R.row × IsSync G.row × (0 < high.count) × (high.first + high.count < 2 ^ 32) }
            ensures { IfOk result (λ found.
                map alerts_value found.items ≡ map (alerts_due view.entry.now) back.entry.now) }
        { match_from(rt, alloc, view, back, high, gate) },
    );
    let mut all = first?;
    let mut rest = second?;
    all.append(&mut rest)?;
    Ok(all)
}
