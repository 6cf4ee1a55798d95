//! Candidates: the entries that are tried on an article.
ghost use Rattle.std.specs.Prelude.{◌≡◌, ◌++◌, map, IfOk, OnOk};
ghost use Rattle.clip_extract.specs.Covering.{article_keys};
ghost use Rattle.clip_indexed.specs.Segment.{IsRising};
ghost use Rattle.clip_segment.specs.Segment.{positions_sharing};
ghost use Rattle.clip_match.specs.Candidates.{candidates_of, MissesNone, AreRegistered};
ghost use Rattle.clip_match.specs.Steps.Positions.{live_with};

use clip_extract::covering_law;
use clip_match::View;
use clip_meaning::Article;
use clip_segment::{PositionsRead, Segment, SegmentReading};
use clip_standing::Entry;
use clip_terms::Asking;
use clip_words::NoMemory;
use std::alloc::Global;

/// The positions of a segment's entries that share a key with an article, rising, in place of those that were there.
fn find_positions<'a>(
    alloc: Global,
    segment: &'a Segment,
    asking: &Asking<'a>,
    positions: &mut Vec<u32>,
) -> Result<(), NoMemory>
    ensures { OnOk result (positions.new.items ≡ positions_sharing (article_keys asking.now.fields) segment.now) }
{
    let mut read = PositionsRead::none();
    let reading = SegmentReading::of(alloc, segment, asking, &mut read)?;
    reading.sharers(positions, &mut read)
}

/// Adds the live ones of a segment's entries that share a key with an article, in order. They are at these positions.
fn add_candidates<'a>(
    view: &View,
    segment: &'a Segment,
    article: &Article,
    positions: &[u32],
    found: &mut Vec<&'a Entry>,
) -> Result<(), NoMemory>
    requires { positions.now ≡ positions_sharing (article_keys article.now.fields) segment.now }
    ensures { OnOk result (map (λ e. e.now) found.new.items ≡ map (λ e. e.now) found.old.items
        ++ live_with view.now.history (article_keys article.now.fields) segment.now) }
{
    for position in positions {
        let Some(entry) = segment.entry(*position) else {
            unreachable!();
        };
        if !view.is_live(entry) {
            continue;
        }
        found.push(entry)?;
    }
    Ok(())
}

/// The entries that could hold of an article: exactly the live ones whose query has a key in common with it, each once,
/// in rising seq. Entries that were replaced or deleted are left out. Each registered query that holds of the article
/// is among them, by the covering law.
///
/// `NoMemory` where an allocation failed. Cost: a step for each word of the article; in each segment that of
/// `SegmentReading::sharers` and for each position found that of `View::is_live`; an entry without such a key is not
/// looked at.
pub fn candidates<'a>(
    alloc: Global,
    view: &'a View,
    article: &Article,
) -> Result<Vec<&'a Entry>, NoMemory>
    ensures sharers { IfOk result (λ found. map (λ e. e.now) found.items ≡ candidates_of view.now article.now) }
    ensures misses_none { IfOk result (λ found. MissesNone view.now article.now (map (λ e. e.now) found.items)) }
    ensures registered { IfOk result (λ found. AreRegistered view.now (map (λ e. e.now) found.items)) }
    ensures rising { IfOk result (λ found. IsRising (map (λ e. e.now) found.items)) }
{
    covering_law();
    let asking = Asking::of(alloc, article)?;
    let mut positions = Vec::new(alloc);
    let mut found = Vec::new(alloc);
    for segment in view.segments() {
        find_positions(alloc, segment, &asking, &mut positions)?;
        add_candidates(view, segment, article, &positions, &mut found)?;
    }
    Ok(found)
}
