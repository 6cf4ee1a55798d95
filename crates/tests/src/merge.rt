//! Which segments are merged next, and segments with the live entries of others: worked examples.
ghost use Rattle.std.specs.Prelude.{◌≡◌, ◌∷◌, [], IfOk, map};
ghost use Rattle.std.specs.Arc.{arc_value};
ghost use Rattle.clip_indexed.specs.Segment.{all_entries};

use crate::making::{entry, segment, segment_of};
use clip_merge::{Live, Payment, merge, plan, plan_turn, purge};
use clip_samples::owned;
use clip_segment::Segment;
use std::alloc::{AllocError, Global};
use std::sync::Arc;
use std::test::Fail;

/// A segment of so many entries.
fn of_length(alloc: Global, length: u8) -> Result<Arc<Segment>, Fail> {
    let texts = vec![in alloc; "tea"; usize::from(length)]?;
    Ok(Arc::new(alloc, segment_of(alloc, &owned(alloc, &texts)?)?)?)
}

/// Segments of these lengths.
fn of_lengths(alloc: Global, lengths: &[u8]) -> Result<Vec<Arc<Segment>>, Fail> {
    let mut segments = Vec::new(alloc);
    for length in lengths {
        segments.push(of_length(alloc, *length)?)?;
    }
    Ok(segments)
}

/// From which segment on to before which segments are merged.
type Place = Option<(usize, usize)>;

/// Rows: some segments' lengths, where the oldest four of one level are, which of them a turn merges, and which a turn
/// to one segment.
static PLANS: [(&[u8], Place, Place, Place); 9] = [
    (&[1, 1, 1, 1, 1], Some((0, 4)), Some((0, 4)), Some((0, 5))),
    (&[4, 1, 1, 1], None, None, Some((0, 4))),
    (&[16, 5, 4, 15, 4], Some((1, 5)), Some((1, 5)), Some((0, 5))),
    (&[1, 5], None, Some((0, 2)), Some((0, 2))),
    (&[16, 4, 1, 5, 1], None, Some((2, 5)), Some((0, 5))),
    (&[17, 5, 5, 1, 1, 16, 3], None, Some((1, 7)), Some((0, 7))),
    (
        &[1, 5, 1, 1, 1, 1],
        Some((2, 6)),
        Some((2, 6)),
        Some((0, 6)),
    ),
    (&[7], None, None, None),
    (&[], None, None, None),
];

#[test]
fn four_neighbours_of_one_level_are_merged_or_else_all_from_a_lower_one_on(
    rt: HostRuntime,
) -> Result<(), Fail> {
    for (lengths, run, turn, to_one) in &PLANS {
        let segments = of_lengths(rt.alloc(), lengths)?;
        assert!(rt; plan(&segments) == *run);
        assert!(rt; plan_turn(&segments, false) == *turn);
        assert!(rt; plan_turn(&segments, true) == *to_one);
    }
    Ok(())
}

/// Rows: some segments' lengths, how many entries one segment may have at most, and by which of 100 articles it is due:
/// 60 entries by the 20th of those that pay 2 and 1, 232 by the 78th of those that pay 3.
static PAYMENTS: [(&[u8], usize, Option<usize>); 6] = [
    (&[40, 17, 3], 60, Some(20)),
    (&[40, 17, 3], 59, None),
    (&[200, 32], 1000, Some(78)),
    (&[1, 1], 2, Some(2)),
    (&[60], 100, None),
    (&[], 100, None),
];

/// By which of 100 articles one segment is due.
fn due_by(payment: &mut Payment, segments: &[Arc<Segment>]) -> Option<usize> {
    for article in 1..101 {
        if payment.is_due(segments, 1) {
            return Some(article);
        }
    }
    None
}

#[test]
fn articles_pay_for_one_segment(rt: HostRuntime) -> Result<(), Fail> {
    for (lengths, most, article) in &PAYMENTS {
        let segments = of_lengths(rt.alloc(), lengths)?;
        let mut payment = Payment::towards(*most);
        assert!(rt; due_by(&mut payment, &segments) == *article);
        // Payment has begun anew.
        assert!(rt; due_by(&mut payment, &segments) == *article);
    }
    Ok(())
}

/// The seqs of a segment's entries, each with a space after it.
fn seqs(alloc: Global, segment: &Segment) -> Result<String, AllocError> {
    let mut text = String::new(alloc);
    for entry in segment.entries() {
        let seq = entry.seq();
        write!(text, "{seq} ")?;
    }
    Ok(text)
}

/// The segment of one entry.
fn single(alloc: Global, seq: u64) -> Result<Arc<Segment>, Fail>
    ensures { IfOk result (λ segment. map (λ entry. entry.seq) segment.value ≡ seq ∷ []) }
{
    let entries = vec![in alloc; entry(alloc, seq, "tea")?]?;
    Ok(Arc::new(alloc, Segment::build(alloc, entries)?)?)
}

/// Four segments of one entry each.
fn singles(alloc: Global) -> Result<Vec<Arc<Segment>>, Fail>
    ensures { IfOk result (λ singles.
        map (λ entry. entry.seq) (all_entries (map arc_value singles.items)) ≡ 1 ∷ 2 ∷ 3 ∷ 4 ∷ []) }
{
    let one = single(alloc, 1)?;
    let two = single(alloc, 2)?;
    let three = single(alloc, 3)?;
    let four = single(alloc, 4)?;
    Ok(vec![in alloc; one, two, three, four]?)
}

/// Four segments of one entry each, merged where all but the second entry are live.
fn merged(alloc: Global) -> Result<Segment, Fail> {
    let live = Live::of(vec![in alloc; 1, 3, 4]?);
    Ok(merge(alloc, &singles(alloc)?, &live)?)
}

#[test]
fn a_merge_keeps_the_live_entries(rt: HostRuntime) -> Result<(), Fail> {
    let merged = merged(rt.alloc())?;
    assert!(rt; seqs(rt.alloc(), &merged)?.as_str() == "1 3 4 ");
    Ok(())
}

/// The segment of two entries, purged where the first is live.
fn purged(alloc: Global) -> Result<Segment, Fail> {
    let segment = Arc::new(alloc, segment(alloc)?)?;
    Ok(purge(alloc, &segment, &Live::of(vec![in alloc; 1]?))?)
}

#[test]
fn a_purge_keeps_the_live_entries(rt: HostRuntime) -> Result<(), Fail> {
    let purged = purged(rt.alloc())?;
    assert!(rt; seqs(rt.alloc(), &purged)?.as_str() == "1 ");
    Ok(())
}
