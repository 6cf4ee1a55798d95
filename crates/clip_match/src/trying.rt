//! The candidates of an article whose queries hold of it.
ghost use Rattle.std.specs.Prelude.{◌≡◌, ◌+◌, ◌<◌, ◌≤◌, ◌^◌, ◌++◌, ◌||◌, List, [], None, Some, map, filter, length};
ghost use Rattle.std.specs.Prelude.{option_map, IfOk, IfSome, OnOk, false, slice_index_or};
ghost use Rattle.std.specs.List.{All, list_any, slice_get};
ghost use Rattle.clip_extract.specs.Covering.{article_keys};
ghost use Rattle.clip_extract.specs.Extraction.{query_keys};
ghost use Rattle.clip_meaning.specs.Hits.{HitValue, hit_value};
ghost use Rattle.clip_meaning.specs.Meaning.{holds};
ghost use Rattle.clip_indexed.specs.Segment.{IsRising};
ghost use Rattle.clip_segment.specs.Index.{positions_under};
ghost use Rattle.clip_segment.specs.Segment.{heard_of, trees_of};
ghost use Rattle.clip_match.specs.Candidates.{candidates_of, positions_of, MissesNone, AreRegistered};
ghost use Rattle.clip_match.specs.Steps.Held.{HasItsHits};
ghost use Rattle.clip_match.specs.Steps.Positions.{entries_at, has_listener, holding_of, live_sharing};
ghost use Rattle.clip_match.specs.Steps.Positions.{IsSharer};

use crate::held::{Held, HitPlaces, HitsFound};
use crate::registry::View;
use clip_extract::covering_law;
use clip_meaning::{Article, FieldFlags, Hit};
use clip_plan::Tallies;
use clip_segment::{PositionsRead, SegmentReading, SegmentSpots};
use clip_standing::Entry;
use clip_terms::Asking;
use clip_words::NoMemory;
use std::alloc::Global;

/// The positions of those candidates of a segment that no second key rules out, in place of those that were in the
/// list, and how many candidates it has: the live entries whose query has a key in common with the article. They are
/// counted and ruled out by words of 64 positions, and no entry is looked at. The positions that are read to find them
/// are counted.
fn candidates_in(
    alloc: Global,
    view: &View,
    place: usize,
    reading: &SegmentReading<'_>,
    positions: &mut Vec<u32>,
    read: &mut PositionsRead,
) -> Result<u64, NoMemory>
    requires { slice_get view.now.segments place ≡ Some reading.now.entries }
    ensures asked { IfOk result (λ asked. asked ≡ length (live_sharing view.now.history reading.now)) }
    ensures positions { OnOk result (
        filter (λ r. holds r.standing.tree reading.now.article.fields)
        (entries_at reading.now.entries positions.new.items)
        ≡ holding_of view.now.history reading.now) }
    ensures sharers { OnOk result (All (IsSharer reading.now) positions.new.items) }
    ensures few { OnOk result (length positions.new.items
        ≤ length (live_sharing view.now.history reading.now)) }
    ensures read { OnOk result (read.new ≡ read.old
        + positions_under query_keys (article_keys reading.now.article.fields) (trees_of reading.now.entries)) }
{
    let Some(live) = view.live_at(place) else {
        unreachable!()
    };
    let mut marks = reading.sharer_marks(alloc, read)?;
    marks.keep(live);
    let asked = marks.count() as u64;
    reading.keep_met(&mut marks);
    marks.numbers_into(positions)?;
    Ok(asked)
}

/// Those of the positions at which the query of the segment's entry may hold of the article, in place of those that
/// were in `possible`: each at which it holds is among them. Little is done for each, so they wait for memory side by
/// side.
fn keep_possible(
    reading: &SegmentReading<'_>,
    positions: &[u32],
    possible: &mut Vec<u32>,
) -> Result<(), NoMemory>
    ensures holding { OnOk result (
        filter (λ r. holds r.standing.tree reading.now.article.fields)
        (entries_at reading.now.entries possible.new.items)
        ≡ filter (λ r. holds r.standing.tree reading.now.article.fields)
        (entries_at reading.now.entries positions.now)) }
    ensures sharers { All (IsSharer reading.now) positions.now
        → OnOk result (All (IsSharer reading.now) possible.new.items) }
    ensures few { OnOk result (length possible.new.items ≤ length positions.now) }
{
    possible.clear();
    for position in positions {
        if !reading.may_hold(*position) {
            continue;
        }
        possible.push(*position)?;
    }
    Ok(())
}

/// Those of the positions at which the query of the segment's entry holds of the article, in place of those that were
/// in `holding`. All of them are positions of candidates. One plan is judged for each. No entry is looked at.
fn keep_holding(
    reading: &SegmentReading<'_>,
    positions: &[u32],
    tallies: &mut Tallies,
    holding: &mut Vec<u32>,
) -> Result<(), NoMemory>
    requires { All (IsSharer reading.now) positions.now }
    ensures holding { OnOk result (entries_at reading.now.entries holding.new.items
        ≡ filter (λ r. holds r.standing.tree reading.now.article.fields)
        (entries_at reading.now.entries positions.now)) }
    ensures judged { OnOk result (tallies.new ≡ tallies.old + length positions.now) }
{
    holding.clear();
    for position in positions {
        if !reading.holds(*position, true, tallies)? {
            continue;
        }
        holding.push(*position)?;
    }
    Ok(())
}

/// Whether the query of one of the segment's entries at these positions has a listener. No entry is looked at.
fn is_one_heard(reading: &SegmentReading<'_>, positions: &[u32]) -> bool
    ensures { result
        ≡ list_any (λ position. slice_index_or (heard_of reading.now.entries) position false) positions.now }
{
    positions
        .iter()
        .any(|position| reading.has_listener(*position))
}

/// The segment's entry at a position, without hits. It is not looked at.
fn held_at<'a>(reading: &SegmentReading<'a>, position: u32) -> Option<Held<'a>>
    ensures entry { option_map (λ h. h.registered.now) result ≡ slice_get reading.now.entries position }
    ensures hits { IfSome result (λ h. h.hits ≡ None) }
{
    let registered = reading.entry(position)?;
    let id = reading.id(position)?;
    Some(Held::of(registered, id))
}

/// Adds the entries of a segment at these positions, without their hits.
fn add_entries<'a>(
    reading: &SegmentReading<'a>,
    positions: &[u32],
    held: &mut Vec<Held<'a>>,
) -> Result<(), NoMemory>
    ensures entries { OnOk result (map (λ h. h.registered.now) held.new.items
        ≡ map (λ h. h.registered.now) held.old.items ++ entries_at reading.now.entries positions.now) }
    ensures hits { OnOk result ((all : List HitValue)
        → All (HasItsHits HitsFound.WhenAsked reading.now.article all) held.old.items
        → All (HasItsHits HitsFound.WhenAsked reading.now.article all) held.new.items) }
{
    held.reserve(positions.len())?;
    for position in positions {
        let Some(one) = held_at(reading, *position) else {
            continue;
        };
        held.push(one)?;
    }
    Ok(())
}

/// Room for so many hits is made at once for each query that holds.
const HITS_FOR_A_QUERY: usize = 2;

/// Entries whose queries hold of an article, and the hits of all of them, where they were found.
#[derive(Drop)]
pub(crate) struct HeldEntries<'a> {
    pub(crate) held: Vec<Held<'a>>,
    pub(crate) all_hits: Vec<Hit>,
}

/// Adds the entries of a segment at these positions, and their hits to those of others, as long as more are found at
/// once. `flags` is room for a flag for each word of a field.
fn add_with_hits<'a>(
    reading: &SegmentReading<'a>,
    spots: &SegmentSpots<'_>,
    positions: &[u32],
    hits: HitsFound,
    flags: &mut FieldFlags,
    entries: &mut HeldEntries<'a>,
) -> Result<(), NoMemory>
    requires { spots.now ≡ reading.now }
    ensures entries { OnOk result (map (λ h. h.registered.now) entries.new.held.items
        ≡ map (λ h. h.registered.now) entries.old.held.items ++ entries_at reading.now.entries positions.now) }
    ensures hits { OnOk result (
        All (HasItsHits hits reading.now.article (map hit_value entries.old.all_hits.items)) entries.old.held.items
        → All (HasItsHits hits reading.now.article (map hit_value entries.new.all_hits.items))
        entries.new.held.items) }
{
    entries.held.reserve(positions.len())?;
    entries
        .all_hits
        .reserve(positions.len().saturating_mul(HITS_FOR_A_QUERY))?;
    for position in positions {
        let Some(one) = held_at(reading, *position) else {
            continue;
        };
        if !hits.finds_more(entries.all_hits.len()) {
            entries.held.push(one)?;
            continue;
        }
        let start = entries.all_hits.len();
        spots.add_hits(*position, flags, &mut entries.all_hits)?;
        let end = entries.all_hits.len();
        entries.held.push(one.with_hits(HitPlaces { start, end }))?;
    }
    Ok(())
}

/// Adds the entries of a segment at these positions, and, where hits are found at once, theirs to those of others.
/// Where the words of the article stand is only found out where there is a position and hits are wanted. `flags` is
/// room for a flag for each word of a field.
fn add_held<'a>(
    alloc: Global,
    reading: &SegmentReading<'a>,
    positions: &[u32],
    hits: HitsFound,
    flags: &mut FieldFlags,
    entries: &mut HeldEntries<'a>,
) -> Result<(), NoMemory>
    ensures entries { OnOk result (map (λ h. h.registered.now) entries.new.held.items
        ≡ map (λ h. h.registered.now) entries.old.held.items ++ entries_at reading.now.entries positions.now) }
    ensures hits { OnOk result (
        All (HasItsHits hits reading.now.article (map hit_value entries.old.all_hits.items)) entries.old.held.items
        → All (HasItsHits hits reading.now.article (map hit_value entries.new.all_hits.items))
        entries.new.held.items) }
{
    if positions.is_empty() {
        return Ok(());
    }
    match hits {
        HitsFound::WhenAsked => add_entries(reading, positions, &mut entries.held),
        HitsFound::AtOnce | HitsFound::WhileFew => {
            let spots = reading.spots(alloc)?;
            add_with_hits(reading, &spots, positions, hits, flags, entries)
        }
    }
}

/// What came of judging the candidates of an article.
#[derive(Drop)]
pub(crate) struct Judged<'a> {
    pub(crate) asked: u64,
    /// How many plans were judged.
    pub(crate) plans: u64,
    /// How many positions were read.
    pub(crate) read: u64,
    pub(crate) entries: HeldEntries<'a>,
    /// Whether the query of one of the entries has a listener.
    pub(crate) is_heard: bool,
}

impl<'a> Judged<'a> {
    /// Nothing yet. Takes no memory.
    fn none(alloc: Global) -> Judged<'a>
        ensures asked { result.asked ≡ 0 }
        ensures held { result.entries.held.items ≡ [] }
        ensures all_hits { result.entries.all_hits.items ≡ [] }
        ensures heard { result.is_heard ≡ false }
    {
        Judged {
            asked: 0,
            plans: 0,
            read: 0,
            entries: HeldEntries {
                held: Vec::new(alloc),
                all_hits: Vec::new(alloc),
            },
            is_heard: false,
        }
    }
}

/// Room that the judging of one segment leaves for the next.
#[derive(Drop)]
struct Room {
    alloc: Global,
    positions: Vec<u32>,
    possible: Vec<u32>,
    holding: Vec<u32>,
    tallies: Tallies,
    read: PositionsRead,
    flags: FieldFlags,
}

impl Room {
    /// Room that takes no memory yet, in which no plan was judged and no position read.
    fn new(alloc: Global) -> Room
        ensures tallies { result.tallies ≡ 0 }
        ensures read { result.read ≡ 0 }
    {
        Room {
            alloc,
            positions: Vec::new(alloc),
            possible: Vec::new(alloc),
            holding: Vec::new(alloc),
            tallies: Tallies::new(alloc),
            read: PositionsRead::none(),
            flags: FieldFlags::new(alloc),
        }
    }

    /// Leaves in `holding` the positions of those candidates of a segment whose queries hold of the article, and gives
    /// how many candidates there are.
    fn judge_segment(
        &mut self,
        view: &View,
        place: usize,
        reading: &SegmentReading<'_>,
    ) -> Result<u64, NoMemory>
        requires { slice_get view.now.segments place ≡ Some reading.now.entries }
        ensures asked { IfOk result (λ asked. asked ≡ length (live_sharing view.now.history reading.now)) }
        ensures holding { OnOk result (entries_at reading.now.entries self.new.holding.items
            ≡ holding_of view.now.history reading.now) }
        ensures most { OnOk result (self.new.tallies
            ≤ self.old.tallies + length (live_sharing view.now.history reading.now)) }
        ensures least { OnOk result (self.old.tallies
            + length (entries_at reading.now.entries self.new.holding.items) ≤ self.new.tallies) }
        ensures read { OnOk result (self.new.read ≡ self.old.read
            + positions_under query_keys (article_keys reading.now.article.fields) (trees_of reading.now.entries)) }
    {
        let asked = candidates_in(
            self.alloc,
            view,
            place,
            reading,
            &mut self.positions,
            &mut self.read,
        )?;
        keep_possible(reading, &self.positions, &mut self.possible)?;
        keep_holding(
            reading,
            &self.possible,
            &mut self.tallies,
            &mut self.holding,
        )?;
        Ok(asked)
    }

    /// Adds those of a segment's entries whose queries hold of the article to what came of the segments before it, and
    /// how many candidates the segment has.
    fn try_segment<'a>(
        &mut self,
        view: &View,
        place: usize,
        reading: &SegmentReading<'a>,
        hits: HitsFound,
        judged: &mut Judged<'a>,
    ) -> Result<(), NoMemory>
        requires place { slice_get view.now.segments place ≡ Some reading.now.entries }
        requires few { judged.old.asked + length (live_sharing view.now.history reading.now) < 2 ^ 64 }
        ensures asked { OnOk result (judged.new.asked ≡ judged.old.asked
            + length (live_sharing view.now.history reading.now)) }
        ensures held { OnOk result (map (λ h. h.registered.now) judged.new.entries.held.items
            ≡ map (λ h. h.registered.now) judged.old.entries.held.items ++ holding_of view.now.history reading.now) }
        ensures hits { OnOk result (
            All (HasItsHits hits reading.now.article (map hit_value judged.old.entries.all_hits.items))
            judged.old.entries.held.items
            → All (HasItsHits hits reading.now.article (map hit_value judged.new.entries.all_hits.items))
            judged.new.entries.held.items) }
        ensures heard { OnOk result (judged.new.is_heard
            ≡ (judged.old.is_heard || list_any has_listener (holding_of view.now.history reading.now))) }
        ensures most { OnOk result (self.new.tallies + judged.old.asked ≤ self.old.tallies + judged.new.asked) }
        ensures least { OnOk result (self.old.tallies + length judged.new.entries.held.items
            ≤ self.new.tallies + length judged.old.entries.held.items) }
        ensures read { OnOk result (self.new.read ≡ self.old.read
            + positions_under query_keys (article_keys reading.now.article.fields) (trees_of reading.now.entries)) }
    {
        judged.asked += self.judge_segment(view, place, reading)?;
        judged.is_heard = judged.is_heard || is_one_heard(reading, &self.holding);
        add_held(
            self.alloc,
            reading,
            &self.holding,
            hits,
            &mut self.flags,
            &mut judged.entries,
        )
    }
}

/// What comes of judging the candidates of an article, which are the live entries whose query has a key in common with
/// it: how many there are, those whose queries hold of the article, in rising seq, and, where hits are found at once,
/// the hits of these; with how many plans were judged and how many positions read. Each registered query that holds of
/// the article is among them.
///
/// `NoMemory` where an allocation failed. Cost: a step for each word of the article; in each segment that of
/// `SegmentReading::sharer_marks`, a step for each 64 entries, one for each candidate that its second keys do not rule
/// out, and for each that its outline does not either that of `SegmentReading::holds`; and that of `add_held`. No
/// entry is looked at.
pub(crate) fn judge_candidates<'a>(
    alloc: Global,
    view: &'a View,
    article: &'a Article,
    hits: HitsFound,
) -> Result<Judged<'a>, NoMemory>
    ensures asked { IfOk result (λ found. found.asked ≡ length (candidates_of view.now article.now)) }
    ensures held { IfOk result (λ found. map (λ h. h.registered.now) found.entries.held.items
        ≡ filter (λ r. holds r.standing.tree article.now.fields) (candidates_of view.now article.now)) }
    ensures hits { IfOk result (λ found.
        All (HasItsHits hits article.now (map hit_value found.entries.all_hits.items)) found.entries.held.items) }
    ensures heard { IfOk result (λ found.
        found.is_heard ≡ list_any has_listener (map (λ h. h.registered.now) found.entries.held.items)) }
    ensures misses_none { IfOk result (λ _. MissesNone view.now article.now (candidates_of view.now article.now)) }
    ensures registered { IfOk result (λ _. AreRegistered view.now (candidates_of view.now article.now)) }
    ensures rising { IfOk result (λ _. IsRising (candidates_of view.now article.now)) }
    ensures most { IfOk result (λ found. found.plans ≤ length (candidates_of view.now article.now)) }
    ensures least { IfOk result (λ found. length found.entries.held.items ≤ found.plans) }
    ensures read { IfOk result (λ found. found.read ≡ positions_of view.now article.now) }
{
    covering_law();
    let asking = Asking::of(alloc, article)?;
    let mut room = Room::new(alloc);
    let mut judged = Judged::none(alloc);
    let segments = view.segments();
    for (place, segment) in segments.iter().enumerate() {
        let reading = SegmentReading::of(alloc, segment, &asking, &mut room.read)?;
        room.try_segment(view, place, &reading, hits, &mut judged)?;
    }
    judged.plans = room.tallies.judged();
    judged.read = room.read.count();
    Ok(judged)
}
