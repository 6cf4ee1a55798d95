//! Articles as a segment asks them.
ghost use Rattle.std.specs.Prelude.{◌≡◌, ◌+◌, ℕ, true, false, IfOk, OnOk, Some, length, map, option_map};
ghost use Rattle.std.specs.Prelude.{slice_index_or};
ghost use Rattle.std.specs.Arc.{arc_value};
ghost use Rattle.std.specs.List.{slice_get};
ghost use Rattle.std.specs.Option.{option_copied};
ghost use Rattle.clip_extract.specs.Covering.{article_keys};
ghost use Rattle.clip_extract.specs.Extraction.{query_keys, second_keys};
ghost use Rattle.clip_extract.specs.Keys.{share};
ghost use Rattle.clip_meaning.specs.Meaning.{holds};
ghost use Rattle.clip_model.specs.History.{Registered};
ghost use Rattle.clip_segment.specs.Index.{positions_under};
ghost use Rattle.clip_segment.specs.Segment.{heard_of, ids_of, positions_sharing, trees_of};

use crate::marking::marks_under;
use crate::positions_read::PositionsRead;
use crate::segment::Segment;
use crate::spots::SegmentSpots;
use clip_extract::second_covering_law;
use clip_pieces::{Marks, PackedLists};
use clip_plan::{Plans, Tallies};
use clip_standing::Entry;
use clip_terms::{Asking, Reading};
use clip_words::NoMemory;
use std::alloc::Global;
use std::marker::Model;
use std::sync::Arc;

/// An article as a segment asks it: by the numbers of the terms of the segment's index. Contracts see the segment's
/// entries and the article.
#[derive(Drop)]
pub struct SegmentReading<'a> {
    pub(crate) segment: &'a Segment,
    pub(crate) positions: &'a PackedLists<u32>,
    pub(crate) needs: &'a Marks,
    pub(crate) plans: &'a Plans,
    pub(crate) reading: Reading<'a>,
    pub(crate) seconds: Marks,
}

impl<'a> Model for SegmentReading<'a> {
    ghost use Rattle.std.specs.Coded.{codes};
    ghost use Rattle.clip_model.specs.History.{registered_code};
    ghost use Rattle.clip_meaning.specs.Article.{article_code};
    ghost use Rattle.clip_segment.specs.Segment.{AskedValue};
    ghost use Rattle.clip_segment.specs.Steps.ReadingView.{asked_of, IsOfItsIndex};

    ghost Value = { AskedValue };

    ghost coded = { Prim.hlevel (codes, registered_code, article_code) };

    ghost view = { asked_of };

    ghost invariant = { IsOfItsIndex };
}

impl<'a> SegmentReading<'a> {
    /// An article as a segment asks it. The positions that are read for it are counted.
    ///
    /// `NoMemory` where an allocation failed, or where the count is at its end. Cost: that of `Reading::of` over the
    /// terms of the segment's index, a step for each position under a second key that the article has, which is what is
    /// counted, and one for each 64 entries of the segment.
    pub fn of(
        alloc: Global,
        segment: &'a Segment,
        asking: &Asking<'a>,
        read: &mut PositionsRead,
    ) -> Result<SegmentReading<'a>, NoMemory>
        ensures reading { IfOk result (λ reading.
            reading ≡ record { entries = segment.now; article = asking.now }) }
        ensures counted { OnOk result (read.new ≡ read.old
            + positions_under second_keys (article_keys asking.now.fields) (trees_of segment.now)) }
    {
        let queries = &segment.index().queries;
        let reading = Reading::of(alloc, &queries.terms, asking)?;
        let seconds = marks_under(
            alloc,
            &queries.seconds,
            reading.numbers(),
            segment.len(),
            read,
        )?;
        Ok(SegmentReading {
            segment,
            positions: &queries.positions,
            needs: &queries.needs,
            plans: &queries.plans,
            reading,
            seconds,
        })
    }

    /// The positions of just the entries whose queries share a key with the article, among those of all entries. Those
    /// that were read to find them are counted.
    ///
    /// `NoMemory` where an allocation failed, or where the count is at its end. Cost: a step for each position under a
    /// key of the article, which is what is counted, and one for each 64 entries of the segment; no entry is looked at.
    pub fn sharer_marks(&self, alloc: Global, read: &mut PositionsRead) -> Result<Marks, NoMemory>
        ensures marks { IfOk result (λ marks. marks
            ≡ map (λ e. share (query_keys e.standing.tree) (article_keys self.now.article.fields)) self.now.entries) }
        ensures counted { OnOk result (read.new ≡ read.old
            + positions_under query_keys (article_keys self.now.article.fields) (trees_of self.now.entries)) }
    {
        marks_under(
            alloc,
            self.positions,
            self.reading.numbers(),
            self.plans.len(),
            read,
        )
    }

    /// The positions, from 0 and rising, of just the entries whose queries share a key with the article, in place of
    /// those that were in the list. Those that were read to find them are counted.
    ///
    /// `NoMemory` where an allocation failed, or where the count is at its end. Cost: that of `sharer_marks`.
    pub fn sharers(
        &self,
        positions: &mut Vec<u32>,
        read: &mut PositionsRead,
    ) -> Result<(), NoMemory>
        ensures positions { OnOk result (positions.new.items
            ≡ positions_sharing (article_keys self.now.article.fields) self.now.entries) }
        ensures counted { OnOk result (read.new ≡ read.old
            + positions_under query_keys (article_keys self.now.article.fields) (trees_of self.now.entries)) }
    {
        let alloc = *positions.allocator();
        let marks = self.sharer_marks(alloc, read)?;
        marks.numbers_into(positions)
    }

    /// Leaves marked just those positions whose queries need no second key or share one with the article: the others
    /// don't hold of it. Takes no memory. Cost: a step for each 64 entries of the segment; no entry is looked at.
    pub fn keep_met(&self, marks: &mut Marks)
        ensures length { length marks.new ≡ length marks.old }
        ensures fewer { (position : ℕ) → slice_index_or marks.new position false ≡ true
            → slice_index_or marks.old position false ≡ true }
        ensures none_lost { (position : ℕ) (entry : Registered) → slice_get self.now.entries position ≡ Some entry
            → holds entry.standing.tree self.now.article.fields ≡ true
            → slice_index_or marks.new position false ≡ slice_index_or marks.old position false }
    {
        second_covering_law();
        marks.keep_met(self.needs, &self.seconds);
    }

    /// The entry at a position from 0, or `None` past the end. Takes no memory. Constant time.
    pub fn entry(&self, position: u32) -> Option<&'a Arc<Entry>>
        ensures { option_map arc_value (option_copied result) ≡ slice_get self.now.entries position }
    {
        self.segment.entry(position)
    }

    /// The id of the query of the entry at a position from 0, or `None` past the end; no entry is looked at. Takes no
    /// memory. Constant time.
    pub fn id(&self, position: u32) -> Option<&'a str>
        ensures { option_copied result ≡ slice_get (ids_of self.now.entries) position }
    {
        self.segment.index().id(position)
    }

    /// Whether the query of the entry at a position from 0 has a listener; none has one past the end. No entry is
    /// looked at. Takes no memory. Constant time.
    pub fn has_listener(&self, position: u32) -> bool
        ensures { result ≡ slice_index_or (heard_of self.now.entries) position false }
    {
        self.segment.index().has_listener(position)
    }

    /// Whether the query of the entry at a position may hold of the article: `false` rules it out, by its first clauses,
    /// and `true` says nothing. Takes no memory. Constant time; the entry is not looked at.
    pub fn may_hold(&self, position: u32) -> bool
        ensures { (entry : Registered) → slice_get self.now.entries position ≡ Some entry
            → result ≡ false → holds entry.standing.tree self.now.article.fields ≡ false }
    {
        self.plans.may_hold(position as usize, &self.reading)
    }

    /// Whether the query of the entry at a position holds of the article. `shares_key` says that the query is known to
    /// share a key with it, as at the positions of `sharers`. The room in which it is judged counts it.
    ///
    /// `NoMemory` where the room had to grow and an allocation failed, or where its count is at its end. Cost: that of
    /// `Plans::judge`; the entry is not looked at.
    pub fn holds(
        &self,
        position: u32,
        shares_key: bool,
        tallies: &mut Tallies,
    ) -> Result<bool, NoMemory>
        ensures held { IfOk result (λ held. (entry : Registered) → slice_get self.now.entries position ≡ Some entry
            → (shares_key ≡ true
            → share (query_keys entry.standing.tree) (article_keys self.now.article.fields) ≡ true)
            → held ≡ holds entry.standing.tree self.now.article.fields) }
        ensures counted { OnOk result (tallies.new ≡ tallies.old + 1) }
    {
        self.plans
            .judge(position as usize, &self.reading, shares_key, tallies)
    }

    /// Where the words of the article stand by the numbers of the terms of the segment's index, to find the hits of the
    /// segment's queries by.
    ///
    /// `NoMemory` where an allocation failed. Cost: that of `Reading::spots`, a step for each field.
    pub fn spots(&self, alloc: Global) -> Result<SegmentSpots<'_>, NoMemory>
        ensures { IfOk result (λ spots. spots ≡ self.now) }
    {
        SegmentSpots::of(alloc, self.segment, self.plans, &self.reading)
    }
}
