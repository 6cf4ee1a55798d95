//! Where the words of an article stand, as a segment asks for them.
ghost use Rattle.std.specs.Prelude.{◌≡◌, ◌++◌, IfOk, OnOk, Some, map};
ghost use Rattle.std.specs.List.{slice_get};
ghost use Rattle.clip_meaning.specs.Hits.{hit_value, hits};
ghost use Rattle.clip_model.specs.History.{Registered};
ghost use Rattle.clip_plan.specs.Plan.{decoded, plan_of};
ghost use Rattle.clip_segment.specs.Segment.{trees_of};

use crate::segment::Segment;
use clip_meaning::{FieldFlags, Hit};
use clip_plan::Plans;
use clip_terms::{FieldSpots, Reading};
use clip_words::NoMemory;
use std::alloc::Global;
use std::marker::Model;

/// Where the words of an article stand, by the numbers of the terms of a segment's index: by these the hits of the
/// segment's queries are found from their plans. Contracts see the segment's entries and the article.
#[derive(Drop)]
pub struct SegmentSpots<'a> {
    segment: &'a Segment,
    plans: &'a Plans,
    reading: &'a Reading<'a>,
    fields: Vec<FieldSpots<'a>>,
}

impl<'a> Model for SegmentSpots<'a> {
    ghost use Rattle.std.specs.Coded.{codes};
    ghost use Rattle.clip_model.specs.History.{registered_code};
    ghost use Rattle.clip_meaning.specs.Article.{article_code};
    ghost use Rattle.clip_segment.specs.Segment.{AskedValue};
    ghost use Rattle.clip_segment.specs.Steps.SpotsView.{asked_of, AreOfItsPlans};

    ghost Value = { AskedValue };

    ghost coded = { Prim.hlevel (codes, registered_code, article_code) };

    ghost view = { asked_of };

    ghost invariant = { AreOfItsPlans };
}

impl<'a> SegmentSpots<'a> {
    /// The spots of a reading by the terms of the segment's index, whose plans these are.
    pub(crate) fn of(
        alloc: Global,
        segment: &'a Segment,
        plans: &'a Plans,
        reading: &'a Reading<'a>,
    ) -> Result<SegmentSpots<'a>, NoMemory>
        requires { map (decoded reading.now.terms) plans.now ≡ map plan_of (trees_of segment.now) }
        ensures { IfOk result (λ spots. spots
            ≡ record { entries = segment.now; article = reading.now.article }) }
    {
        Ok(SegmentSpots {
            segment,
            plans,
            reading,
            fields: reading.spots(alloc)?,
        })
    }

    /// Adds where in the article the leaves of the query of the entry at a position stand: its hits, whether it holds
    /// or not. `flags` is room for a flag for each word of a field. The entry is not looked at.
    ///
    /// `NoMemory` where an allocation failed, or where the count of a field's name is at its end; some hits may then
    /// have been added. Cost: that of `Plans::add_hits`.
    pub fn add_hits(
        &self,
        position: u32,
        flags: &mut FieldFlags,
        found: &mut Vec<Hit>,
    ) -> Result<(), NoMemory>
        ensures { OnOk result ((entry : Registered) → slice_get self.now.entries position ≡ Some entry
            → map hit_value found.new.items
            ≡ map hit_value found.old.items ++ hits entry.standing.tree self.now.article.fields) }
    {
        self.plans
            .add_hits(position as usize, &self.fields, flags, found)
    }
}
