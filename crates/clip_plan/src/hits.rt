//! The hits of a plan's query.
ghost use Rattle.std.specs.Prelude.{◌≡◌, ◌++◌, List, [], OnOk, map, unwrap_or, slice_get};
ghost use Rattle.std.specs.FinMap as finite;
ghost use Rattle.clip_grammar.specs.Tree.{Tree};
ghost use Rattle.clip_meaning.specs.Article.{Fields};
ghost use Rattle.clip_meaning.specs.Hits.{hit_value, hits, hits_in};
ghost use Rattle.clip_extract.specs.Keys.{KeyValue};
ghost use Rattle.clip_terms.specs.Spots.{spots_among};
ghost use Rattle.clip_plan.specs.Plan.{decoded, plan_of};

use crate::plans::Plans;
use clip_meaning::{FieldFlags, Hit};
use clip_terms::FieldSpots;
use clip_words::NoMemory;

/// Adds the hits in one field of the query of the plan at a place. `flags` is room for a flag of each of its words, of
/// which none is looked at where the query names no word of the field.
fn add_hits_in(
    plans: &Plans,
    place: usize,
    spots: &FieldSpots,
    flags: &mut FieldFlags,
    found: &mut Vec<Hit>,
) -> Result<(), NoMemory>
    ensures { OnOk result ((tree : Tree)
        → decoded spots.now.terms (unwrap_or (slice_get plans.now place) []) ≡ plan_of tree
        → map hit_value found.new.items ≡ map hit_value found.old.items ++ hits_in tree spots.now.field) }
{
    if !plans.may_name(place, spots) {
        return Ok(());
    }
    let field = spots.field();
    flags.restart(field.words().len())?;
    plans.mark_hits(place, spots, flags);
    flags.add_hits(field.name(), found)
}

impl Plans {
    /// Adds where in an article the leaves of the query of the plan at a place stand: its hits, where the plan's
    /// numbers are those of the terms of the article's fields, which are all there in order. `flags` is room for a flag
    /// for each word of a field. Looks at no query's tree but those of prefixes and ranges.
    ///
    /// `NoMemory` where an allocation failed, or where the count of a field's name is at its end; some hits may then
    /// have been added. Cost: for each field a look at the plan's steps; for each of which the plan may have a word
    /// also a flag for each of the field's words, and a walk over the steps, as of `mark_hits`.
    pub fn add_hits(
        &self,
        place: usize,
        spots: &[FieldSpots],
        flags: &mut FieldFlags,
        found: &mut Vec<Hit>,
    ) -> Result<(), NoMemory>
        ensures { OnOk result ((tree : Tree) (terms : List KeyValue) (fields : Fields)
            → spots.now ≡ map (spots_among terms) (finite.entries fields)
            → decoded terms (unwrap_or (slice_get self.now place) []) ≡ plan_of tree
            → map hit_value found.new.items ≡ map hit_value found.old.items ++ hits tree fields) }
    {
        for of_field in spots {
            add_hits_in(self, place, of_field, flags, found)?;
        }
        Ok(())
    }
}
