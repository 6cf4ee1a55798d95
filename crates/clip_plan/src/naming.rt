//! The words of an article that a plan's query names.
ghost use Rattle.std.specs.Prelude.{◌≡◌, ℕ, ◌<◌, false, List, [], map, length, get_or, unwrap_or, slice_get};
ghost use Rattle.clip_grammar.specs.Tree.{Tree, tree_of};
ghost use Rattle.clip_meaning.specs.Hits.{asks, is_named};
ghost use Rattle.clip_meaning.specs.Steps.Marks.{AreRaised};
ghost use Rattle.clip_extract.specs.Keys.{KeyValue};
ghost use Rattle.clip_plan.specs.Plan.{decoded, plan_of};
ghost use Rattle.clip_plan.specs.Steps.Judging.{meant};
ghost use Rattle.clip_plan.specs.Steps.Naming.{excluded_before, mark_asks, mark_names, marks_name, step_names};

use crate::plans::Plans;
use crate::step::Step;
use clip_grammar::query::{Occur, Query};
use clip_meaning::{Field, FieldFlags, mark};
use clip_pieces::PackedLists;
use clip_terms::FieldSpots;

/// Whether a clause asks for what its child names.
fn asks(occur: Occur) -> bool
    ensures { result ≡ asks occur }
{
    match occur {
        Occur::Must | Occur::Should => true,
        Occur::MustNot => false,
    }
}

/// Whether a step is a leaf that asks.
fn step_asks(step: Step) -> bool
    ensures { (runs : List (List ℕ)) (queries : List Tree) (terms : List KeyValue)
        → result ≡ mark_asks (meant runs queries terms step) }
{
    match step {
        Step::Term(occur, _)
        | Step::Pair(occur, _, _)
        | Step::Phrase(occur, _)
        | Step::Query(occur, _) => asks(occur),
        Step::Open(_, _) | Step::Close(_) => false,
    }
}

/// How many open groups are excluded, or stand in one that is, before a step, where `excluded` are behind it.
fn excluded_before(step: Step, excluded: usize) -> usize
    requires { excluded < usize.MAX }
    ensures { (runs : List (List ℕ)) (queries : List Tree) (terms : List KeyValue)
        → result ≡ excluded_before (meant runs queries terms step) excluded }
{
    match step {
        Step::Open(_, _) => excluded.saturating_sub(1),
        Step::Close(occur) => {
            if asks(occur) && excluded == 0 {
                0
            } else {
                excluded + 1
            }
        }
        Step::Term(_, _) | Step::Pair(_, _, _) | Step::Phrase(_, _) | Step::Query(_, _) => excluded,
    }
}

/// Whether a step may name a word of a field, whether it asks or not: where this is `false` it names none.
fn step_may_name(step: Step, spots: &FieldSpots) -> bool
    ensures { result ≡ false → (runs : List (List ℕ)) (queries : List Tree) (k : ℕ)
        → mark_names spots.now.field k (meant runs queries spots.now.terms step) ≡ false }
{
    match step {
        Step::Term(_, number) => spots.is_of_field(number),
        Step::Pair(_, first, _) => spots.is_of_field(first),
        Step::Phrase(_, _) | Step::Query(_, _) => true,
        Step::Open(_, _) | Step::Close(_) => false,
    }
}

/// Whether one of these steps may.
fn may_name(steps: &[Step], spots: &FieldSpots) -> bool
    ensures { result ≡ false → (runs : List (List ℕ)) (queries : List Tree) (k : ℕ)
        → marks_name spots.now.field k (map (meant runs queries spots.now.terms) steps.now) 0 ≡ false }
{
    for step in steps {
        if step_may_name(*step, spots) {
            return true;
        }
    }
    false
}

/// Raises the flags of the words of a field that the query of a place names; past the last one none.
fn mark_query(queries: &[Query], place: usize, field: &Field, flags: &mut FieldFlags)
    requires { length flags.old ≡ length field.now.1 }
    ensures long { length flags.new ≡ length flags.old }
    ensures raised { AreRaised flags.old flags.new
        (λ k. is_named (unwrap_or (slice_get (map tree_of queries.now) place) Tree.All) field.now.0 field.now.1
        (get_or field.now.1 k [], k)) }
{
    if let Some(query) = queries.get(place) {
        mark(query, field, flags);
    }
}

/// Raises the flags of the words of a field that a leaf names; a step that is no leaf names none.
fn mark_leaf(
    runs: &PackedLists<u32>,
    queries: &[Query],
    step: Step,
    spots: &FieldSpots,
    flags: &mut FieldFlags,
)
    requires { length flags.old ≡ length spots.now.field.1 }
    ensures long { length flags.new ≡ length flags.old }
    ensures raised { AreRaised flags.old flags.new
        (λ k. mark_names spots.now.field k (meant runs.now (map tree_of queries.now) spots.now.terms step)) }
{
    match step {
        Step::Term(_, number) => spots.mark_term(number, flags),
        Step::Pair(_, first, second) => spots.mark_run(&[first, second], flags),
        Step::Phrase(_, place) => spots.mark_run(runs.get(place as usize), flags),
        Step::Query(_, place) => mark_query(queries, place as usize, spots.field(), flags),
        Step::Open(_, _) | Step::Close(_) => {}
    }
}

/// Raises the flags of the words of a field that a step names, where `excluded` open groups are excluded behind it.
fn mark_step(
    runs: &PackedLists<u32>,
    queries: &[Query],
    step: Step,
    excluded: usize,
    spots: &FieldSpots,
    flags: &mut FieldFlags,
)
    requires { length flags.old ≡ length spots.now.field.1 }
    ensures long { length flags.new ≡ length flags.old }
    ensures raised { AreRaised flags.old flags.new
        (λ k. step_names spots.now.field k (meant runs.now (map tree_of queries.now) spots.now.terms step) excluded) }
{
    if step_asks(step) && excluded == 0 {
        mark_leaf(runs, queries, step, spots, flags);
    }
}

/// Raises the flags of the words of a field that the query of these steps names. Goes from the last step to the first,
/// since a group says where it ends whether it is excluded.
fn mark_by(
    steps: &[Step],
    runs: &PackedLists<u32>,
    queries: &[Query],
    spots: &FieldSpots,
    flags: &mut FieldFlags,
)
    requires { length flags.old ≡ length spots.now.field.1 }
    ensures long { length flags.new ≡ length flags.old }
    ensures raised { (tree : Tree)
        → map (meant runs.now (map tree_of queries.now) spots.now.terms) steps.now ≡ plan_of tree
        → AreRaised flags.old flags.new
        (λ k. is_named tree spots.now.field.0 spots.now.field.1 (get_or spots.now.field.1 k [], k)) }
{
    let mut excluded = 0;
    let mut left = steps.len();
    while left > 0 {
        left -= 1;
        mark_step(runs, queries, steps[left], excluded, spots, flags);
        excluded = excluded_before(steps[left], excluded);
    }
}

impl Plans {
    /// Whether the query of the plan at a place may name a word of a field, where the plan's numbers are those of the
    /// field's terms: where this is `false` it names none. Takes no memory. Cost: a step for each leaf and group of the
    /// query up to the first that may.
    pub(crate) fn may_name(&self, place: usize, spots: &FieldSpots) -> bool
        ensures { result ≡ false → (tree : Tree)
            → decoded spots.now.terms (unwrap_or (slice_get self.now place) []) ≡ plan_of tree
            → (k : ℕ) → is_named tree spots.now.field.0 spots.now.field.1 (get_or spots.now.field.1 k [], k) ≡ false }
    {
        may_name(self.steps.get(place), spots)
    }

    /// Raises the flags of the words of a field that the query of the plan at a place names, where the plan's numbers
    /// are those of the field's terms. Past the last plan it raises none.
    ///
    /// Takes no memory. Cost: a step for each leaf and group of the query; a term of the field that the article has
    /// costs a binary search among the field's words and a step for each place where it stands, and a phrase a look
    /// at each place of its first word.
    pub fn mark_hits(&self, place: usize, spots: &FieldSpots, flags: &mut FieldFlags)
        requires { length flags.old ≡ length spots.now.field.1 }
        ensures long { length flags.new ≡ length flags.old }
        ensures raised { (tree : Tree)
            → decoded spots.now.terms (unwrap_or (slice_get self.now place) []) ≡ plan_of tree
            → AreRaised flags.old flags.new
            (λ k. is_named tree spots.now.field.0 spots.now.field.1 (get_or spots.now.field.1 k [], k)) }
    {
        mark_by(
            self.steps.get(place),
            &self.runs,
            &self.queries,
            spots,
            flags,
        );
    }
}
