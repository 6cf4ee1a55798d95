//! Plans, and how a query becomes one.
//!
//!     `+tea -(milk "green tea")` over the terms 0: green, 1: milk, 2: tea
//!
//!     Term(Must, 2)   Open(MustNot, 2)   Term(Should, 1)   Pair(Should, 0, 2)   Close(MustNot)
//!
//! A step that opens a group knows how many stand before its end, so a group that can't hold is passed in one step.
//! Phrases of three words and more stand in `runs`, and what a step can't say, as a range, stands in `queries`.
ghost use Rattle.std.specs.Prelude.{◌≡◌, ℕ, ◌-◌, ◌<◌, ◌≤◌, ◌++◌, ◌∷◌, [], List, OnOk, OnErr, IfOk, length, map, set};
ghost use Rattle.std.specs.Prelude.{unwrap_or, slice_get, IsTrue, IfSome, None};
ghost use Rattle.std.specs.Arc.{arc_str_bytes};
ghost use Rattle.clip_grammar.specs.Tree.{Tree, tree_of, nodes};
ghost use Rattle.clip_grammar.specs.declared.query.Query.{Query};
ghost use Rattle.clip_extract.specs.Keys.{KeyValue, Word};
ghost use Rattle.clip_terms.specs.Terms.{term_at};
ghost use Rattle.clip_plan.specs.Plan.{Mark, Leaf, Is, Run, decoded, plan_of, clause_marks, are_terms, word_keys};
ghost use Rattle.clip_plan.specs.Steps.Outlines.{outline};
ghost use Rattle.clip_plan.specs.Steps.Plans.{mark_of, Grows, Adds, IsNoGroup};
ghost use Rattle.clip_plan.specs.declared.step.Step.TheVariants as step;

use crate::copy::copy_query;
use crate::outline::Outline;
use crate::step::Step;
use clip_grammar::query::{Occur, Query};
use clip_pieces::PackedLists;
use clip_terms::Terms;
use clip_words::NoMemory;
use std::alloc::Global;
use std::marker::Model;
use std::sync::ArcStr;

/// The greatest place of a run or a query that a step keeps.
const MOST_PLACE: usize = 4_294_967_295;

/// Plans of queries in one buffer, in the order in which they were added. Contracts see each as its marks over the
/// numbers of terms.
#[derive(Debug)]
pub struct Plans {
    pub(crate) steps: PackedLists<Step>,
    pub(crate) runs: PackedLists<u32>,
    pub(crate) queries: Vec<Query>,
    pub(crate) outlines: Vec<Outline>,
}

impl Drop for Plans {
    fn drop(self) {
        let Plans {
            steps: _,
            runs: _,
            queries: _,
            outlines: _,
        } = self;
    }
}

impl Model for Plans {
    ghost use Rattle.std.specs.Prelude.{ℕ, List};
    ghost use Rattle.std.specs.Coded.{codes};
    ghost use Rattle.clip_grammar.specs.TreeCode.{tree_code};
    ghost use Rattle.clip_plan.specs.Plan.{Mark};

    ghost Value = { List (List (Mark ℕ)) };

    ghost coded = { Prim.hlevel (codes, tree_code) };

    ghost use Rattle.clip_plan.specs.Steps.Plans.{marks_of, AreWhole};

    ghost view = { marks_of };

    ghost invariant = { AreWhole };
}

/// What the steps of plans are made with: where memory comes from, and the terms by whose numbers they name words.
#[derive(Clone, Copy)]
struct Planner<'a> {
    alloc: Global,
    terms: &'a Terms,
}

/// The number of a word, which is a term.
fn number_of(terms: &Terms, field: &ArcStr, word: &ArcStr) -> u32
    requires { IsTrue (are_terms terms.now (Word (arc_str_bytes field.now) (arc_str_bytes word.now) ∷ [])) }
    ensures { term_at terms.now result ≡ Word (arc_str_bytes field.now) (arc_str_bytes word.now) }
{
    match terms.of_field(field).word(word) {
        Some(number) => number,
        None => unreachable!(),
    }
}

/// The numbers of words, which are terms.
fn numbers_of(planner: &Planner<'_>, field: &ArcStr, words: &[ArcStr]) -> Result<Vec<u32>, NoMemory>
    requires { IsTrue (are_terms planner.now.terms.now
        (map (Word (arc_str_bytes field.now)) (map arc_str_bytes words.now))) }
    ensures { IfOk result (λ run. map (term_at planner.now.terms.now) run.items
        ≡ map (Word (arc_str_bytes field.now)) (map arc_str_bytes words.now)) }
{
    let mut run = Vec::new(planner.alloc);
    for word in words {
        run.push(number_of(planner.terms, field, word))?;
    }
    Ok(run)
}

/// A place as a step keeps it; want of memory where it doesn't fit in 32 bits.
pub(crate) fn kept_place(place: usize) -> Result<u32, NoMemory>
    ensures { IfOk result (λ kept. kept ≡ place) }
{
    if place > MOST_PLACE {
        return Err(NoMemory);
    }
    Ok(place as u32)
}

/// Adds the numbers of a phrase's words as a run, and gives its place.
fn add_run(
    planner: &Planner<'_>,
    field: &ArcStr,
    words: &[ArcStr],
    runs: &mut PackedLists<u32>,
) -> Result<u32, NoMemory>
    requires { IsTrue (are_terms planner.now.terms.now
        (map (Word (arc_str_bytes field.now)) (map arc_str_bytes words.now))) }
    ensures grows { IfOk result (λ _. Grows runs.old runs.new) }
    ensures long { length runs.old ≤ length runs.new }
    ensures inside { IfOk result (λ place. place < length runs.new) }
    ensures run { IfOk result (λ place. map (term_at planner.now.terms.now) (unwrap_or (slice_get runs.new place) [])
        ≡ map (Word (arc_str_bytes field.now)) (map arc_str_bytes words.now)) }
{
    let run = numbers_of(planner, field, words)?;
    let place = kept_place(runs.len())?;
    runs.push(&run)?;
    Ok(place)
}

/// Adds the step of a phrase, as a clause: of two words a pair, of another number of words a run.
fn add_phrase(
    planner: &Planner<'_>,
    occur: Occur,
    field: &ArcStr,
    words: &[ArcStr],
    runs: &mut PackedLists<u32>,
    steps: &mut Vec<Step>,
) -> Result<(), NoMemory>
    requires { IsTrue (are_terms planner.now.terms.now
        (map (Word (arc_str_bytes field.now)) (map arc_str_bytes words.now))) }
    ensures long { length runs.old ≤ length runs.new }
    ensures added { OnOk result ((queries : List Query) → Adds planner.now.terms.now runs.old queries steps.old.items
        runs.new queries steps.new.items (Leaf occur
        (Run (map (Word (arc_str_bytes field.now)) (map arc_str_bytes words.now))) ∷ [])) }
{
    let step = match words {
        [first, second] => Step::Pair(
            occur,
            number_of(planner.terms, field, first),
            number_of(planner.terms, field, second),
        ),
        _ => Step::Phrase(occur, add_run(planner, field, words, runs)?),
    };
    steps.push(step)?;
    Ok(())
}

/// Adds a query that is kept as it is, as a clause.
pub(crate) fn add_query(
    occur: Occur,
    query: Query,
    queries: &mut Vec<Query>,
    steps: &mut Vec<Step>,
) -> Result<(), NoMemory>
    ensures long { length queries.old.items ≤ length queries.new.items }
    ensures added { OnOk result ((terms : List KeyValue) (runs : List (List ℕ))
        → Adds terms runs queries.old.items steps.old.items runs queries.new.items steps.new.items
        (Leaf occur (Is (tree_of query)) ∷ [])) }
{
    let place = kept_place(queries.len())?;
    queries.push(query)?;
    steps.push(Step::Query(occur, place))?;
    Ok(())
}

/// Adds the step of a query that is no group, as a clause.
fn add_leaf(
    planner: &Planner<'_>,
    occur: Occur,
    query: &Query,
    runs: &mut PackedLists<u32>,
    queries: &mut Vec<Query>,
    steps: &mut Vec<Step>,
) -> Result<(), NoMemory>
    requires leaf { IsNoGroup query.now }
    requires words { IsTrue (are_terms planner.now.terms.now (word_keys (tree_of query.now))) }
    ensures runs { length runs.old ≤ length runs.new }
    ensures queries { length queries.old.items ≤ length queries.new.items }
    ensures added { OnOk result (Adds planner.now.terms.now runs.old queries.old.items steps.old.items
        runs.new queries.new.items steps.new.items (clause_marks occur (tree_of query.now))) }
{
    match query {
        Query::Term { field, word } => {
            steps.push(Step::Term(occur, number_of(planner.terms, field, word)))?;
            Ok(())
        }
        Query::Phrase { field, words } => { add_phrase(planner, occur, field, words, runs, steps) }
        Query::Prefix { field: _, front: _ } => {
            add_query(occur, copy_query(planner.alloc, query)?, queries, steps)
        }
        Query::Span {
            field: _,
            low: _,
            high: _,
        } => add_query(occur, copy_query(planner.alloc, query)?, queries, steps),
        Query::All => add_query(occur, Query::All, queries, steps),
        Query::Group(_) => Ok(()),
    }
}

/// Ends the group that begins with the step of a place: writes into that one how many steps are behind it, and adds
/// the group's end.
fn end_group(occur: Occur, opening: usize, steps: &mut Vec<Step>) -> Result<(), NoMemory>
    requires { opening < length steps.old.items }
    ensures { OnOk result (steps.new.items
        ≡ set steps.old.items opening (step.Open occur (length steps.old.items - opening - 1))
        ++ step.Close occur ∷ []) }
{
    let inside = kept_place(steps.len() - opening - 1)?;
    steps[opening] = Step::Open(occur, inside);
    steps.push(Step::Close(occur))?;
    Ok(())
}

/// Adds the steps of a query as a clause.
fn add_clause(
    planner: &Planner<'_>,
    occur: Occur,
    query: &Query,
    runs: &mut PackedLists<u32>,
    queries: &mut Vec<Query>,
    steps: &mut Vec<Step>,
) -> Result<(), NoMemory>
    requires { IsTrue (are_terms planner.now.terms.now (word_keys (tree_of query.now))) }
    ensures runs { length runs.old ≤ length runs.new }
    ensures queries { length queries.old.items ≤ length queries.new.items }
    ensures added { OnOk result (Adds planner.now.terms.now runs.old queries.old.items steps.old.items
        runs.new queries.new.items steps.new.items (clause_marks occur (tree_of query.now))) }
{
    match query.bare() {
        Query::Group(clauses) => {
            let opening = steps.len();
            steps.push(Step::Open(occur, 0))?;
            for (occur, child) in clauses {
                add_clause(planner, *occur, child, runs, queries, steps)?;
            }
            end_group(occur, opening, steps)
        }
        leaf => add_leaf(planner, occur, leaf, runs, queries, steps),
    }
}

/// Adds the steps of a query's plan.
fn add_plan(
    planner: &Planner<'_>,
    query: &Query,
    runs: &mut PackedLists<u32>,
    queries: &mut Vec<Query>,
    steps: &mut Vec<Step>,
) -> Result<(), NoMemory>
    requires { IsTrue (are_terms planner.now.terms.now (word_keys (tree_of query.now))) }
    ensures runs { length runs.old ≤ length runs.new }
    ensures queries { length queries.old.items ≤ length queries.new.items }
    ensures added { OnOk result (Adds planner.now.terms.now runs.old queries.old.items steps.old.items
        runs.new queries.new.items steps.new.items (plan_of (tree_of query.now))) }
{
    match query.bare() {
        Query::Group(clauses) => {
            for (occur, child) in clauses {
                add_clause(planner, *occur, child, runs, queries, steps)?;
            }
            Ok(())
        }
        leaf => add_leaf(planner, Occur::Must, leaf, runs, queries, steps),
    }
}

/// Adds the steps of a plan behind those of other plans, and what is known of it before these are read, where `runs`
/// has the runs that they name; `NoMemory` where an allocation failed, with both as they were.
pub(crate) fn push_steps(
    runs: &PackedLists<u32>,
    steps: &[Step],
    plans: &mut PackedLists<Step>,
    outlines: &mut Vec<Outline>,
) -> Result<(), NoMemory>
    ensures ok { OnOk result (plans.new ≡ plans.old ++ steps.now ∷ []) }
    ensures err { OnErr result (plans.new ≡ plans.old) }
    ensures outlines { (queries : List Tree)
        → outlines.old.items ≡ map outline (map (map (mark_of runs.now queries)) plans.old)
        → outlines.new.items ≡ map outline (map (map (mark_of runs.now queries)) plans.new) }
{
    let count = outlines.len();
    outlines.push(Outline::of_plan(runs, steps))?;
    match plans.push(steps) {
        Ok(()) => Ok(()),
        Err(_) => {
            outlines.truncate(count);
            Err(NoMemory)
        }
    }
}

/// Takes all plans out, and what is known of them: of some of their runs nothing is known.
pub(crate) fn forget(alloc: Global, plans: &mut PackedLists<Step>, outlines: &mut Vec<Outline>)
    ensures plans { plans.new ≡ [] }
    ensures outlines { outlines.new.items ≡ [] }
{
    *plans = PackedLists::new(alloc);
    outlines.clear();
}

impl Plans {
    /// No plans. Takes no memory.
    pub fn new(alloc: Global) -> Plans
        ensures { result ≡ [] }
    {
        Plans {
            steps: PackedLists::new(alloc),
            runs: PackedLists::new(alloc),
            queries: Vec::new(alloc),
            outlines: Vec::new(alloc),
        }
    }

    /// How many plans there are. Takes no memory. Constant time.
    pub fn len(&self) -> usize
        ensures { result ≡ length self.now }
    {
        self.steps.len()
    }

    /// Adds the plan of a query whose words are terms. `NoMemory` where an allocation failed; the plans are then of no
    /// use.
    ///
    /// Cost: one search among the terms for each word of the query. Texts of prefixes are shared, and those of ranges
    /// are copied.
    pub fn push(&mut self, alloc: Global, terms: &Terms, query: &Query) -> Result<(), NoMemory>
        requires { IsTrue (are_terms terms.now (word_keys (tree_of query.now))) }
        ensures { OnOk result (map (decoded terms.now) self.new ≡ map (decoded terms.now) self.old
            ++ plan_of (tree_of query.now) ∷ []) }
    {
        let mut steps = Vec::new(alloc);
        let planner = Planner { alloc, terms };
        let added = add_plan(
            &planner,
            query,
            &mut self.runs,
            &mut self.queries,
            &mut steps,
        );
        match added {
            Ok(()) => {
                push_steps(&self.runs, &steps, &mut self.steps, &mut self.outlines)?;
                Ok(())
            }
            Err(_) => {
                forget(alloc, &mut self.steps, &mut self.outlines);
                Err(NoMemory)
            }
        }
    }
}
