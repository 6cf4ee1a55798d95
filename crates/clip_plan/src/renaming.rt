//! Plans with other numbers of terms, as where tables of terms are put together.
ghost use Rattle.std.specs.Prelude.{◌≡◌, ◌≤◌, ◌++◌, ◌∷◌, [], List, OnOk, IfOk, length, map, unwrap_or, slice_get};
ghost use Rattle.clip_grammar.specs.Tree.{Tree, tree_of};
ghost use Rattle.clip_extract.specs.Keys.{KeyValue};
ghost use Rattle.clip_plan.specs.Plan.{decoded, mark_names, names, renumbered, renamed};
ghost use Rattle.clip_plan.specs.Steps.Plans.{Adds, mark_of};

use crate::copy::copy_query;
use crate::plans::{Plans, add_query, forget, kept_place, push_steps};
use crate::step::Step;
use clip_grammar::query::Query;
use clip_pieces::PackedLists;
use clip_words::NoMemory;
use std::alloc::Global;

/// Adds the numbers that a step names, in order.
fn add_named(runs: &PackedLists<u32>, step: Step, numbers: &mut Vec<u32>) -> Result<(), NoMemory>
    ensures { OnOk result ((queries : List Tree) → numbers.new.items ≡ numbers.old.items
        ++ mark_names (mark_of runs.now queries step)) }
{
    match step {
        Step::Term(_, number) => {
            numbers.push(number)?;
            Ok(())
        }
        Step::Pair(_, first, second) => {
            numbers.extend_from_slice(&[first, second])?;
            Ok(())
        }
        Step::Phrase(_, place) => {
            numbers.extend_from_slice(runs.get(place as usize))?;
            Ok(())
        }
        Step::Query(_, _) | Step::Open(_, _) | Step::Close(_) => Ok(()),
    }
}

/// Adds the numbers that steps name, in order.
fn add_all_named(
    runs: &PackedLists<u32>,
    steps: &[Step],
    numbers: &mut Vec<u32>,
) -> Result<(), NoMemory>
    ensures { OnOk result ((queries : List Tree) → numbers.new.items ≡ numbers.old.items
        ++ names (map (mark_of runs.now queries) steps.now)) }
{
    for step in steps {
        add_named(runs, *step, numbers)?;
    }
    Ok(())
}

/// The new number of a number; 0 where it has none.
fn renumber(numbers: &[Option<u32>], number: u32) -> u32
    ensures { result ≡ renumbered numbers.now number }
{
    match numbers.get(number as usize) {
        Some(Some(new)) => *new,
        Some(None) => 0,
        None => 0,
    }
}

/// The new numbers of a run.
fn renumbered_run(alloc: Global, run: &[u32], numbers: &[Option<u32>]) -> Result<Vec<u32>, NoMemory>
    ensures { IfOk result (λ new. new.items ≡ map (renumbered numbers.now) run.now) }
{
    let mut new = Vec::with_capacity(alloc, run.len())?;
    for number in run {
        new.push(renumber(numbers, *number))?;
    }
    Ok(new)
}

/// A copy of the query of a place; past the last one it is `All`.
fn query_at(alloc: Global, queries: &[Query], place: usize) -> Result<Query, NoMemory>
    ensures { IfOk result (λ copy. tree_of copy ≡ unwrap_or (slice_get (map tree_of queries.now) place) Tree.All) }
{
    match queries.get(place) {
        Some(query) => copy_query(alloc, query),
        None => Ok(Query::All),
    }
}

/// What the steps of other plans name, and the new numbers of terms.
#[derive(Drop)]
struct Renaming<'a> {
    runs: &'a PackedLists<u32>,
    queries: &'a [Query],
    numbers: &'a [Option<u32>],
}

impl<'a> Renaming<'a> {
    /// Adds a step with its new numbers.
    fn add_step(
        &self,
        alloc: Global,
        step: Step,
        runs: &mut PackedLists<u32>,
        queries: &mut Vec<Query>,
        steps: &mut Vec<Step>,
    ) -> Result<(), NoMemory>
        ensures runs { length runs.old ≤ length runs.new }
        ensures queries { length queries.old.items ≤ length queries.new.items }
        ensures added { OnOk result ((terms : List KeyValue)
            → Adds terms runs.old queries.old.items steps.old.items runs.new queries.new.items steps.new.items
            (decoded terms (renamed self.now.numbers.now
            (mark_of self.now.runs.now (map tree_of self.now.queries.now) step ∷ [])))) }
    {
        match step {
            Step::Term(occur, number) => {
                steps.push(Step::Term(occur, renumber(self.numbers, number)))?;
                Ok(())
            }
            Step::Pair(occur, first, second) => {
                let first = renumber(self.numbers, first);
                let second = renumber(self.numbers, second);
                steps.push(Step::Pair(occur, first, second))?;
                Ok(())
            }
            Step::Phrase(occur, place) => {
                let run = renumbered_run(alloc, self.runs.get(place as usize), self.numbers)?;
                let new = kept_place(runs.len())?;
                runs.push(&run)?;
                steps.push(Step::Phrase(occur, new))?;
                Ok(())
            }
            Step::Query(occur, place) => {
                let query = query_at(alloc, self.queries, place as usize)?;
                add_query(occur, query, queries, steps)
            }
            Step::Open(occur, inside) => {
                steps.push(Step::Open(occur, inside))?;
                Ok(())
            }
            Step::Close(occur) => {
                steps.push(Step::Close(occur))?;
                Ok(())
            }
        }
    }

    /// Adds steps with their new numbers.
    fn add_steps(
        &self,
        alloc: Global,
        from: &[Step],
        runs: &mut PackedLists<u32>,
        queries: &mut Vec<Query>,
        steps: &mut Vec<Step>,
    ) -> Result<(), NoMemory>
        ensures runs { length runs.old ≤ length runs.new }
        ensures queries { length queries.old.items ≤ length queries.new.items }
        ensures added { OnOk result ((terms : List KeyValue)
            → Adds terms runs.old queries.old.items steps.old.items runs.new queries.new.items steps.new.items
            (decoded terms (renamed self.now.numbers.now
            (map (mark_of self.now.runs.now (map tree_of self.now.queries.now)) from.now)))) }
    {
        for step in from {
            self.add_step(alloc, *step, runs, queries, steps)?;
        }
        Ok(())
    }
}

impl Plans {
    /// Adds the numbers that the plan of a place names, in order; past the last plan none.
    ///
    /// `NoMemory` where an allocation failed. Cost: a step for each step of the plan and each word of its phrases.
    pub fn add_numbers(&self, place: usize, numbers: &mut Vec<u32>) -> Result<(), NoMemory>
        ensures { OnOk result (numbers.new.items ≡ numbers.old.items
            ++ names (unwrap_or (slice_get self.now place) [])) }
    {
        add_all_named(&self.runs, self.steps.get(place), numbers)
    }

    /// Adds the plan of a place of other plans, past the last of these an empty one, with new numbers: `numbers` has
    /// for each number of the other plan its new one. `NoMemory` where an allocation failed; the plans are then of no
    /// use.
    ///
    /// Cost: a step for each step of the plan and each word of its phrases. Texts of prefixes are shared, and those of
    /// ranges are copied.
    pub fn push_renamed(
        &mut self,
        alloc: Global,
        other: &Plans,
        place: usize,
        numbers: &[Option<u32>],
    ) -> Result<(), NoMemory>
        ensures { OnOk result ((terms : List KeyValue) → map (decoded terms) self.new
            ≡ map (decoded terms) self.old ++ decoded terms
            (renamed numbers.now (unwrap_or (slice_get other.now place) [])) ∷ []) }
    {
        let source = Renaming {
            runs: &other.runs,
            queries: &other.queries,
            numbers,
        };
        let mut steps = Vec::new(alloc);
        let from = other.steps.get(place);
        let added = source.add_steps(alloc, from, &mut self.runs, &mut self.queries, &mut steps);
        match added {
            Ok(()) => {
                push_steps(&self.runs, &steps, &mut self.steps, &mut self.outlines)?;
                Ok(())
            }
            Err(_) => {
                forget(alloc, &mut self.steps, &mut self.outlines);
                Err(NoMemory)
            }
        }
    }
}
