//! Judging a plan: its steps from front to back, but for those that change nothing. Of `+a +(b c) d` in an article that
//! has a and b:
//!
//! | step | | tally of the outermost group | of the inner one |
//! |---|---|---|---|
//! | 0 | `+a` | met | |
//! | 1 | `+(`, 2 steps up to its end | | none |
//! | 2 | `b` | | met |
//! | 3 | `c` | passed: the inner group is met | |
//! | 4 | `)` | still met, since the inner one holds | |
//! | 5 | `d` | passed: the outermost is met | |
//!
//! In one without a the outermost group can't hold after step 0, and the rest is passed.
ghost use Rattle.std.specs.Prelude.{◌≡◌, ℕ, ◌+◌, ◌<◌, ◌≤◌, Bool, true, false, List, [], IfOk, OnOk, map, length};
ghost use Rattle.std.specs.Prelude.{unwrap_or, reverse, slice_get, IfSome};
ghost use Rattle.clip_grammar.specs.Tree.{Tree, tree_of};
ghost use Rattle.clip_meaning.specs.Meaning.{holds};
ghost use Rattle.clip_extract.specs.Covering.{article_keys};
ghost use Rattle.clip_extract.specs.Extraction.{query_keys};
ghost use Rattle.clip_extract.specs.Keys.{KeyValue, share};
ghost use Rattle.clip_plan.specs.Plan.{Mark, decoded, plan_of};
ghost use Rattle.clip_plan.specs.Steps.Judging.{no_clauses, counted, tally_holds, is_needless, mark_holds, meant};
ghost use Rattle.clip_plan.specs.Steps.Judging.{marked, passed, onward, is_absent, LeadTo};
ghost use Rattle.clip_plan.specs.declared.judge.Tally.{Tally};

use crate::plans::Plans;
use crate::step::Step;
use clip_grammar::query::{Occur, Query};
use clip_meaning::holds;
use clip_pieces::PackedLists;
use clip_terms::Reading;
use clip_words::NoMemory;
use std::alloc::Global;
use std::marker::Model;

/// What stands among a group's clauses so far, and where the group ends.
#[derive(Clone, Copy, Debug, PartialEq, Eq)]
struct Tally {
    /// None of them keeps the group from holding.
    may_hold: bool,
    /// One of them must hold, or may hold and does.
    is_met: bool,
    /// The place of the group's end among the plan's steps.
    end: usize,
}

impl Tally {
    /// No clause yet, of a group that ends at a place.
    fn new(end: usize) -> Tally
        ensures { result ≡ no_clauses end }
    {
        Tally {
            may_hold: true,
            is_met: false,
            end,
        }
    }

    /// With one clause more, whose child holds or does not.
    fn counted(self, occur: Occur, held: bool) -> Tally
        ensures { result ≡ counted self occur held }
    {
        let Tally {
            may_hold,
            is_met,
            end,
        } = self;
        match occur {
            Occur::Must => Tally {
                may_hold: may_hold && held,
                is_met: true,
                end,
            },
            Occur::MustNot => Tally {
                may_hold: may_hold && !held,
                is_met,
                end,
            },
            Occur::Should => Tally {
                may_hold,
                is_met: is_met || held,
                end,
            },
        }
    }

    /// Whether a group of these clauses holds.
    fn holds(self) -> bool
        ensures { result ≡ tally_holds self }
    {
        self.may_hold && self.is_met
    }

    /// Whether one clause more changes nothing, hold it or not.
    fn is_needless(self, occur: Occur) -> bool
        ensures { result ≡ is_needless self occur }
    {
        match occur {
            Occur::Should => self.is_met,
            Occur::Must | Occur::MustNot => false,
        }
    }

    /// How many steps are passed at a step: all of a clause that changes nothing.
    fn passed(self, step: Step) -> usize
        ensures few { result < 9223372036854775808 }
        ensures is { (runs : List (List ℕ)) (queries : List Tree) (terms : List KeyValue)
            → result ≡ passed self (meant runs queries terms step) }
    {
        match step {
            Step::Term(occur, _)
            | Step::Pair(occur, _, _)
            | Step::Phrase(occur, _)
            | Step::Query(occur, _) => usize::from(self.is_needless(occur)),
            Step::Open(occur, inside) => {
                if self.is_needless(occur) {
                    inside as usize + 2
                } else {
                    0
                }
            }
            Step::Close(_) => 0,
        }
    }

    /// The place where judging goes on, where it came to this one: a group that can't hold is passed up to its end.
    fn onward(self, place: usize) -> usize
        ensures { result ≡ onward self place }
    {
        if self.may_hold {
            place
        } else {
            place.max(self.end)
        }
    }
}

/// Room to judge plans in, with which each is counted: the tallies of the groups that are open, and how many plans were
/// judged in it. Nothing but `Plans::judge` counts. Contracts see the count.
#[derive(Drop)]
pub struct Tallies {
    open: Vec<Tally>,
    judged: u64,
}

impl Model for Tallies {
    ghost use Rattle.std.specs.Prelude.{ℕ};

    ghost Value = { ℕ };

    ghost view = { λ t. t.judged };
}

impl Tallies {
    /// Room in which no plan was judged. Takes no memory yet.
    pub fn new(alloc: Global) -> Tallies
        ensures { result ≡ 0 }
    {
        Tallies {
            open: Vec::new(alloc),
            judged: 0,
        }
    }

    /// How many plans were judged in it. Constant time.
    pub fn judged(&self) -> u64
        ensures { result ≡ self.now }
    {
        self.judged
    }

    /// Counts one plan more.
    fn count_one(&mut self) -> Result<(), NoMemory>
        ensures { OnOk result (self.new ≡ self.old + 1) }
    {
        let Some(judged) = self.judged.checked_add(1) else {
            return Err(NoMemory);
        };
        self.judged = judged;
        Ok(())
    }
}

/// Whether the query of a place holds; past the last one it does.
fn query_holds(queries: &[Query], place: usize, reading: &Reading) -> bool
    ensures { result
        ≡ holds (unwrap_or (slice_get (map tree_of queries.now) place) Tree.All) reading.now.article.fields }
{
    match queries.get(place) {
        Some(query) => holds(query, reading.article()),
        None => true,
    }
}

/// Whether what a leaf asks is so; of a step that is no leaf it is.
fn step_holds(runs: &PackedLists<u32>, queries: &[Query], step: Step, reading: &Reading) -> bool
    ensures { result ≡ mark_holds reading.now.article.fields
        (meant runs.now (map tree_of queries.now) reading.now.terms step) }
{
    match step {
        Step::Term(_, number) => reading.has(number),
        Step::Pair(_, first, second) => reading.has_run(&[first, second]),
        Step::Phrase(_, place) => reading.has_run(runs.get(place as usize)),
        Step::Query(_, place) => query_holds(queries, place as usize, reading),
        Step::Open(_, _) | Step::Close(_) => true,
    }
}

/// Whether a step asks for a word that may be there and is not: it changes nothing.
fn is_absent(step: Step, reading: &Reading) -> bool
    ensures { (runs : List (List ℕ)) (queries : List Tree) → result ≡ true
        → is_absent reading.now.article.fields (meant runs queries reading.now.terms step) ≡ true }
{
    match step {
        Step::Term(Occur::Should, number) => !reading.has(number),
        _ => false,
    }
}

/// The tally of the group that is open after the step of a place, where `held` is whether what it asks is so. The
/// groups around that one are on the stack.
fn tally_after(
    step: Step,
    held: bool,
    place: usize,
    top: Tally,
    stack: &mut Vec<Tally>,
) -> Result<Tally, NoMemory>
    requires { place < 9223372036854775807 }
    ensures { IfOk result (λ next. (runs : List (List ℕ)) (queries : List Tree) (terms : List KeyValue)
        → (next, reverse stack.new.items)
        ≡ marked place (meant runs queries terms step) held top (reverse stack.old.items)) }
{
    match step {
        Step::Open(_, inside) => {
            stack.push(top)?;
            Ok(Tally::new(place + 1 + inside as usize))
        }
        Step::Close(occur) => match stack.pop() {
            Some(around) => Ok(around.counted(occur, top.holds())),
            None => Ok(top),
        },
        Step::Term(occur, _)
        | Step::Pair(occur, _, _)
        | Step::Phrase(occur, _)
        | Step::Query(occur, _) => Ok(top.counted(occur, held)),
    }
}

/// The steps of a plan, what they name, and the article that is read.
#[derive(Drop)]
struct Judging<'a> {
    steps: &'a [Step],
    runs: &'a PackedLists<u32>,
    queries: &'a [Query],
    reading: &'a Reading<'a>,
}

impl<'a> Judging<'a> {
    /// Judges the step of a place, or passes what changes nothing: gives the place of the next step to be judged, and
    /// the tally of the group that is open then.
    fn turn(
        &self,
        place: usize,
        top: Tally,
        stack: &mut Vec<Tally>,
    ) -> Result<(usize, Tally), NoMemory>
        requires { place < length self.now.steps.now }
        ensures forward { IfOk result (λ next. place < next.0) }
        ensures leads { IfOk result (λ next. (verdict : Bool) (marks : List (Mark KeyValue))
            → map (meant self.now.runs.now (map tree_of self.now.queries.now) self.now.reading.now.terms)
            self.now.steps.now ≡ marks
            → LeadTo self.now.reading.now.article.fields verdict marks place top (reverse stack.old.items)
            → LeadTo self.now.reading.now.article.fields verdict marks next.0 next.1 (reverse stack.new.items)) }
    {
        let step = self.steps[place];
        let passed = top.passed(step);
        if passed > 0 {
            return Ok((place + passed, top));
        }
        let held = step_holds(self.runs, self.queries, step, self.reading);
        let next = tally_after(step, held, place, top, stack)?;
        Ok((next.onward(place + 1), next))
    }

    /// The place of the first step from one on that is not absent.
    fn past_absent(&self, place: usize) -> usize
        ensures forward { place ≤ result }
        ensures leads { (verdict : Bool) (marks : List (Mark KeyValue)) (top : Tally) (around : List Tally)
            → map (meant self.now.runs.now (map tree_of self.now.queries.now) self.now.reading.now.terms)
            self.now.steps.now ≡ marks
            → LeadTo self.now.reading.now.article.fields verdict marks place top around
            → LeadTo self.now.reading.now.article.fields verdict marks result top around }
    {
        let mut past = place;
        while past < self.steps.len() && is_absent(self.steps[past], self.reading) {
            past += 1;
        }
        past
    }

    /// Whether the query of the steps holds of the article that is read.
    fn holds(&self, stack: &mut Vec<Tally>) -> Result<bool, NoMemory>
        ensures { IfOk result (λ held. (tree : Tree)
            → map (meant self.now.runs.now (map tree_of self.now.queries.now) self.now.reading.now.terms)
            self.now.steps.now ≡ plan_of tree
            → held ≡ holds tree self.now.reading.now.article.fields) }
    {
        let mut top = Tally::new(self.steps.len());
        let mut place = 0;
        stack.clear();
        while place < self.steps.len() {
            let (next, tally) = self.turn(place, top, stack)?;
            place = self.past_absent(next);
            top = tally;
        }
        Ok(top.holds())
    }
}

/// Whether a plan's first step asks that the article lacks a word, and it has it: the plan's query does not hold.
fn first_excludes(steps: &[Step], reading: &Reading) -> bool
    ensures { (runs : List (List ℕ)) (queries : List Tree) (tree : Tree) → result ≡ true
        → map (meant runs queries reading.now.terms) steps.now ≡ plan_of tree
        → holds tree reading.now.article.fields ≡ false }
{
    match steps.first() {
        Some(Step::Term(Occur::MustNot, number)) => reading.has(*number),
        _ => false,
    }
}

impl Plans {
    /// Whether the query of the plan at a place may hold of the article that is read, where the plan's numbers are
    /// those of the reading's terms. `false` rules it out: the article lacks words without which it can't hold, or has
    /// one with which it can't, by its first clauses. `true` says nothing. Takes no memory. Constant time: it is for
    /// queries of which few hold, before `judge`. The first step of a plan is read that `judge` may go over, though it
    /// rules out little: little is done for each plan here, so that many wait for memory side by side.
    pub fn may_hold(&self, place: usize, reading: &Reading) -> bool
        ensures { (tree : Tree) → decoded reading.now.terms (unwrap_or (slice_get self.now place) []) ≡ plan_of tree
            → result ≡ false → holds tree reading.now.article.fields ≡ false }
    {
        let Some(outline) = self.outlines.get(place) else {
            return true;
        };
        if !outline.may_hold(reading) {
            return false;
        }
        outline.may_settle() || !first_excludes(self.steps.get(place), reading)
    }

    /// Whether the query of the plan at a place holds of the article that is read, if that is known before its steps
    /// are read; `shares_key` says that the article is known to have one of the query's keys. Takes no memory. Cost:
    /// for a pair of words that of `Reading::has_run`, and else constant time.
    fn settled(&self, place: usize, reading: &Reading, shares_key: bool) -> Option<bool>
        ensures { IfSome result (λ held. (tree : Tree)
            → decoded reading.now.terms (unwrap_or (slice_get self.now place) []) ≡ plan_of tree
            → (shares_key ≡ true → share (query_keys tree) (article_keys reading.now.article.fields) ≡ true)
            → held ≡ holds tree reading.now.article.fields) }
    {
        match self.outlines.get(place) {
            Some(outline) => outline.settled(reading, shares_key),
            None => None,
        }
    }

    /// Whether the query of the plan at a place holds of the article that is read, where the plan's numbers are those
    /// of the reading's terms. `shares_key` says that the article is known to have one of the query's keys. The room in
    /// which it is judged counts it.
    ///
    /// `NoMemory` where the room had to grow and an allocation failed, or where its count is at its end. Cost: a step
    /// for each leaf and group that it comes to, and for a phrase what `Reading::has_run` takes. What is left of a
    /// group is passed in one step once a clause keeps it from holding, and a clause that may hold is passed in one,
    /// and not asked, once its group has a clause that must hold or one that does. No step is read of these
    /// queries: a word, two that must be there, a pair of words next to each other, alone or beside a word that may be
    /// there, and one of several words, where the article is known to have one of the query's keys.
    pub fn judge(
        &self,
        place: usize,
        reading: &Reading,
        shares_key: bool,
        tallies: &mut Tallies,
    ) -> Result<bool, NoMemory>
        ensures held { IfOk result (λ held. (tree : Tree)
            → decoded reading.now.terms (unwrap_or (slice_get self.now place) []) ≡ plan_of tree
            → (shares_key ≡ true → share (query_keys tree) (article_keys reading.now.article.fields) ≡ true)
            → held ≡ holds tree reading.now.article.fields) }
        ensures counted { OnOk result (tallies.new ≡ tallies.old + 1) }
    {
        tallies.count_one()?;
        if let Some(held) = self.settled(place, reading, shares_key) {
            return Ok(held);
        }
        let judging = Judging {
            steps: self.steps.get(place),
            runs: &self.runs,
            queries: &self.queries,
            reading,
        };
        judging.holds(&mut tallies.open)
    }
}
