//! What is known of a plan before its steps are read. Of the plans of some queries:
//!
//! | query | outline | |
//! |---|---|---|
//! | `a b c` | `AnyKey` | settled where a key is known to be shared |
//! | `a`, `+a +b` | `Words` | settled |
//! | `"a b"` | `Pair` | settled |
//! | `a "b c"` | `WordOrPair` | settled |
//! | `+a -b`, `+"a b c" -d` | `Needs` | ruled out where a word lacks |
//! | `a "b c d"` | `NeedsEither` | ruled out where `a` lacks, and `c` or `d` |
//! | `+(a b) +c` | `Unknown` | |
ghost use Rattle.std.specs.Prelude.{◌≡◌, ◌&&◌, ◌∷◌, [], ℕ, List, map};
ghost use Rattle.std.specs.List.{list_all};
ghost use Rattle.clip_grammar.specs.Tree.{Tree};
ghost use Rattle.clip_terms.specs.Reading.{has_key, has_run};
ghost use Rattle.clip_terms.specs.Terms.{term_at};
ghost use Rattle.clip_plan.specs.Steps.Plans.{mark_of, step_may_be_there};
ghost use Rattle.clip_plan.specs.Steps.Outlines.{run_needs, run_alone, word_or_run, of_first, of_one};
ghost use Rattle.clip_plan.specs.Steps.Outlines.{of_two, of_marks, outline, may_hold_by, settled_by, may_settle};

use crate::step::Step;
use clip_grammar::query::Occur;
use clip_pieces::PackedLists;
use clip_terms::Reading;

/// What is known of a plan before its steps are read, by the numbers of terms.
#[derive(Clone, Copy, Debug)]
pub(crate) enum Outline {
    /// Nothing.
    Unknown,
    /// Its query asks for one of several words, which are its keys: it holds of each article that has one of them.
    AnyKey,
    /// Its query holds of just the articles that have these words.
    Words(u32, u32, u32),
    /// Its query holds of just the articles in which these words are next to each other.
    Pair(u32, u32),
    /// Its query holds of just the articles that have the first word, or in which the others are next to each other.
    WordOrPair(u32, u32, u32),
    /// Its query holds of no article that lacks one of these words.
    Needs(u32, u32, u32),
    /// Its query holds of no article that lacks the first word, and one of the others.
    NeedsEither(u32, u32, u32),
}

/// Whether a step asks for a word that may be there.
fn may_be_there(step: Step) -> bool
    ensures { result ≡ step_may_be_there step }
{
    match step {
        Step::Term(occur, _) => match occur {
            Occur::Should => true,
            Occur::Must | Occur::MustNot => false,
        },
        Step::Pair(_, _, _) | Step::Phrase(_, _) | Step::Query(_, _) => false,
        Step::Open(_, _) | Step::Close(_) => false,
    }
}

/// Whether each step asks for a word that may be there.
fn may_all_be_there(steps: &[Step]) -> bool
    ensures { result ≡ list_all step_may_be_there steps.now }
{
    steps.iter().all(|step| may_be_there(*step))
}

/// Of a plan that begins with a run that must be there.
fn run_needs(run: &[u32]) -> Outline
    ensures { result ≡ run_needs run.now }
{
    match run {
        [first, second] => Outline::Needs(*first, *second, *second),
        [first, second, third, ..] => Outline::Needs(*first, *second, *third),
        _ => Outline::Unknown,
    }
}

/// Of a plan of a run.
fn run_alone(run: &[u32]) -> Outline
    ensures { result ≡ run_alone run.now }
{
    match run {
        [first, second] => Outline::Pair(*first, *second),
        _ => run_needs(run),
    }
}

/// Of a plan of a word or a run.
fn word_or_run(word: u32, run: &[u32]) -> Outline
    ensures { result ≡ word_or_run word run.now }
{
    match run {
        [first, second] => Outline::WordOrPair(word, *first, *second),
        [_, second, third, ..] => Outline::NeedsEither(word, *second, *third),
        _ => Outline::Unknown,
    }
}

/// Of a plan that begins with a step.
fn of_first(runs: &PackedLists<u32>, step: Step) -> Outline
    ensures { (queries : List Tree) → result ≡ of_first (mark_of runs.now queries step) }
{
    match step {
        Step::Term(Occur::Must, word) => Outline::Needs(word, word, word),
        Step::Pair(Occur::Must, first, second) => run_needs(&[first, second]),
        Step::Phrase(Occur::Must, place) => run_needs(runs.get(place as usize)),
        _ => Outline::Unknown,
    }
}

/// Of a plan of one step.
fn of_one(runs: &PackedLists<u32>, step: Step) -> Outline
    ensures { (queries : List Tree) → result ≡ of_one (mark_of runs.now queries step) }
{
    match step {
        Step::Term(Occur::Must, word) => Outline::Words(word, word, word),
        Step::Pair(Occur::Must, first, second) => run_alone(&[first, second]),
        Step::Phrase(Occur::Must, place) => run_alone(runs.get(place as usize)),
        _ => Outline::Unknown,
    }
}

/// Of a plan of two steps.
fn of_two(runs: &PackedLists<u32>, first: Step, second: Step) -> Outline
    ensures { (queries : List Tree)
        → result ≡ of_two (mark_of runs.now queries first) (mark_of runs.now queries second) }
{
    match (first, second) {
        (Step::Term(Occur::Must, one), Step::Term(Occur::Must, other)) => {
            Outline::Words(one, other, other)
        }
        (Step::Term(Occur::Should, word), Step::Pair(Occur::Should, one, other)) => {
            word_or_run(word, &[one, other])
        }
        (Step::Term(Occur::Should, word), Step::Phrase(Occur::Should, place)) => {
            word_or_run(word, runs.get(place as usize))
        }
        _ => of_first(runs, first),
    }
}

/// Of a plan whose words are not just such as may be there.
fn of_steps(runs: &PackedLists<u32>, steps: &[Step]) -> Outline
    ensures { (queries : List Tree) → result ≡ of_marks (map (mark_of runs.now queries) steps.now) }
{
    match steps {
        [] => Outline::Unknown,
        [only] => of_one(runs, *only),
        [first, second] => of_two(runs, *first, *second),
        [first, _, _, ..] => of_first(runs, *first),
    }
}

impl Outline {
    /// What is known of a plan of these steps.
    pub(crate) fn of_plan(runs: &PackedLists<u32>, steps: &[Step]) -> Outline
        ensures { (queries : List Tree) → result ≡ outline (map (mark_of runs.now queries) steps.now) }
    {
        if steps.is_empty() {
            return Outline::Unknown;
        }
        if may_all_be_there(steps) {
            return Outline::AnyKey;
        }
        of_steps(runs, steps)
    }

    /// Whether it may settle its query, so that no step is read.
    pub(crate) fn may_settle(self) -> bool
        ensures { result ≡ may_settle self }
    {
        match self {
            Outline::Unknown | Outline::Needs(_, _, _) | Outline::NeedsEither(_, _, _) => false,
            Outline::AnyKey | Outline::Words(_, _, _) => true,
            Outline::Pair(_, _) | Outline::WordOrPair(_, _, _) => true,
        }
    }

    /// Whether its query may hold of the article that is read.
    pub(crate) fn may_hold(self, reading: &Reading) -> bool
        ensures { result
            ≡ may_hold_by (λ n. has_key reading.now.article.fields (term_at reading.now.terms n)) self }
    {
        match self {
            Outline::Unknown | Outline::AnyKey => true,
            Outline::Words(first, second, third) | Outline::Needs(first, second, third) => {
                has_both(reading, first, second) && reading.has(third)
            }
            Outline::Pair(first, second) => has_both(reading, first, second),
            Outline::WordOrPair(word, first, second) | Outline::NeedsEither(word, first, second) =>
                { reading.has(word) || has_both(reading, first, second) }
        }
    }

    /// Whether its query holds of the article that is read, if that is known; `shares_key` says that the article is
    /// known to have one of the query's keys.
    pub(crate) fn settled(self, reading: &Reading, shares_key: bool) -> Option<bool>
        ensures { result
            ≡ settled_by (λ n. has_key reading.now.article.fields (term_at reading.now.terms n))
            (λ m n. has_run reading.now.article.fields (term_at reading.now.terms m ∷ term_at reading.now.terms n ∷ []))
            shares_key self }
    {
        match self {
            Outline::Unknown | Outline::Needs(_, _, _) | Outline::NeedsEither(_, _, _) => None,
            Outline::AnyKey => { if shares_key { Some(true) } else { None } }
            Outline::Words(first, second, third) => {
                Some(has_both(reading, first, second) && reading.has(third))
            }
            Outline::Pair(first, second) => Some(reading.has_run(&[first, second])),
            Outline::WordOrPair(word, first, second) => {
                Some(reading.has(word) || reading.has_run(&[first, second]))
            }
        }
    }
}

/// Whether the article that is read has both terms.
fn has_both(reading: &Reading, first: u32, second: u32) -> bool
    ensures { result
        ≡ (has_key reading.now.article.fields (term_at reading.now.terms first)
        && has_key reading.now.article.fields (term_at reading.now.terms second)) }
{
    reading.has(first) && reading.has(second)
}
