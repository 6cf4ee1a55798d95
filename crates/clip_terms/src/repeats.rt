//! A search for a run of numbers that takes a step for each number of it and for each word, whatever repeats.
ghost use Rattle.std.specs.Prelude.{◌≡◌, ℕ, false, ◌+◌, ◌^◌, ◌<◌, ◌≤◌, None, MatchOption};
ghost use Rattle.std.specs.Prelude.{length, get_or, slice_index, drop};
ghost use Rattle.clip_meaning.specs.Steps.Marks.{AreRaised};
ghost use Rattle.clip_terms.specs.Steps.Runs.{is_number, begins_with};
ghost use Rattle.clip_terms.specs.Steps.FieldNumbers.{is_covered_from};
ghost use Rattle.clip_terms.specs.Steps.Repeats.{Returns, NoneBelow, AreRepeats, Moves, Agree, IsNext};

use crate::matching::is_number;
use clip_meaning::FieldFlags;

/// The most spans of a run. Each has a longer period than the two before it together, so these are enough for a run of
/// 2^32 numbers; the beginnings of a longer one are taken for shorter ones.
const MOST_SPANS: usize = 48;

/// A run's beginnings of these lengths, each of which repeats after a period, its first numbers, twice or more often.
#[derive(Clone, Copy, Debug)]
struct Span {
    period: usize,
    from: usize,
    upto: usize,
}

/// A span of no lengths.
const NO_SPAN: Span = Span {
    period: 0,
    from: 1,
    upto: 0,
};

/// Where a run is laid beside words: the position of its first number, and how many of its numbers occur there.
#[derive(Clone, Copy, Debug)]
pub(crate) struct Aligned {
    pub(crate) start: usize,
    pub(crate) kept: usize,
}

/// At the start of the words, where nothing is known.
pub(crate) const AT_START: Aligned = Aligned { start: 0, kept: 0 };

/// A run, and which of its beginnings repeat: those of the spans, of all that are shorter than a length.
#[derive(Debug, Drop)]
pub(crate) struct Repeats<'a> {
    run: &'a [u32],
    spans: [Span; MOST_SPANS],
    count: usize,
    known: usize,
}

/// How many of a run's numbers occur from a position of it on, where so many are known to.
fn returning(run: &[u32], at: Aligned) -> Aligned
    requires within { at.start + at.kept ≤ length run.now }
    requires returns { Returns run.now at.start (at.start + at.kept) }
    ensures start { result.start ≡ at.start }
    ensures more { at.kept ≤ result.kept }
    ensures within { result.start + result.kept ≤ length run.now }
    ensures returns { Returns run.now result.start (result.start + result.kept) }
    ensures no_more { result.start + result.kept < length run.now
        → slice_index run.now (result.start + result.kept) ≡ slice_index run.now result.kept → ⊥ }
{
    let start = at.start;
    let mut kept = at.kept;
    while start + kept < run.len() && run[start + kept] == run[kept] {
        kept += 1;
    }
    Aligned { start, kept }
}

/// How many of a run's numbers occur from a position among others on, where so many are known to.
fn agreeing(numbers: &[Option<u32>], run: &[u32], at: Aligned) -> Aligned
    requires within { at.start ≤ length numbers.now }
    requires short { at.kept ≤ length run.now }
    requires agree { Agree run.now numbers.now at }
    ensures start { result.start ≡ at.start }
    ensures short { result.kept ≤ length run.now }
    ensures agree { Agree run.now numbers.now result }
    ensures no_more { result.kept < length run.now
        → is_number (get_or numbers.now (result.start + result.kept) None) (slice_index run.now result.kept) ≡ false }
{
    let start = at.start;
    let mut kept = at.kept;
    while kept < run.len() && stands(numbers, start + kept, run[kept]) {
        kept += 1;
    }
    Aligned { start, kept }
}

/// Whether a number is at a position.
fn stands(numbers: &[Option<u32>], position: usize, number: u32) -> bool
    ensures { result ≡ is_number (get_or numbers.now position None) number }
{
    match numbers.get(position) {
        Some(found) => is_number(*found, number),
        None => false,
    }
}

impl<'a> Repeats<'a> {
    /// Finds out how a run repeats. Takes no memory. Cost: a step for each number, times the logarithm at most.
    pub(crate) fn of(run: &'a [u32]) -> Repeats<'a>
        ensures run { result.run.now ≡ run.now }
        ensures repeats { AreRepeats result }
    {
        let mut repeats = Repeats {
            run,
            spans: [NO_SPAN; MOST_SPANS],
            count: 0,
            known: 1,
        };
        let mut at = Aligned { start: 1, kept: 0 };
        while at.start < run.len() && repeats.count < MOST_SPANS {
            at = returning(run, at);
            repeats.settle(at);
            if at.start + at.kept == run.len() {
                return repeats;
            }
            at = repeats.moved(at);
        }
        repeats
    }

    /// Knows the lengths up to that of a beginning that returns where it is laid, and after no fewer numbers.
    fn settle(&mut self, at: Aligned)
        requires repeats { AreRepeats self.old }
        requires room { self.old.count < length self.old.spans }
        requires some { 0 < at.start }
        requires within { at.start + at.kept ≤ length self.old.run.now }
        requires returns { Returns self.old.run.now at.start (at.start + at.kept) }
        requires least { NoneBelow self.old.run.now at.start self.old.known }
        ensures repeats { AreRepeats self.new }
        ensures run { self.new.run.now ≡ self.old.run.now }
        ensures known { at.start + at.kept < self.new.known }
        ensures least { NoneBelow self.new.run.now at.start self.new.known }
    {
        let length = at.start + at.kept;
        if length < self.known {
            return;
        }
        if at.start <= at.kept {
            self.spans[self.count] = Span {
                period: at.start,
                from: self.known.max(at.start + at.start),
                upto: length,
            };
            self.count += 1;
        }
        self.known = length + 1;
    }

    /// After how many numbers a beginning of a known length returns, if this is half of it or fewer.
    fn period(&self, length: usize) -> Option<usize>
        requires repeats { AreRepeats self.now }
        requires known { length < self.now.known }
        ensures { MatchOption result
            ((d : ℕ) → 0 < d → d + d ≤ length → Returns self.now.run.now d length → ⊥)
            (λ period. (0 < period) × (period + period ≤ length) × Returns self.now.run.now period length
            × NoneBelow self.now.run.now period length) }
    {
        for span in &self.spans[..self.count] {
            if span.from <= length && length <= span.upto {
                return Some(span.period);
            }
        }
        None
    }

    /// Moves the run on from where it is laid, past positions at which it can't stand, whatever follows the numbers
    /// that are kept.
    pub(crate) fn moved(&self, at: Aligned) -> Aligned
        requires repeats { AreRepeats self.now }
        requires start { at.start < 2 ^ 63 }
        requires kept { at.kept < 2 ^ 63 }
        ensures { Moves self.now.run.now at result }
    {
        let length = at.kept.min(self.known - 1);
        match self.period(length) {
            Some(period) => Aligned {
                start: at.start + period,
                kept: length - period,
            },
            None => Aligned {
                start: at.start + length / 2 + 1,
                kept: 0,
            },
        }
    }

    /// Where the run occurs among numbers next, from where it is laid on, if it does.
    pub(crate) fn next_from(&self, numbers: &[Option<u32>], at: Aligned) -> Option<Aligned>
        requires repeats { AreRepeats self.now }
        requires some { 0 < length self.now.run.now }
        requires short { at.kept ≤ length self.now.run.now }
        requires agree { Agree self.now.run.now numbers.now at }
        ensures { MatchOption result
            ((p : ℕ) → at.start ≤ p → begins_with self.now.run.now (drop p numbers.now) ≡ false)
            (IsNext self.now.run.now numbers.now at) }
    {
        let mut at = at;
        while at.start < numbers.len() {
            at = agreeing(numbers, self.run, at);
            if at.kept == self.run.len() {
                return Some(at);
            }
            at = self.moved(at);
        }
        None
    }

    /// Raises the flags of the positions that the run covers where it stands among numbers. Takes no memory. Cost: a
    /// step for each number, times the logarithm of the run's length at most; no flag is raised twice.
    pub(crate) fn mark(&self, numbers: &[Option<u32>], flags: &mut FieldFlags)
        requires repeats { AreRepeats self.now }
        requires some { 0 < length self.now.run.now }
        ensures long { length flags.new ≡ length flags.old }
        ensures raised { AreRaised flags.old flags.new (λ k. is_covered_from self.now.run.now k 0 numbers.now) }
    {
        let mut at = AT_START;
        let mut end = 0;
        while let Some(found) = self.next_from(numbers, at) {
            let start = found.start.max(end);
            end = found.start + self.run.len();
            flags.raise(start, end - start);
            at = self.moved(found);
        }
    }
}
