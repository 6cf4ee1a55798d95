//! The words of a field by the numbers of their terms, and the runs of numbers that occur among them.
ghost use Rattle.std.specs.Prelude.{◌≡◌, ◌<◌, nat_lt, nat_le, IfOk, OnOk, map, length, ◌++◌};
ghost use Rattle.std.specs.List.{list_any};
ghost use Rattle.clip_meaning.specs.Steps.Marks.{AreRaised};
ghost use Rattle.clip_extract.specs.Covering.{field_keys};
ghost use Rattle.clip_terms.specs.Terms.{number_of};
ghost use Rattle.clip_terms.specs.Steps.Runs.{stands_among};
ghost use Rattle.clip_terms.specs.Steps.FieldNumbers.{spot_of, spots_of, HasEach, IsAnchor};
ghost use Rattle.clip_terms.specs.Steps.FieldNumbers.{begins_before, covers_before, is_covered_from, start_before};

use crate::matching::stands_about;
use crate::reading::number_at;
use crate::repeats::{AT_START, Repeats};
use crate::terms::Terms;
use clip_meaning::{Field, FieldFlags, Postings};
use clip_words::NoMemory;
use std::alloc::Global;
use std::marker::Model;

/// A word of a field that is a term: the term's number, and the word's position.
#[derive(Clone, Copy, Debug)]
pub(crate) struct Spot {
    number: u32,
    position: usize,
}

impl Spot {
    /// The word's position.
    pub(crate) fn position(&self) -> usize
        ensures { result ≡ self.now.position }
    {
        self.position
    }
}

/// A place in a run, and the spots of the number that is there.
#[derive(Debug, Drop)]
struct Anchor<'a> {
    place: usize,
    spots: &'a [Spot],
}

/// The numbers of a field's words in the order of its text, none of a word that is no term; and in the order of the
/// numbers where each of them is. Contracts see the numbers.
#[derive(Drop)]
pub(crate) struct FieldNumbers {
    numbers: Vec<Option<u32>>,
    spots: Vec<Spot>,
}

impl Model for FieldNumbers {
    ghost use Rattle.std.specs.Prelude.{ℕ, List, Option};
    ghost use Rattle.clip_terms.specs.Steps.FieldNumbers.{AreSpotsOf};

    ghost Value = { List (Option ℕ) };

    ghost view = { λ f. f.numbers.items };

    ghost invariant = { λ f. AreSpotsOf f.numbers.items f.spots.items };
}

/// Adds a spot, if the position has a number.
fn add_spot(number: Option<u32>, position: usize, spots: &mut Vec<Spot>) -> Result<(), NoMemory>
    ensures { OnOk result (spots.new.items ≡ spots.old.items ++ spot_of number position) }
{
    if let Some(number) = number {
        spots.push(Spot { number, position })?;
    }
    Ok(())
}

/// The spots of postings, in their order.
fn spots_of(
    alloc: Global,
    numbers: &[Option<u32>],
    postings: &Postings<'_>,
) -> Result<Vec<Spot>, NoMemory>
    ensures { IfOk result (λ spots. spots.items ≡ spots_of numbers.now postings.now) }
{
    let mut spots = Vec::with_capacity(alloc, postings.len())?;
    for place in 0..postings.len() {
        let position = postings.position_at(place);
        add_spot(number_at(numbers, position), position, &mut spots)?;
    }
    Ok(spots)
}

/// A number with so few spots is rare, and no rarer one is looked for.
const FEW_SPOTS: usize = 8;

/// Whether a run is looked for from its start on, since at these spots this may take longer.
fn is_often(spots: usize, run: usize, words: usize) -> bool {
    spots.saturating_mul(run) > words.saturating_add(run)
}

/// Whether a run occurs where its number of a place is at one of these spots.
fn stands_about_any(numbers: &[Option<u32>], run: &[u32], anchor: &Anchor<'_>) -> bool
    ensures { result
        ≡ list_any (begins_before run.now numbers.now anchor.now.place) anchor.now.spots.now }
{
    for spot in anchor.spots {
        if stands_about(numbers, run, anchor.place, spot) {
            return true;
        }
    }
    false
}

/// Raises the flags of a run's positions where its number of a place is at one of these spots and the run occurs.
fn mark_about(numbers: &[Option<u32>], run: &[u32], anchor: &Anchor<'_>, flags: &mut FieldFlags)
    ensures long { length flags.new ≡ length flags.old }
    ensures raised { AreRaised flags.old flags.new
        (λ k. list_any (covers_before run.now numbers.now anchor.now.place k) anchor.now.spots.now) }
{
    flags.raise_runs(
        anchor.spots,
        run.len(),
        |spot: &Spot| -> Option<usize>
            ensures { result ≡ start_before run.entry.now numbers.entry.now anchor.entry.now.place spot.now }
        {
            if stands_about(numbers, run, anchor.place, spot) {
                Some(spot.position - anchor.place)
            } else {
                None
            }
        },
    );
}

impl FieldNumbers {
    /// The numbers of a field's words among these terms.
    ///
    /// `NoMemory` where an allocation failed. Cost: a step for each word.
    pub(crate) fn of(
        alloc: Global,
        terms: &Terms,
        field: &Field,
        numbers: Vec<Option<u32>>,
    ) -> Result<FieldNumbers, NoMemory>
        requires { numbers.items ≡ map (number_of terms.now) (field_keys field.now) }
        ensures { IfOk result (λ of_field. of_field ≡ map (number_of terms.now) (field_keys field.now)) }
    {
        terms.order_law();
        let spots = spots_of(alloc, &numbers, &field.postings())?;
        Ok(FieldNumbers { numbers, spots })
    }

    /// The numbers. Constant time.
    pub(crate) fn numbers(&self) -> &[Option<u32>]
        ensures { result.now ≡ self.now }
    {
        &self.numbers
    }

    /// The spots of a number. Cost: two binary searches.
    fn of_number(&self, number: u32) -> &[Spot]
        ensures { HasEach self.now number result.now }
    {
        let start = self.spots.partition_point(
            |spot: &Spot| -> bool
                ensures { result ≡ nat_lt spot.now.number number }
            { spot.number < number },
        );
        let rest = self.spots.split_at(start).1;
        let count = rest.partition_point(
            |spot: &Spot| -> bool
                ensures { result ≡ nat_le spot.now.number number }
            { spot.number <= number },
        );
        rest.split_at(count).0
    }

    /// The rarest number of a run, or one of its first that is rare.
    fn rarest(&self, run: &[u32]) -> Anchor<'_>
        requires { 0 < length run.now }
        ensures { IsAnchor self.now run.now result }
    {
        let mut rarest = Anchor {
            place: 0,
            spots: self.of_number(run[0]),
        };
        for place in 1..run.len() {
            if rarest.spots.len() <= FEW_SPOTS {
                break;
            }
            let spots = self.of_number(run[place]);
            if spots.len() < rarest.spots.len() {
                rarest = Anchor { place, spots };
            }
        }
        rarest
    }

    /// Whether the numbers of a run are somewhere next to each other, in order. Takes no memory. Cost: two binary
    /// searches for each number of the run while all before it are frequent; then a step for each position of the
    /// rarest of these and each number of the run, or, where that is less, one for each word and each number.
    pub(crate) fn has_run(&self, run: &[u32]) -> bool
        requires { 0 < length run.now }
        ensures { result ≡ stands_among run.now self.now }
    {
        let rarest = self.rarest(run);
        if is_often(rarest.spots.len(), run.len(), self.numbers.len()) {
            return Repeats::of(run)
                .next_from(&self.numbers, AT_START)
                .is_some();
        }
        stands_about_any(&self.numbers, run, &rarest)
    }

    /// Raises the flags of the positions at which the numbers of a run are next to each other, in order. Takes no
    /// memory. Cost: that of `has_run`, and a step for each flag that is raised.
    pub(crate) fn mark_run(&self, run: &[u32], flags: &mut FieldFlags)
        requires { 0 < length run.now }
        ensures long { length flags.new ≡ length flags.old }
        ensures raised { AreRaised flags.old flags.new (λ k. is_covered_from run.now k 0 self.now) }
    {
        let rarest = self.rarest(run);
        if is_often(rarest.spots.len(), run.len(), self.numbers.len()) {
            return Repeats::of(run).mark(&self.numbers, flags);
        }
        mark_about(&self.numbers, run, &rarest, flags);
    }
}
