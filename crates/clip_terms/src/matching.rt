//! Runs of numbers beside the numbers of words.
ghost use Rattle.std.specs.Prelude.{◌≡◌, drop};
ghost use Rattle.clip_terms.specs.Steps.Runs.{is_number, begins_with};
ghost use Rattle.clip_terms.specs.Steps.FieldNumbers.{begins_before};

use crate::field_numbers::Spot;

/// Whether a place has this number.
pub(crate) fn is_number(found: Option<u32>, number: u32) -> bool
    ensures { result ≡ is_number found number }
{
    match found {
        Some(found) => found == number,
        None => false,
    }
}

/// The numbers from a position on, none where it is past the end.
fn numbers_from(numbers: &[Option<u32>], position: usize) -> &[Option<u32>]
    ensures { result.now ≡ drop position numbers.now }
{
    if position < numbers.len() {
        &numbers[position..]
    } else {
        &[]
    }
}

/// Whether the numbers begin with those of a run.
fn starts_with(numbers: &[Option<u32>], run: &[u32]) -> bool
    ensures { result ≡ begins_with run.now numbers.now }
{
    let mut numbers = numbers;
    let mut run = run;
    while let Some((next, others)) = run.split_first() {
        let Some((number, after)) = numbers.split_first() else {
            return false;
        };
        if !is_number(*number, *next) {
            return false;
        }
        numbers = after;
        run = others;
    }
    true
}

/// Whether a run occurs where its number of this place is at a spot.
pub(crate) fn stands_about(numbers: &[Option<u32>], run: &[u32], place: usize, spot: &Spot) -> bool
    ensures { result ≡ begins_before run.now numbers.now place spot.now }
{
    let position = spot.position();
    place <= position && starts_with(numbers_from(numbers, position - place), run)
}
