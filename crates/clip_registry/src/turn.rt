//! Merge turns, by which a registry that grows line by line keeps few segments.
ghost use Rattle.std.specs.Prelude.{◌≡◌, ◌≢◌, ◌≤◌, ℕ, Ok, OnOk, length, true};
ghost use Rattle.clip_merge.specs.Plan.{AreFew, IsRun};
ghost use Rattle.clip_registry.specs.Steps.Turns.{HasMerged, TakesTurns};

use crate::merging::{Installed, MergeTurn};
use crate::registrar::Registrar;
use clip_indexed::Index;
use clip_words::NoMemory;

/// Merges all segments where they are to become one; else the oldest four neighbouring segments of one level, or, where
/// there are no such four, all from the oldest on behind which one has a higher level. What is registered stays as it
/// is. `Nothing` where there are no two such segments; then segments are few: three at most for each level up to that
/// of all their entries together, and at most one where they are to become one. It is never `Stale`. `NoMemory` where
/// an allocation failed, with nothing changed; a later turn may merge them.
///
/// Cost: that of `Registrar::begin_turn`, and where there are segments to merge that of `MergeJob::run` and of
/// `Registrar::install`.
pub fn merge_turn<I: Index>(
    registrar: &mut Registrar<I>,
    to_one: bool,
) -> Result<MergeTurn, NoMemory>
    ensures nothing { result ≡ Ok MergeTurn.Nothing → (first : ℕ) → IsRun registrar.old.segments first → ⊥ }
    ensures few { result ≡ Ok MergeTurn.Nothing → AreFew registrar.old.segments }
    ensures one { result ≡ Ok MergeTurn.Nothing → to_one ≡ true → length registrar.old.segments ≤ 1 }
    ensures installed { result ≡ Ok MergeTurn.Installed → HasMerged to_one registrar.old registrar.new }
    ensures never_stale { result ≢ Ok MergeTurn.Stale }
    ensures unchanged { (result ≡ Ok MergeTurn.Installed → ⊥) → registrar.new ≡ registrar.old }
    ensures history { registrar.new.history ≡ registrar.old.history }
{
    let job = match registrar.begin_turn(to_one)? {
        Some(job) => job,
        None => return Ok(MergeTurn::Nothing),
    };
    let merged = job.run()?;
    match registrar.install(merged)? {
        Installed::Done => Ok(MergeTurn::Installed),
        Installed::Stale => Ok(MergeTurn::Stale),
    }
}

/// Takes merge turns, to one segment or not, until there is nothing to merge; then segments are few: three at most for
/// each level up to that of all their entries together, and at most one where they are to become one. What is
/// registered stays as it is. `NoMemory` where an allocation failed; the turns before stay taken, and a later call may
/// take the others.
///
/// Cost: that of `merge_turn` for each turn, each of which leaves fewer segments. Where no turn is to one, each call
/// finds one segment more than the one before left, and no entry dies, an entry is rewritten at most once for each
/// level that it rises, and once more.
pub fn merge_all<I: Index>(registrar: &mut Registrar<I>, to_one: bool) -> Result<(), NoMemory>
    ensures turns { TakesTurns to_one registrar.old registrar.new }
    ensures few { OnOk result (AreFew registrar.new.segments) }
    ensures one { OnOk result (to_one ≡ true → length registrar.new.segments ≤ 1) }
    ensures history { registrar.new.history ≡ registrar.old.history }
{
    loop {
        match merge_turn(registrar, to_one)? {
            MergeTurn::Installed => {}
            MergeTurn::Nothing | MergeTurn::Stale => return Ok(()),
        }
    }
}
