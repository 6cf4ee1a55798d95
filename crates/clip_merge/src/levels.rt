//! Levels of segments, and which neighbours are merged next.
ghost use Rattle.std.specs.Prelude.{◌≡◌, ℕ, ◌+◌, ◌≤◌, IfSome, None, length, map, true};
ghost use Rattle.std.specs.Arc.{arc_value};
ghost use Rattle.clip_merge.specs.Plan.{AreFew, IsLevel, IsOldestRise, IsOldestRun, IsRise, IsRun, IsTurn};

use clip_indexed::{Index, Segment};
use clip_model::RUN_LENGTH;
use std::sync::Arc;

/// The level of a length: how many divisions by `RUN_LENGTH`, rounding down, bring it below that.
fn level(len: usize) -> u32
    ensures { IsLevel len result }
{
    let mut level = 0;
    let mut rest = len;
    while rest >= RUN_LENGTH {
        rest /= RUN_LENGTH;
        level += 1;
    }
    level
}

/// Where the oldest run of four neighbouring segments of one level begins, and where it ends: the position past its
/// last segment. `None` where there is no such run. Takes no memory. Cost: a step for each segment, and for each of its
/// levels.
pub fn plan<I: Index>(segments: &[Arc<Segment<I>>]) -> Option<(usize, usize)>
    ensures run { IfSome result (λ at. IsOldestRun (map arc_value segments.now) at.0 × (at.1 ≡ at.0 + RUN_LENGTH)) }
    ensures none { result ≡ None → (first : ℕ) → IsRun (map arc_value segments.now) first → ⊥ }
{
    // The level of the last segment, and how many neighbours up to it have that level.
    let (mut last, mut count) = (0, 0);
    for (at, segment) in segments.iter().enumerate() {
        let here = level(segment.len());
        count = if here == last { count + 1 } else { 1 };
        if count == RUN_LENGTH {
            return Some((at + 1 - count, at + 1));
        }
        last = here;
    }
    None
}

/// Where the oldest segment stands behind which one has a higher level, or `None` where levels stay or fall.
fn oldest_rise<I: Index>(segments: &[Arc<Segment<I>>]) -> Option<usize>
    ensures rise { IfSome result (IsOldestRise (map arc_value segments.now)) }
    ensures none { result ≡ None → (first : ℕ) → IsRise (map arc_value segments.now) first → ⊥ }
{
    // The highest level of the segments behind.
    let mut highest = 0;
    let mut oldest = None;
    for at in (0..segments.len()).rev() {
        let here = level(segments[at].len());
        if here < highest {
            oldest = Some(at);
        } else {
            highest = here;
        }
    }
    oldest
}

/// Which neighbours a merge turn makes one: the place of the first, and that past the last. Where `to_one`, they are
/// all segments; else those of `plan`, or, where it finds none, all segments from the oldest on behind which one has a
/// higher level. `None` where there are no two such neighbours; then segments are few: three at most for each level up
/// to that of all their entries together, and where `to_one` at most one. Takes no memory. Cost: a step for each
/// segment, and for each of its levels.
pub fn plan_turn<I: Index>(segments: &[Arc<Segment<I>>], to_one: bool) -> Option<(usize, usize)>
    ensures turn { IfSome result (λ at. IsTurn to_one (map arc_value segments.now) at.0 at.1) }
    ensures no_run { result ≡ None → (first : ℕ) → IsRun (map arc_value segments.now) first → ⊥ }
    ensures no_rise { result ≡ None → (first : ℕ) → IsRise (map arc_value segments.now) first → ⊥ }
    ensures few { result ≡ None → AreFew (map arc_value segments.now) }
    ensures one { result ≡ None → to_one ≡ true → length segments.now ≤ 1 }
{
    if to_one && segments.len() > 1 {
        return Some((0, segments.len()));
    }
    match plan(segments) {
        Some(run) => Some(run),
        None => match oldest_rise(segments) {
            Some(first) => Some((first, segments.len())),
            None => None,
        },
    }
}

#[cfg(test)]
mod tests {
    use super::level;

    /// Each a length and its level.
    static LEVELS: [(usize, u32); 6] = [(0, 0), (3, 0), (4, 1), (15, 1), (16, 2), (63, 2)];

    #[test]
    fn levels_change_at_powers_of_4(rt: HostRuntime) {
        for (len, wanted) in &LEVELS {
            assert!(rt; level(*len) == *wanted);
        }
    }
}
