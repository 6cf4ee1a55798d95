//! Lines that were kept, taken again.
ghost use Rattle.std.specs.Prelude.{◌≡◌, ℕ, List, [], map, OnOk};
ghost use Rattle.clip_model.specs.History.{History};
ghost use Rattle.clip_front.specs.Outcome.{Follows, names_in};

use crate::answer::take_line;
use crate::registry::Registry;
use clip_listen::Audience;
use clip_words::NoMemory;
use std::alloc::Global;

/// The number of a line that nobody is answered.
const UNANSWERED: u64 = 0;

/// Takes lines that were kept, one after the other, with nobody answered and no alert told: a change applies to the
/// registry, and a line that is refused, or asks for no change, leaves what is registered. Each line is let go once it
/// is taken.
///
/// `NoMemory` where an allocation failed; some first lines are taken then. Cost: that of `take_line` for each.
pub fn take_kept<A: Audience, H: Registry>(
    alloc: Global,
    registry: &mut H,
    audience: &A,
    lines: Vec<Vec<u8>>,
) -> Result<(), NoMemory>
    ensures { OnOk result (Follows (names_in (A.hearers audience.now)) (H.history_in registry.old)
        (map (λ line. line.items) lines.items) (H.history_in registry.new)) }
{
    for line in lines {
        let _taken = take_line(alloc, registry, audience, UNANSWERED, &line)?;
    }
    Ok(())
}

/// Kept lines lead to exactly one history, so there is one for a run to begin with, and it begins with no other.
pub fn one_beginning()
    ensures some { (names kept : List (List ℕ)) → (begins : History) × Follows names [] kept begins }
    ensures one { (names kept : List (List ℕ)) (begins other : History)
        → Follows names [] kept begins → Follows names [] kept other → begins ≡ other }
{}
