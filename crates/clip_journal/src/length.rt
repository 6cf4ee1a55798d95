//! When a journal is long.
ghost use Rattle.std.specs.Prelude.{◌≡◌};
ghost use Rattle.clip_journal.specs.Length.{are_long};

/// A journal of no more commands since it was written anew is left as it is.
pub(crate) const FEW_COMMANDS: u64 = 1_000;

/// Whether a journal is long that has so many commands since it was written anew, with so many queries live then: over
/// 1,000, and more than twice as many.
pub(crate) fn are_long(live: u64, since: u64) -> bool
    ensures { result ≡ are_long live since }
{
    since > FEW_COMMANDS && (since - 1) / 2 >= live
}
