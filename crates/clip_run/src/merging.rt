//! When segments are merged: after each change that was accepted.
ghost use Rattle.std.specs.Prelude.{◌≡◌};

/// What has segments merged, by merge turns of its own or by a thread that takes them.
pub(crate) trait Merging {
    /// From the first state to the second by having segments merged, and by nothing else.
    ghost merges: { Self → Self → Type 0 };

    /// Has segments merged where there are some to merge, until there are none or a turn is refused memory.
    fn have_merged(&mut self)
        ensures { merges self.old self.new };
}

/// The answer of a change that was accepted, after which segments are merged.
pub(crate) fn merged_after<T, M: Merging>(answer: T, merging: &mut M) -> T
    ensures answer { result ≡ answer }
    ensures merged { M.merges merging.old merging.new }
{
    merging.have_merged();
    answer
}
