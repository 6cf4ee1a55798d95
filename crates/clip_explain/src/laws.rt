//! What is sure of queries, for the crates above.
ghost use Rattle.clip_explain.specs.Certain.{NeverHolds, AlwaysHolds};
ghost use Rattle.clip_explain.specs.Explaining.{TriedOnAll};

/// A query of which `is_never` is true holds of no article. Costs nothing.
pub fn never_law()
    ensures { NeverHolds }
{}

/// A query of which `is_always` is true holds of every article. Costs nothing.
pub fn always_law()
    ensures { AlwaysHolds }
{}

/// A query that is told as tried on all has a key in common with each article. Costs nothing.
pub fn tried_on_all_law()
    ensures { TriedOnAll }
{}
