//! What a run did, and that each input has one outcome.
ghost use Rattle.std.specs.Prelude.{◌≡◌, List, ℕ};
ghost use Rattle.clip_listen.specs.Heard.{Hearer};
ghost use Rattle.clip_front.specs.Outcome.{Outcome, IsOutcome};

use clip_ledger::Ledger;

/// What a run did.
#[derive(Debug, Drop)]
pub struct Ended {
    /// How many lines the input had, blank ones among them.
    pub lines: u64,
    /// A row for each alert, in the order of lines, articles and ids, where rows are kept.
    pub ledger: Ledger,
}

/// Each input has exactly one outcome, so there is one for a run to give, and it gives no other.
pub fn one_outcome()
    ensures some { (hearers : List Hearer) (input : List ℕ) → (outcome : Outcome) × IsOutcome hearers input outcome }
    ensures one { (hearers : List Hearer) (input : List ℕ) (outcome other : Outcome)
        → IsOutcome hearers input outcome → IsOutcome hearers input other → outcome ≡ other }
{}
