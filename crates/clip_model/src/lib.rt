//! What the registry and the layers above it speak of: standing queries, histories of commands, what they replay to,
//! and the alerts that are due to an article. Limits, definitions and laws alone.
#![tactic(auto)]

ghost use Rattle.clip_model.specs.Laws.{ReplaysOn, FrontsAreLegal, GoesOn, ListedAreCounted, RegisteredAreListed};
ghost use Rattle.clip_model.specs.Laws.{SeqsAreListed, DeadStaysDead};

mod limits;
mod shards;
mod tenants;

pub use limits::{MOST_ARTICLES, MOST_CALLERS, MOST_ENTRIES, MOST_LISTED, MOST_LIVE, RUN_LENGTH};
pub use shards::law_of_shards;
pub use tenants::private_alerts;

/// What holds of histories.
pub fn laws_of_histories()
    ensures replays_on { ReplaysOn }
    ensures fronts_are_legal { FrontsAreLegal }
    ensures goes_on { GoesOn }
    ensures listed_are_counted { ListedAreCounted }
    ensures registered_are_listed { RegisteredAreListed }
    ensures seqs_are_listed { SeqsAreListed }
    ensures dead_stays_dead { DeadStaysDead }
{}
