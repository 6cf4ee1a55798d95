//! Entries: standing queries that are registered.
ghost use Rattle.std.specs.Prelude.{◌≡◌};

use crate::standing::Standing;
use std::marker::Model;
use std::sync::Arc;

/// A standing query that is registered, with the number that it was given.
///
/// No call takes memory, and each takes constant time.
#[derive(Debug, Drop)]
pub struct Entry {
    seq: u64,
    standing: Arc<Standing>,
}

impl Model for Entry {
    ghost use Rattle.clip_model.specs.History.{Registered, registered_code};

    ghost Value = { Registered };

    ghost coded = { registered_code };

    ghost use Rattle.clip_standing.specs.Steps.EntryView.{registered_of};

    ghost view = { registered_of };
}

impl Entry {
    /// The entry of a standing query, which it shares, under the number `seq`.
    pub fn new(seq: u64, standing: Arc<Standing>) -> Entry
        ensures { result ≡ record { standing = standing.value; seq = seq } }
    {
        Entry { seq, standing }
    }

    /// Its number, by which registered queries are ordered.
    pub fn seq(&self) -> u64
        ensures { result ≡ self.now.seq }
    {
        self.seq
    }

    /// The standing query.
    pub fn standing(&self) -> &Arc<Standing>
        ensures { result.now.value ≡ self.now.standing }
    {
        &self.standing
    }
}
