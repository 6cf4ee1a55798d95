//! Sets of seqs.
ghost use Rattle.std.specs.Prelude.{◌≡◌};
ghost use Rattle.clip_merge.specs.Live.{AreRising, names};

use std::marker::Model;

/// A set of seqs: those of the entries that are live.
#[derive(Debug, Drop)]
pub struct Live {
    seqs: Vec<u64>,
}

impl Model for Live {
    ghost use Rattle.std.specs.Prelude.{ℕ, List};
    ghost use Rattle.std.specs.Coded.{coded_list, coded_ℕ};

    ghost Value = { List ℕ };

    ghost coded = { coded_list coded_ℕ };

    ghost use Rattle.clip_merge.specs.Live.{AreRising};

    ghost view = { λ l. l.seqs.items };

    ghost invariant = { λ l. AreRising l.seqs.items };
}

impl Live {
    /// The set of these seqs, each above those before it. Takes no memory. Constant time.
    pub fn of(seqs: Vec<u64>) -> Live
        requires { AreRising seqs.items }
        ensures { result ≡ seqs.items }
    {
        Live { seqs }
    }

    /// Whether the seq is one of them. Takes no memory. Cost: a binary search.
    pub fn names(&self, seq: u64) -> bool
        ensures { result ≡ names self.now seq }
    {
        self.seqs.binary_search(&seq).is_ok()
    }
}
