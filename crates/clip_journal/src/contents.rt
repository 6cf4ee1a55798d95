//! What a journal keeps, read back from its bytes.
ghost use Rattle.std.specs.Prelude.{◌≡◌, ◌<◌, ◌+◌, ◌^◌, ◌++◌, length, drop};
ghost use Rattle.clip_journal.specs.Entries.{link_behind, first_link};
ghost use Rattle.clip_journal.specs.Kept.{kept_in, said_by, says};

use crate::entry::Link;
use crate::length::are_long;

/// What a journal keeps, and what stands torn behind it.
#[derive(Drop)]
pub struct Contents {
    pub(crate) changes: u64,
    pub(crate) live: usize,
    pub(crate) said: Vec<Vec<u8>>,
    pub(crate) link: Link,
    pub(crate) torn: Vec<u8>,
    ghost within: { live < length said.items },
    ghost counted: { changes + length (drop (1 + live) (says said.items)) < 2 ^ 63 },
    ghost whole: { says said.items ≡ said_by (kept_in changes live (says said.items)) },
    ghost linked: { link ≡ link_behind first_link 0 (says said.items) },
}

impl Contents {
    ghost use Rattle.clip_journal.specs.Contents.{kept_of, torn_of};
    ghost use Rattle.clip_journal.specs.Length.{is_long};

    /// How many commands were accepted before the journal was written anew. Constant time.
    pub fn changes(&self) -> u64
        ensures { result ≡ (kept_of self.now).changes }
    {
        self.changes
    }

    /// The spellings of the queries that were live then. Constant time.
    pub fn live(&self) -> &[Vec<u8>]
        ensures { says result.now ≡ (kept_of self.now).live }
    {
        &self.said[1..1 + self.live]
    }

    /// The spellings of the commands that were accepted since, in order. Constant time.
    pub fn since(&self) -> &[Vec<u8>]
        ensures { says result.now ≡ (kept_of self.now).since }
    {
        &self.said[1 + self.live..]
    }

    /// The spellings of all that it keeps, in order: of the queries that were live then, and of the commands since. Its
    /// cost is their number.
    pub fn into_lines(self) -> Vec<Vec<u8>>
        ensures { says result.items ≡ (kept_of self).live ++ (kept_of self).since }
    {
        let Contents { mut said, .. } = self;
        let _opening = said.remove(0);
        said
    }

    /// Whether it is long: it has over 1,000 commands since it was written anew, and more than twice as many as there
    /// were queries then. Constant time.
    pub fn is_long(&self) -> bool
        ensures { result ≡ is_long (kept_of self.now) }
    {
        are_long(self.live().len() as u64, self.since().len() as u64)
    }

    /// What a stop tore at the end: less than an entry, and nothing where it tore none. Constant time.
    pub fn torn(&self) -> &[u8]
        ensures { result.now ≡ torn_of self.now }
    {
        &self.torn
    }
}
