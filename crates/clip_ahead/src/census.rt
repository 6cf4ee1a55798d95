//! About how many queries changes have registered.
use clip_protocol::Listing;
use std::alloc::Global;
use std::collections::HashSet;

/// The hash of no bytes.
const NO_BYTES: u64 = 0xcbf2_9ce4_8422_2325;

/// By which a hash is multiplied for each byte.
const FACTOR: u64 = 0x0100_0000_01b3;

/// The hashes of the ids that changes registered and that none deleted since, or about those.
#[derive(Drop)]
pub(crate) struct Census {
    ids: HashSet<u64>,
    is_lost: bool,
}

/// The hash of an id.
fn hash_of(id: &str) -> u64 {
    let mut hash = NO_BYTES;
    for byte in id.as_bytes() {
        hash = (hash ^ *byte as u64).wrapping_mul(FACTOR);
    }
    hash
}

impl Census {
    /// Of no changes. Takes no memory.
    pub(crate) fn new(alloc: Global) -> Census {
        Census {
            ids: HashSet::new(alloc),
            is_lost: false,
        }
    }

    /// Counts queries that are registered.
    pub(crate) fn register(&mut self, listings: &[Listing]) {
        for listing in listings {
            if self.ids.insert(hash_of(listing.id.as_str())).is_err() {
                self.is_lost = true;
            }
        }
    }

    /// Counts queries that are deleted.
    pub(crate) fn delete(&mut self, ids: &[String]) {
        for id in ids {
            let _there = self.ids.remove(&hash_of(id.as_str()));
        }
    }

    /// Forgets all changes.
    pub(crate) fn clear(&mut self) {
        self.ids.clear();
        self.is_lost = false;
    }

    /// How many queries changes registered and did not delete since, or about so many; `None` where there was no memory
    /// to tell.
    pub(crate) fn count(&self) -> Option<u64> {
        if self.is_lost {
            return None;
        }
        Some(self.ids.len() as u64)
    }
}
