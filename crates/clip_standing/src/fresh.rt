//! A reading that goes to the first who takes it.

use crate::reading::ReadQuery;
use counted_slot::{Counted, FREE, Fits, PRESENT, TAKEN};

/// A reading that nobody has taken.
#[derive(Drop)]
pub(crate) struct Fresh {
    pub(crate) reading: Box<ReadQuery>,
}

// All that is needed of it is what every reading keeps.
impl Fits for Fresh {
    type Tag = ();

    ghost fits = { λ _ _. Unit {0} };
}

/// A place for a reading, from which one who asks takes it. It has no lock: who comes while another takes it goes
/// without.
pub(crate) type FreshSlot = Counted<Option<Fresh>>;

/// A place that holds a reading.
pub(crate) fn slot_of(reading: Box<ReadQuery>) -> FreshSlot {
    Counted::new(Some(Fresh { reading }), &())
}

/// The reading of a place, for the first who asks; `None` for all others. Constant time.
pub(crate) fn take_from(slot: &FreshSlot) -> Option<Fresh> {
    let (found, claim) = slot.turn(FREE, TAKEN);
    if found != FREE {
        claim.done();
        return None;
    }
    claim.put(None, PRESENT)
}
