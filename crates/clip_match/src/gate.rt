//! Gates, which hear of the pieces of a batch.

/// Hears when the matching of a piece of a batch begins and when it ends. It changes no answer.
pub trait Gate: Sync {
    /// The matching of this piece of this batch is about to begin.
    fn enter(&self, batch: u64, piece: u32);

    /// The matching of this piece of this batch has ended, also where it was refused memory.
    fn leave(&self, batch: u64, piece: u32);

    /// Whether `enter` may hold a piece until another has come. Where it may not, pieces that could be matched at the
    /// same time may be matched one after the other, where that is no slower.
    fn may_hold(&self) -> bool {
        true
    }
}

/// A gate that does nothing.
#[derive(Clone, Copy, Debug)]
pub struct OpenGate;

impl Gate for OpenGate {
    fn enter(&self, _batch: u64, _piece: u32) {}

    fn leave(&self, _batch: u64, _piece: u32) {}

    fn may_hold(&self) -> bool {
        false
    }
}
