//! What a store of bytes is kept in, of which no contract says anything.

use std::alloc::Global;

/// A call of a backing failed.
#[derive(Clone, Copy, Debug, PartialEq, Eq)]
pub struct Failed;

/// What keeps the bytes, as a file does. No clause says what it does: that it does as it answers, and keeps what it
/// synced, is trusted.
pub trait Backing {
    /// Adds bytes behind those that are there, to be written by the next sync or before. After `Failed` any front of
    /// them may be there.
    fn append(&mut self, bytes: &[u8]) -> Result<(), Failed>;

    /// From then on a stop leaves all that is there.
    fn sync(&mut self) -> Result<(), Failed>;

    /// All bytes that are there, by a read of their own.
    fn read(&self, alloc: Global) -> Result<Vec<u8>, Failed>;

    /// Writes other bytes beside those that are there, synced. After `Failed` those that are there are as they were.
    fn put_beside(&mut self, bytes: &[u8]) -> Result<(), Failed>;

    /// Puts the bytes that were last written beside in the place of those that are there, at once and synced.
    fn put_in_place(&mut self) -> Result<(), Failed>;
}
