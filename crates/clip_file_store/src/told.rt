//! What became of the calls of a backing.

/// What became of a call of a backing.
#[derive(Clone, Copy, Debug, PartialEq, Eq)]
pub enum Told {
    /// It added all of the bytes.
    Added,
    /// It failed while it added them: any front of them may be there.
    CutOff,
    /// It synced what is there.
    Synced,
    /// It put the bytes in the place of all that was there, synced.
    Put,
    /// It failed while it did so: they may be there or not.
    Tried,
    /// It failed, and changed nothing that a stop may leave.
    Failed,
}
