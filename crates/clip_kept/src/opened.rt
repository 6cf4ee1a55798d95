//! Where a run goes on from.
ghost use Rattle.std.specs.Prelude.{IfOk};
ghost use Rattle.clip_kept.specs.Opened.{IsOpened};

use clip_journal::{Contents, Journal, OpenFault, Store, open};
use std::alloc::Global;

/// A journal that takes more, and what was found in its store.
#[derive(Drop)]
pub struct Opened<S: Store> {
    /// The journal.
    pub journal: Journal<S>,
    /// What it kept as it was opened.
    pub found: Contents,
}

/// Opens a store's journal. What stood torn at the store's end is cut off, and given in `found`.
///
/// The cost and the errors are those of `open` of `clip_journal`.
pub fn open_kept<S: Store + Drop>(alloc: Global, mut store: S) -> Result<Opened<S>, OpenFault>
    ensures { IfOk result (λ opened. IsOpened S.seen S.may_leave (S.seen store) opened) }
{
    let found = open(alloc, &mut store)?;
    let journal = Journal::over(store, &found);
    Ok(Opened { journal, found })
}
