//! Why a journal did not do what it was asked.
ghost use Rattle.std.specs.Prelude.{◌≡◌};
ghost use Rattle.clip_journal.specs.declared.journal_fault.JournalFault.TheVariants as faults;
ghost use Rattle.clip_journal.specs.declared.journal_fault.OpenFault.TheVariants as opening;

use crate::fault::ReadFault;
use crate::store::StoreFault;
use std::alloc::{AllocError, AllocFailed};
use thiserror::Error;

/// Why a journal did not take more.
#[derive(Clone, Copy, Debug, PartialEq, Eq, Error)]
pub enum JournalFault {
    /// The store failed at an earlier call: what it has is known only once it is opened again.
    #[error("the journal takes nothing more")]
    Ended,
    /// 2^63 - 1 commands were accepted, or as many entries stand there.
    #[error("the journal is full")]
    Full,
    /// The store failed. The journal takes nothing more.
    #[error("{0}")]
    Store(StoreFault),
    /// An allocation failed. Nothing was done.
    #[error("no memory")]
    NoMemory,
}

/// Why a store was not opened as a journal.
#[derive(Clone, Copy, Debug, PartialEq, Eq, Error)]
pub enum OpenFault {
    /// The store failed.
    #[error("{0}")]
    Store(StoreFault),
    /// What it has is not read back as a journal. Nothing was changed.
    #[error("{0}")]
    Read(ReadFault),
}

impl From<StoreFault> for JournalFault {
    ghost from_gives = { λ error fault. fault ≡ faults.Store error };

    fn from(error: StoreFault) -> JournalFault {
        JournalFault::Store(error)
    }
}

impl From<AllocError> for JournalFault {
    ghost from_gives = { λ _ fault. fault ≡ faults.NoMemory };

    fn from(_error: AllocError) -> JournalFault {
        JournalFault::NoMemory
    }
}

impl From<StoreFault> for OpenFault {
    ghost from_gives = { λ error fault. fault ≡ opening.Store error };

    fn from(error: StoreFault) -> OpenFault {
        OpenFault::Store(error)
    }
}

impl From<ReadFault> for OpenFault {
    ghost from_gives = { λ error fault. fault ≡ opening.Read error };

    fn from(error: ReadFault) -> OpenFault {
        OpenFault::Read(error)
    }
}
