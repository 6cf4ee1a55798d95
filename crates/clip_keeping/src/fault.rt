//! Why the program does not do what it was asked.
ghost use Rattle.std.specs.Prelude.{◌≡◌, ◌≤◌};
ghost use Rattle.clip_keeping.specs.Statuses.{fault_in_journal, fault_at_opening, fault_in_run, status_of};
ghost use Rattle.clip_keeping.specs.declared.fault.Fault.TheVariants as faults;

use clip_journal::{JournalFault, OpenFault, ReadFault, StoreFault};
use clip_kept::KeptFault;
use clip_words::NoMemory;
use std::alloc::{AllocError, AllocFailed};
use std::io::{self, ErrorKind};
use thiserror::Error;

/// Why the program does not do what it was asked.
#[derive(Clone, Copy, Debug, PartialEq, Eq, Error)]
pub enum Fault {
    /// An allocation failed.
    #[error("no memory")]
    NoMemory,
    /// The journal's file is no journal. Up to this byte whole entries stand.
    #[error("the journal is broken at byte {0}; nothing was changed")]
    Broken(usize),
    /// The folder has a journal of another form, which `service/keep` had.
    #[error("it has a journal of another form, which service/keep had; nothing was changed. Start \
         service/keep --journal FOLDER once, which takes it over")]
    Other,
    /// The journal's folder or its file can't be made, read or synced.
    #[error("the journal can't be opened")]
    Unopened,
    /// The journal took no more.
    #[error("the journal can't be written; what was answered is kept, and nothing was answered after it")]
    Unwritten,
    /// Standard input can't be read.
    #[error("standard input can't be read")]
    Unread,
    /// Another process has the journal.
    #[error("another process has the journal")]
    Locked,
    /// Standard output can't be written.
    #[error("nobody reads the replies")]
    Unheard,
}

impl Fault {
    /// The status with which the program ends.
    pub fn status(self) -> u8
        ensures status { result ≡ status_of self }
        ensures within { result ≤ 6 }
    {
        match self {
            Fault::NoMemory => 1,
            Fault::Broken(_) | Fault::Other => 3,
            Fault::Unopened | Fault::Unwritten | Fault::Unread => 4,
            Fault::Locked => 5,
            Fault::Unheard => 6,
        }
    }
}

/// Why a run ended early.
pub(crate) fn fault_of_run(fault: KeptFault) -> Fault
    ensures { result ≡ fault_in_run fault }
{
    match fault {
        KeptFault::NoMemory => Fault::NoMemory,
        KeptFault::Read => Fault::Unread,
        KeptFault::Write => Fault::Unheard,
        KeptFault::Journal(why) => Fault::from(why),
    }
}

impl From<JournalFault> for Fault {
    ghost from_gives = { λ error fault. fault ≡ fault_in_journal error };

    fn from(error: JournalFault) -> Fault {
        match error {
            JournalFault::NoMemory | JournalFault::Store(StoreFault::NoMemory) => Fault::NoMemory,
            JournalFault::Ended
            | JournalFault::Full
            | JournalFault::Store(StoreFault::Failed | StoreFault::Unwritten) => Fault::Unwritten,
        }
    }
}

impl From<OpenFault> for Fault {
    ghost from_gives = { λ error fault. fault ≡ fault_at_opening error };

    fn from(error: OpenFault) -> Fault {
        match error {
            OpenFault::Read(fault) => Fault::from(fault),
            OpenFault::Store(fault) => Fault::from(fault),
        }
    }
}

impl From<ReadFault> for Fault {
    ghost use Rattle.clip_keeping.specs.Statuses.{fault_of_bytes};

    ghost from_gives = { λ error fault. fault ≡ fault_of_bytes error };

    fn from(error: ReadFault) -> Fault {
        match error {
            ReadFault::Broken(place) => Fault::Broken(place),
            ReadFault::NoMemory => Fault::NoMemory,
        }
    }
}

impl From<StoreFault> for Fault {
    ghost use Rattle.clip_keeping.specs.Statuses.{fault_of_store};

    ghost from_gives = { λ error fault. fault ≡ fault_of_store error };

    fn from(error: StoreFault) -> Fault {
        match error {
            StoreFault::Failed | StoreFault::Unwritten => Fault::Unopened,
            StoreFault::NoMemory => Fault::NoMemory,
        }
    }
}

impl From<NoMemory> for Fault {
    ghost from_gives = { λ _ fault. fault ≡ faults.NoMemory };

    fn from(_refused: NoMemory) -> Fault {
        Fault::NoMemory
    }
}

impl From<AllocError> for Fault {
    ghost from_gives = { λ _ fault. fault ≡ faults.NoMemory };

    fn from(_refused: AllocError) -> Fault {
        Fault::NoMemory
    }
}

impl<T: Drop> From<AllocFailed<T>> for Fault {
    ghost from_gives = { λ _ fault. fault ≡ faults.NoMemory };

    fn from(_refused: AllocFailed<T>) -> Fault {
        Fault::NoMemory
    }
}

impl From<io::Error> for Fault {
    ghost use Rattle.std.specs.IoError.{error_kind};
    ghost use Rattle.clip_keeping.specs.Statuses.{fault_of_file};

    ghost from_gives = { λ error fault. fault ≡ fault_of_file (error_kind error) };

    fn from(error: io::Error) -> Fault {
        match error.kind() {
            ErrorKind::WouldBlock => Fault::Locked,
            ErrorKind::OutOfMemory => Fault::NoMemory,
            _ => Fault::Unopened,
        }
    }
}
