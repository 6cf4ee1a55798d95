//! Why a run that keeps its changes ends early.
ghost use Rattle.std.specs.Prelude.{◌≡◌};
ghost use Rattle.clip_kept.specs.Whose.{whose};

use clip_front::Ended;
use clip_journal::JournalFault;
use clip_stream::RunFault;
use thiserror::Error;

/// Why a run that keeps its changes ended before its input did.
#[derive(Clone, Copy, Debug, PartialEq, Eq, Error)]
pub enum KeptFault {
    /// An allocation failed.
    #[error("no memory")]
    NoMemory,
    /// A read failed, or 1,099,511,627,776 reads met no end.
    #[error("read fault")]
    Read,
    /// A write or a flush failed, or a write took nothing.
    #[error("write fault")]
    Write,
    /// The journal did not take a change.
    #[error("journal fault: {0}")]
    Journal(JournalFault),
}

/// Whose fault it was that a run ended early, of which a journal tells whether it failed.
pub(crate) fn fault_of(
    answer: Result<Ended, RunFault>,
    fault: Option<JournalFault>,
) -> Result<Ended, KeptFault>
    ensures { result ≡ whose answer fault }
{
    match answer {
        Ok(ended) => Ok(ended),
        Err(RunFault::NoMemory) => Err(KeptFault::NoMemory),
        Err(RunFault::Write) => Err(KeptFault::Write),
        Err(RunFault::Read) => match fault {
            Some(why) => Err(KeptFault::Journal(why)),
            None => Err(KeptFault::Read),
        },
    }
}
