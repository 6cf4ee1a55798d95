//! Why a call was refused.
ghost use Rattle.std.specs.Prelude.{◌≡◌};

use clip_words::NoMemory;
use thiserror::Error;

/// Why a desk's call was refused. It changed nothing that others see.
#[derive(Clone, Copy, Debug, PartialEq, Eq, Error)]
pub enum Refused {
    /// The seat is of a desk with another tag.
    #[error("the seat is of another desk")]
    Foreign,
    /// More than `MOST_LIVE` queries would be registered, or more than `MOST_ENTRIES` commands accepted.
    #[error("the registry is full")]
    Full,
    /// An allocation failed.
    #[error("no memory")]
    NoMemory,
}

impl From<NoMemory> for Refused {
    ghost use Rattle.clip_desk.specs.declared.refused.Refused.TheVariants as refused;

    ghost from_gives = { λ _ r. r ≡ refused.NoMemory };

    fn from(_error: NoMemory) -> Refused {
        Refused::NoMemory
    }
}

/// Why no parts of a desk were made.
#[derive(Clone, Copy, Debug, PartialEq, Eq, Error)]
pub enum NewRefused {
    /// A desk has at most `MOST_CALLERS` callers.
    #[error("too many callers")]
    TooMany,
    /// An allocation failed.
    #[error("no memory")]
    NoMemory,
}
