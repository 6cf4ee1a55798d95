//! Why a line is refused.
ghost use Rattle.std.specs.Prelude.{◌≡◌};
ghost use Rattle.clip_protocol.specs.Refusal.{word_of};

use clip_words::NoMemory as OutOfMemory;
use std::alloc::{AllocError, AllocFailed};

/// Why a line is refused, in the order in which these are judged.
#[derive(Clone, Copy)]
pub enum Refusal {
    /// It has over 1,048,576 bytes.
    Long,
    /// `serde_json` reads no value from it.
    Json,
    /// The value is no request's: a member is missing, unknown or of another type.
    Shape,
    /// An id, a field's name or a list is beyond its limit.
    Limit,
    /// A listed query's text is refused.
    Query,
    /// A listed query's listener is not here.
    Listener,
    /// The registry has no room for the change.
    Full,
}

impl Refusal {
    /// The word by which a reply names it.
    pub fn word(self) -> &'static str
        ensures { result.now ≡ word_of self }
    {
        match self {
            Refusal::Long => "long",
            Refusal::Json => "json",
            Refusal::Shape => "shape",
            Refusal::Limit => "limit",
            Refusal::Query => "query",
            Refusal::Listener => "listener",
            Refusal::Full => "full",
        }
    }
}

/// Why no request, or no query of a list, was read.
#[derive(Clone, Copy)]
pub enum Unread {
    /// There is none to read.
    Refused(Refusal),
    /// An allocation failed.
    NoMemory,
}

/// No request has this shape.
pub const UNSHAPED: Unread = Unread::Refused(Refusal::Shape);

/// The request is beyond a limit.
pub const LIMITED: Unread = Unread::Refused(Refusal::Limit);

impl From<OutOfMemory> for Unread {
    ghost use Rattle.clip_protocol.specs.declared.refusal.Unread.TheVariants.{NoMemory};

    ghost from_gives = { λ _ e. e ≡ NoMemory };

    fn from(_error: OutOfMemory) -> Unread {
        Unread::NoMemory
    }
}

impl From<AllocError> for Unread {
    ghost use Rattle.clip_protocol.specs.declared.refusal.Unread.TheVariants.{NoMemory};

    ghost from_gives = { λ _ e. e ≡ NoMemory };

    fn from(_error: AllocError) -> Unread {
        Unread::NoMemory
    }
}

impl<T: Drop> From<AllocFailed<T>> for Unread {
    ghost use Rattle.clip_protocol.specs.declared.refusal.Unread.TheVariants.{NoMemory};

    ghost from_gives = { λ _ e. e ≡ NoMemory };

    fn from(_error: AllocFailed<T>) -> Unread {
        Unread::NoMemory
    }
}
