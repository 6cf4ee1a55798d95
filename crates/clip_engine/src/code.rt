//! What a call comes to, as a number. `include/pressclip.h` has the same.
ghost use Rattle.std.specs.Prelude.{◌≡◌};
ghost use Rattle.clip_engine.specs.Code.{number_of, number_of_line};

use crate::engine::LineFault;
use clip_protocol::{Refusal, Unread};

/// All went well.
pub const OK: u32 = 0;

/// An id, a field or a list is beyond its limit.
pub const LIMIT: u32 = 1;

/// The text is no query.
pub const QUERY: u32 = 2;

/// The listener is not here.
pub const LISTENER: u32 = 3;

/// The registry has no room.
pub const FULL: u32 = 4;

/// An allocation failed.
pub const NO_MEMORY: u32 = 5;

/// A text is not UTF-8.
pub const UTF8: u32 = 6;

/// A line has a line feed.
pub const FEED: u32 = 7;

/// The count of lines is at its end.
pub const LINES: u32 = 8;

/// The ids of a part are out of order. The numbers between are those of calls that hand nothing on.
pub const ORDER: u32 = 12;

/// The number of a refusal. A line's own refusals stand in its reply, and no call answers them.
pub fn code_of(why: Unread) -> u32
    ensures some { result ≡ 0 → ⊥ }
    ensures is { result ≡ number_of why }
{
    match why {
        Unread::Refused(Refusal::Query) => QUERY,
        Unread::Refused(Refusal::Listener) => LISTENER,
        Unread::Refused(Refusal::Full) => FULL,
        Unread::Refused(_) => LIMIT,
        Unread::NoMemory => NO_MEMORY,
    }
}

/// The number of a line's fault.
pub fn code_of_line(why: LineFault) -> u32
    ensures some { result ≡ 0 → ⊥ }
    ensures is { result ≡ number_of_line why }
{
    match why {
        LineFault::Feed => FEED,
        LineFault::TooMany => LINES,
        LineFault::NoMemory => NO_MEMORY,
    }
}
