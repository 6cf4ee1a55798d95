//! Why a text is no query.
ghost use Rattle.std.specs.Prelude.{◌≡◌};

use clip_words::NoMemory;
use std::alloc::AllocError;
use thiserror::Error;

/// Why a text is no query. The refusals are tried in the order in which they stand here.
#[derive(Clone, Copy, Debug, PartialEq, Eq, Error)]
pub enum QueryFault {
    /// The text has more than `MOST_TEXT_BYTES` bytes.
    #[error("the query is too long")]
    TooLong,
    /// The text is not spelled by lexemes. The payload is the greatest number of its first bytes that are.
    #[error("no lexeme begins at byte {0}")]
    Lexical(usize),
    /// The text uses a form that is left out: `&&` or `||` in a longer word, a wild card other than one last star, a
    /// star alone, `~`, `^` or `/`.
    #[error("a form that is left out")]
    LeftOut,
    /// The lexemes are not clauses.
    #[error("the lexemes are no query")]
    Structure,
    /// An item has no words.
    #[error("no words")]
    NoWords,
    /// The tree has more than `MOST_NODES` nodes, or more than `MOST_OPEN` parentheses are open at once.
    #[error("the query is too big")]
    TooBig,
    /// An allocation failed. This says nothing of the text.
    #[error("no memory")]
    NoMemory,
}

impl From<NoMemory> for QueryFault {
    ghost use Rattle.clip_grammar.specs.declared.fault.QueryFault.TheVariants as faults;

    ghost from_gives = { λ _ fault. fault ≡ faults.NoMemory };

    fn from(_error: NoMemory) -> QueryFault {
        QueryFault::NoMemory
    }
}

impl From<AllocError> for QueryFault {
    ghost use Rattle.clip_grammar.specs.declared.fault.QueryFault.TheVariants as faults;

    ghost from_gives = { λ _ fault. fault ≡ faults.NoMemory };

    fn from(_error: AllocError) -> QueryFault {
        QueryFault::NoMemory
    }
}
