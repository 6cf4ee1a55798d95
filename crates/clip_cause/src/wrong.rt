//! What may be wrong at a place of a line.
ghost use Rattle.std.specs.Prelude.{◌≡◌};
ghost use Rattle.clip_cause.specs.Wrong.{refusal_of, sentence_of};

use clip_protocol::Refusal;

/// What is wrong at a place of a line: of the bytes that are no JSON value, of the shape of a value, and of what is
/// beyond a limit.
#[derive(Clone, Copy)]
pub enum Wrong {
    /// The bytes from here on are not UTF-8.
    NotUtf8,
    /// The bytes up to here, and the next one, begin no JSON value.
    NotJson,
    /// An object is to stand here.
    NotAnObject,
    /// A list is to stand here.
    NotAList,
    /// A string is to stand here.
    NotAString,
    /// The object lacks this member.
    Missing,
    /// The object may not have this member.
    Unknown,
    /// The string names no operation.
    NoOperation,
    /// The list has more than 1,024 queries.
    TooManyQueries,
    /// The list has more than 1,024 ids.
    TooManyIds,
    /// The list has more than 256 articles.
    TooManyArticles,
    /// The article has more than 16 fields.
    TooManyFields,
    /// The id is empty.
    EmptyId,
    /// The id has more than 256 bytes.
    LongId,
    /// The field's name is empty.
    EmptyName,
    /// The field's name has more than 64 bytes.
    LongName,
    /// The field's name has a byte that is no ASCII letter, digit or `_`.
    ByteOfName,
    /// The field's name begins with a digit.
    DigitFirst,
}

impl Wrong {
    /// The refusal of a line that has this wrong. Constant time.
    pub fn refusal(self) -> Refusal
        ensures { result ≡ refusal_of self }
    {
        match self {
            Wrong::NotUtf8 | Wrong::NotJson => Refusal::Json,
            Wrong::NotAnObject
            | Wrong::NotAList
            | Wrong::NotAString
            | Wrong::Missing
            | Wrong::Unknown
            | Wrong::NoOperation => Refusal::Shape,
            Wrong::TooManyQueries
            | Wrong::TooManyIds
            | Wrong::TooManyArticles
            | Wrong::TooManyFields
            | Wrong::EmptyId
            | Wrong::LongId
            | Wrong::EmptyName
            | Wrong::LongName
            | Wrong::ByteOfName
            | Wrong::DigitFirst => Refusal::Limit,
        }
    }

    /// A sentence that says it. Constant time.
    pub fn says(self) -> &'static str
        ensures { result.now ≡ sentence_of self }
    {
        match self {
            Wrong::NotUtf8 => "the bytes are not UTF-8",
            Wrong::NotJson => "no JSON value goes on like this",
            Wrong::NotAnObject => "this is no object",
            Wrong::NotAList => "this is no list",
            Wrong::NotAString => "this is no string",
            Wrong::Missing => "this member is missing",
            Wrong::Unknown => "no such member may stand here",
            Wrong::NoOperation => "there is no such operation",
            Wrong::TooManyQueries => "a line lists at most 1,024 queries",
            Wrong::TooManyIds => "a line lists at most 1,024 ids",
            Wrong::TooManyArticles => "a line lists at most 256 articles",
            Wrong::TooManyFields => "an article has at most 16 fields",
            Wrong::EmptyId => "an id has at least 1 byte",
            Wrong::LongId => "an id has at most 256 bytes",
            Wrong::EmptyName => "a field's name has at least 1 byte",
            Wrong::LongName => "a field's name has at most 64 bytes",
            Wrong::ByteOfName => "a field's name has only ASCII letters, digits and `_`",
            Wrong::DigitFirst => "a field's name begins with no digit",
        }
    }
}
