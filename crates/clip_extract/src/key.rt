//! Keys.
ghost use Rattle.std.specs.Prelude.{◌≡◌};
ghost use Rattle.clip_extract.specs.Keys.{key_of, rank, field_of, text_of};

use std::sync::ArcStr;

/// The most characters of a front that is a key.
pub const MOST_FRONT_CHARACTERS: usize = 8;

/// What a standing query is found by: `Any`, which every article has, a word of a field (field, word), or what a word
/// of a field begins with (field, front).
///
/// Ordered as written, then by field, then by word or front, by bytes. A clone shares the texts.
#[derive(Clone, Debug, PartialEq, Eq, PartialOrd, Ord, Hash, Drop)]
pub enum Key {
    /// What every article has.
    Any,
    /// A word of a field: the field, and the word.
    Word(ArcStr, ArcStr),
    /// The first characters of a word of a field, at most `MOST_FRONT_CHARACTERS`: the field, and these characters.
    Front(ArcStr, ArcStr),
}

impl Key {
    /// The rank of words among keys: `Any` is before them.
    pub const WORD_RANK: u8 = 1;

    /// The rank of fronts among keys: they are last.
    pub const FRONT_RANK: u8 = 2;

    /// The rank of the key, by which keys are ordered first. Takes no memory. Constant time.
    pub fn rank(&self) -> u8
        ensures { result ≡ rank (key_of self.now) }
    {
        match self {
            Key::Any => 0,
            Key::Word(_, _) => Key::WORD_RANK,
            Key::Front(_, _) => Key::FRONT_RANK,
        }
    }

    /// The field of the key; of `Any`, nothing. Takes no memory. Constant time.
    pub fn field(&self) -> &str
        ensures { result.now ≡ field_of (key_of self.now) }
    {
        match self {
            Key::Any => "",
            Key::Word(field, _) => field.as_str(),
            Key::Front(field, _) => field.as_str(),
        }
    }

    /// The word or the front of the key; of `Any`, nothing. Takes no memory. Constant time.
    pub fn text(&self) -> &str
        ensures { result.now ≡ text_of (key_of self.now) }
    {
        match self {
            Key::Any => "",
            Key::Word(_, word) => word.as_str(),
            Key::Front(_, front) => front.as_str(),
        }
    }
}
