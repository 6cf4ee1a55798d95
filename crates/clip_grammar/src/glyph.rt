//! The characters of a word, as the grammar tells them apart.

/// A character of a word, a quoted text or an end of a range, and whether it stands after a backslash.
#[derive(Clone, Copy)]
pub enum Glyph {
    /// As it stands: a star or a question mark is a wild card.
    Bare(char),
    /// After a backslash, or by its number: it is that character and no sign.
    Escaped(char),
}
