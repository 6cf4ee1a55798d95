//! The front of a text: one word in ASCII, or a piece whose words are looked for by all the rules.
ghost use Rattle.std.specs.Prelude.{◌≡◌, ◌+◌, ◌<◌, ◌≤◌, ◌++◌, true, length, take};
ghost use Rattle.std.specs.Char.{is_ascii_alphanumeric};
ghost use Rattle.std.specs.List.{list_all};
ghost use Rattle.unicode_segmentation.specs.Word.{words};
ghost use Rattle.clip_words.specs.Steps.Fronts.{is_word_mark, is_separator, ends_word, IsSeam};
ghost use Rattle.clip_words.specs.Steps.Fronts.{front_words, has_letters, IsInside, IsRest};

/// The front of a text. Its words and those of the rest are the words of the text.
pub(crate) enum FrontPart<'a> {
    /// One word, of ASCII letters and digits alone, and at which byte of the whole text it begins.
    Word(&'a str, usize),
    /// Any text.
    Text(&'a str),
}

/// Whether a character of ASCII may stand within a word, between letters or between digits.
fn is_word_mark(byte: u8) -> bool
    ensures { result ≡ is_word_mark byte }
{
    matches!(byte, b'.' | b'\'' | b':' | b',' | b';')
}

/// Whether a byte is an ASCII letter or digit. Letters are looked for first, since most are.
fn is_letter(byte: u8) -> bool
    ensures { result ≡ is_ascii_alphanumeric byte }
{
    byte.is_ascii_alphabetic() || byte.is_ascii_digit()
}

/// Whether a character of ASCII stands between words, and never within one. A space is looked for first, since most
/// are one.
fn is_separator(byte: u8) -> bool
    ensures { result ≡ is_separator byte }
{
    byte == b' ' || byte < 128 && !(is_letter(byte) || is_word_mark(byte) || byte == b'_')
}

/// How many separators a text begins with.
fn separators(bytes: &[u8]) -> usize
    ensures within { result ≤ length bytes.now }
    ensures all { list_all is_separator (take result bytes.now) ≡ true }
{
    for (at, byte) in bytes.iter().enumerate() {
        if !is_separator(*byte) {
            return at;
        }
    }
    bytes.len()
}

/// How many ASCII letters and digits a text begins with.
fn letters(bytes: &[u8]) -> usize
    ensures within { result ≤ length bytes.now }
    ensures all { list_all is_ascii_alphanumeric (take result bytes.now) ≡ true }
{
    for (at, byte) in bytes.iter().enumerate() {
        if !is_letter(*byte) {
            return at;
        }
    }
    bytes.len()
}

/// Whether a word may end before a text.
fn ends_word(bytes: &[u8]) -> bool
    ensures { result ≡ ends_word bytes.now }
{
    match bytes.first() {
        Some(byte) => is_separator(*byte),
        None => true,
    }
}

/// Past a place, where a separator stands and then another ASCII character; the end of the text, where that is nowhere.
fn seam_past(bytes: &[u8], from: usize) -> usize
    requires { from ≤ length bytes.now }
    ensures within { result ≤ length bytes.now }
    ensures some { 0 < length bytes.now → 0 < result }
    ensures seam { result < length bytes.now → IsSeam bytes.now result }
{
    for at in from + 1..bytes.len() {
        if is_separator(bytes[at - 1]) && bytes[at] < 128 && !is_separator(bytes[at]) {
            return at;
        }
    }
    bytes.len()
}

/// Cuts the front off a text.
#[inline(always)]
pub(crate) fn split_front(text: &str) -> (FrontPart<'_>, &str)
    requires { 0 < length text.now }
    ensures words { words text.now ≡ front_words result.0 ++ words result.1.now }
    ensures letters { has_letters result.0 ≡ true }
    ensures inside { IsInside text.now result.0 }
    ensures shorter { length result.1.now < length text.now }
    ensures rest { IsRest text.now result.1.now }
{
    let bytes = text.as_bytes();
    let start = separators(bytes);
    let end = start + letters(&bytes[start..]);
    if start < end && ends_word(&bytes[end..]) {
        return (FrontPart::Word(&text[start..end], start), &text[end..]);
    }
    if start < end && is_word_mark(bytes[end]) && ends_word(&bytes[end + 1..]) {
        return (FrontPart::Word(&text[start..end], start), &text[end + 1..]);
    }
    let seam = seam_past(bytes, end);
    (FrontPart::Text(&text[..seam]), &text[seam..])
}
