//! Sorts of characters.
ghost use Rattle.std.specs.Prelude.{◌≡◌};
ghost use Rattle.clip_remarks.specs.Texts.{is_comma, is_curly, is_apostrophe, is_prose, is_sign, is_capital, is_in};
ghost use Rattle.clip_remarks.specs.Texts.{has_char};

/// A sort of characters.
#[derive(Clone, Copy)]
pub enum Sort {
    /// A comma or a semicolon.
    Comma,
    /// A quote that is curly, low or an angle; `’` is none, since it is also an apostrophe.
    Curly,
    /// `'` or `’`.
    Apostrophe,
    /// A sign that prose doesn't have between words.
    Sign,
    /// Any but `A` to `Z`.
    NoCapital,
    /// `0` to `9`.
    Digit,
    /// `*`.
    Star,
}

/// Whether the character is a comma, a semicolon, or a comma of Chinese and Japanese.
fn is_comma(c: char) -> bool
    ensures { result ≡ is_comma c }
{
    matches!(c, ',' | ';' | '\u{3001}' | '\u{FF0C}')
}

/// Whether the character is a quote that makes no phrase.
fn is_curly(c: char) -> bool
    ensures { result ≡ is_curly c }
{
    matches!(
        c,
        '\u{2018}' | '\u{201A}'..='\u{201F}' | '\u{AB}' | '\u{BB}' | '\u{2039}' | '\u{203A}'
    )
}

/// Whether the character is an apostrophe, straight or curly.
fn is_apostrophe(c: char) -> bool
    ensures { result ≡ is_apostrophe c }
{
    matches!(c, '\'' | '\u{2019}')
}

/// Whether prose has the character between its words, or within one.
fn is_prose(c: char) -> bool
    ensures { result ≡ is_prose c }
{
    matches!(
        c,
        '\0'..=' '
            | '\''..=')'
            | '-'
            | '.'
            | ':'
            | '_'
            | '\u{A0}'
            | '\u{AD}'
            | '\u{B7}'
            | '\u{5F4}'
            | '\u{2000}'..='\u{2027}'
            | '\u{202F}'
            | '\u{3000}'
            | '\u{3002}'
    )
}

/// Whether the character stands for something itself, where it is no part of a word.
fn is_sign(c: char) -> bool
    ensures { result ≡ is_sign c }
{
    !is_comma(c) && !is_curly(c) && !is_prose(c)
}

/// Whether the character is of the sort.
fn is_in(sort: Sort, c: char) -> bool
    ensures { result ≡ is_in sort c }
{
    match sort {
        Sort::Comma => is_comma(c),
        Sort::Curly => is_curly(c),
        Sort::Apostrophe => is_apostrophe(c),
        Sort::Sign => is_sign(c),
        Sort::NoCapital => !matches!(c, 'A'..='Z'),
        Sort::Digit => matches!(c, '0'..='9'),
        Sort::Star => c == '*',
    }
}

/// Whether the text has a character of the sort.
pub fn has_char(text: &str, sort: Sort) -> bool
    ensures { result ≡ has_char sort text.now }
{
    text.chars().any(|c| is_in(sort, c))
}
