//! Lexemes by their kinds, and their neighbours by place.
ghost use Rattle.std.specs.Prelude.{◌≡◌, ◌<◌, ◌^◌, map};
ghost use Rattle.std.specs.List.{list_any};
ghost use Rattle.clip_syntax.specs.Steps.TokenOf.{token_of};
ghost use Rattle.clip_explain.specs.Lexemes.{placed_of};
ghost use Rattle.clip_remarks.specs.Kinds as spec;
ghost use Rattle.clip_remarks.specs.Kinds.{kind_of, kind_at, kind_before, word_of, word_at, start_at, end_at, touches};
ghost use Rattle.clip_remarks.specs.Kinds.{kinds, next_joint, wants};

use clip_explain::Lexeme;
use clip_syntax::Token;

/// What a lexeme is, whatever its text.
#[derive(Clone, Copy)]
pub enum Kind {
    /// No lexeme: before the first or past the last.
    Nothing,
    /// `+`.
    Plus,
    /// `-` or `!`.
    Minus,
    /// `NOT`.
    Not,
    /// `AND` or `&&`.
    And,
    /// `OR` or `||`.
    Or,
    /// `(`.
    Open,
    /// `)`.
    Close,
    /// `:`.
    Colon,
    /// A star alone.
    Star,
    /// A word.
    Word,
    /// A prefix.
    Front,
    /// A quoted text.
    Phrase,
    /// A range.
    Range,
    /// A form that is left out.
    Other,
}

impl Kind {
    /// The kind of a lexeme that says the token.
    pub fn of(token: &Token) -> Kind
        ensures { result ≡ kind_of (token_of token.now) }
    {
        match token {
            Token::Plus => Kind::Plus,
            Token::Minus | Token::Bang => Kind::Minus,
            Token::Not => Kind::Not,
            Token::And => Kind::And,
            Token::Or => Kind::Or,
            Token::Open => Kind::Open,
            Token::Close => Kind::Close,
            Token::Colon => Kind::Colon,
            Token::Star => Kind::Star,
            Token::Plain(_) => Kind::Word,
            Token::Front(_) => Kind::Front,
            Token::Phrase(_) => Kind::Phrase,
            Token::Range(_, _) => Kind::Range,
            Token::Other => Kind::Other,
        }
    }

    /// Whether a clause may begin with it, but for a sign.
    pub fn starts_clause(self) -> bool
        ensures { result ≡ spec.starts_clause self }
    {
        matches!(
            self,
            Kind::Open
                | Kind::Star
                | Kind::Word
                | Kind::Front
                | Kind::Phrase
                | Kind::Range
                | Kind::Other
        )
    }

    /// Whether a clause may end with it.
    pub fn ends_clause(self) -> bool
        ensures { result ≡ spec.ends_clause self }
    {
        matches!(
            self,
            Kind::Close | Kind::Star | Kind::Word | Kind::Front | Kind::Phrase | Kind::Range
        )
    }

    /// Whether a clause excludes by it.
    pub fn excludes(self) -> bool
        ensures { result ≡ spec.excludes self }
    {
        matches!(self, Kind::Minus | Kind::Not)
    }

    /// Whether it is a sign of one character before a clause.
    pub fn is_sign(self) -> bool
        ensures { result ≡ spec.is_sign self }
    {
        matches!(self, Kind::Plus | Kind::Minus)
    }

    /// Whether it is an operator.
    pub fn is_operator(self) -> bool
        ensures { result ≡ spec.is_operator self }
    {
        matches!(self, Kind::And | Kind::Or | Kind::Not)
    }

    /// Whether it opens a group.
    pub fn is_open(self) -> bool
        ensures { result ≡ spec.is_open self }
    {
        matches!(self, Kind::Open)
    }

    /// Whether it closes a group.
    pub fn is_close(self) -> bool
        ensures { result ≡ spec.is_close self }
    {
        matches!(self, Kind::Close)
    }

    /// Whether it is a colon.
    pub fn is_colon(self) -> bool
        ensures { result ≡ spec.is_colon self }
    {
        matches!(self, Kind::Colon)
    }

    /// Whether it is `AND`.
    pub fn is_and(self) -> bool
        ensures { result ≡ spec.is_and self }
    {
        matches!(self, Kind::And)
    }

    /// Whether it is `OR`.
    pub fn is_or(self) -> bool
        ensures { result ≡ spec.is_or self }
    {
        matches!(self, Kind::Or)
    }

    /// Whether it is a word.
    pub fn is_word(self) -> bool
        ensures { result ≡ spec.is_word self }
    {
        matches!(self, Kind::Word)
    }

    /// Whether it has words as they stand.
    pub fn is_text(self) -> bool
        ensures { result ≡ spec.is_text self }
    {
        matches!(self, Kind::Word | Kind::Phrase)
    }
}

/// The kind of the lexeme at a place.
pub fn kind_at(lexemes: &[Lexeme], i: usize) -> Kind
    ensures { result ≡ kind_at (map placed_of lexemes.now) i }
{
    match lexemes.get(i) {
        Some(lexeme) => Kind::of(&lexeme.token),
        None => Kind::Nothing,
    }
}

/// The kind of the lexeme so many before a place.
pub fn kind_before(lexemes: &[Lexeme], i: usize, back: usize) -> Kind
    ensures { result ≡ kind_before (map placed_of lexemes.now) i back }
{
    if i < back {
        Kind::Nothing
    } else {
        kind_at(lexemes, i - back)
    }
}

/// The text that a token says, or an empty one.
fn word_of(token: &Token) -> &str
    ensures { result.now ≡ word_of (token_of token.now) }
{
    match token {
        Token::Plain(text) => text,
        Token::Front(text) => text,
        Token::Phrase(text) => text,
        _ => "",
    }
}

/// The text of the word, prefix or phrase at a place, or an empty one.
pub fn word_at(lexemes: &[Lexeme], i: usize) -> &str
    ensures { result.now ≡ word_at (map placed_of lexemes.now) i }
{
    match lexemes.get(i) {
        Some(lexeme) => word_of(&lexeme.token),
        None => "",
    }
}

/// Where the lexeme at a place begins, or 0.
pub fn start_at(lexemes: &[Lexeme], i: usize) -> usize
    ensures { result ≡ start_at (map placed_of lexemes.now) i }
{
    match lexemes.get(i) {
        Some(lexeme) => lexeme.start,
        None => 0,
    }
}

/// Where the lexeme at a place ends, or 0.
fn end_at(lexemes: &[Lexeme], i: usize) -> usize
    ensures { result ≡ end_at (map placed_of lexemes.now) i }
{
    match lexemes.get(i) {
        Some(lexeme) => lexeme.end,
        None => 0,
    }
}

/// Whether the lexeme at a place ends where the next one begins.
pub fn touches(lexemes: &[Lexeme], i: usize) -> bool
    requires { i < 2 ^ 63 }
    ensures { result ≡ touches (map placed_of lexemes.now) i }
{
    end_at(lexemes, i) == start_at(lexemes, i + 1)
}
