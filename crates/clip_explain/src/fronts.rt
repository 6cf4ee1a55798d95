//! Tokens that are the beginning of clauses, judged one by one.
ghost use Rattle.std.specs.Prelude.{◌≡◌, ◌+◌, ◌<◌, ◌≤◌, IfSome};
ghost use Rattle.clip_syntax.specs.Steps.TokenOf.{token_of};
ghost use Rattle.clip_explain.specs.Steps.Fronts.{may_end, is_fresh, is_in_star, with_last, after_word, after_colon};
ghost use Rattle.clip_explain.specs.Steps.Fronts.{after_star, after_open, after_close, after, start};

use clip_syntax::Token;

/// What stands last among tokens that are the beginning of clauses.
#[derive(Clone, Copy)]
pub enum Last {
    /// Nothing, an operator or `(`, so that a clause has to follow.
    Joint,
    /// A sign.
    Sign,
    /// A field with its colon.
    Field,
    /// A plain word with no field before it: a clause, or the name of a field that a colon follows.
    Word,
    /// Another clause.
    Clause,
    /// The first star of `*:*`.
    Star,
    /// The first star of `*:*`, and the colon.
    StarColon,
}

/// Tokens that are the beginning of clauses.
#[derive(Clone, Copy)]
pub struct ClausesBegun {
    /// How many parentheses are open.
    pub depth: usize,
    /// What stands last.
    pub last: Last,
}

impl Last {
    /// Whether a clause stands last, so that its group may end.
    fn may_end(self) -> bool
        ensures { result ≡ may_end self }
    {
        matches!(self, Last::Word | Last::Clause)
    }

    /// Whether nothing of a clause is read, so that a sign may follow.
    fn is_fresh(self) -> bool
        ensures { result ≡ is_fresh self }
    {
        matches!(self, Last::Joint | Last::Word | Last::Clause)
    }

    /// Whether a part of `*:*` stands last.
    fn is_in_star(self) -> bool
        ensures { result ≡ is_in_star self }
    {
        matches!(self, Last::Star | Last::StarColon)
    }
}

impl ClausesBegun {
    /// Before the first token. Constant time.
    pub fn start() -> ClausesBegun
        ensures { result ≡ start }
    {
        ClausesBegun {
            depth: 0,
            last: Last::Joint,
        }
    }

    /// These tokens, with what stands last after one more.
    fn with_last(self, last: Last) -> ClausesBegun
        ensures { result ≡ with_last self last }
    {
        ClausesBegun { last, ..self }
    }

    /// After a plain word, which is an item where a field stands before it, and else one or the name of a field.
    fn after_word(self) -> Option<ClausesBegun>
        ensures { result ≡ after_word self self.last }
    {
        match self.last {
            Last::Field => Some(self.with_last(Last::Clause)),
            Last::Star | Last::StarColon => None,
            _ => Some(self.with_last(Last::Word)),
        }
    }

    /// After a colon, of a field or of `*:*`.
    fn after_colon(self) -> Option<ClausesBegun>
        ensures { result ≡ after_colon self self.last }
    {
        match self.last {
            Last::Word => Some(self.with_last(Last::Field)),
            Last::Star => Some(self.with_last(Last::StarColon)),
            _ => None,
        }
    }

    /// After a star, the first or the last of `*:*`, which takes no field.
    fn after_star(self) -> Option<ClausesBegun>
        ensures { result ≡ after_star self self.last }
    {
        match self.last {
            Last::StarColon => Some(self.with_last(Last::Clause)),
            Last::Star | Last::Field => None,
            _ => Some(self.with_last(Last::Star)),
        }
    }

    /// After a parenthesis that opens a group.
    fn after_open(self) -> Option<ClausesBegun>
        requires { self.depth < usize.MAX }
        ensures { result ≡ after_open self }
    {
        if self.last.is_in_star() {
            return None;
        }
        Some(ClausesBegun {
            depth: self.depth + 1,
            last: Last::Joint,
        })
    }

    /// After a parenthesis that closes a group.
    fn after_close(self) -> Option<ClausesBegun>
        ensures { result ≡ after_close self }
    {
        if self.depth > 0 && self.last.may_end() {
            Some(ClausesBegun {
                depth: self.depth - 1,
                last: Last::Clause,
            })
        } else {
            None
        }
    }

    /// After one token more, or `None` where the tokens are then no beginning of clauses. Constant time.
    pub fn after(self, token: &Token) -> Option<ClausesBegun>
        requires { self.depth < usize.MAX }
        ensures after { result ≡ after self (token_of token.now) }
        ensures within { IfSome result (λ next. next.depth ≤ self.depth + 1) }
    {
        match token {
            Token::Plus | Token::Minus | Token::Bang | Token::Not if self.last.is_fresh() => {
                Some(self.with_last(Last::Sign))
            }
            Token::And | Token::Or if self.last.may_end() => Some(self.with_last(Last::Joint)),
            Token::Front(_) | Token::Phrase(_) | Token::Range(_, _) if !self.last.is_in_star() => {
                Some(self.with_last(Last::Clause))
            }
            Token::Plain(_) => self.after_word(),
            Token::Colon => self.after_colon(),
            Token::Star => self.after_star(),
            Token::Open => self.after_open(),
            Token::Close => self.after_close(),
            _ => None,
        }
    }
}
