//! Whether tokens are clauses, judged along the list and without recursion.
ghost use Rattle.std.specs.Prelude.{◌≡◌, ◌+◌, ◌-◌, ◌<◌, ◌≤◌, ◌∷◌, map, length, zero, true, false, IfSome, MatchOption};
ghost use Rattle.clip_grammar.specs.Tokens as spec;
ghost use Rattle.clip_grammar.specs.Steps.LeftOut.{begins_left_out, leaves_out};
ghost use Rattle.clip_grammar.specs.Steps.Parser.{accepts, begins_colon};
ghost use Rattle.clip_grammar.specs.Reading.{begins_colon_star};
ghost use Rattle.clip_syntax.specs.Steps.TokenOf.{token_of};
ghost use Rattle.clip_syntax.specs.Steps.Progress.{accepts_after, next_accepts};

use crate::token::{Token, after_colon, after_colon_star};
use clip_grammar::stage::Stage;

/// Whether the first token is left out. `after_star_colon` says whether a star and a colon stand before it. Constant
/// time.
pub fn begins_left_out(token: &Token, after: &[Token], after_star_colon: bool) -> bool
    ensures { result ≡ begins_left_out after_star_colon (token_of token.now) (map token_of after.now) }
{
    match token {
        Token::Other => true,
        Token::Star => !after_star_colon && after_colon_star(after).is_none(),
        _ => false,
    }
}

/// Whether some token is left out: one that the syntax does not have, or a star that is no half of `*:*`.
///
/// The cost is linear in the tokens.
#[tactic(auto, unfolding(clip_grammar::specs::Steps::LeftOut::leaves_out))]
pub fn has_left_out(tokens: &[Token]) -> bool
    ensures { result ≡ leaves_out false false (map token_of tokens.now) }
{
    let mut rest = tokens;
    let mut after_star = false;
    let mut after_star_colon = false;
    while let Some((token, after)) = rest.split_first() {
        if begins_left_out(token, after, after_star_colon) {
            return true;
        }
        after_star_colon = matches!(token, Token::Colon) && after_star;
        after_star = matches!(token, Token::Star);
        rest = after;
    }
    false
}

/// How far the clauses have been read.
#[derive(Clone, Copy)]
pub struct Progress {
    /// How many parentheses are open.
    pub depth: usize,
    /// Whether the group that is read may end here: a clause stands last.
    pub may_end: bool,
    /// What of the next clause has been read.
    pub stage: Stage,
}

impl Progress {
    /// Before the first token. Constant time.
    pub fn start() -> Progress
        ensures { result ≡ record { depth = 0; may_end = false; stage = Stage.Fresh } }
    {
        Progress {
            depth: 0,
            may_end: false,
            stage: Stage::Fresh,
        }
    }

    /// Before the next clause. `may_end` says whether the group may end here.
    fn before_clause(self, may_end: bool) -> Progress
        ensures { result ≡ record self { may_end = may_end; stage = Stage.Fresh } }
    {
        Progress {
            may_end,
            stage: Stage::Fresh,
            ..self
        }
    }

    /// After an item, which ends a clause.
    fn after_item(self) -> Progress
        ensures { result ≡ record self { may_end = true; stage = Stage.Fresh } }
    {
        self.before_clause(true)
    }

    /// After an operator, which a clause has to follow.
    fn after_operator(self) -> Progress
        ensures { result ≡ record self { may_end = false; stage = Stage.Fresh } }
    {
        self.before_clause(false)
    }

    /// In a group that opens here.
    fn in_group(self) -> Progress
        requires { self.depth < usize.MAX }
        ensures { result ≡ record { depth = self.depth + 1; may_end = false; stage = Stage.Fresh } }
    {
        Progress {
            depth: self.depth + 1,
            may_end: false,
            stage: Stage::Fresh,
        }
    }

    /// After a group that closes here.
    fn after_group(self) -> Progress
        requires { 0 < self.depth }
        ensures { result ≡ record self { depth = self.depth - 1 } }
    {
        Progress {
            depth: self.depth - 1,
            ..self
        }
    }

    /// This progress, with this much of the next clause read.
    fn with_stage(self, stage: Stage) -> Progress
        ensures { result ≡ record self { stage = stage } }
    {
        Progress { stage, ..self }
    }

    /// After the first token, and what is left then, which is without the colon and the star that come with it. `None`
    /// where no clauses go on so. Constant time.
    #[tactic(auto, unfolding(clip_grammar::specs::Steps::Parser::accepts), using(clip_grammar::proofs::Accepting::accepts_plain, clip_grammar::proofs::Accepting::accepts_field, clip_grammar::proofs::Accepting::accepts_all, clip_grammar::proofs::Accepting::lone_star))]
    pub fn read<'a>(self, token: &Token, rest: &'a [Token]) -> Option<(Progress, &'a [Token])>
        requires { self.depth < usize.MAX }
        ensures accepts { accepts_after self (token_of token.now ∷ map token_of rest.now) ≡ next_accepts result }
        ensures within { IfSome result (λ next. next.0.depth + length next.1.now ≤ self.depth + 1 + length rest.now) }
        ensures shorter { IfSome result (λ next. length next.1.now ≤ length rest.now) }
    {
        let is_fresh = self.stage == Stage::Fresh;
        let has_field = self.stage == Stage::AfterField;
        match token {
            Token::Plus | Token::Minus | Token::Bang | Token::Not => {
                if is_fresh {
                    Some((self.with_stage(Stage::AfterSign), rest))
                } else {
                    None
                }
            }
            Token::And | Token::Or => {
                if self.may_end && is_fresh {
                    Some((self.after_operator(), rest))
                } else {
                    None
                }
            }
            Token::Plain(_) => match after_colon(rest) {
                Some(_) if has_field => None,
                Some(rest) => Some((self.with_stage(Stage::AfterField), rest)),
                None => Some((self.after_item(), rest)),
            },
            Token::Front(_) | Token::Phrase(_) | Token::Range(_, _) => {
                Some((self.after_item(), rest))
            }
            Token::Star => match after_colon_star(rest) {
                Some(rest) if !has_field => Some((self.after_item(), rest)),
                _ => None,
            },
            Token::Open => Some((self.in_group(), rest)),
            Token::Close => {
                if self.depth > 0 && self.may_end && is_fresh {
                    Some((self.after_group(), rest))
                } else {
                    None
                }
            }
            Token::Colon | Token::Other => None,
        }
    }
}

/// Whether the tokens are one clause or more, whatever words their texts have.
///
/// The cost is linear in the tokens.
#[tactic(auto, unfolding(clip_grammar::specs::Steps::Parser::accepts))]
pub fn are_clauses(tokens: &[Token]) -> bool
    ensures { result ≡ accepts (map token_of tokens.now) zero false Stage.Fresh }
{
    let mut rest = tokens;
    let mut progress = Progress::start();
    while let Some((token, after)) = rest.split_first() {
        let Some((next, after)) = progress.read(token, after) else {
            return false;
        };
        progress = next;
        rest = after;
    }
    progress.depth == 0 && progress.may_end && progress.stage == Stage::Fresh
}
