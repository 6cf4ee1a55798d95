//! What comes in the group of a place, and in the whole text.
ghost use Rattle.std.specs.Prelude.{◌≡◌, ◌<◌, ◌^◌, map};
ghost use Rattle.std.specs.List.{list_any};
ghost use Rattle.clip_explain.specs.Lexemes.{placed_of};
ghost use Rattle.clip_remarks.specs.Kinds.{is_colon, kinds, depth_after, next_joint, wants};
ghost use Rattle.clip_remarks.specs.declared.kind.Kind.TheVariants.{Nothing};

use crate::kind::Kind;
use clip_explain::Lexeme;

/// How many groups are open behind a lexeme.
fn depth_after(depth: usize, kind: Kind) -> usize
    requires { depth < 2 ^ 63 }
    ensures { result ≡ depth_after depth kind }
{
    match kind {
        Kind::Open => depth + 1,
        Kind::Close => depth.saturating_sub(1),
        _ => depth,
    }
}

/// The next `AND` or `OR` of the group, or nothing.
pub fn next_joint(rest: &[Lexeme]) -> Kind
    ensures { result ≡ next_joint 0 (kinds (map placed_of rest.now)) }
{
    let mut depth = 0;
    for lexeme in rest {
        let kind = Kind::of(&lexeme.token);
        if depth == 0 && kind.is_close() {
            return Kind::Nothing;
        }
        if depth == 0 && (kind.is_and() || kind.is_or()) {
            return kind;
        }
        depth = depth_after(depth, kind);
    }
    Kind::Nothing
}

/// Whether a clause of the group doesn't exclude.
pub fn wants(rest: &[Lexeme]) -> bool
    ensures { result ≡ wants 0 Nothing (kinds (map placed_of rest.now)) }
{
    let mut depth = 0;
    let mut before = Kind::Nothing;
    for lexeme in rest {
        let kind = Kind::of(&lexeme.token);
        if depth == 0 && kind.is_close() {
            return false;
        }
        if depth == 0 && kind.starts_clause() && !before.excludes() && !before.is_colon() {
            return true;
        }
        depth = depth_after(depth, kind);
        before = kind;
    }
    false
}

/// Whether there is a colon.
pub fn has_colon(lexemes: &[Lexeme]) -> bool
    ensures { result ≡ list_any is_colon (kinds (map placed_of lexemes.now)) }
{
    for lexeme in lexemes {
        if Kind::of(&lexeme.token).is_colon() {
            return true;
        }
    }
    false
}
