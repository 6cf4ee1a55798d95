//! When a query holds of an article.
ghost use Rattle.std.specs.Prelude.{◌≡◌, false, List, ◌∷◌, MatchOption, Bool, map};
ghost use Rattle.std.specs.Arc.{arc_str_bytes};
ghost use Rattle.std.specs.List.{list_any};
ghost use Rattle.std.specs.Str.{bytes_eq};
ghost use Rattle.clip_grammar.specs.Tree.{tree_of, end_of};
ghost use Rattle.clip_grammar.specs.declared.query.Occur.{Occur};
ghost use Rattle.clip_meaning.specs.Article.{words_in};
ghost use Rattle.clip_meaning.specs.Meaning.{holds, begins_with, has_phrase, is_between};
ghost use Rattle.clip_meaning.specs.Steps.Tally.{group_with};

use crate::article::Article;
use clip_grammar::query::{Bound, Occur, Query};
use std::sync::ArcStr;

/// Whether a word is among those of an article's field.
fn has_word(article: &Article, field: &str, word: &str) -> bool
    ensures { result ≡ list_any (λ w. bytes_eq w word.now) (words_in article.now.fields field.now) }
{
    match article.named(field) {
        Some(field) => field.has_word(word),
        None => false,
    }
}

/// Whether a phrase occurs in an article's field.
fn has_phrase(article: &Article, field: &str, phrase: &[ArcStr]) -> bool
    ensures { result ≡ has_phrase (words_in article.now.fields field.now) (map arc_str_bytes phrase.now) }
{
    match article.named(field) {
        Some(field) => field.has_phrase(phrase),
        None => false,
    }
}

/// Whether a word of an article's field begins with a prefix.
fn has_front(article: &Article, field: &str, front: &str) -> bool
    ensures { result ≡ list_any (begins_with front.now) (words_in article.now.fields field.now) }
{
    match article.named(field) {
        Some(field) => field.has_front(front),
        None => false,
    }
}

/// Whether a word of an article's field lies between the bounds.
fn has_between(article: &Article, field: &str, low: &Bound, high: &Bound) -> bool
    ensures { result ≡ list_any (is_between (end_of low.now) (end_of high.now))
        (words_in article.now.fields field.now) }
{
    match article.named(field) {
        Some(field) => field.has_between(low, high),
        None => false,
    }
}

/// What was found among the clauses of a group that were asked so far, where the group may still hold.
#[derive(Clone, Copy)]
struct GroupSoFar {
    has_must: bool,
    has_should: bool,
}

/// The tally with one more clause, whose child holds or does not; `None` where the group does not hold.
#[tactic(auto, using(crate::proofs::Groups::must_true, crate::proofs::Groups::must_false, crate::proofs::Groups::must_not_true, crate::proofs::Groups::must_not_false, crate::proofs::Groups::should))]
fn count_clause(tally: GroupSoFar, occur: Occur, held: bool) -> Option<GroupSoFar>
    ensures { (others : List (Occur × Bool)) → MatchOption result
        (group_with tally.has_must tally.has_should ((occur, held) ∷ others) ≡ false)
        (λ next. group_with tally.has_must tally.has_should ((occur, held) ∷ others)
        ≡ group_with next.has_must next.has_should others) }
{
    match occur {
        Occur::Must if !held => None,
        Occur::MustNot if held => None,
        Occur::Must => Some(GroupSoFar {
            has_must: true,
            has_should: tally.has_should,
        }),
        Occur::MustNot => Some(tally),
        Occur::Should => Some(GroupSoFar {
            has_must: tally.has_must,
            has_should: tally.has_should || held,
        }),
    }
}

/// Whether a query holds of an article.
///
/// - `Term`: the word is among the field's words.
/// - `Phrase`: its words are next to each other in order in the field (Lucene's PhraseQuery with no slop); an empty
///   phrase never holds.
/// - `Prefix`: a word of the field begins with the prefix (PrefixQuery).
/// - `Span`: a word of the field lies between the bounds, by the bytes of UTF-8; `With` lets its end in, `Without` does
///   not, `Free` has no end (TermRangeQuery).
/// - `All`: always.
/// - `Group`: every Must child holds, no MustNot child holds and, where there is no Must child, at least one Should
///   child holds (BooleanQuery with its default settings).
///
/// Takes no memory. A leaf is answered by searches among the sorted words of one field; a phrase also by a look at each
/// place of its first word, at worst these places times the words of the phrase. A group asks its children in order, up
/// to the first Must child that does not hold or MustNot child that does. Recurses as deep as groups nest, which is at
/// most 65 in a query that was read.
pub fn holds(query: &Query, article: &Article) -> bool
    ensures { result ≡ holds (tree_of query.now) article.now.fields }
{
    match query {
        Query::Term { field, word } => has_word(article, field, word),
        Query::Phrase { field, words } => has_phrase(article, field, words),
        Query::Prefix { field, front } => has_front(article, field, front),
        Query::Span { field, low, high } => has_between(article, field, low, high),
        Query::All => true,
        Query::Group(clauses) => {
            let mut tally = GroupSoFar {
                has_must: false,
                has_should: false,
            };
            for (occur, child) in clauses {
                match count_clause(tally, *occur, holds(child, article)) {
                    Some(next) => tally = next,
                    None => return false,
                }
            }
            tally.has_must || tally.has_should
        }
    }
}
