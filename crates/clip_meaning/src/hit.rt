//! Where in an article the leaves of a query stand.
ghost use Rattle.std.specs.Prelude.{◌≡◌, ◌&&◌, ◌++◌, [], IfOk, OnOk, map, length, get_or};
ghost use Rattle.std.specs.Arc.{arc_str_bytes};
ghost use Rattle.std.specs.List.{list_any};
ghost use Rattle.std.specs.Str.{bytes_eq};
ghost use Rattle.clip_grammar.specs.Tree.{tree_of, end_of};
ghost use Rattle.clip_meaning.specs.Hits.{asks, covers, hit_value, hits, hits_in, is_named};
ghost use Rattle.clip_meaning.specs.Index.{numbered};
ghost use Rattle.clip_meaning.specs.Meaning.{begins_with, is_between};
ghost use Rattle.clip_meaning.specs.Steps.Marks.{AreRaised};

use crate::article::Article;
use crate::field::Field;
use crate::flags::FieldFlags;
use clip_grammar::query::{Bound, Occur, Query};
use clip_words::NoMemory;
use std::alloc::Global;
use std::sync::ArcStr;

/// A word of an article that a query names: its field, and its position among the field's words.
#[derive(Clone, Debug, PartialEq, Eq, Drop)]
pub struct Hit {
    /// The field's name, which the article shares.
    pub field: ArcStr,
    /// The word's position among the words of the field, counted from 0.
    pub position: u64,
}

/// Whether a field has this name.
fn is_called(field: &Field, name: &str) -> bool
    ensures { result ≡ bytes_eq name.now field.now.0 }
{
    name == field.name().as_str()
}

/// Raises the flags of a word's positions, where the field has the name.
fn mark_word(field: &Field, name: &str, word: &str, flags: &mut FieldFlags)
    requires { length flags.old ≡ length field.now.1 }
    ensures long { length flags.new ≡ length flags.old }
    ensures raised { AreRaised flags.old flags.new
        (λ k. bytes_eq name.now field.now.0 && bytes_eq (get_or field.now.1 k []) word.now) }
{
    if is_called(field, name) {
        field.mark_word(word, flags);
    }
}

/// Raises the flags of the positions that a phrase covers, where the field has the name.
fn mark_phrase(field: &Field, name: &str, phrase: &[ArcStr], flags: &mut FieldFlags)
    ensures long { length flags.new ≡ length flags.old }
    ensures raised { AreRaised flags.old flags.new (λ k. bytes_eq name.now field.now.0
        && list_any (λ start. covers field.now.1 (map arc_str_bytes phrase.now) k start.1) (numbered 0 field.now.1)) }
{
    if is_called(field, name) {
        field.mark_phrase(phrase, flags);
    }
}

/// Raises the flags of the words that begin with a prefix, where the field has the name.
fn mark_front(field: &Field, name: &str, front: &str, flags: &mut FieldFlags)
    requires { length flags.old ≡ length field.now.1 }
    ensures long { length flags.new ≡ length flags.old }
    ensures raised { AreRaised flags.old flags.new
        (λ k. bytes_eq name.now field.now.0 && begins_with front.now (get_or field.now.1 k [])) }
{
    if is_called(field, name) {
        field.mark_front(front, flags);
    }
}

/// Raises the flags of the words between the bounds, where the field has the name.
fn mark_between(field: &Field, name: &str, low: &Bound, high: &Bound, flags: &mut FieldFlags)
    requires { length flags.old ≡ length field.now.1 }
    ensures long { length flags.new ≡ length flags.old }
    ensures raised { AreRaised flags.old flags.new (λ k. bytes_eq name.now field.now.0
        && is_between (end_of low.now) (end_of high.now) (get_or field.now.1 k [])) }
{
    if is_called(field, name) {
        field.mark_between(low, high, flags);
    }
}

/// Whether a clause asks for what its child names.
fn asks(occur: Occur) -> bool
    ensures { result ≡ asks occur }
{
    match occur {
        Occur::Must => true,
        Occur::Should => true,
        Occur::MustNot => false,
    }
}

/// Raises the flags of the words of a field that a leaf of the query names, leaving out MustNot clauses.
///
/// Takes no memory. Cost: one walk through the query; a leaf costs searches among the field's words, and a step for
/// each word that it names. Recurses as deep as groups nest.
pub fn mark(query: &Query, field: &Field, flags: &mut FieldFlags)
    requires { length flags.old ≡ length field.now.1 }
    ensures long { length flags.new ≡ length flags.old }
    ensures raised { AreRaised flags.old flags.new
        (λ k. is_named (tree_of query.now) field.now.0 field.now.1 (get_or field.now.1 k [], k)) }
{
    match query {
        Query::Term { field: name, word } => mark_word(field, name, word, flags),
        Query::Phrase { field: name, words } => mark_phrase(field, name, words, flags),
        Query::Prefix { field: name, front } => mark_front(field, name, front, flags),
        Query::Span {
            field: name,
            low,
            high,
        } => mark_between(field, name, low, high, flags),
        Query::All => {}
        Query::Group(clauses) => {
            for (occur, child) in clauses {
                if asks(*occur) {
                    mark(child, field, flags);
                }
            }
        }
    }
}

/// Adds the hits in one field.
fn add_hits(
    alloc: Global,
    query: &Query,
    field: &Field,
    found: &mut Vec<Hit>,
) -> Result<(), NoMemory>
    ensures { OnOk result (map hit_value found.new.items
        ≡ map hit_value found.old.items ++ hits_in (tree_of query.now) field.now) }
{
    let mut flags = FieldFlags::new(alloc);
    flags.restart(field.words().len())?;
    mark(query, field, &mut flags);
    flags.add_hits(field.name(), found)
}

/// Where in an article the leaves of a query stand: the positions of the words that they name, ordered by the bytes of
/// the fields' names and then by position, each once.
///
/// - `Term`: each word of its field that it equals.
/// - `Phrase`: each word of each place where it occurs; an empty phrase names none.
/// - `Prefix`: each word of its field that begins with the prefix.
/// - `Span`: each word of its field between the bounds.
/// - `All`: none.
/// - `Group`: what its Must and Should children name; what stands below a MustNot clause, however deep, names none.
///
/// Whether the query holds of the article plays no part.
///
/// # Errors
///
/// `NoMemory` where an allocation failed, or where the count of a field's name is at its end.
///
/// # Cost
///
/// For each field, one walk through the query and a flag for each of the field's words. A leaf costs searches among the
/// sorted words of its field and a step for each word that it names; a phrase a look at each place of its first word,
/// at worst these places times the words of the phrase. Names are shared. Recurses as deep as groups nest, which is at
/// most 65 in a query that was read.
pub fn hits(alloc: Global, query: &Query, article: &Article) -> Result<Vec<Hit>, NoMemory>
    ensures { IfOk result (λ found. map hit_value found.items ≡ hits (tree_of query.now) article.now.fields) }
{
    let mut found = Vec::new(alloc);
    for field in article.fields() {
        add_hits(alloc, query, field, &mut found)?;
    }
    Ok(found)
}
