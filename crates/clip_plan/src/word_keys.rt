//! The words that a query asks for.
ghost use Rattle.std.specs.Prelude.{◌≡◌, ◌++◌, ◌∷◌, [], OnOk, map};
ghost use Rattle.std.specs.Arc.{arc_str_bytes};
ghost use Rattle.clip_grammar.specs.Tree.{tree_of};
ghost use Rattle.clip_extract.specs.Keys.{Word, key_of};
ghost use Rattle.clip_plan.specs.Plan.{word_keys};

use clip_extract::Key;
use clip_grammar::query::Query;
use clip_words::NoMemory;
use std::sync::ArcStr;

/// Adds a word of a field as a key.
fn add_word(field: &ArcStr, word: &ArcStr, keys: &mut Vec<Key>) -> Result<(), NoMemory>
    ensures { OnOk result (map key_of keys.new.items ≡ map key_of keys.old.items
        ++ Word (arc_str_bytes field.now) (arc_str_bytes word.now) ∷ []) }
{
    keys.push(Key::Word(field.clone()?, word.clone()?))?;
    Ok(())
}

/// Adds the words of a phrase as keys, in order.
fn add_phrase(field: &ArcStr, words: &[ArcStr], keys: &mut Vec<Key>) -> Result<(), NoMemory>
    ensures { OnOk result (map key_of keys.new.items ≡ map key_of keys.old.items
        ++ map (Word (arc_str_bytes field.now)) (map arc_str_bytes words.now)) }
{
    for word in words {
        add_word(field, word, keys)?;
    }
    Ok(())
}

/// Adds the words of a query's terms and phrases as keys, in order. Texts are shared.
///
/// `NoMemory` where an allocation failed. Cost: one walk over the query.
pub fn add_word_keys(query: &Query, keys: &mut Vec<Key>) -> Result<(), NoMemory>
    ensures { OnOk result (map key_of keys.new.items ≡ map key_of keys.old.items ++ word_keys (tree_of query.now)) }
{
    match query {
        Query::Term { field, word } => add_word(field, word, keys),
        Query::Phrase { field, words } => add_phrase(field, words, keys),
        Query::Prefix { field: _, front: _ } => Ok(()),
        Query::Span {
            field: _,
            low: _,
            high: _,
        } => Ok(()),
        Query::All => Ok(()),
        Query::Group(clauses) => {
            for (_, child) in clauses {
                add_word_keys(child, keys)?;
            }
            Ok(())
        }
    }
}
