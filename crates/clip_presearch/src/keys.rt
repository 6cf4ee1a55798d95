//! The keys of an article.
ghost use Rattle.std.specs.Prelude.{◌≡◌, ◌++◌, IfOk, OnOk, map, flat_map};
ghost use Rattle.std.specs.Arc.{arc_str_bytes};
ghost use Rattle.clip_extract.specs.Fronts.{fronts};
ghost use Rattle.clip_extract.specs.Keys.{Front, key_of};
ghost use Rattle.clip_extract.specs.Covering.{article_keys, field_keys, front_keys};

use clip_extract::{Fronts, Key, sort_keys};
use clip_meaning::{Article, Field};
use clip_words::NoMemory;
use std::alloc::Global;
use std::sync::ArcStr;

/// Adds the keys of a field's words.
fn add_words(alloc: Global, field: &Field, keys: &mut Vec<Key>) -> Result<(), NoMemory>
    ensures { OnOk result (map key_of keys.new.items ≡ map key_of keys.old.items ++ field_keys field.now) }
{
    for word in field.words() {
        let word = ArcStr::from_str(alloc, word)?;
        keys.push(Key::Word(field.name().clone()?, word))?;
    }
    Ok(())
}

/// Adds the keys of a word's fronts, in the field of this name.
fn add_word_fronts(
    alloc: Global,
    name: &ArcStr,
    word: &str,
    keys: &mut Vec<Key>,
) -> Result<(), NoMemory>
    ensures { OnOk result (map key_of keys.new.items
        ≡ map key_of keys.old.items ++ map (Front (arc_str_bytes name.now)) (fronts word.now)) }
{
    let mut fronts = Fronts::of(word);
    while let Some(front) = fronts.next() {
        let front = ArcStr::from_str(alloc, front)?;
        keys.push(Key::Front(name.clone()?, front))?;
    }
    Ok(())
}

/// Adds the keys of the fronts of a field's words.
fn add_fronts(alloc: Global, field: &Field, keys: &mut Vec<Key>) -> Result<(), NoMemory>
    ensures { OnOk result (map key_of keys.new.items ≡ map key_of keys.old.items ++ front_keys field.now) }
{
    for word in field.words() {
        add_word_fronts(alloc, field.name(), word, keys)?;
    }
    Ok(())
}

/// Adds the keys of the words of fields.
fn add_field_words(alloc: Global, fields: &[Field], keys: &mut Vec<Key>) -> Result<(), NoMemory>
    ensures { OnOk result (map key_of keys.new.items ≡ map key_of keys.old.items ++ flat_map field_keys fields.now) }
{
    for field in fields {
        add_words(alloc, field, keys)?;
    }
    Ok(())
}

/// Adds the keys of the fronts of the words of fields.
fn add_field_fronts(alloc: Global, fields: &[Field], keys: &mut Vec<Key>) -> Result<(), NoMemory>
    ensures { OnOk result (map key_of keys.new.items ≡ map key_of keys.old.items ++ flat_map front_keys fields.now) }
{
    for field in fields {
        add_fronts(alloc, field, keys)?;
    }
    Ok(())
}

/// The keys of an article, in order, each once: Any, each word of each field, and what these words begin with, one to
/// `MOST_FRONT_CHARACTERS` characters.
///
/// `NoMemory` where an allocation failed. Cost: a text for each word and each of its fronts, and a sort of all keys.
pub fn article_keys(alloc: Global, article: &Article) -> Result<Vec<Key>, NoMemory>
    ensures { IfOk result (λ found. map key_of found.items ≡ article_keys article.now.fields) }
{
    let mut keys = Vec::new(alloc);
    keys.push(Key::Any)?;
    add_field_words(alloc, article.fields(), &mut keys)?;
    add_field_fronts(alloc, article.fields(), &mut keys)?;
    sort_keys(keys)
}
