//! Articles that are ready to be asked: the keys of their words, and which of them is at each place.
ghost use Rattle.std.specs.Prelude.{◌≡◌, ◌++◌, None, IfOk, OnOk, All, map, length, option_map};
ghost use Rattle.std.specs.Arc.{arc_str_bytes};
ghost use Rattle.std.specs.FinMap as finite;
ghost use Rattle.clip_extract.specs.Keys.{Word};
ghost use Rattle.clip_extract.specs.Covering.{field_keys};
ghost use Rattle.clip_terms.specs.Terms.{number_of, term_at};
ghost use Rattle.clip_terms.specs.Steps.KeysByField.{differing, ordered_keys, key_added};
ghost use Rattle.clip_terms.specs.Steps.Leads.{AreLeads};
ghost use Rattle.clip_terms.specs.Steps.Places.{AreOfWords, IsPlaced};
ghost use Rattle.clip_terms.specs.Steps.WordKeys.{keys_in, AreKept};

use crate::field_terms::FieldTerms;
use crate::numbering::word_numbers;
use crate::word_keys::WordKeys;
use clip_meaning::{Article, Field, Posting, Postings};
use clip_words::NoMemory;
use std::alloc::Global;
use std::marker::Model;

/// A field of an article with the keys of its words, in order, each once, and for each word, in the order of its text,
/// the place of its key among them. Contracts see the field.
#[derive(Drop)]
pub(crate) struct AskedField<'a> {
    field: &'a Field,
    keys: WordKeys<'a>,
    places: Vec<usize>,
}

impl<'a> Model for AskedField<'a> {
    ghost use Rattle.std.specs.Prelude.{ℕ, List};
    ghost use Rattle.clip_terms.specs.Steps.AskedField.{IsAskedField};

    ghost Value = { List ℕ × List (List ℕ) };

    ghost view = { λ asked. asked.field.now };

    ghost invariant = { IsAskedField };
}

/// Adds the key of a posting's word, unless it is that of the posting before it.
fn add_differing<'a>(
    posting: &Posting<'a>,
    last: Option<&Posting<'a>>,
    keys: &mut WordKeys<'a>,
) -> Result<(), NoMemory>
    requires { AreKept keys.old }
    ensures added { OnOk result (keys_in keys.new ≡ keys_in keys.old
        ++ key_added (arc_str_bytes keys.old.field.now) (option_map (λ p. p.now.0) last.entry) posting.now.0) }
    ensures field { OnOk result (keys.new.field ≡ keys.old.field) }
    ensures kept { OnOk result (AreKept keys.new) }
{
    if let Some(last) = last
        && last.has_word_of(posting)
    {
        return Ok(());
    }
    keys.push(posting)?;
    Ok(())
}

/// Adds a key for each word of the postings that is not the word of the posting before it, and writes at each posting's
/// position the place of its word's key.
fn place_words<'a>(
    postings: &Postings<'a>,
    keys: &mut WordKeys<'a>,
    places: &mut Vec<usize>,
) -> Result<(), NoMemory>
    requires postings { AreOfWords postings.now (length places.old.items) }
    requires kept { AreKept keys.old }
    ensures keys { OnOk result (keys_in keys.new ≡ keys_in keys.old
        ++ map (Word (arc_str_bytes keys.old.field.now)) (differing None (map (λ p. p.0) postings.now))) }
    ensures field { OnOk result (keys.new.field ≡ keys.old.field) }
    ensures kept { OnOk result (AreKept keys.new) }
    ensures long { OnOk result (length places.new.items ≡ length places.old.items) }
    ensures placed { OnOk result (All
        (IsPlaced (arc_str_bytes keys.old.field.now) (keys_in keys.new) places.new.items) postings.now) }
{
    let mut last: Option<Posting<'a>> = None;
    for place in 0..postings.len() {
        let posting = postings.at(place);
        add_differing(&posting, last.as_ref(), keys)?;
        places[posting.position()] = keys.len() - 1;
        last = Some(posting);
    }
    Ok(())
}

impl<'a> AskedField<'a> {
    /// Makes a field ready to be asked.
    fn of(alloc: Global, field: &'a Field) -> Result<AskedField<'a>, NoMemory>
        ensures { IfOk result (λ asked. asked ≡ field.now) }
    {
        let count = field.words().len();
        let mut keys = WordKeys::none(alloc, field.name(), count)?;
        let mut places = vec![in alloc; 0; count]?;
        place_words(&field.postings(), &mut keys, &mut places)?;
        Ok(AskedField {
            field,
            keys,
            places,
        })
    }

    /// The field. Constant time.
    pub(crate) fn field(&self) -> &'a Field
        ensures { result.now ≡ self.now }
    {
        self.field
    }

    /// The leads of the field's words, in the order of their keys. Constant time.
    pub(crate) fn leads(&self) -> &[u64]
        ensures { AreLeads (ordered_keys self.now) result.now }
    {
        &self.keys.leads
    }

    /// For each word, in the order of the text, which of the keys is the word's, from 0. Constant time.
    pub(crate) fn places(&self) -> &[usize]
        ensures { map (term_at (ordered_keys self.now)) result.now ≡ field_keys self.now }
    {
        &self.places
    }

    /// The numbers of the keys among the terms of the field, in order; none of a key that is no term.
    ///
    /// `NoMemory` where an allocation failed. Cost: a search among the terms for each key.
    pub(crate) fn numbers(
        &self,
        alloc: Global,
        of_field: &FieldTerms<'_>,
    ) -> Result<Vec<Option<u32>>, NoMemory>
        requires { of_field.now.field ≡ self.now.0 }
        ensures { IfOk result (λ numbers. numbers.items ≡ map (number_of of_field.now.terms) (ordered_keys self.now)) }
    {
        let keys = &self.keys;
        word_numbers(alloc, of_field, &keys.words, &keys.leads, &keys.lengths)
    }
}

/// An article with its fields as they are asked. Contracts see the article.
#[derive(Drop)]
pub struct Asking<'a> {
    article: &'a Article,
    fields: Vec<AskedField<'a>>,
}

impl<'a> Model for Asking<'a> {
    ghost use Rattle.clip_meaning.specs.Article.{ArticleValue, article_code};
    ghost use Rattle.clip_terms.specs.Steps.Asking.{IsAsking};

    ghost Value = { ArticleValue };

    ghost coded = { article_code };

    ghost view = { λ asking. asking.article.now };

    ghost invariant = { IsAsking };
}

impl<'a> Asking<'a> {
    /// Makes an article ready to be asked.
    ///
    /// `NoMemory` where an allocation failed. Cost: a step for each word of the article; nothing is sorted, since an
    /// article has its fields and their words in order, with the leads of the words. Texts are borrowed.
    pub fn of(alloc: Global, article: &'a Article) -> Result<Asking<'a>, NoMemory>
        ensures { IfOk result (λ asking. asking ≡ article.now) }
    {
        let mut fields = Vec::with_capacity(alloc, article.fields().len())?;
        for field in article.fields() {
            fields.push(AskedField::of(alloc, field)?)?;
        }
        Ok(Asking { article, fields })
    }

    /// The article. Constant time.
    pub fn article(&self) -> &'a Article
        ensures { result.now ≡ self.now }
    {
        self.article
    }

    /// The fields, in the byte order of their names. Constant time.
    pub(crate) fn fields(&self) -> &[AskedField<'a>]
        ensures { result.now ≡ finite.entries self.now.fields }
    {
        &self.fields
    }
}
