//! Articles: an id, and words by field.
ghost use Rattle.std.specs.Prelude.{◌≡◌, map, None, IfOk, IfErr, option_map};
ghost use Rattle.std.specs.Arc.{arc_str_bytes};
ghost use Rattle.std.specs.FinMap as finite;
ghost use Rattle.clip_meaning.specs.Article.{words_in, fault_of, refusal_of, article_value, pairs_of};

use crate::fault::{ArticleFault, fault_of};
use crate::field::Field;
use crate::field_map::FieldMap;
use clip_words::{NoMemory, Texts};
use std::alloc::Global;
use std::marker::Model;
use std::sync::{Arc, ArcStr};

/// What the handles on one article share. The words of a field that is not there are none.
#[derive(Debug, Drop)]
pub(crate) struct Parts {
    id: ArcStr,
    fields: FieldMap,
    none: Texts,
}

/// An article: an id of 1 to 256 bytes, and at most 16 fields, each the words of a text. A `copy` shares all of it.
///
/// Contracts see the id's bytes and a map from the bytes of each field's name to the words of its text.
#[derive(Debug)]
pub struct Article {
    parts: Arc<Parts>,
}

impl Drop for Article {
    fn drop(self) {
        let Article { parts: _ } = self;
    }
}

impl Model for Article {
    ghost use Rattle.std.specs.Prelude.{◌≡◌, []};
    ghost use Rattle.std.specs.Arc.{arc_str_bytes};
    ghost use Rattle.clip_meaning.specs.Article.{ArticleValue, article_code};

    ghost Value = { ArticleValue };

    ghost coded = { article_code };

    ghost view = { λ a. record { id = arc_str_bytes a.parts.value.id; fields = a.parts.value.fields } };

    ghost invariant = { λ a. a.parts.value.none ≡ [] };
}

impl Article {
    /// The article of an id and of pairs of a field's name and its text, where it may be one.
    ///
    /// Each text is cut into words (Unicode Standard Annex #29) and each word is folded (full default case folding)
    /// here and never again. The cost is that of cutting and folding, and of sorting each field's words.
    ///
    /// # Errors
    ///
    /// The first refusal of `ArticleFault` that holds, judged before any memory is taken; `NoMemory` where an
    /// allocation failed, or the words of a field take more than 4,294,967,295 bytes, only where none of the others
    /// holds.
    pub fn read(
        alloc: Global,
        id: &str,
        fields: &[(String, String)],
    ) -> Result<Article, ArticleFault>
        ensures read { IfOk result (λ article. article ≡ article_value id.now (pairs_of fields.now)) }
        ensures kept { IfOk result (λ _. fault_of id.now (pairs_of fields.now) ≡ None) }
        ensures refused { IfErr result (λ fault. fault ≡ refusal_of id.now (pairs_of fields.now)) }
    {
        if let Some(fault) = fault_of(id, fields) {
            return Err(fault);
        }
        let id = ArcStr::from_str(alloc, id)?;
        let mut kept = FieldMap::new(alloc);
        for (name, text) in fields {
            kept.insert(Field::read(alloc, name.as_str(), text.as_str())?)?;
        }
        Ok(Article {
            parts: Arc::new(
                alloc,
                Parts {
                    id,
                    fields: kept,
                    none: Texts::new(alloc),
                },
            )?,
        })
    }

    /// Another handle on the same article, which shares all of it, or `NoMemory` where the count of the article's
    /// handles is at its end. Takes no memory. Constant time.
    pub fn copy(&self) -> Result<Article, NoMemory>
        ensures { IfOk result (λ article. article ≡ self.now) }
    {
        Ok(Article {
            parts: self.parts.clone()?,
        })
    }

    /// The article's id. Takes constant time.
    pub fn id(&self) -> &str
        ensures { result.now ≡ self.now.id }
    {
        self.parts.id.as_str()
    }

    /// The article's id, as a text that a `clone` shares. Takes constant time.
    pub fn shared_id(&self) -> &ArcStr
        ensures { arc_str_bytes result.now ≡ self.now.id }
    {
        &self.parts.id
    }

    /// The words of a field in the order of its text, none where the field is not there. Searches among at most 16
    /// names.
    pub fn field(&self, name: &str) -> &Texts
        ensures { result.now ≡ words_in self.now.fields name.now }
    {
        match self.named(name) {
            Some(field) => field.words(),
            None => &self.parts.none,
        }
    }

    /// The field of a name, if it is there. Searches among at most 16 names.
    pub(crate) fn named(&self, name: &str) -> Option<&Field>
        ensures { option_map (λ field. field.now.1) result ≡ finite.get self.now.fields name.now }
    {
        self.parts.fields.get(name)
    }

    /// The fields, in the byte order of their names. Takes constant time.
    pub fn fields(&self) -> &[Field]
        ensures { result.now ≡ finite.entries self.now.fields }
    {
        self.parts.fields.as_slice()
    }
}
