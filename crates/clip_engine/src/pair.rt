//! Whether two queries are near in an article, for a caller outside of Rattle.
ghost use Rattle.std.specs.Prelude.{◌≡◌, ◌⊎◌, None, IfOk, IfErr, OnOk};
ghost use Rattle.std.specs.List.{All};
ghost use Rattle.std.specs.Str.{IsUtf8};
ghost use Rattle.clip_grammar.specs.Reading.{HasNoFault, Reads};
ghost use Rattle.clip_grammar.specs.Tree.{tree_of};
ghost use Rattle.clip_meaning.specs.Article.{fault_of, read_fields};
ghost use Rattle.clip_engine.specs.Near.{IsNear, IsNoQuery, IsUntold, NearTo};
ghost use Rattle.clip_engine.specs.Texts.{IsField, IsNoText, fields_of};
ghost use Rattle.clip_engine.specs.declared.code.TheConstants.{LIMIT, QUERY};

use crate::code;
use crate::kept::{Field, texts_of};
use clip_grammar::query::Query;
use clip_meaning::{Article, ArticleFault};
use clip_near::near_holds;
use clip_syntax::{QueryFault, read_query};
use std::alloc::Global;

/// The id of an article that is asked about here alone.
const ASKED: &str = "asked";

/// Two queries, and how near they are to be.
#[repr(C)]
#[derive(Clone, Copy)]
pub struct Pair<'a> {
    /// The text of the first.
    pub first: &'a [u8],
    /// The text of the second.
    pub second: &'a [u8],
    /// The most words between them.
    pub between: usize,
    /// Whether the first has to be before the second.
    pub ordered: bool,
}

/// The query that a text is read as. `UTF8` where the bytes are no text, `QUERY` where it is no query.
fn query_of(alloc: Global, text: &[u8]) -> Result<Query, u32>
    ensures ok { IfOk result (λ query. Reads text.now (tree_of query)) }
    ensures kept { OnOk result (IsUtf8 text.now × HasNoFault text.now) }
    ensures err { IfErr result (λ code. code ≡ 0 → ⊥) }
    ensures why { IfErr result (λ code. IsNoText (IsUtf8 text.now) code ⊎ ((code ≡ QUERY) × IsNoQuery text.now)) }
{
    let Ok(text) = str::from_utf8(text) else {
        return Err(code::UTF8);
    };
    match read_query(alloc, text) {
        Ok(query) => Ok(query),
        Err(QueryFault::NoMemory) => Err(code::NO_MEMORY),
        Err(_) => Err(code::QUERY),
    }
}

/// The article of these fields. `LIMIT` where there is none.
fn article_of(alloc: Global, fields: &[Field<'_>]) -> Result<Article, u32>
    ensures ok { IfOk result (λ article. article.fields ≡ read_fields (fields_of fields.now)) }
    ensures kept { OnOk result (All IsField (fields_of fields.now)
        × (fault_of ASKED.now (fields_of fields.now) ≡ None)) }
    ensures err { IfErr result (λ code. code ≡ 0 → ⊥) }
    ensures why { IfErr result (λ code. IsNoText (All IsField (fields_of fields.now)) code
        ⊎ ((code ≡ LIMIT) × (fault_of ASKED.now (fields_of fields.now) ≡ None → ⊥))) }
{
    let pairs = texts_of(alloc, fields)?;
    match Article::read(alloc, ASKED, &pairs) {
        Ok(article) => Ok(article),
        Err(ArticleFault::NoMemory) => Err(code::NO_MEMORY),
        Err(_) => Err(code::LIMIT),
    }
}

/// Whether two queries are near in an article of these fields: that of `near_holds` of `clip_near`. `QUERY` also where
/// one is no word, phrase or prefix. The cost is that of reading both texts and the article, and of `near_holds`.
fn near_told(alloc: Global, fields: &[Field<'_>], pair: &Pair<'_>) -> Result<bool, u32>
    ensures ok { IfOk result (λ answer. IsNear (fields_of fields.now) pair.now answer) }
    ensures err { IfErr result (λ code. code ≡ 0 → ⊥) }
    ensures why { IfErr result (IsUntold (fields_of fields.now) pair.now) }
{
    let first = query_of(alloc, pair.first)?;
    let second = query_of(alloc, pair.second)?;
    let article = article_of(alloc, fields)?;
    match near_holds(&first, &second, pair.between, pair.ordered, &article) {
        Ok(answer) => Ok(answer),
        Err(_) => Err(code::QUERY),
    }
}

/// Tells whether two queries are near in an article of these fields, where the answer is 0. Else it is `UTF8` where a
/// text is none, `QUERY` where one of the two is no query or no word, phrase or prefix, `LIMIT` where no article has
/// these fields, and `NO_MEMORY` where an allocation failed. The cost is that of reading both texts and the article,
/// and of `near_holds`.
pub fn near(alloc: Global, fields: &[Field<'_>], pair: &Pair<'_>, answer: &mut bool) -> u32
    ensures { NearTo (fields_of fields.now) pair.now result answer.new }
{
    match near_told(alloc, fields, pair) {
        Ok(told) => {
            *answer = told;
            code::OK
        }
        Err(code) => code,
    }
}
