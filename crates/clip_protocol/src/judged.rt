//! Drafts that are within the limits of an article, and the reading of their articles.
ghost use Rattle.std.specs.Prelude.{◌≡◌, map, IfOk};
ghost use Rattle.clip_meaning.specs.Article.{may_be};
ghost use Rattle.clip_protocol.specs.LineMeaning.{article_of};
ghost use Rattle.clip_protocol.specs.Steps.Outline.{ReadsAs, articles_in};
ghost use Rattle.clip_protocol.specs.Steps.Views.{draft_view};

use crate::refusal::{LIMITED, Refusal, Unread};
use crate::request::Draft;
use clip_meaning::{Article, ArticleFault, fault_of};
use clip_model::MOST_ARTICLES;
use clip_words::NoMemory;
use std::alloc::Global;
use std::marker::Model;

/// A draft that is within the limits of an article. Its texts are not cut into words yet, which any thread may do.
///
/// Contracts see it as the article that it is.
pub struct JudgedDraft {
    draft: Draft,
}

impl Drop for JudgedDraft {
    fn drop(self) {
        let JudgedDraft { draft: _ } = self;
    }
}

impl Model for JudgedDraft {
    ghost use Rattle.std.specs.Prelude.{◌≡◌, None, string_bytes};
    ghost use Rattle.clip_meaning.specs.Article.{ArticleValue, article_code, article_value, fault_of, pairs_of};

    ghost Value = { ArticleValue };

    ghost coded = { article_code };

    ghost view = { λ j. article_value (string_bytes j.draft.id) (pairs_of j.draft.fields.items) };

    ghost invariant = { λ j. fault_of (string_bytes j.draft.id) (pairs_of j.draft.fields.items) ≡ None };
}

impl JudgedDraft {
    ghost use Rattle.std.specs.Prelude.{◌≡◌, Some, None, IfOk, if◌then◌else◌};

    /// The draft, where it is within the limits of an article. Takes no memory. Cost: that of `fault_of`.
    pub fn of(draft: Draft) -> Option<JudgedDraft>
        ensures { result ≡ (if may_be (draft_view draft).id (draft_view draft).fields
            then Some (article_of (draft_view draft)) else None) }
    {
        match fault_of(draft.id.as_str(), &draft.fields) {
            Some(_) => None,
            None => Some(JudgedDraft { draft }),
        }
    }

    /// The article that the draft is. `NoMemory` where `Article::read` answers it, and only there. Cost: that of
    /// `Article::read`.
    pub fn read(&self, alloc: Global) -> Result<Article, NoMemory>
        ensures { IfOk result (λ article. article ≡ self.now) }
    {
        match Article::read(alloc, self.draft.id.as_str(), &self.draft.fields) {
            Ok(article) => Ok(article),
            Err(ArticleFault::NoMemory) => Err(NoMemory),
            Err(_) => unreachable!(),
        }
    }
}

/// The drafts, where a line may list so many, at most 256, and each is within the limits of an article; else the
/// refusal `Limit`. No text is cut. Cost: that of `fault_of` for each.
pub fn judge_drafts(alloc: Global, drafts: Vec<Draft>) -> Result<Vec<JudgedDraft>, Unread>
    ensures { ReadsAs Refusal.Limit (λ all. all.items) (articles_in (map draft_view drafts.items)) result }
{
    if drafts.len() > MOST_ARTICLES {
        return Err(LIMITED);
    }
    let mut all = Vec::with_capacity(alloc, drafts.len())?;
    for draft in drafts {
        match JudgedDraft::of(draft) {
            Some(judged) => all.push(judged)?,
            None => return Err(LIMITED),
        }
    }
    Ok(all)
}

/// The articles that judged drafts are, in order. `NoMemory` where an allocation failed or `Article::read` answers it,
/// and only there. Cost: that of `Article::read` for each.
pub fn articles_of(alloc: Global, drafts: &[JudgedDraft]) -> Result<Vec<Article>, NoMemory>
    ensures { IfOk result (λ all. all.items ≡ drafts.now) }
{
    let mut all = Vec::with_capacity(alloc, drafts.len())?;
    for draft in drafts {
        all.push(draft.read(alloc)?)?;
    }
    Ok(all)
}
