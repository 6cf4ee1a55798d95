//! Texts, standing queries and articles.
use clip_meaning::{Article, ArticleFault};
use clip_standing::{Standing, StandingFault};
use std::alloc::{AllocError, Global};
use std::sync::Arc;

/// Owned texts.
pub fn owned(alloc: Global, texts: &[&str]) -> Result<Vec<String>, AllocError> {
    let mut owned = Vec::new(alloc);
    for text in texts {
        owned.push(String::from_str(alloc, text)?)?;
    }
    Ok(owned)
}

/// A shared standing query without a listener, or why it is refused.
pub fn standing(alloc: Global, id: &str, text: &str) -> Result<Arc<Standing>, StandingFault> {
    let (id, text) = (String::from_str(alloc, id)?, String::from_str(alloc, text)?);
    match Arc::new(alloc, Standing::read(alloc, id, text, None)?) {
        Ok(standing) => Ok(standing),
        Err(_) => Err(StandingFault::NoMemory),
    }
}

/// Pairs of a field's name and its text.
fn pairs(alloc: Global, fields: &[(&str, &str)]) -> Result<Vec<(String, String)>, AllocError> {
    let mut pairs = Vec::new(alloc);
    for (name, text) in fields {
        let name = String::from_str(alloc, name)?;
        pairs.push((name, String::from_str(alloc, text)?))?;
    }
    Ok(pairs)
}

/// The article of an id and of fields, each a name and a text, or why it is refused.
pub fn article(alloc: Global, id: &str, fields: &[(&str, &str)]) -> Result<Article, ArticleFault> {
    Article::read(alloc, id, &pairs(alloc, fields)?)
}
