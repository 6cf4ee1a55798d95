//! What the tests give to calls: a view of three queries, and three articles.
use clip_match::{Registrar, View};
use clip_meaning::Article;
use clip_samples::{article, standing};
use clip_standing::Command;
use std::alloc::Global;

/// A view with q1 `tea`, q2 `coffee` and q3 `+tea +milk`, or `None` where an allocation failed.
pub fn three_queries(alloc: Global) -> Option<View> {
    let list = vec![in alloc;
        standing(alloc, "q1", "tea").ok()?,
        standing(alloc, "q2", "coffee").ok()?,
        standing(alloc, "q3", "+tea +milk").ok()?,
    ];
    let command = Command::Register(list.ok()?);
    let mut registrar = Registrar::new(alloc);
    if command.fits() {
        registrar.apply(1, command).ok()?;
    }
    registrar.view().ok()
}

/// The article of an id and of a text in its field `text`, or `None` where an allocation failed.
pub fn article_of(alloc: Global, id: &str, text: &str) -> Option<Article> {
    article(alloc, id, &[("text", text)]).ok()
}

/// The articles a1 `tea`, a2 `coffee milk` and a3 `tea milk`, or `None` where an allocation failed.
pub fn three_articles(alloc: Global) -> Option<Vec<Article>> {
    let list = vec![in alloc;
        article_of(alloc, "a1", "tea")?,
        article_of(alloc, "a2", "coffee milk")?,
        article_of(alloc, "a3", "tea milk")?,
    ];
    list.ok()
}

/// The alerts of the three articles, worked by hand. `+tea +milk` is found by its longer word, so q3 is asked of
/// a2 too.
pub const ALERTS_OF_THREE: &str = "a1 1 1 q1/a1/-. a2 1 2 q2/a2/-. a3 1 2 q1/a3/- q3/a3/-. ";
