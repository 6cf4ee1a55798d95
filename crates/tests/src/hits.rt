//! Hits: where in an article a query holds.
use crate::script::answer;
use clip_match::{HitsFound, Registrar, entries_due};
use clip_meaning::Hit;
use clip_samples::{article, standing};
use clip_standing::{Alert, Command};
use std::alloc::{AllocError, Global};
use std::test::Fail;

/// A query, an article's fields, each a name and a text, and the hits.
type Row = (
    &'static str,
    &'static [(&'static str, &'static str)],
    &'static str,
);

#[rattlefmt::skip]
static ROWS: [Row; 17] = [
    ("\"tea tea\"", &[("text", "tea tea tea")], "text@0 text@1 text@2 "),
    ("tea te*", &[("text", "tea")], "text@0 "),
    ("(tea -coffee) *:*", &[("text", "coffee tea")], "text@1 "),
    ("*:*", &[("text", "tea")], ""),
    ("title:gre* [m TO z]", &[("title", "Green grey"), ("text", "milk")], "text@0 title@0 title@1 "),
    // occurrences that overlap
    ("\"a b a\"", &[("text", "a b a b a")], "text@0 text@1 text@2 text@3 text@4 "),
    // phrases that repeat, looked for from the start of a text on
    ("\"a a b\"", &[("text", "a a a b")], "text@1 text@2 text@3 "),
    ("\"a a a\"", &[("text", "a a a a b a a")], "text@0 text@1 text@2 text@3 "),
    ("\"a b a b c\"", &[("text", "a b a b a b c a b a b")], "text@2 text@3 text@4 text@5 text@6 "),
    ("\"a b a c a b d\"", &[("text", "a b a c a b a c a b d a b a c a b")],
        "text@4 text@5 text@6 text@7 text@8 text@9 text@10 "),
    // a phrase whose first words are at the end
    ("tea \"a a b\"", &[("text", "b tea a a")], "text@1 "),
    // a leaf inside and outside of a group that is excluded, and below two exclusions
    ("tea -(tea +milk)", &[("text", "tea")], "text@0 "),
    ("tea -(coffee -milk)", &[("text", "milk tea")], "text@1 "),
    // a leaf whose own group does not hold, and a phrase that does not occur
    ("(+tea +milk) OR coffee", &[("text", "tea, coffee")], "text@0 text@1 "),
    ("tea \"green leaf\"", &[("text", "green tea leaf")], "text@1 "),
    // other fields, and none
    ("a:tea tea", &[("text", "milk"), ("a", "a tea"), ("b", "tea")], "a@1 "),
    ("tea", &[], ""),
];

/// Adds hits, each a field and a position, with a space after it.
pub fn add_hits(text: &mut String, hits: &[Hit]) -> Result<(), AllocError> {
    for hit in hits {
        let (field, position) = (&hit.field, hit.position);
        write!(text, "{field}@{position} ")?;
    }
    Ok(())
}

/// The hits of a query in an article.
fn hits_of(alloc: Global, query: &str, fields: &[(&str, &str)]) -> Result<String, Fail> {
    let alert = Alert::of(
        &standing(alloc, "q1", query)?,
        &article(alloc, "a1", fields)?,
    )?;
    let mut text = String::new(alloc);
    add_hits(&mut text, &alert.hits(alloc)?)?;
    Ok(text)
}

#[test]
fn hits_are_the_words_that_leaves_below_no_exclusion_name(rt: HostRuntime) -> Result<(), Fail> {
    for (query, fields, wanted) in &ROWS {
        let hits = hits_of(rt.alloc(), query, fields)?;
        assert!(rt; hits.as_str() == *wanted, "{query}: {hits}");
    }
    Ok(())
}

/// What the alert of a query and an article carries when its hits are found then: the hits, or `none` where it carries
/// none. Nothing where the query does not hold.
fn carried(
    alloc: Global,
    query: &str,
    fields: &[(&str, &str)],
    hits: HitsFound,
) -> Result<String, Fail> {
    let mut registrar = Registrar::new(alloc);
    let list = vec![in alloc; standing(alloc, "q1", query)?]?;
    answer(alloc, &mut registrar, 1, Command::Register(list))?;
    let (view, article) = (registrar.view()?, article(alloc, "a1", fields)?);
    let mut text = String::new(alloc);
    let found = entries_due(alloc, &view, &article, hits)?.alerts(alloc)?;
    for alert in &found.alerts {
        match alert.found_hits() {
            Some(hits) => add_hits(&mut text, hits)?,
            None => text.push_str("none")?,
        }
    }
    Ok(text)
}

#[test]
fn hits_that_are_found_at_once_are_those_that_are_found_when_asked(
    rt: HostRuntime,
) -> Result<(), Fail> {
    for (query, fields, wanted) in &ROWS {
        let hits = carried(rt.alloc(), query, fields, HitsFound::AtOnce)?;
        assert!(rt; hits.as_str() == *wanted, "{query}: {hits}");
    }
    let none = carried(rt.alloc(), "tea", &[("text", "tea")], HitsFound::WhenAsked)?;
    assert!(rt; none.as_str() == "none", "{none}");
    Ok(())
}
