//! The keys and weights of queries, and the keys of articles.
use crate::showing::show_keys;
use clip_extract::{keys, second_keys, weight};
use clip_grammar::query::Query;
use clip_presearch::article_keys;
use clip_samples::article;
use clip_syntax::read_query;
use std::alloc::Global;
use std::test::Fail;

/// Rows: the text of a query, and its keys and its weight.
#[rattlefmt::skip]
static ROWS: [(&str, &str); 26] = [
    ("+tea +coffee", "text:coffee 6"),
    ("tea AND coffee", "text:coffee 6"),
    ("tea coffee", "text:coffee text:tea 3"),
    ("+tea +mat", "text:tea 3"),
    ("\"green tea\"", "text:green 5"),
    ("\"tea mat\"", "text:tea 3"),
    ("-spam", "* 0"),
    ("[a TO b]", "* 0"),
    ("tea*", "text:tea* 3"),
    ("tea* coffee", "text:coffee text:tea* 3"),
    // a front is the first on a tie, and has eight characters at most
    ("+tea* +mat", "text:tea* 3"),
    ("+extraordinarily* +[a TO b]", "text:extraord* 8"),
    ("+éééééééééé* +[a TO b]", "text:éééééééé* 8"),
    ("title:tea tea tea", "text:tea title:tea 3"),
    // a required group that nothing narrows, alone and beside one that is narrowed
    ("+([a TO b] tea)", "* text:tea 0"),
    ("+([a TO b] tea) +mat", "text:mat 3"),
    // a disjunction with a branch that nothing narrows
    ("tea [a TO b]", "* text:tea 0"),
    // nested groups
    ("+(tea (coffee mat)) +(ink)", "text:coffee text:mat text:tea 3"),
    ("(+ink +coffee) (+tea -mat)", "text:coffee text:tea 3"),
    // pure negation beside everything
    ("*:* -spam", "* 0"),
    ("+*:* -spam +tea", "text:tea 3"),
    // Should beside Must
    ("coffee +tea -spam", "text:tea 3"),
    // ties: the first counts
    ("+mat +(tea ink)", "text:mat 3"),
    ("+(tea ink) +mat", "text:ink text:tea 3"),
    // characters and not bytes
    ("+éé +abc", "text:abc 3"),
    ("+ééé +abc", "text:ééé 3"),
];

/// The keys and the weight of a query.
fn shown(alloc: Global, query: &Query) -> Result<String, Fail> {
    let mut told = show_keys(alloc, &keys(alloc, query)?)?;
    let heavy = weight(query);
    write!(told, "{heavy}")?;
    Ok(told)
}

/// The keys and the weight of the query of a text.
fn keys_and_weight(alloc: Global, text: &str) -> Result<String, Fail> {
    let query = read_query(alloc, text)?;
    shown(alloc, &query)
}

#[test]
fn a_query_has_the_keys_and_the_weight_of_the_table(rt: HostRuntime) -> Result<(), Fail> {
    for (text, wanted) in &ROWS {
        let told = keys_and_weight(rt.alloc(), text)?;
        assert!(rt; told.as_str() == *wanted, "{text}: {told}");
    }
    Ok(())
}

/// Rows: the text of a query, and its second keys.
#[rattlefmt::skip]
static SECONDS: [(&str, &str); 20] = [
    ("+tea +coffee", "text:tea "),
    ("+coffee +tea", "text:tea "),
    ("tea AND coffee AND cream", "text:cream "),
    // ties: the first that is left counts
    ("+tea +mat +ink", "text:mat "),
    ("+tea +coffee +mat", "text:tea "),
    ("+coffee +cream +sugar", "text:cream "),
    ("+tea +mat +coffee +ink", "text:tea "),
    // a group, and fronts, which are no second keys
    ("+coffee +(tea ink)", "text:ink text:tea "),
    ("+coffee +tea*", ""),
    ("+coffee +(tea* ink)", ""),
    ("+tea* +mat", "text:mat "),
    ("+coffee +\"green tea\"", "text:green "),
    // one Must child, or none
    ("+tea coffee", ""),
    ("+tea -coffee", ""),
    ("tea coffee", ""),
    ("\"green tea\"", ""),
    // a second child that nothing narrows
    ("+tea +[a TO b]", ""),
    ("+coffee +([a TO b] tea)", ""),
    ("+*:* -spam +tea", ""),
    // what may fail does not count
    ("+tea +coffee cream -sugar", "text:tea "),
];

/// The second keys of the query of a text.
fn seconds(alloc: Global, text: &str) -> Result<String, Fail> {
    let query = read_query(alloc, text)?;
    Ok(show_keys(alloc, &second_keys(alloc, &query)?)?)
}

#[test]
fn a_query_has_the_second_keys_of_its_other_required_children(rt: HostRuntime) -> Result<(), Fail> {
    for (text, wanted) in &SECONDS {
        let told = seconds(rt.alloc(), text)?;
        assert!(rt; told.as_str() == *wanted, "{text}: {told}");
    }
    Ok(())
}

/// Fields, each a name and a text.
type Fields = &'static [(&'static str, &'static str)];

/// Rows: the fields of an article, and its keys.
static ARTICLES: [(Fields, &str); 6] = [
    (&[("text", "tea")], "* text:tea text:t* text:te* text:tea* "),
    // folded, and in characters
    (
        &[("text", "Straße")],
        "* text:strasse text:s* text:st* text:str* text:stra* text:stras* text:strass* text:strasse* ",
    ),
    // eight characters at most
    (
        &[("text", "extraordinarily")],
        "* text:extraordinarily text:e* text:ex* text:ext* text:extr* text:extra* text:extrao* text:extraor* \
            text:extraord* ",
    ),
    (
        &[("title", "Zebra apple"), ("body", "tea Milk, tea and TEA")],
        "* body:and body:milk body:tea title:apple title:zebra body:a* body:an* body:and* body:m* body:mi* body:mil* \
            body:milk* body:t* body:te* body:tea* title:a* title:ap* title:app* title:appl* title:apple* title:z* \
            title:ze* title:zeb* title:zebr* title:zebra* ",
    ),
    (&[("text", "")], "* "),
    // words and then fronts, by field and then by text, in the order of bytes
    (
        &[("title", "a"), ("text", "tea é tea te")],
        "* text:te text:tea text:é title:a text:t* text:te* text:tea* text:é* title:a* ",
    ),
];

/// The keys of the article of these fields.
fn keys_of(alloc: Global, fields: Fields) -> Result<String, Fail> {
    let article = article(alloc, "a1", fields)?;
    Ok(show_keys(alloc, &article_keys(alloc, &article)?)?)
}

#[test]
fn an_article_has_any_and_its_words_and_their_fronts_once_in_order(
    rt: HostRuntime,
) -> Result<(), Fail> {
    for (fields, wanted) in &ARTICLES {
        let told = keys_of(rt.alloc(), fields)?;
        assert!(rt; told.as_str() == *wanted, "{told}");
    }
    Ok(())
}
