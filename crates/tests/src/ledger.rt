//! The ledger: worked examples.
use crate::hits::add_hits;
use crate::making::alerts;
use clip_ledger::{Ledger, Row};
use clip_listen::Note;
use clip_words::NoMemory;
use std::alloc::{AllocError, Global};
use std::sync::ArcStr;
use std::test::Fail;

/// A note of a listener, a query and a text.
fn note(alloc: Global, listener: &str, query: &str, text: &str) -> Result<Note, AllocError> {
    let listener = ArcStr::from_str(alloc, listener)?;
    let query = ArcStr::from_str(alloc, query)?;
    let text = ArcStr::from_str(alloc, text)?;
    Ok(Note {
        listener,
        query,
        text,
    })
}

/// Notes, each of a listener, a query and a text.
fn notes(alloc: Global, notes: &[(&str, &str, &str)]) -> Result<Vec<Note>, AllocError> {
    let mut made = Vec::new(alloc);
    for (listener, query, text) in notes {
        made.push(note(alloc, listener, query, text)?)?;
    }
    Ok(made)
}

/// A text, or `-` for none.
fn or_dash(text: &Option<ArcStr>) -> &str {
    match text {
        Some(text) => text.as_str(),
        None => "-",
    }
}

/// The rows as lines: the number of the line, the article, the query, the listener, the hits and the text.
fn lines(alloc: Global, rows: &[Row]) -> Result<String, AllocError> {
    let mut text = String::new(alloc);
    for row in rows {
        let (line, article, query) = (row.line, &row.article, &row.query);
        let (listener, said) = (or_dash(&row.listener), or_dash(&row.text));
        write!(text, "{line} {article} {query} {listener} ")?;
        add_hits(&mut text, &row.hits)?;
        write!(text, "{said}\n")?;
    }
    Ok(text)
}

/// Adds how many alerts the listeners have, as a line each.
fn add_totals(text: &mut String, ledger: &Ledger) -> Result<(), AllocError> {
    for listener in ["mail", "feed", "fax"] {
        let total = ledger.total(listener);
        write!(text, "{listener} {total}\n")?;
    }
    Ok(())
}

/// Queries, each with the name of its listener or none.
type Queries = &'static [(&'static str, Option<&'static str>)];

/// Notes, each of a listener, a query and a text.
type Notes = &'static [(&'static str, &'static str, &'static str)];

/// The number of a line, the queries of its alerts, and its notes.
type Post = (u64, Queries, Notes);

/// Adds the rows of a post to the ledger.
fn post(alloc: Global, ledger: &mut Ledger, posted: &Post) -> Result<(), Fail> {
    let (line, queries, said) = posted;
    ledger.post(*line, &alerts(alloc, queries)?, &notes(alloc, said)?)?;
    Ok(())
}

/// The rows of a ledger of these posts, and what each listener has.
fn told(alloc: Global, posts: &[Post]) -> Result<String, Fail> {
    let mut ledger = Ledger::new(alloc);
    for posted in posts {
        post(alloc, &mut ledger, posted)?;
    }
    let mut text = lines(alloc, ledger.rows())?;
    add_totals(&mut text, &ledger)?;
    Ok(text)
}

/// Posts, and the rows and the totals of a ledger of them.
static LEDGERS: [(&[Post], &str); 2] = [
    // each alert has a row with what its listener said
    (
        &[(
            2,
            &[("q1", Some("mail")), ("q2", Some("feed")), ("q3", None)],
            &[
                ("mail", "q1", "mail: q1 in a1"),
                ("feed", "q2", "feed q2/a1"),
            ],
        )],
        "\
2 a1 q1 mail text@0 mail: q1 in a1
2 a1 q2 feed text@0 feed q2/a1
2 a1 q3 - text@0 -
mail 1
feed 1
fax 0
",
    ),
    // a row has the first note of its query, in any order
    (
        &[
            (
                7,
                &[("q2", Some("fax")), ("q1", None), ("q9", Some("fax"))],
                &[
                    ("fax", "q9", "late"),
                    ("mail", "q1", "one"),
                    ("fax", "q9", "later"),
                    ("fax", "q1", "two"),
                ],
            ),
            (8, &[("q1", Some("fax"))], &[]),
        ],
        "\
7 a1 q2 fax text@0 -
7 a1 q1 - text@0 one
7 a1 q9 fax text@0 late
8 a1 q1 fax text@0 -
mail 0
feed 0
fax 3
",
    ),
];

#[test]
fn each_alert_has_a_row_with_the_first_note_of_its_query(rt: HostRuntime) -> Result<(), Fail> {
    for (posts, wanted) in &LEDGERS {
        let told = told(rt.alloc(), posts)?;
        assert!(rt; told.as_str() == *wanted, "{told}");
    }
    Ok(())
}
