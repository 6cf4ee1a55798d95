//! Standing queries, entries and segments: worked examples and limits.
use crate::making::{segment, text_key};
use crate::showing::{places, tree};
use clip_segment::{Segment, positions_with_key};
use clip_standing::{Standing, StandingFault};
use clip_words::NoMemory;
use std::alloc::{AllocError, Global};
use std::test::Fail;

/// Rows: an id and a query's text, and the standing query or why it is refused.
static STANDINGS: [(&str, &str, &str); 6] = [
    (
        "q1",
        "+Tea",
        "q1 `+Tea` (+text=tea) (+text=tea) (+text=tea) desk",
    ),
    ("", "tea", "Id"),
    ("", "", "Id"),
    ("q1", "", "Query(Structure)"),
    ("q1", "tea~", "Query(LeftOut)"),
    ("q1", "tea \"", "Query(Lexical(4))"),
];

/// A standing query as text: its query as it is taken first, as it is taken once more, and as it is read.
fn show(alloc: Global, standing: &Standing) -> Result<String, NoMemory> {
    let first = tree(alloc, &standing.take_query(alloc)?)?;
    let more = tree(alloc, &standing.take_query(alloc)?)?;
    let query = tree(alloc, &standing.query(alloc)?)?;
    let (id, text) = (standing.id(), standing.text());
    let listener = standing.listener().unwrap_or("-");
    Ok(format!(in alloc; "{id} `{text}` {first} {more} {query} {listener}")?)
}

/// A fault as text.
fn fault_text(alloc: Global, fault: StandingFault) -> Result<String, AllocError> {
    format!(in alloc; "{fault:?}")
}

/// The standing query of an id and a text for the listener `desk`, or why it is refused.
fn standing_or_fault(alloc: Global, id: &str, text: &str) -> Result<String, NoMemory> {
    let (id, text) = (String::from_str(alloc, id)?, String::from_str(alloc, text)?);
    let listener = String::from_str(alloc, "desk")?;
    match Standing::read(alloc, id, text, Some(listener)) {
        Ok(standing) => show(alloc, &standing),
        Err(fault) => Ok(fault_text(alloc, fault)?),
    }
}

#[test]
fn a_standing_query_is_read_or_its_first_refusal_is_answered(rt: HostRuntime) -> Result<(), Fail> {
    for (id, text, wanted) in &STANDINGS {
        let told = standing_or_fault(rt.alloc(), id, text)?;
        assert!(rt; told.as_str() == *wanted, "{told}");
    }
    Ok(())
}

/// The positions of the entries that hold a word of the field `text`, each with a space after it.
fn positions(alloc: Global, segment: &Segment, word: &str) -> Result<String, AllocError> {
    let key = text_key(alloc, word)?;
    places(alloc, positions_with_key(segment, &key))
}

/// Rows: a word, and the positions of the entries that hold it.
static HOLDERS: [(&str, &str); 3] = [("coffee", "0 1 "), ("tea", "0 "), ("milk", "")];

#[test]
fn a_segment_finds_the_holders_of_a_key(rt: HostRuntime) -> Result<(), Fail> {
    let segment = segment(rt.alloc())?;
    for (word, wanted) in &HOLDERS {
        let told = positions(rt.alloc(), &segment, word)?;
        assert!(rt; told.as_str() == *wanted, "{word}: {told}");
    }
    Ok(())
}
