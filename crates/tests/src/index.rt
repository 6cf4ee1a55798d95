//! Segments as indexes over their queries: against a map of keys made here, and over more queries than a word
//! of bits has.
use crate::making::{segment_of, text_key};
use clip_extract::{Key, keys};
use clip_presearch::article_keys;
use clip_samples::{article, owned};
use clip_segment::{Segment, positions_with_key};
use clip_syntax::read_query;
use std::alloc::Global;
use std::collections::BTreeMap;
use std::process::Abort;
use std::test::Fail;

/// Queries of every form without operators, drawn at random.
static TEXTS: [&str; 64] = [
    "te",
    "{extraordinary TO teapot]",
    "-(+title:teapot) -tea +extraordinary",
    "+title:t* -extraordinary title:été mat",
    "[* TO mat]",
    "title:tea",
    "-extraord* -((-é* -[milk TO *})) -title:extraordinary",
    "-(-title:mat)",
    "+title:[tea TO été] -(+été -milk -teapot -teapots*)",
    "*:*",
    "-extraordinary",
    "-(title:été)",
    r#"(-title:te +title:extraordinarily) "été été" -title:t* -teapot"#,
    "(-é*) (title:[teapot TO mat})",
    "title:milk",
    "mat",
    "-(+title:[teapot TO milk])",
    "teapot",
    r#"tea +(-title:"te été te")"#,
    "+te",
    r#"title:"mat extraordinary mat" +title:extraordinarily"#,
    "+é*",
    r#"-(+teapot title:milk (+"extraordinary") -title:teapot) extraordinarily"#,
    "title:te",
    "+(-tea title:te) -(-title:mi* +extraordinary)",
    "-title:tea",
    "title:extraordinarily",
    "+title:t*",
    "-*:* +teapot",
    r#"teapots* +(+title:teapot +title:mi*) -"été mat te""#,
    r#"été (+title:tea +title:extraordinary) -tea +"extraordinary milk mat""#,
    "+title:te -(+*:*)",
    r#"+(+title:"te" -title:milk)"#,
    "é*",
    "-extraordinary -*:*",
    r#"+title:été (*:* -title:"milk mat milk") +(-été)"#,
    r#"+(-title:"mat extraordinarily te" -title:"milk")"#,
    r#"-(-title:"été" title:"te" extraord* +été) mat"#,
    r#"-"teapot teapot été" mat"#,
    r#"title:"extraordinary""#,
    "-extraordx* (+title:extraordinary)",
    "extraordinarily",
    "+(+title:extraordinary (-title:teapot +title:mat))",
    "été",
    r#"-teapots* +(title:"milk teapot extraordinary") -title:[mat TO été}"#,
    "extraordinary -title:mat title:{* TO te}",
    "title:{teapot TO *}",
    "-{extraordinary TO teapot]",
    "title:extraordinari*",
    "-*:*",
    r#"-(+title:"milk" title:tea* tea) -title:extraordinary"#,
    "title:extraordinary",
    "title:{milk TO extraordinarily]",
    r#"-title:"extraordinarily teapot" -((+teapot +été) -mi*)"#,
    "title:é*",
    r#""te" title:te "extraordinary teapot" -title:"été milk teapot""#,
    r#"-title:été -(title:teapot "extraordinary" -title:extraordinarily)"#,
    "-title:teapots* (title:teapot -title:mi* -title:teapot)",
    "te*",
    r#"-(+title:teapot title:été) -(+"te" -(+tea +été -*:* milk) -mi*)"#,
    r#"+title:"teapot""#,
    "+(+tea -{milk TO mat} title:extraordinary)",
    "-(-title:[teapot TO mat] -milk -title:tea -été)",
    "(+title:{te TO tea] +title:{extraordinary TO milk])",
];

/// The words that the queries of `TEXTS` are made of.
const WORDS: &str = "tea teapot te milk mat été extraordinarily extraordinary";

/// The places of queries by their keys.
type Places = BTreeMap<Key, Vec<u32>>;

/// Adds the place of the query of a text to those under each of its keys.
fn add_query(alloc: Global, places: &mut Places, text: &str, place: u32) -> Result<(), Fail> {
    let query = read_query(alloc, text)?;
    for key in keys(alloc, &query)? {
        places.entry(key)?.or_default().push(place)?;
    }
    Ok(())
}

/// For each key of the queries of texts the places of those that have it.
fn places_by_key(alloc: Global, texts: &[&str]) -> Result<Places, Fail> {
    let mut places = BTreeMap::new(alloc);
    let mut place = 0u32;
    for text in texts {
        add_query(alloc, &mut places, text, place)?;
        place = place.wrapping_add(1);
    }
    Ok(places)
}

/// Checks that a segment has under each of these keys the places that the map has, or none.
fn check_keys(rt: &impl Abort, segment: &Segment, places: &Places, keys: &[Key]) {
    for key in keys {
        let wanted: &[u32] = places.get(key).map_or(&[], |places| places.as_slice());
        assert!(rt; positions_with_key(segment, key) == wanted);
    }
}

#[test]
fn an_index_has_under_each_key_what_a_map_has(rt: HostRuntime) -> Result<(), Fail> {
    let alloc = rt.alloc();
    let segment = segment_of(alloc, &owned(alloc, &TEXTS)?)?;
    let places = places_by_key(alloc, &TEXTS)?;
    let article = article(alloc, "a1", &[("text", WORDS), ("title", WORDS)])?;
    check_keys(&rt, &segment, &places, &article_keys(alloc, &article)?);
    for (key, wanted) in places.iter() {
        assert!(rt; positions_with_key(&segment, key) == wanted.as_slice());
    }
    Ok(())
}

/// The texts of so many queries of two words: one that each has, and one of its own.
fn numbered_texts(alloc: Global, count: u32) -> Result<Vec<String>, Fail> {
    let mut texts = Vec::new(alloc);
    for number in 0..count {
        texts.push(format!(in alloc; "tea own{number}")?)?;
    }
    Ok(texts)
}

/// Checks what an index over so many queries has under the word of all and under that of the last.
fn check_count(rt: &impl Abort, alloc: Global, count: u32) -> Result<(), Fail> {
    let segment = segment_of(alloc, &numbered_texts(alloc, count)?)?;
    let shared = text_key(alloc, "tea")?;
    let all = positions_with_key(&segment, &shared);
    assert!(rt; all.len() == count as usize);
    for (place, found) in all.iter().enumerate() {
        assert!(rt; *found as usize == place);
    }
    let last = count.saturating_sub(1);
    let own = text_key(alloc, &format!(in alloc; "own{last}")?)?;
    assert!(rt; positions_with_key(&segment, &own) == [last].as_slice());
    Ok(())
}

#[test]
fn an_index_finds_all_queries_and_the_last_one(rt: HostRuntime) -> Result<(), Fail> {
    for count in [1u32, 63, 64, 65, 4096] {
        check_count(&rt, rt.alloc(), count)?;
    }
    Ok(())
}
