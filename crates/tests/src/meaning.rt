//! Articles: worked examples.
use clip_meaning::{Article, ArticleFault, Field};
use clip_samples::article;
use std::alloc::{AllocError, Global};
use std::test::Fail;

/// Fields, each a name and a text.
type Fields = &'static [(&'static str, &'static str)];

/// Rows: an id, fields, and the article or why it is refused: its id, and of each field the name, the words, and
/// the postings, each a word and its position.
#[rattlefmt::skip]
static ARTICLES: [(&str, Fields, &str); 24] = [
    (
        "a1",
        &[("title", "Green Tea"), ("body", "tea, TEA and milk")],
        "a1 [body: tea tea and milk; and@2 milk@3 tea@0 tea@1] [title: green tea; green@0 tea@1]",
    ),
    (
        "a2",
        &[("text", "tea, TEA and milk; tea, and a teapot")],
        "a2 [text: tea tea and milk tea and a teapot; a@6 and@2 and@5 milk@3 tea@0 tea@1 tea@4 teapot@7]",
    ),
    ("a3", &[], "a3"),
    ("a4", &[("text", "Bread, lily; bread")], "a4 [text: bread lily bread; bread@0 bread@2 lily@1]"),
    (
        "a5",
        &[("text", "Bread: money, berry, money, lily")],
        "a5 [text: bread money berry money lily; berry@2 bread@0 lily@4 money@1 money@3]",
    ),
    // words that repeat
    (
        "a6",
        &[("text", "to be or not to be that is the question whether tis nobler in the mind to suffer the slings \
                   and arrows of outrageous fortune or to take arms against a sea of troubles")],
        "a6 [text: to be or not to be that is the question whether tis nobler in the mind to suffer \
         the slings and arrows of outrageous fortune or to take arms against a sea of troubles; a@30 \
         against@29 and@20 arms@28 arrows@21 be@1 be@5 fortune@24 in@13 is@7 mind@15 nobler@12 not@3 \
         of@22 of@32 or@2 or@25 outrageous@23 question@9 sea@31 slings@19 suffer@17 take@27 that@6 \
         the@8 the@14 the@18 tis@11 to@0 to@4 to@16 to@26 troubles@33 whether@10]",
    ),
    // words of the same first letters, the last first
    (
        "a6",
        &[("text", "w49 w48 w47 w46 w45 w44 w43 w42 w41 w40 w39 w38 w37 w36 w35 w34 w33 w32 w31 w30 w29 w28 w27 \
                   w26 w25 w24 w23 w22 w21 w20 w19 w18 w17 w16 w15 w14 w13 w12 w11 w10")],
        "a6 [text: w49 w48 w47 w46 w45 w44 w43 w42 w41 w40 w39 w38 w37 w36 w35 w34 w33 w32 w31 w30 \
         w29 w28 w27 w26 w25 w24 w23 w22 w21 w20 w19 w18 w17 w16 w15 w14 w13 w12 w11 w10; w10@39 \
         w11@38 w12@37 w13@36 w14@35 w15@34 w16@33 w17@32 w18@31 w19@30 w20@29 w21@28 w22@27 w23@26 \
         w24@25 w25@24 w26@23 w27@22 w28@21 w29@20 w30@19 w31@18 w32@17 w33@16 w34@15 w35@14 w36@13 \
         w37@12 w38@11 w39@10 w40@9 w41@8 w42@7 w43@6 w44@5 w45@4 w46@3 w47@2 w48@1 w49@0]",
    ),
    // words with digits, marks and letters beyond z, and of eight letters and more
    (
        "a6",
        &[("text", "étude zebra 1984 _x tea teapot the then there them z9 7up it its i über ab abc abcdefgh \
                   abcdefghi abcdefghj abcdefgh ab a at as are area arena b bb ba 10 1")],
        "a6 [text: étude zebra 1984 _x tea teapot the then there them z9 7up it its i über ab abc \
         abcdefgh abcdefghi abcdefghj abcdefgh ab a at as are area arena b bb ba 10 1; 1@33 10@32 \
         1984@2 7up@11 _x@3 a@23 ab@16 ab@22 abc@17 abcdefgh@18 abcdefgh@21 abcdefghi@19 \
         abcdefghj@20 are@26 area@27 arena@28 as@25 at@24 b@29 ba@31 bb@30 i@14 it@12 its@13 tea@4 \
         teapot@5 the@6 them@9 then@7 there@8 z9@10 zebra@1 étude@0 über@15]",
    ),
    // names
    ("a1", &[("9a", "tea")], "Field"),
    ("a1", &[("", "tea")], "Field"),
    ("a1", &[("a-b", "tea")], "Field"),
    ("a1", &[("a b", "tea")], "Field"),
    ("a1", &[("é", "tea")], "Field"),
    ("a1", &[("a9", "tea")], "a1 [a9: tea; tea@0]"),
    ("a1", &[("_", "tea")], "a1 [_: tea; tea@0]"),
    ("a1", &[("A_z", "tea")], "a1 [A_z: tea; tea@0]"),
    ("a1", &[("a", "tea"), ("b", "tea"), ("a", "milk")], "Twice"),
    // a name of 64 letters and digits, and of 65
    (
        "a1",
        &[("a234567890123456789012345678901234567890123456789012345678901234", "tea")],
        "a1 [a234567890123456789012345678901234567890123456789012345678901234: tea; tea@0]",
    ),
    ("a1", &[("a2345678901234567890123456789012345678901234567890123456789012345", "tea")], "Field"),
    // the order of refusals
    ("", &[("9a", "")], "Id"),
    ("a1", &[("a", "tea"), ("a", "tea"), ("9", "tea")], "Field"),
    // 16 fields
    (
        "a1",
        &[
            ("a", ""), ("b", ""), ("c", ""), ("d", ""), ("e", ""), ("f", ""), ("g", ""), ("h", ""),
            ("i", ""), ("j", ""), ("k", ""), ("l", ""), ("m", ""), ("n", ""), ("o", ""), ("p", ""),
        ],
        "a1 [a:;] [b:;] [c:;] [d:;] [e:;] [f:;] [g:;] [h:;] [i:;] [j:;] [k:;] [l:;] [m:;] [n:;] [o:;] [p:;]",
    ),
    (
        "a1",
        &[
            ("a", ""), ("b", ""), ("c", ""), ("d", ""), ("e", ""), ("f", ""), ("g", ""), ("h", ""),
            ("i", ""), ("j", ""), ("k", ""), ("l", ""), ("m", ""), ("n", ""), ("o", ""), ("p", ""),
            ("q", ""),
        ],
        "TooMany",
    ),
    (
        "a1",
        &[
            ("a", ""), ("b", ""), ("c", ""), ("d", ""), ("e", ""), ("f", ""), ("g", ""), ("h", ""),
            ("i", ""), ("j", ""), ("k", ""), ("l", ""), ("m", ""), ("n", ""), ("o", ""), ("p", ""),
            ("9", ""),
        ],
        "TooMany",
    ),
];

/// Adds a field: its name, its words, and its postings.
fn add_field(text: &mut String, article: &Article, field: &Field) -> Result<(), AllocError> {
    let name = field.name();
    write!(text, " [{name}:")?;
    for word in article.field(name) {
        write!(text, " {word}")?;
    }
    text.push_str(";")?;
    let postings = field.postings();
    for place in 0..postings.len() {
        let posting = postings.at(place);
        let (word, position) = (posting.word(), posting.position());
        write!(text, " {word}@{position}")?;
    }
    text.push_str("]")
}

/// An article as text.
fn show(alloc: Global, article: &Article) -> Result<String, AllocError> {
    let mut text = String::from_str(alloc, article.id())?;
    for field in article.fields() {
        add_field(&mut text, article, field)?;
    }
    Ok(text)
}

/// A fault as text.
fn fault_text(alloc: Global, fault: ArticleFault) -> Result<String, AllocError> {
    format!(in alloc; "{fault:?}")
}

/// An article, or why it is refused.
fn article_or_fault(
    alloc: Global,
    read: Result<Article, ArticleFault>,
) -> Result<String, AllocError> {
    match read {
        Ok(article) => show(alloc, &article),
        Err(fault) => fault_text(alloc, fault),
    }
}

#[test]
fn an_article_has_the_words_and_the_postings_of_each_field_by_name(
    rt: HostRuntime,
) -> Result<(), Fail> {
    for (id, fields, wanted) in &ARTICLES {
        let told = article_or_fault(rt.alloc(), article(rt.alloc(), id, fields))?;
        assert!(rt; told.as_str() == *wanted, "{told}");
    }
    Ok(())
}
