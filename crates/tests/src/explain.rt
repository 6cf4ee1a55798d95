//! Texts with where their lexemes stand, worked out by hand.
use clip_explain::lexemes;
use std::alloc::{AllocError, Global};
use std::test::Fail;

/// Each a text, and the first byte and the end of each of its lexemes that say tokens, and the end of the last one.
#[rattlefmt::skip]
static LEXEMES: [(&str, &str); 5] = [
    ("tea:\"a b\"~ [a TO b]", " 0..3 3..4 4..9 9..10 11..19; 19"),
    ("caf\u{e9}\u{3000}+\\u0041* ", " 0..5 8..9 9..16; 17"),
    ("tea \"milk", " 0..3; 4"),
    ("-tea-x", " 0..1 1..6; 6"),
    ("", "; 0"),
];

/// Where the lexemes of a text stand.
fn lexemes_text(alloc: Global, text: &str) -> Result<String, AllocError> {
    let Ok(lexed) = lexemes(alloc, text) else {
        return String::from_str(alloc, "no memory");
    };
    let mut line = String::new(alloc);
    for lexeme in &lexed.lexemes {
        let place = format!(in alloc; " {}..{}", lexeme.start, lexeme.end)?;
        line.push_str(&place)?;
    }
    let end = format!(in alloc; "; {}", lexed.end)?;
    line.push_str(&end)?;
    Ok(line)
}

#[test]
fn the_lexemes_of_a_text_stand_where_they_are_written(rt: HostRuntime) -> Result<(), Fail> {
    for (text, wanted) in &LEXEMES {
        let found = lexemes_text(rt.alloc(), text)?;
        assert!(rt; found.as_str() == *wanted, "{text}: {found}");
    }
    Ok(())
}
