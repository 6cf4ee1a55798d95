//! Folding and the words of texts.
use clip_words::{NoMemory, fold, packed_words, shared_words, words};
use std::alloc::{AllocError, Global};
use std::test::Fail;

/// Rows: a text, its words with a bar after each, and its folding.
#[rattlefmt::skip]
static ROWS: [(&str, &str, &str); 5] = [
    ("Can't stop 3.14 Wi-Fi, Straße", "can't|stop|3.14|wi|fi|strasse|", "can't stop 3.14 wi-fi, strasse"),
    ("Green TEA, ÉTÉ!", "green|tea|été|", "green tea, été!"),
    ("Wi-Fi STRASSE", "wi|fi|strasse|", "wi-fi strasse"),
    ("Straße ΣΑΣ ẞ", "strasse|σασ|ss|", "strasse σασ ss"),
    ("", "", ""),
];

/// Adds a word with a bar after it.
fn add_word(told: &mut String, word: &str) -> Result<(), AllocError> {
    told.push_str(word)?;
    told.push('|')
}

/// The words of a text, with a bar after each.
fn cut(alloc: Global, text: &str) -> Result<String, NoMemory> {
    let words = words(alloc, text)?;
    let mut told = String::new(alloc);
    for word in &words {
        add_word(&mut told, word)?;
    }
    Ok(told)
}

/// The packed words of a text, with a bar after each.
fn cut_packed(alloc: Global, text: &str) -> Result<String, NoMemory> {
    let words = packed_words(alloc, text)?;
    let mut told = String::new(alloc);
    for word in &words {
        add_word(&mut told, word)?;
    }
    Ok(told)
}

/// The shared words of a text, with a bar after each.
fn cut_shared(alloc: Global, text: &str) -> Result<String, NoMemory> {
    let words = shared_words(alloc, text)?;
    let mut told = String::new(alloc);
    for word in &words {
        add_word(&mut told, word)?;
    }
    Ok(told)
}

#[test]
fn words_are_cut_at_unicode_boundaries_and_folded(rt: HostRuntime) -> Result<(), Fail> {
    for (text, wanted, _) in &ROWS {
        assert!(rt; cut(rt.alloc(), text)?.as_str() == *wanted, "{text}");
        assert!(rt; cut_packed(rt.alloc(), text)?.as_str() == *wanted, "{text}");
        assert!(rt; cut_shared(rt.alloc(), text)?.as_str() == *wanted, "{text}");
    }
    Ok(())
}

#[test]
fn a_text_folds_whole(rt: HostRuntime) -> Result<(), Fail> {
    for (text, _, wanted) in &ROWS {
        assert!(rt; fold(rt.alloc(), text)?.as_str() == *wanted, "{text}");
    }
    Ok(())
}
