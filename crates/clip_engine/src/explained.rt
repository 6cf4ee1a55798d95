//! What is told of a query, a text or a line, as bytes for a caller outside of Rattle.
ghost use Rattle.std.specs.Prelude.{◌≡◌, ◌++◌, false, IfOk, IfErr, OnOk};
ghost use Rattle.std.specs.Str.{IsUtf8};
ghost use Rattle.clip_where.specs.Spans.{spans_of};
ghost use Rattle.clip_explain_lines.specs.Asked as ask;
ghost use Rattle.clip_explain_lines.specs.Replied.{Answers};
ghost use Rattle.clip_explain_lines.specs.Told.{Tells};
ghost use Rattle.clip_engine.specs.Calls.{IsNoLine};
ghost use Rattle.clip_engine.specs.Engine.{has_feed};
ghost use Rattle.clip_engine.specs.Explained.{span_bytes, spans_bytes};
ghost use Rattle.clip_engine.specs.Texts.{IsNoText};

use crate::code;
use crate::found::add_number;
use clip_explain_lines::{line_text, query_text};
use clip_where::{WordSpan, word_spans};
use clip_words::NoMemory;
use std::alloc::Global;

/// What is told of a query's text: that of `query_text`. `UTF8` where the bytes are no text.
pub(crate) fn query_told(alloc: Global, query: &[u8]) -> Result<Vec<u8>, u32>
    ensures ok { IfOk result (λ answer. Tells query.now answer.items) }
    ensures text { OnOk result (IsUtf8 query.now) }
    ensures err { IfErr result (λ code. code ≡ 0 → ⊥) }
    ensures why { IfErr result (IsNoText (IsUtf8 query.now)) }
{
    let Ok(text) = str::from_utf8(query) else {
        return Err(code::UTF8);
    };
    match query_text(alloc, text) {
        Ok(answer) => Ok(answer),
        Err(NoMemory) => Err(code::NO_MEMORY),
    }
}

/// Adds where a word stands: its first byte, and the byte behind its last one.
fn add_span(bytes: &mut Vec<u8>, span: WordSpan) -> Result<(), NoMemory>
    ensures { OnOk result (bytes.new.items ≡ bytes.old.items ++ span_bytes span) }
{
    add_number(bytes, span.start as u64)?;
    add_number(bytes, span.end as u64)
}

/// Where words stand, two numbers for each.
fn bytes_of_spans(alloc: Global, spans: &[WordSpan]) -> Result<Vec<u8>, NoMemory>
    ensures { IfOk result (λ bytes. bytes.items ≡ spans_bytes spans.now) }
{
    let mut bytes = Vec::new(alloc);
    for span in spans {
        add_span(&mut bytes, *span)?;
    }
    Ok(bytes)
}

/// Where the words of a text stand, as bytes.
fn bytes_of_words(alloc: Global, text: &str) -> Result<Vec<u8>, NoMemory>
    ensures { IfOk result (λ bytes. bytes.items ≡ spans_bytes (spans_of text.now)) }
{
    bytes_of_spans(alloc, &word_spans(alloc, text)?)
}

/// Where the words of a text stand, as bytes. `UTF8` where the bytes are no text.
pub(crate) fn words_told(alloc: Global, text: &[u8]) -> Result<Vec<u8>, u32>
    ensures ok { IfOk result (λ bytes. bytes.items ≡ spans_bytes (spans_of text.now)) }
    ensures text { OnOk result (IsUtf8 text.now) }
    ensures err { IfErr result (λ code. code ≡ 0 → ⊥) }
    ensures why { IfErr result (IsNoText (IsUtf8 text.now)) }
{
    let Ok(text) = str::from_utf8(text) else {
        return Err(code::UTF8);
    };
    match bytes_of_words(alloc, text) {
        Ok(bytes) => Ok(bytes),
        Err(NoMemory) => Err(code::NO_MEMORY),
    }
}

/// What a line of the protocol would be refused for: that of `line_text`. `FEED` where it has a line feed.
pub(crate) fn line_told(alloc: Global, line: &[u8]) -> Result<Vec<u8>, u32>
    ensures ok { IfOk result (λ answer. Answers (ask.line line.now) answer.items) }
    ensures line { OnOk result (has_feed line.now ≡ false) }
    ensures err { IfErr result (λ code. code ≡ 0 → ⊥) }
    ensures why { IfErr result (IsNoLine line.now) }
{
    if line.contains(&b'\n') {
        return Err(code::FEED);
    }
    match line_text(alloc, line) {
        Ok(answer) => Ok(answer),
        Err(NoMemory) => Err(code::NO_MEMORY),
    }
}
