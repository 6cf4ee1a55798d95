//! Replies for people: a few lines of text, with a caret under each place that is spoken of.
use crate::asked::{Ask, Input};
use crate::faults::{fault_says, fault_word};
use crate::lines::{LineFault, fault_of_line};
use crate::pieces::push_all;
use crate::refused::refused_says;
use crate::remarked::level_word;
use crate::sentence::sentence;
use clip_cause::Place;
use clip_explain::{Explained, Explanation, explain, spell};
use clip_protocol::Refusal;
use clip_remarks::{Level, Remark, remarks};
use clip_where::{WordSpan, word_spans};
use clip_words::{NoMemory, fold};
use std::alloc::Global;
use std::str;
use unicode_width::UnicodeWidthStr;

/// The character as it is shown: a blank for each control character.
fn blank_control(c: char) -> char {
    if c.is_control() { ' ' } else { c }
}

/// Puts a text behind what is there as it is shown: on one line.
fn push_visible(out: &mut String, text: &str) -> Result<(), NoMemory> {
    for c in text.chars() {
        out.push(blank_control(c))?;
    }
    Ok(out.push('\n')?)
}

/// Puts so many blanks behind what is there.
fn push_blanks(out: &mut String, count: usize) -> Result<(), NoMemory> {
    for _ in 0..count {
        out.push(' ')?;
    }
    Ok(())
}

/// Puts a note behind what is there: a line with a caret that stands under a byte of the text above it.
fn push_note(
    out: &mut String,
    text: &str,
    at: usize,
    head: &str,
    says: &str,
) -> Result<(), NoMemory> {
    let before = text.get(..at).unwrap_or(text);
    push_blanks(out, before.width())?;
    push_all(out, &["^ ", head, ": ", says, "\n"])
}

/// Puts a line behind what is there.
fn push_line(out: &mut String, head: &str, says: &str) -> Result<(), NoMemory> {
    push_all(out, &[head, ": ", says, "\n"])
}

/// Puts a line behind what is there, of a text that is let go.
fn push_told(out: &mut String, head: &str, says: String) -> Result<(), NoMemory> {
    push_line(out, head, says.as_str())
}

/// Puts a remark on a text behind what is there, under its place, but for a hint.
fn push_remark(out: &mut String, text: &str, remark: &Remark) -> Result<(), NoMemory> {
    let rule = remark.rule;
    match rule.level() {
        Level::Hint => Ok(()),
        level => push_note(out, text, remark.at, level_word(level), rule.says()),
    }
}

/// Puts behind what is there the remarks on a query's text but for hints.
fn push_remarks(out: &mut String, alloc: Global, text: &str) -> Result<(), NoMemory> {
    let remarks = remarks(alloc, text)?;
    for remark in &remarks {
        push_remark(out, text, remark)?;
    }
    Ok(())
}

/// Puts behind what is there how a query is read.
fn push_read(out: &mut String, alloc: Global, told: &Explanation) -> Result<(), NoMemory> {
    push_told(out, "reads as", spell(alloc, &told.query)?)?;
    push_told(out, "means", sentence(alloc, told)?)
}

/// Puts behind what is there what is told of a query's text.
fn push_query(out: &mut String, alloc: Global, text: &str) -> Result<(), NoMemory> {
    push_visible(out, text)?;
    match explain(alloc, text)? {
        Explained::Read(told) => {
            push_remarks(out, alloc, text)?;
            push_read(out, alloc, &told)
        }
        Explained::Refused(why) => push_note(
            out,
            text,
            why.at,
            fault_word(why.fault),
            fault_says(text, why.at, why.fault),
        ),
    }
}

/// Puts a number behind what is there, and what stands before it.
fn push_number(
    out: &mut String,
    alloc: Global,
    before: &str,
    number: usize,
) -> Result<(), NoMemory> {
    let digits = number.to_string(alloc)?;
    push_all(out, &[before, digits.as_str()])
}

/// Puts a word of a text behind what is there, with where it stands.
fn push_word(out: &mut String, alloc: Global, text: &str, span: &WordSpan) -> Result<(), NoMemory> {
    push_number(out, alloc, "bytes ", span.start)?;
    push_number(out, alloc, " to ", span.end)?;
    let word = text.get(span.start..span.end).unwrap_or("");
    push_told(out, "", fold(alloc, word)?)
}

/// Puts the words of a text behind what is there, each with where it stands.
fn push_words(out: &mut String, alloc: Global, text: &str) -> Result<(), NoMemory> {
    push_visible(out, text)?;
    let spans = word_spans(alloc, text)?;
    for span in &spans {
        push_word(out, alloc, text, span)?;
    }
    Ok(())
}

/// Puts behind what is there why a line of the protocol would be refused.
fn push_fault(out: &mut String, line: &str, fault: &LineFault) -> Result<(), NoMemory> {
    let word = fault.refusal.word();
    match &fault.place {
        Place::Byte(at) => push_note(out, line, *at, word, fault.says),
        Place::Member(path) => {
            push_line(out, "at", path)?;
            push_line(out, word, fault.says)
        }
    }
}

/// Puts behind what is there what a line of the protocol would be refused for.
fn push_cause(out: &mut String, alloc: Global, line: &str) -> Result<(), NoMemory> {
    push_visible(out, line)?;
    match fault_of_line(alloc, line.as_bytes())? {
        Some(fault) => push_fault(out, line, &fault),
        None => push_line(
            out,
            "line",
            "The line is not refused for what it says itself.",
        ),
    }
}

/// Puts behind what is there what is told of a line that asks for nothing as JSON: it is a query's text itself.
fn push_other(
    out: &mut String,
    alloc: Global,
    reason: Refusal,
    bytes: &[u8],
) -> Result<(), NoMemory> {
    match str::from_utf8(bytes) {
        Ok(text) => match reason {
            Refusal::Long => push_line(out, reason.word(), refused_says(reason)),
            _ => push_query(out, alloc, text),
        },
        Err(_) => push_line(out, reason.word(), refused_says(reason)),
    }
}

/// Puts the reply to a line of the input behind what is there, with an empty line at its end.
fn push_reply(
    out: &mut String,
    alloc: Global,
    input: &Input,
    bytes: &[u8],
) -> Result<(), NoMemory> {
    match input {
        Input::Blank => return Ok(()),
        Input::Refused(reason) => push_other(out, alloc, *reason, bytes)?,
        Input::Asks(Ask::Query(text)) => push_query(out, alloc, text)?,
        Input::Asks(Ask::Text(text)) => push_words(out, alloc, text)?,
        Input::Asks(Ask::Line(text)) => push_cause(out, alloc, text)?,
    }
    Ok(out.push('\n')?)
}

/// The reply to a line of the input as text for people, with an empty line at its end. A line that asks for nothing as
/// JSON is taken as the text of a query. `NoMemory` where an allocation failed.
pub fn plain_reply(alloc: Global, input: &Input, bytes: &[u8]) -> Result<Vec<u8>, NoMemory> {
    let mut out = String::new(alloc);
    push_reply(&mut out, alloc, input, bytes)?;
    Ok(out.into_bytes())
}
