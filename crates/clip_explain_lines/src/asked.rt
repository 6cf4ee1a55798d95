//! What a line of the input asks to have explained.
ghost use Rattle.std.specs.Prelude.{◌≡◌, IfOk, Some, None, if◌then◌else◌, option_map, string_bytes};
ghost use Rattle.serde_json.specs.View.{members_view, view};
ghost use Rattle.clip_explain_lines.specs.Asked.{ask_named, ask_of, ask_told, first_of, input_of, only_of, shaped};
ghost use Rattle.clip_explain_lines.specs.Steps.Asking.{ask_view, input_view, member_view};

use clip_protocol::{Refusal, Unread, members_of, read_value};
use clip_words::NoMemory;
use serde_json::{Map, Value};
use std::alloc::Global;

/// What is to be explained.
#[derive(Drop)]
pub enum Ask {
    /// The text of a query.
    Query(String),
    /// A text that has words.
    Text(String),
    /// A line of the protocol.
    Line(String),
}

/// What a line of the input is.
#[derive(Drop)]
pub enum Input {
    /// Nothing.
    Blank,
    /// It is refused: `Long`, `Json` or `Shape`.
    Refused(Refusal),
    /// It asks for this.
    Asks(Ask),
}

/// What a member of this name and with this text asks for.
fn ask_named(name: &str, text: String) -> Option<Ask>
    ensures { option_map ask_view result ≡ ask_named name.now (string_bytes text) }
{
    if name == "query" {
        Some(Ask::Query(text))
    } else if name == "text" {
        Some(Ask::Text(text))
    } else if name == "line" {
        Some(Ask::Line(text))
    } else {
        None
    }
}

/// Takes the first member out: its name and its value.
fn first_of(members: &mut Map<String, Value>) -> Option<(String, Value)>
    ensures { option_map (λ m. ((string_bytes m.0, view m.1), members_view members.new.entries)) result
        ≡ first_of (members_view members.old.entries) }
{
    match members.pop_first() {
        Some((name, value)) => Some((name, value)),
        None => None,
    }
}

/// The name and the value of the one member of an object.
#[tactic(auto, using(crate::proofs::Alone::left_none, crate::proofs::Alone::left_some))]
fn only_of(mut members: Map<String, Value>) -> Option<(String, Value)>
    ensures { option_map member_view result ≡ only_of (members_view members.entries) }
{
    let first = first_of(&mut members)?;
    match first_of(&mut members) {
        Some(_) => None,
        None => Some(first),
    }
}

/// What a member of this name and with this value asks for.
fn ask_told(name: &str, told: Value) -> Option<Ask>
    ensures { option_map ask_view result ≡ ask_told (name.now, view told) }
{
    match told {
        Value::String(text) => ask_named(name, text),
        _ => None,
    }
}

/// What a value asks for.
fn ask_of(value: Value) -> Option<Ask>
    ensures { option_map ask_view result ≡ ask_of (view value) }
{
    let (name, told) = only_of(members_of(value)?)?;
    ask_told(&name, told)
}

/// What a line with this value is.
fn input_of_value(value: Value) -> Input
    ensures { input_view result ≡ shaped (ask_of (view value)) }
{
    match ask_of(value) {
        Some(ask) => Input::Asks(ask),
        None => Input::Refused(Refusal::Shape),
    }
}

/// What a line of the input is, its line feed left out. `NoMemory` where an allocation failed. The cost is that of
/// reading its JSON value.
pub fn input_of(alloc: Global, bytes: &[u8]) -> Result<Input, NoMemory>
    ensures { IfOk result (λ input. input_view input ≡ input_of bytes.now) }
{
    match read_value(alloc, bytes) {
        Ok(Some(value)) => Ok(input_of_value(value)),
        Ok(None) => Ok(Input::Blank),
        Err(Unread::Refused(reason)) => Ok(Input::Refused(reason)),
        Err(Unread::NoMemory) => Err(NoMemory),
    }
}
