//! JSON values taken apart, their texts moved out and not copied.
ghost use Rattle.std.specs.Prelude.{◌≡◌, map, option_map, option_and_then, string_bytes};
ghost use Rattle.serde_json.specs.Find.{as_str, as_array, as_object};
ghost use Rattle.serde_json.specs.View.{view, items_view, members_view};
ghost use Rattle.clip_protocol.specs.Steps.Outline.{has_members, take_member, two_of, two_members, three_members};
ghost use Rattle.clip_protocol.specs.Steps.Outline.{asked_in, named_in};

use serde_json::{Map, Value};

/// The first of these that has this name.
fn named<O: Copy>(word: &str, these: &[(&'static str, O)]) -> Option<O>
    ensures { result ≡ named_in (map (λ p. (p.0.now, p.1)) these.now) word.now }
{
    for (name, one) in these {
        if word == *name {
            return Some(*one);
        }
    }
    None
}

/// The operation, of these under their names, that an object asks for by its member `op`. None where the member is
/// another text, no text, or not there. Cost: a comparison with each name.
pub fn operation_of<O: Copy>(value: &Value, these: &[(&'static str, O)]) -> Option<O>
    ensures { result ≡ asked_in (map (λ p. (p.0.now, p.1)) these.now) (view value.now) }
{
    named(value.get("op").and_then(Value::as_str)?, these)
}

/// The text of a value that is one.
pub fn text_of(value: Value) -> Option<String>
    ensures { option_map string_bytes result ≡ as_str (view value) }
{
    match value {
        Value::String(text) => Some(text),
        _ => None,
    }
}

/// The items of a value that is an array.
pub fn items_of(value: Value) -> Option<Vec<Value>>
    ensures { option_map (λ items. items_view items.items) result ≡ as_array (view value) }
{
    match value {
        Value::Array(items) => Some(items),
        _ => None,
    }
}

/// The members of a value that is an object.
pub fn members_of(value: Value) -> Option<Map<String, Value>>
    ensures { option_map (λ members. members_view members.entries) result ≡ as_object (view value) }
{
    match value {
        Value::Object(members) => Some(members),
        _ => None,
    }
}

/// Whether a value is an object of just so many members.
#[tactic(auto, unfolding(crate::specs::Steps::Outline::has_members))]
pub fn has_members(value: &Value, count: usize) -> bool
    ensures { result ≡ has_members count (view value.now) }
{
    match value.as_object() {
        Some(members) => members.len() == count,
        None => false,
    }
}

/// Takes the first member out, where it has the name.
pub fn take_member(members: &mut Map<String, Value>, name: &str) -> Option<Value>
    ensures { option_map (λ value. (view value, members_view members.new.entries)) result
        ≡ take_member name.now (members_view members.old.entries) }
{
    match members.pop_first() {
        Some((key, value)) => {
            if key.as_str() == name {
                Some(value)
            } else {
                None
            }
        }
        None => None,
    }
}

/// The values of just these two members, whose names are in byte order.
pub fn two_of(mut members: Map<String, Value>, first: &str, second: &str) -> Option<(Value, Value)>
    ensures { option_map (λ p. (view p.0, view p.1)) result
        ≡ two_of first.now second.now (members_view members.entries) }
{
    let first = take_member(&mut members, first)?;
    let second = take_member(&mut members, second)?;
    if members.is_empty() {
        Some((first, second))
    } else {
        None
    }
}

/// The values of an object of just these two members, whose names are in byte order.
pub fn two_members(value: Value, first: &str, second: &str) -> Option<(Value, Value)>
    ensures { option_map (λ p. (view p.0, view p.1)) result ≡ two_members first.now second.now (view value) }
{
    two_of(members_of(value)?, first, second)
}

/// The values of an object of just these three members, whose names are in byte order.
pub fn three_members(
    value: Value,
    first: &str,
    second: &str,
    third: &str,
) -> Option<(Value, Value, Value)>
    ensures { option_map (λ p. (view p.0, (view p.1, view p.2))) result
        ≡ three_members first.now second.now third.now (view value) }
{
    let mut members = members_of(value)?;
    let first = take_member(&mut members, first)?;
    let (second, third) = two_of(members, second, third)?;
    Some((first, second, third))
}
