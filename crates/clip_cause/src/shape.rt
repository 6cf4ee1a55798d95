//! Where the value of a line is no request's.
ghost use Rattle.std.specs.Prelude.{◌≡◌, map, option_map, Some};
ghost use Rattle.std.specs.List.{list_any};
ghost use Rattle.std.specs.Str.{bytes_eq};
ghost use Rattle.serde_json.specs.View.{view, members_view};
ghost use Rattle.clip_cause.specs.Names as asked;
ghost use Rattle.clip_cause.specs.Names.{operation_of};
ghost use Rattle.clip_cause.specs.Shapes as fault;
ghost use Rattle.clip_cause.specs.Steps.Listed.{item_fault, listed_name, listing_fault};
ghost use Rattle.clip_cause.specs.Steps.Sites.{fault_of_site, fault_of_spot};

use crate::site::{Site, Spot};
use crate::wrong::Wrong;
use serde_json::{Map, Value};

/// The first of the names that no member of the object has.
fn missing(value: &Value, names: &[&'static str]) -> Option<&'static str>
    ensures { option_map (λ s. s.now) result ≡ fault.missing (map (λ s. s.now) names.now) (view value.now) }
{
    for name in names {
        if value.get(*name).is_none() {
            return Some(*name);
        }
    }
    None
}

/// Whether a name is one of these.
fn is_known(name: &str, names: &[&'static str]) -> bool
    ensures { result ≡ list_any (bytes_eq name.now) (map (λ s. s.now) names.now) }
{
    for known in names {
        if name == *known {
            return true;
        }
    }
    false
}

/// The first name of a member that is none of these.
fn unknown<'v>(members: &'v Map<String, Value>, names: &[&'static str]) -> Option<&'v str>
    ensures { option_map (λ s. s.now) result
        ≡ fault.unknown (map (λ s. s.now) names.now) (members_view members.now.entries) }
{
    for (key, _) in members.iter() {
        let name = key.as_str();
        if !is_known(name, names) {
            return Some(name);
        }
    }
    None
}

/// What is wrong with the names of an object's members, of which those `needed` are to be there, and none that is not
/// `known`.
fn names_fault<'v>(
    value: &'v Value,
    needed: &[&'static str],
    known: &[&'static str],
) -> Option<(Spot<'v>, Wrong)>
    ensures { option_map fault_of_spot result
        ≡ fault.names_fault (map (λ s. s.now) needed.now) (map (λ s. s.now) known.now) (view value.now) }
{
    let Some(members) = value.as_object() else {
        return Some((Spot::Whole, Wrong::NotAnObject));
    };
    if let Some(name) = missing(value, needed) {
        return Some((Spot::Member(name), Wrong::Missing));
    }
    match unknown(members, known) {
        Some(name) => Some((Spot::Member(name), Wrong::Unknown)),
        None => None,
    }
}

/// Whether the member of this name is a string, where it is there.
fn is_string_or_absent(value: &Value, name: &str) -> bool
    ensures { result ≡ fault.is_text_or_absent name.now (view value.now) }
{
    match value.get(name) {
        Some(member) => member.is_string(),
        None => true,
    }
}

/// The first of the members of these names that is there and is no string.
fn texts_fault<'v>(value: &'v Value, names: &[&'static str]) -> Option<(Spot<'v>, Wrong)>
    ensures { option_map fault_of_spot result ≡ fault.texts_fault (map (λ s. s.now) names.now) (view value.now) }
{
    for name in names {
        if !is_string_or_absent(value, *name) {
            return Some((Spot::Member(*name), Wrong::NotAString));
        }
    }
    None
}

/// What is wrong with a listed query.
fn query_fault<'v>(value: &'v Value) -> Option<(Spot<'v>, Wrong)>
    ensures { option_map fault_of_spot result ≡ fault.query_fault (view value.now) }
{
    match names_fault(value, &["id", "query"], &["id", "listener", "query"]) {
        Some(found) => Some(found),
        None => texts_fault(value, &["id", "listener", "query"]),
    }
}

/// The first field of an article that is no string.
fn field_fault<'v>(fields: &'v Value) -> Option<(Spot<'v>, Wrong)>
    ensures { option_map fault_of_spot result ≡ fault.fields_fault (view fields.now) }
{
    let Some(members) = fields.as_object() else {
        return Some((Spot::Member("fields"), Wrong::NotAnObject));
    };
    for (key, field) in members.iter() {
        if !field.is_string() {
            return Some((Spot::Field(key.as_str()), Wrong::NotAString));
        }
    }
    None
}

/// What is wrong with the fields of a listed article, where they are there.
fn fields_fault<'v>(value: &'v Value) -> Option<(Spot<'v>, Wrong)>
    ensures { option_map fault_of_spot result ≡ fault.fields_in (view value.now) }
{
    match value.get("fields") {
        Some(fields) => field_fault(fields),
        None => None,
    }
}

/// What is wrong with a listed article.
fn article_fault<'v>(value: &'v Value) -> Option<(Spot<'v>, Wrong)>
    ensures { option_map fault_of_spot result ≡ fault.article_fault (view value.now) }
{
    if let Some(found) = names_fault(value, &["fields", "id"], &["fields", "id"]) {
        return Some(found);
    }
    match fields_fault(value) {
        Some(found) => Some(found),
        None => texts_fault(value, &["id"]),
    }
}

/// A list of a line, by what its items are.
#[derive(Clone, Copy)]
enum Listed {
    /// The queries of a register.
    Queries,
    /// The ids of a delete.
    Ids,
    /// The articles of a match.
    Articles,
}

impl Listed {
    /// The name of the member that has the list.
    fn name(self) -> &'static str
        ensures { result.now ≡ listed_name self }
    {
        match self {
            Listed::Queries => "queries",
            Listed::Ids => "ids",
            Listed::Articles => "articles",
        }
    }

    /// What is wrong with an item of the list.
    fn item_fault<'v>(self, item: &'v Value) -> Option<(Spot<'v>, Wrong)>
        ensures { option_map fault_of_spot result ≡ item_fault self (view item.now) }
    {
        match self {
            Listed::Queries => query_fault(item),
            Listed::Articles => article_fault(item),
            Listed::Ids => {
                if item.is_string() {
                    None
                } else {
                    Some((Spot::Whole, Wrong::NotAString))
                }
            }
        }
    }
}

/// What is wrong with a list.
fn list_fault<'v>(list: &'v Value, listed: Listed) -> Option<(Site<'v>, Wrong)>
    ensures { option_map fault_of_site result
        ≡ fault.list_fault (listed_name listed) (item_fault listed) (view list.now) }
{
    let name = listed.name();
    let Some(items) = list.as_array() else {
        return Some((Site::In(Spot::Member(name)), Wrong::NotAList));
    };
    for (place, item) in items.iter().enumerate() {
        if let Some((spot, wrong)) = listed.item_fault(item) {
            return Some((Site::Item(name, place, spot), wrong));
        }
    }
    None
}

/// What is wrong with the names of the line's members.
fn line_names_fault<'v>(value: &'v Value, names: &[&'static str]) -> Option<(Site<'v>, Wrong)>
    ensures { option_map fault_of_site result
        ≡ fault.names_fault (map (λ s. s.now) names.now) (map (λ s. s.now) names.now) (view value.now) }
{
    match names_fault(value, names, names) {
        Some((spot, wrong)) => Some((Site::In(spot), wrong)),
        None => None,
    }
}

/// What is wrong with a line of members of these names, one of which has the list.
fn listing_fault<'v>(
    value: &'v Value,
    names: &[&'static str],
    listed: Listed,
) -> Option<(Site<'v>, Wrong)>
    ensures { option_map fault_of_site result ≡ listing_fault (map (λ s. s.now) names.now) listed (view value.now) }
{
    if let Some(found) = line_names_fault(value, names) {
        return Some(found);
    }
    match value.get(listed.name()) {
        Some(list) => list_fault(list, listed),
        None => None,
    }
}

/// What is wrong with a show.
fn show_fault<'v>(value: &'v Value) -> Option<(Site<'v>, Wrong)>
    ensures { option_map fault_of_site result ≡ fault.asked_by (view value.now) (Some asked.show) }
{
    if let Some(found) = line_names_fault(value, &["id", "op"]) {
        return Some(found);
    }
    match texts_fault(value, &["id"]) {
        Some((spot, wrong)) => Some((Site::In(spot), wrong)),
        None => None,
    }
}

/// What is wrong with a line that asks for the operation of this name.
fn asked_fault<'v>(value: &'v Value, operation: &'v str) -> Option<(Site<'v>, Wrong)>
    ensures { option_map fault_of_site result ≡ fault.asked_by (view value.now) (operation_of operation.now) }
{
    if operation == "register" {
        listing_fault(value, &["op", "queries"], Listed::Queries)
    } else if operation == "delete" {
        listing_fault(value, &["ids", "op"], Listed::Ids)
    } else if operation == "clear" || operation == "purge" || operation == "count" {
        line_names_fault(value, &["op"])
    } else if operation == "show" {
        show_fault(value)
    } else if operation == "match" {
        listing_fault(value, &["articles", "op"], Listed::Articles)
    } else {
        Some((Site::In(Spot::Member("op")), Wrong::NoOperation))
    }
}

/// The first place at which the value is no request's, and what is wrong there. The operation is judged first, then of
/// each object which members are missing, which are unknown, and then each in order. Its cost is linear in the value.
#[tactic(auto, unfolding(crate::specs::Shapes::shape_fault))]
pub fn shape_fault<'v>(value: &'v Value) -> Option<(Site<'v>, Wrong)>
    ensures { option_map fault_of_site result ≡ fault.shape_fault (view value.now) }
{
    if !value.is_object() {
        return Some((Site::In(Spot::Whole), Wrong::NotAnObject));
    }
    let Some(operation) = value.get("op") else {
        return Some((Site::In(Spot::Member("op")), Wrong::Missing));
    };
    match operation.as_str() {
        Some(word) => asked_fault(value, word),
        None => Some((Site::In(Spot::Member("op")), Wrong::NotAString)),
    }
}
