//! Requests, read from JSON values.
ghost use Rattle.std.specs.Prelude.{◌≡◌, option_map, map, string_bytes};
ghost use Rattle.serde_json.specs.Find.{as_str};
ghost use Rattle.serde_json.specs.View.{view, items_view, members_view};
ghost use Rattle.clip_protocol.specs.Steps.Outline.{ReadsAs, all_of, fields_of, plain_listing_of, heard_listing_of};
ghost use Rattle.clip_protocol.specs.Steps.Outline.{listing_of, draft_of, operation_in};
ghost use Rattle.clip_protocol.specs.Steps.Views.{fields_view, listing_view, draft_view};

use crate::members::{
    has_members, items_of, members_of, operation_of, text_of, three_members, two_members,
};
use crate::refusal::{Refusal, UNSHAPED, Unread};
use serde_json::{Map, Value};
use std::alloc::Global;

/// A query that a register lists.
#[derive(Drop)]
pub struct Listing {
    /// The id under which it is to stand.
    pub id: String,
    /// Its text.
    pub query: String,
    /// The name of its listener, if it has one.
    pub listener: Option<String>,
}

/// An article that a match lists, before its limits are judged.
#[derive(Drop)]
pub struct Draft {
    /// Its id.
    pub id: String,
    /// Of each field the name and the text.
    pub fields: Vec<(String, String)>,
}

/// What a line may ask for.
#[derive(Drop)]
pub enum Request {
    /// Register these queries.
    Register(Vec<Listing>),
    /// Delete the queries under these ids.
    Delete(Vec<String>),
    /// Delete all queries.
    Clear,
    /// Drop what the registry still holds of queries that are gone.
    Purge,
    /// Count the registered queries.
    Count,
    /// Show the text of the query under this id.
    Show(String),
    /// Match these articles.
    Match(Vec<Draft>),
}

/// The operations, by which requests are told apart.
#[derive(Clone, Copy)]
enum Operation {
    Register,
    Delete,
    Clear,
    Purge,
    Count,
    Show,
    Match,
}

/// Each operation under its name.
const OPERATIONS: [(&str, Operation); 7] = [
    ("register", Operation::Register),
    ("delete", Operation::Delete),
    ("clear", Operation::Clear),
    ("purge", Operation::Purge),
    ("count", Operation::Count),
    ("show", Operation::Show),
    ("match", Operation::Match),
];

impl Operation {
    /// The operation that an object asks for.
    #[tactic(auto, unfolding(crate::specs::Steps::Outline::operation_in))]
    fn of_value(value: &Value) -> Option<Operation>
        ensures { result ≡ operation_in (view value.now) }
    {
        operation_of(value, &OPERATIONS)
    }
}

/// The query without a listener that a value lists.
#[tactic(auto, unfolding(crate::specs::Steps::Outline::plain_listing_of))]
fn plain_listing_of(value: Value) -> Option<Listing>
    ensures { option_map listing_view result ≡ plain_listing_of (view value) }
{
    let (id, query) = two_members(value, "id", "query")?;
    let id = text_of(id)?;
    let query = text_of(query)?;
    Some(Listing {
        id,
        query,
        listener: None,
    })
}

/// The query with a listener that a value lists.
#[tactic(auto, unfolding(crate::specs::Steps::Outline::heard_listing_of))]
fn heard_listing_of(value: Value) -> Option<Listing>
    ensures { option_map listing_view result ≡ heard_listing_of (view value) }
{
    let (id, listener, query) = three_members(value, "id", "listener", "query")?;
    let id = text_of(id)?;
    let listener = text_of(listener)?;
    let query = text_of(query)?;
    Some(Listing {
        id,
        query,
        listener: Some(listener),
    })
}

/// The query that a value lists.
#[tactic(auto, unfolding(crate::specs::Steps::Outline::listing_of))]
fn listing_of(value: Value) -> Option<Listing>
    ensures { option_map listing_view result ≡ listing_of (view value) }
{
    if has_members(&value, 3) {
        heard_listing_of(value)
    } else {
        plain_listing_of(value)
    }
}

/// The queries that values list.
fn listings_of(alloc: Global, items: Vec<Value>) -> Result<Vec<Listing>, Unread>
    ensures { ReadsAs Refusal.Shape (λ all. map listing_view all.items)
        (all_of listing_of (items_view items.items)) result }
{
    let mut all = Vec::with_capacity(alloc, items.len())?;
    for item in items {
        let Some(listing) = listing_of(item) else {
            return Err(UNSHAPED);
        };
        all.push(listing)?;
    }
    Ok(all)
}

/// The texts that values are.
fn texts_of(alloc: Global, items: Vec<Value>) -> Result<Vec<String>, Unread>
    ensures { ReadsAs Refusal.Shape (λ all. map string_bytes all.items)
        (all_of as_str (items_view items.items)) result }
{
    let mut all = Vec::with_capacity(alloc, items.len())?;
    for item in items {
        let Some(text) = text_of(item) else {
            return Err(UNSHAPED);
        };
        all.push(text)?;
    }
    Ok(all)
}

/// The fields of an article, in the byte order of their names.
fn fields_of(alloc: Global, members: Map<String, Value>) -> Result<Vec<(String, String)>, Unread>
    ensures { ReadsAs Refusal.Shape (λ all. fields_view all.items) (fields_of (members_view members.entries)) result }
{
    let mut all = Vec::with_capacity(alloc, members.len())?;
    for (name, member) in members {
        let Some(text) = text_of(member) else {
            return Err(UNSHAPED);
        };
        all.push((name, text))?;
    }
    Ok(all)
}

/// The article that a value lists.
#[tactic(auto, unfolding(crate::specs::Steps::Outline::draft_of))]
fn draft_of(alloc: Global, value: Value) -> Result<Draft, Unread>
    ensures { ReadsAs Refusal.Shape draft_view (draft_of (view value)) result }
{
    let Some((fields, id)) = two_members(value, "fields", "id") else {
        return Err(UNSHAPED);
    };
    let (Some(members), Some(id)) = (members_of(fields), text_of(id)) else {
        return Err(UNSHAPED);
    };
    let fields = fields_of(alloc, members)?;
    Ok(Draft { id, fields })
}

/// The articles that values list.
pub fn drafts_of(alloc: Global, items: Vec<Value>) -> Result<Vec<Draft>, Unread>
    ensures { ReadsAs Refusal.Shape (λ all. map draft_view all.items)
        (all_of draft_of (items_view items.items)) result }
{
    let mut all = Vec::with_capacity(alloc, items.len())?;
    for item in items {
        all.push(draft_of(alloc, item)?)?;
    }
    Ok(all)
}

impl Request {
    ghost use Rattle.clip_protocol.specs.Steps.Outline.{alone, register_of, delete_of, show_of, match_of, request_of};
    ghost use Rattle.clip_protocol.specs.Steps.Views.{request_view};

    #[tactic(auto, unfolding(crate::specs::Steps::Outline::register_of))]
    fn register(alloc: Global, value: Value) -> Result<Request, Unread>
        ensures { ReadsAs Refusal.Shape request_view (register_of (view value)) result }
    {
        let Some((_, queries)) = two_members(value, "op", "queries") else {
            return Err(UNSHAPED);
        };
        let Some(items) = items_of(queries) else {
            return Err(UNSHAPED);
        };
        Ok(Request::Register(listings_of(alloc, items)?))
    }

    #[tactic(auto, unfolding(crate::specs::Steps::Outline::delete_of))]
    fn delete(alloc: Global, value: Value) -> Result<Request, Unread>
        ensures { ReadsAs Refusal.Shape request_view (delete_of (view value)) result }
    {
        let Some((ids, _)) = two_members(value, "ids", "op") else {
            return Err(UNSHAPED);
        };
        let Some(items) = items_of(ids) else {
            return Err(UNSHAPED);
        };
        Ok(Request::Delete(texts_of(alloc, items)?))
    }

    #[tactic(auto, unfolding(crate::specs::Steps::Outline::show_of))]
    fn show(value: Value) -> Result<Request, Unread>
        ensures { ReadsAs Refusal.Shape request_view (show_of (view value)) result }
    {
        let Some((id, _)) = two_members(value, "id", "op") else {
            return Err(UNSHAPED);
        };
        match text_of(id) {
            Some(id) => Ok(Request::Show(id)),
            None => Err(UNSHAPED),
        }
    }

    #[tactic(auto, unfolding(crate::specs::Steps::Outline::match_of))]
    fn matching(alloc: Global, value: Value) -> Result<Request, Unread>
        ensures { ReadsAs Refusal.Shape request_view (match_of (view value)) result }
    {
        let Some((articles, _)) = two_members(value, "articles", "op") else {
            return Err(UNSHAPED);
        };
        let Some(items) = items_of(articles) else {
            return Err(UNSHAPED);
        };
        Ok(Request::Match(drafts_of(alloc, items)?))
    }

    /// The request, where the value has no member but the operation.
    fn alone(self, value: &Value) -> Result<Request, Unread>
        ensures { ReadsAs Refusal.Shape request_view (alone (request_view self) (view value.now)) result }
    {
        if has_members(value, 1) {
            Ok(self)
        } else {
            Err(UNSHAPED)
        }
    }

    /// The request that has this value. Texts are moved out of it.
    ///
    /// `Refused` with `Shape` where no request has it; `NoMemory` where an allocation failed. Its cost is that of
    /// moving the texts of the value.
    #[tactic(auto, unfolding(crate::specs::Steps::Outline::request_of))]
    pub fn of_value(alloc: Global, value: Value) -> Result<Request, Unread>
        ensures { ReadsAs Refusal.Shape request_view (request_of (view value)) result }
    {
        let Some(operation) = Operation::of_value(&value) else {
            return Err(UNSHAPED);
        };
        match operation {
            Operation::Register => Request::register(alloc, value),
            Operation::Delete => Request::delete(alloc, value),
            Operation::Clear => Request::Clear.alone(&value),
            Operation::Purge => Request::Purge.alone(&value),
            Operation::Count => Request::Count.alone(&value),
            Operation::Show => Request::show(value),
            Operation::Match => Request::matching(alloc, value),
        }
    }
}
