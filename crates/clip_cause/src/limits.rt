//! Where a request is beyond its limits.
ghost use Rattle.std.specs.Prelude.{◌≡◌, codes, map, option_map, string_bytes};
ghost use Rattle.clip_meaning.specs.Article.{begins_with_digit, pairs_of};
ghost use Rattle.clip_cause.specs.Limits as fault;
ghost use Rattle.clip_cause.specs.Names.{articles, fields, ids, queries};
ghost use Rattle.clip_cause.specs.Faults.{beneath};
ghost use Rattle.clip_cause.specs.Steps.Sites.{fault_of_site, fault_of_spot};
ghost use Rattle.clip_cause.specs.declared.wrong.Wrong.TheVariants as wrong;
ghost use Rattle.clip_protocol.specs.Steps.Views.{draft_view, listing_view, request_view};

use crate::site::{Site, Spot};
use crate::wrong::Wrong;
use clip_meaning::{MOST_FIELDS, MOST_NAME_BYTES, is_field_name};
use clip_model::{MOST_ARTICLES, MOST_LISTED};
use clip_protocol::{Draft, Listing, Request};
use clip_words::is_id;

/// What is wrong with an id.
fn id_wrong(id: &str) -> Option<Wrong>
    ensures { result ≡ fault.id_wrong id.now }
{
    if is_id(id) {
        None
    } else if id.is_empty() {
        Some(Wrong::EmptyId)
    } else {
        Some(Wrong::LongId)
    }
}

/// Whether the first byte is an ASCII digit.
fn begins_with_digit(bytes: &[u8]) -> bool
    ensures { result ≡ begins_with_digit bytes.now }
{
    match bytes {
        [first, ..] => first.is_ascii_digit(),
        [] => false,
    }
}

/// What is wrong with a text that may not be the name of a field.
fn wrong_of_name(name: &str) -> Wrong
    ensures { result ≡ fault.wrong_of_name name.now }
{
    if name.is_empty() {
        Wrong::EmptyName
    } else if name.len() > MOST_NAME_BYTES {
        Wrong::LongName
    } else if begins_with_digit(name.as_bytes()) {
        Wrong::DigitFirst
    } else {
        Wrong::ByteOfName
    }
}

/// What is wrong with the id of a query or an article.
fn id_fault<'v>(id: &'v str) -> Option<(Spot<'v>, Wrong)>
    ensures { option_map fault_of_spot result ≡ fault.id_in id.now }
{
    match id_wrong(id) {
        Some(wrong) => Some((Spot::Member("id"), wrong)),
        None => None,
    }
}

/// The first field whose name may be none.
fn field_names_fault<'v>(pairs: &'v [(String, String)]) -> Option<(Spot<'v>, Wrong)>
    ensures { option_map fault_of_spot result
        ≡ beneath fields (fault.field_names_fault (pairs_of pairs.now)) }
{
    for (name, _) in pairs {
        let name = name.as_str();
        if !is_field_name(name) {
            return Some((Spot::Field(name), wrong_of_name(name)));
        }
    }
    None
}

/// What is wrong with the fields of an article.
fn fields_fault<'v>(draft: &'v Draft) -> Option<(Spot<'v>, Wrong)>
    ensures { option_map fault_of_spot result ≡ beneath fields (fault.fields_fault (draft_view draft.now)) }
{
    if draft.fields.len() > MOST_FIELDS {
        return Some((Spot::Member("fields"), Wrong::TooManyFields));
    }
    field_names_fault(&draft.fields)
}

/// What of an article is beyond its limits.
fn draft_fault<'v>(draft: &'v Draft) -> Option<(Spot<'v>, Wrong)>
    ensures { option_map fault_of_spot result ≡ fault.draft_fault (draft_view draft.now) }
{
    match id_fault(draft.id.as_str()) {
        Some(found) => Some(found),
        None => fields_fault(draft),
    }
}

/// What of the queries of a register is beyond their limits.
fn queries_fault<'v>(listings: &'v [Listing]) -> Option<(Site<'v>, Wrong)>
    ensures { option_map fault_of_site result ≡ fault.listed_fault queries MOST_LISTED wrong.TooManyQueries
        (λ l. fault.id_in l.id) (map listing_view listings.now) }
{
    if listings.len() > MOST_LISTED {
        return Some((Site::In(Spot::Member("queries")), Wrong::TooManyQueries));
    }
    for (place, listing) in listings.iter().enumerate() {
        if let Some((spot, wrong)) = id_fault(listing.id.as_str()) {
            return Some((Site::Item("queries", place, spot), wrong));
        }
    }
    None
}

/// What of the ids of a delete is beyond their limits.
fn ids_fault<'v>(listed: &'v [String]) -> Option<(Site<'v>, Wrong)>
    ensures { option_map fault_of_site result ≡ fault.listed_fault ids MOST_LISTED wrong.TooManyIds
        fault.id_fault (map string_bytes listed.now) }
{
    if listed.len() > MOST_LISTED {
        return Some((Site::In(Spot::Member("ids")), Wrong::TooManyIds));
    }
    for (place, id) in listed.iter().enumerate() {
        if let Some(wrong) = id_wrong(id.as_str()) {
            return Some((Site::Item("ids", place, Spot::Whole), wrong));
        }
    }
    None
}

/// What of the articles of a match is beyond their limits.
fn articles_fault<'v>(drafts: &'v [Draft]) -> Option<(Site<'v>, Wrong)>
    ensures { option_map fault_of_site result ≡ fault.listed_fault articles MOST_ARTICLES wrong.TooManyArticles
        fault.draft_fault (map draft_view drafts.now) }
{
    if drafts.len() > MOST_ARTICLES {
        return Some((Site::In(Spot::Member("articles")), Wrong::TooManyArticles));
    }
    for (place, draft) in drafts.iter().enumerate() {
        if let Some((spot, wrong)) = draft_fault(draft) {
            return Some((Site::Item("articles", place, spot), wrong));
        }
    }
    None
}

/// What is wrong with the id of a show.
fn shown_fault<'v>(id: &'v str) -> Option<(Site<'v>, Wrong)>
    ensures { option_map fault_of_site result ≡ fault.id_in id.now }
{
    match id_fault(id) {
        Some((spot, wrong)) => Some((Site::In(spot), wrong)),
        None => None,
    }
}

/// The first place at which the request is beyond its limits, and what is wrong there: the length of its list, then
/// each item in order, of an article its id, then its fields. Its cost is a look at each id and each name.
pub fn limit_fault<'v>(request: &'v Request) -> Option<(Site<'v>, Wrong)>
    ensures { option_map fault_of_site result ≡ fault.limit_fault (request_view request.now) }
{
    match request {
        Request::Register(listings) => queries_fault(listings),
        Request::Delete(listed) => ids_fault(listed),
        Request::Clear | Request::Purge | Request::Count => None,
        Request::Show(id) => shown_fault(id.as_str()),
        Request::Match(drafts) => articles_fault(drafts),
    }
}
