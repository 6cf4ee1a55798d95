//! Why an article is refused.
ghost use Rattle.std.specs.Prelude.{◌≡◌, length};
ghost use Rattle.std.specs.List.{list_all, list_any};
ghost use Rattle.std.specs.Str.{bytes_eq};
ghost use Rattle.clip_meaning.specs.Article.{is_name_byte, begins_with_digit, is_field_name, has_twice, names};
ghost use Rattle.clip_meaning.specs.Article.{pairs_of, fault_of};

use clip_words::{NoMemory, is_id};
use std::alloc::{AllocError, AllocFailed};
use thiserror::Error;

/// The most fields of an article.
pub const MOST_FIELDS: usize = 16;

/// The most bytes of a field's name.
pub const MOST_NAME_BYTES: usize = 64;

/// Why an article is refused. The refusals but `NoMemory` are judged in this order, and the first that holds is
/// answered.
#[derive(Clone, Copy, Debug, PartialEq, Eq, Error)]
pub enum ArticleFault {
    /// The id has not 1 to 256 bytes.
    #[error("an article's id has 1 to 256 bytes")]
    Id,
    /// There are more than 16 fields, `MOST_FIELDS`.
    #[error("an article has at most 16 fields")]
    TooMany,
    /// Some field's name is not 1 to 64 (`MOST_NAME_BYTES`) ASCII letters, digits and `_`, or begins with a digit.
    #[error("a field's name is 1 to 64 ASCII letters, digits and `_`, and begins with no digit")]
    Field,
    /// Two fields have one name.
    #[error("a field stands twice")]
    Twice,
    /// An allocation failed.
    #[error("no memory")]
    NoMemory,
}

impl From<NoMemory> for ArticleFault {
    ghost use Rattle.clip_meaning.specs.declared.fault.ArticleFault.TheVariants as faults;

    ghost from_gives = { λ _ fault. fault ≡ faults.NoMemory };

    fn from(_error: NoMemory) -> ArticleFault {
        ArticleFault::NoMemory
    }
}

impl From<AllocError> for ArticleFault {
    ghost use Rattle.clip_meaning.specs.declared.fault.ArticleFault.TheVariants as faults;

    ghost from_gives = { λ _ fault. fault ≡ faults.NoMemory };

    fn from(_error: AllocError) -> ArticleFault {
        ArticleFault::NoMemory
    }
}

impl<T: Drop> From<AllocFailed<T>> for ArticleFault {
    ghost use Rattle.clip_meaning.specs.declared.fault.ArticleFault.TheVariants as faults;

    ghost from_gives = { λ _ fault. fault ≡ faults.NoMemory };

    fn from(_error: AllocFailed<T>) -> ArticleFault {
        ArticleFault::NoMemory
    }
}

/// Whether a byte is an ASCII letter, a digit or `_`.
fn is_name_byte(byte: u8) -> bool
    ensures { result ≡ is_name_byte byte }
{
    byte.is_ascii_alphanumeric() || byte == b'_'
}

/// Whether each byte may stand in a name.
fn are_name_bytes(bytes: &[u8]) -> bool
    ensures { result ≡ list_all is_name_byte bytes.now }
{
    for byte in bytes {
        if !is_name_byte(*byte) {
            return false;
        }
    }
    true
}

/// Whether the first byte is an ASCII digit.
fn begins_with_digit(bytes: &[u8]) -> bool
    ensures { result ≡ begins_with_digit bytes.now }
{
    match bytes {
        [first, ..] => first.is_ascii_digit(),
        [] => false,
    }
}

/// Whether a text may be the name of a field. Takes no memory. Cost: a look at each byte of it.
#[tactic(auto, unfolding(crate::specs::Article::is_field_name))]
pub fn is_field_name(name: &str) -> bool
    ensures { result ≡ is_field_name name.now }
{
    let bytes = name.as_bytes();
    !bytes.is_empty()
        && bytes.len() <= MOST_NAME_BYTES
        && are_name_bytes(bytes)
        && !begins_with_digit(bytes)
}

/// Whether each field's name may be one.
fn are_field_names(fields: &[(String, String)]) -> bool
    ensures { result ≡ list_all is_field_name (names (pairs_of fields.now)) }
{
    for (name, _) in fields {
        if !is_field_name(name.as_str()) {
            return false;
        }
    }
    true
}

/// Whether some field has this name.
fn has_name(fields: &[(String, String)], name: &str) -> bool
    ensures { result ≡ list_any (bytes_eq name.now) (names (pairs_of fields.now)) }
{
    for (other, _) in fields {
        if name == other.as_str() {
            return true;
        }
    }
    false
}

/// Whether two fields have one name.
fn has_twice(fields: &[(String, String)]) -> bool
    ensures { result ≡ has_twice (names (pairs_of fields.now)) }
{
    let mut rest = fields;
    while let Some((first, others)) = rest.split_first() {
        if has_name(others, first.0.as_str()) {
            return true;
        }
        rest = others;
    }
    false
}

/// The first refusal that holds of an id and of pairs of a field's name and its text, in the order of `ArticleFault`,
/// or none: no text is looked at. Takes no memory. Cost: a look at the id and at each name, and a comparison of each
/// two names, of 16 at most.
#[tactic(auto, unfolding(crate::specs::Article::fault_of))]
pub fn fault_of(id: &str, fields: &[(String, String)]) -> Option<ArticleFault>
    ensures { result ≡ fault_of id.now (pairs_of fields.now) }
{
    if !is_id(id) {
        Some(ArticleFault::Id)
    } else if fields.len() > MOST_FIELDS {
        Some(ArticleFault::TooMany)
    } else if !are_field_names(fields) {
        Some(ArticleFault::Field)
    } else if has_twice(fields) {
        Some(ArticleFault::Twice)
    } else {
        None
    }
}
