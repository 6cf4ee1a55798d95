//! Keys with what tells most texts apart, and lists of them in order.
ghost use Rattle.std.specs.Prelude.{◌≡◌, ◌≤◌, ◌++◌, IfOk, OnOk, IfSome, MatchOption, List, length, map, drop};
ghost use Rattle.std.specs.Arc.{arc_str_bytes};
ghost use Rattle.std.specs.List.Sorted.{IsStrictlySortedBy};
ghost use Rattle.clip_words.specs.Order.{bytes_cmp};
ghost use Rattle.clip_meaning.specs.Leads.{IsLead};
ghost use Rattle.clip_extract.specs.Keys.{KeyValue, key_of, key_cmp, text_of, in_order};
ghost use Rattle.clip_terms.specs.Steps.Leads.{heading, heading_cmp, AreLeads, IsShortLength, AreShortLengths};
ghost use Rattle.clip_terms.specs.Steps.Merging.{IsLesser};

use crate::leads::heading_order;
use clip_extract::Key;
use clip_meaning::compare_by_leads;
use clip_words::NoMemory;
use std::alloc::Global;
use std::cmp::Ordering;
use std::marker::Model;
use std::sync::ArcStr;

/// A key with the lead and the short length of its text, by which most keys of a field are told apart without a look at
/// their texts. Contracts see the key.
#[derive(Drop)]
pub struct Head<'a> {
    key: &'a Key,
    lead: u64,
    length: u8,
}

impl<'a> Model for Head<'a> {
    ghost use Rattle.clip_meaning.specs.Leads.{IsLead};
    ghost use Rattle.clip_extract.specs.Keys.{KeyValue, key_of, text_of};
    ghost use Rattle.clip_terms.specs.Steps.Leads.{IsShortLength};

    ghost Value = { KeyValue };

    ghost view = { λ h. key_of h.key.now };

    ghost invariant = { λ h. IsLead (text_of (key_of h.key.now)) h.lead
        × IsShortLength (text_of (key_of h.key.now)) h.length };
}

/// Compares two texts, beside which their leads and short lengths are given.
fn text_order(a: &Head, b: &Head) -> Ordering
    ensures { result ≡ bytes_cmp (text_of a.now) (text_of b.now) }
{
    if a.lead != b.lead {
        return a.lead.cmp(&b.lead);
    }
    if a.length == b.length && a.length <= 8 {
        return Ordering::Equal;
    }
    compare_by_leads(a.key.text(), a.lead, b.key.text(), b.lead)
}

/// Compares two keys by rank and field, which mostly are the same.
fn key_headings(a: &Key, b: &Key) -> Ordering
    ensures { result ≡ heading_cmp (heading (key_of a.now)) (heading (key_of b.now)) }
{
    if a.rank() == b.rank() && a.field() == b.field() {
        return Ordering::Equal;
    }
    heading_order(a, b.rank(), b.field())
}

impl<'a> Head<'a> {
    /// A key with the lead and the short length of its text.
    pub(crate) fn with(key: &'a Key, lead: u64, length: u8) -> Head<'a>
        requires lead { IsLead (text_of (key_of key.now)) lead }
        requires length { IsShortLength (text_of (key_of key.now)) length }
        ensures { result ≡ key_of key.now }
    {
        Head { key, lead, length }
    }

    /// A copy of a head, which borrows the same key.
    fn copy(&self) -> Head<'a>
        ensures { result ≡ self.now }
    {
        Head {
            key: self.key,
            lead: self.lead,
            length: self.length,
        }
    }

    /// Compares two keys. Looks at their texts only where they are of one field, the leads are the same and the lengths
    /// don't settle it.
    fn order(&self, other: &Head) -> Ordering
        ensures { result ≡ key_cmp self.now other.now }
    {
        key_headings(self.key, other.key).then(text_order(self, other))
    }
}

/// The lesser of the keys at a place of each of two lists, and the places behind it; `None` where one of them has no
/// key left.
fn lesser<'a, 'b>(
    left: &'b [Head<'a>],
    at_left: usize,
    right: &'b [Head<'a>],
    at_right: usize,
) -> Option<(&'b Head<'a>, usize, usize)>
    ensures within { IfSome result (λ r. (r.1 ≤ length left.now) × (r.2 ≤ length right.now)) }
    ensures lesser { MatchOption result ((before : List KeyValue)
        → IsStrictlySortedBy key_cmp (before ++ drop at_left left.now)
        → IsStrictlySortedBy key_cmp (before ++ drop at_right right.now)
        → IsStrictlySortedBy key_cmp ((before ++ drop at_left left.now) ++ drop at_right right.now))
        (λ r. IsLesser (drop at_left left.now) (drop at_right right.now)
        r.0.now (drop r.1 left.now) (drop r.2 right.now)) }
{
    let Some(x) = left.get(at_left) else {
        return None;
    };
    let Some(y) = right.get(at_right) else {
        return None;
    };
    match x.order(y) {
        Ordering::Less => Some((x, at_left + 1, at_right)),
        Ordering::Equal => Some((x, at_left + 1, at_right + 1)),
        Ordering::Greater => Some((y, at_left, at_right + 1)),
    }
}

/// Adds copies of heads, which borrow the same keys.
fn add_all<'a>(heads: &[Head<'a>], all: &mut Vec<Head<'a>>) -> Result<(), NoMemory>
    ensures { OnOk result (all.new.items ≡ all.old.items ++ heads.now) }
{
    for head in heads {
        all.push(head.copy())?;
    }
    Ok(())
}

/// The keys of two lists, each of which is in order and has each key once, in order, each once.
///
/// `NoMemory` where an allocation failed. Cost: a comparison for each key.
pub fn merged<'a, 'b>(
    alloc: Global,
    a: &'b [Head<'a>],
    b: &'b [Head<'a>],
) -> Result<Vec<Head<'a>>, NoMemory>
    requires a { IsStrictlySortedBy key_cmp a.now }
    requires b { IsStrictlySortedBy key_cmp b.now }
    ensures { IfOk result (λ heads. heads.items ≡ in_order (a.now ++ b.now)) }
{
    let mut heads = Vec::with_capacity(alloc, a.len().saturating_add(b.len()))?;
    let mut at_a = 0;
    let mut at_b = 0;
    while let Some((first, behind_a, behind_b)) = lesser(a, at_a, b, at_b) {
        heads.push(first.copy())?;
        at_a = behind_a;
        at_b = behind_b;
    }
    add_all(&a[at_a..], &mut heads)?;
    add_all(&b[at_b..], &mut heads)?;
    Ok(heads)
}

/// One of two texts that are the same, the second where they are not.
fn one_of<'a>(other: &'a ArcStr, text: &'a ArcStr) -> &'a ArcStr
    ensures { arc_str_bytes result.now ≡ arc_str_bytes text.now }
{
    if other.as_str() == text.as_str() {
        other
    } else {
        text
    }
}

/// A field's name, as the last key has it where that is of the same field.
fn shared_field<'a>(last: Option<&'a Key>, field: &'a ArcStr) -> &'a ArcStr
    ensures { arc_str_bytes result.now ≡ arc_str_bytes field.now }
{
    match last {
        Some(Key::Word(other, _)) => one_of(other, field),
        Some(Key::Front(other, _)) => one_of(other, field),
        _ => field,
    }
}

/// A copy of a key, which shares its text, and its field with the last key where that has the same.
fn copy_behind(last: Option<&Key>, key: &Key) -> Result<Key, NoMemory>
    ensures { IfOk result (λ copy. key_of copy ≡ key_of key.now) }
{
    match key {
        Key::Any => Ok(Key::Any),
        Key::Word(field, word) => Ok(Key::Word(shared_field(last, field).clone()?, word.clone()?)),
        Key::Front(field, front) => Ok(Key::Front(
            shared_field(last, field).clone()?,
            front.clone()?,
        )),
    }
}

/// Copies of keys, which share their texts, and those of one field behind each other their field.
pub(crate) fn keys_of(alloc: Global, heads: &[Head]) -> Result<Vec<Key>, NoMemory>
    ensures { IfOk result (λ keys. map key_of keys.items ≡ heads.now) }
{
    let mut keys = Vec::with_capacity(alloc, heads.len())?;
    for head in heads {
        let key = copy_behind(keys.last(), head.key)?;
        keys.push(key)?;
    }
    Ok(keys)
}

/// The leads of keys, in order.
pub(crate) fn head_leads(alloc: Global, heads: &[Head]) -> Result<Vec<u64>, NoMemory>
    ensures { IfOk result (λ leads. AreLeads heads.now leads.items) }
{
    let mut leads = Vec::with_capacity(alloc, heads.len())?;
    for head in heads {
        leads.push(head.lead)?;
    }
    Ok(leads)
}

/// The short lengths of the texts of keys, in order.
pub(crate) fn head_lengths(alloc: Global, heads: &[Head]) -> Result<Vec<u8>, NoMemory>
    ensures { IfOk result (λ lengths. AreShortLengths heads.now lengths.items) }
{
    let mut lengths = Vec::with_capacity(alloc, heads.len())?;
    for head in heads {
        lengths.push(head.length)?;
    }
    Ok(lengths)
}
