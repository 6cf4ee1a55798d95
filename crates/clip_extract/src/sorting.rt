//! Keys in order.
ghost use Rattle.std.specs.Prelude.{◌≡◌, IfOk, IsPermutation, map};
ghost use Rattle.std.specs.List.Sorted.{IsSorted};
ghost use Rattle.clip_words.specs.Order.{bytes_cmp};
ghost use Rattle.clip_extract.specs.Keys.{key_of, key_cmp, field_of, text_of, in_order};
ghost use Rattle.clip_extract.specs.Lengths.{IsShortLength};

use crate::key::Key;
use clip_meaning::{compare_by_leads, lead_of};
use clip_words::NoMemory;
use std::cmp::Ordering;
use std::marker::Model;

/// So many keys are compared by their leads; fewer are compared as they are, which takes no memory beside them.
const MANY_KEYS: usize = 32;

/// A key with the leads and the short lengths of its field and of its text, by which most keys are told apart without a
/// look at their texts. Contracts see the key.
#[derive(Drop)]
struct LedKey {
    field: u64,
    text: u64,
    field_length: u8,
    text_length: u8,
    key: Key,
}

impl Model for LedKey {
    ghost use Rattle.clip_meaning.specs.Leads.{IsLead};
    ghost use Rattle.clip_extract.specs.Keys.{KeyValue, key_of, field_of, text_of};
    ghost use Rattle.clip_extract.specs.Lengths.{IsShortLength};

    ghost Value = { KeyValue };

    ghost view = { λ led. key_of led.key };

    ghost invariant = { λ led. IsLead (field_of (key_of led.key)) led.field
        × IsLead (text_of (key_of led.key)) led.text
        × IsShortLength (field_of (key_of led.key)) led.field_length
        × IsShortLength (text_of (key_of led.key)) led.text_length };
}

/// The length of a text of up to eight bytes, and nine for a longer one. Takes no memory. Constant time.
pub fn short_length(text: &str) -> u8
    ensures { IsShortLength text.now result }
{
    text.len().min(9) as u8
}

impl LedKey {
    /// The key with its leads and its short lengths.
    fn of(key: Key) -> LedKey
        ensures { result ≡ key_of key }
    {
        LedKey {
            field: lead_of(key.field()),
            text: lead_of(key.text()),
            field_length: short_length(key.field()),
            text_length: short_length(key.text()),
            key,
        }
    }

    /// Compares the fields, which are looked at only where they have the same lead and the lengths don't settle it.
    fn order_fields(&self, other: &LedKey) -> Ordering
        ensures { result ≡ bytes_cmp (field_of self.now) (field_of other.now) }
    {
        if self.field != other.field {
            return self.field.cmp(&other.field);
        }
        if self.field_length == other.field_length && self.field_length <= 8 {
            return Ordering::Equal;
        }
        compare_by_leads(self.key.field(), self.field, other.key.field(), other.field)
    }

    /// Compares the texts, which are looked at only where they have the same lead and the lengths don't settle it.
    fn order_texts(&self, other: &LedKey) -> Ordering
        ensures { result ≡ bytes_cmp (text_of self.now) (text_of other.now) }
    {
        if self.text != other.text {
            return self.text.cmp(&other.text);
        }
        if self.text_length == other.text_length && self.text_length <= 8 {
            return Ordering::Equal;
        }
        compare_by_leads(self.key.text(), self.text, other.key.text(), other.text)
    }

    /// Compares by rank, then by field, then by text.
    fn order(&self, other: &LedKey) -> Ordering
        ensures { result ≡ key_cmp self.now other.now }
    {
        let ranks = self.key.rank().cmp(&other.key.rank());
        if ranks != Ordering::Equal {
            return ranks;
        }
        let fields = self.order_fields(other);
        if fields != Ordering::Equal {
            return fields;
        }
        self.order_texts(other)
    }
}

impl PartialEq for LedKey {
    ghost use Rattle.std.specs.Cmp.{eq_by_cmp_equiv, on_total, partial_equiv_from_equiv, then_total, nat_cmp_total};
    ghost use Rattle.std.specs.Cmp.Lexicographic.{lists_total, nat_list_cmp_total};
    ghost use Rattle.clip_extract.specs.Keys.{is_same, rank, texts};

    ghost eq = { is_same };

    ghost laws = { partial_equiv_from_equiv
        (eq_by_cmp_equiv
        (then_total (on_total rank nat_cmp_total) (on_total texts (lists_total nat_list_cmp_total)))) };

    fn eq(&self, other: &LedKey) -> bool {
        self.order(other) == Ordering::Equal
    }
}

/// The keys with their leads.
fn led_keys(keys: Vec<Key>) -> Result<Vec<LedKey>, NoMemory>
    ensures { IfOk result (λ led. led.items ≡ map key_of keys.items) }
{
    let mut led = Vec::with_capacity(*keys.allocator(), keys.len())?;
    for key in keys {
        led.push(LedKey::of(key))?;
    }
    Ok(led)
}

/// The keys without their leads.
fn bare_keys(led: Vec<LedKey>) -> Result<Vec<Key>, NoMemory>
    ensures { IfOk result (λ keys. map key_of keys.items ≡ led.items) }
{
    let mut keys = Vec::with_capacity(*led.allocator(), led.len())?;
    for one in led {
        keys.push(one.key)?;
    }
    Ok(keys)
}

/// Sorts keys by their leads, and leaves each once.
fn sort_by_leads(keys: Vec<Key>) -> Result<Vec<Key>, NoMemory>
    ensures { IfOk result (λ sorted. map key_of sorted.items ≡ in_order (map key_of keys.items)) }
{
    let mut led = led_keys(keys)?;
    led.sort_unstable_by(
        |a: &LedKey, b: &LedKey| -> Ordering
            ensures { result ≡ key_cmp a.now b.now }
        { a.order(b) },
    );
    led.dedup();
    let sorted = bare_keys(led)?;
    Ok(sorted)
}

/// Sorts keys, and leaves each once.
///
/// `NoMemory` where an allocation failed. Cost: n log n comparisons of n keys, mostly of two numbers where there are
/// many; constant time, and no memory, where n is 0 or 1.
pub fn sort_keys(mut keys: Vec<Key>) -> Result<Vec<Key>, NoMemory>
    ensures { IfOk result (λ sorted. map key_of sorted.items ≡ in_order (map key_of keys.items)) }
{
    if keys.len() < 2 {
        return Ok(keys);
    }
    if keys.len() < MANY_KEYS {
        keys.sort()?;
        keys.dedup();
        return Ok(keys);
    }
    sort_by_leads(keys)
}
