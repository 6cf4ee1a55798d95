//! The first bytes of texts as numbers, by which most texts are told apart without a look at them.
ghost use Rattle.std.specs.Prelude.{◌≡◌, ◌≤◌, slice_index, length, take};
ghost use Rattle.clip_words.specs.Order.{bytes_cmp};
ghost use Rattle.clip_meaning.specs.Leads.{IsLead};

use std::cmp::Ordering;

/// A byte of a text, 0 past its end.
fn byte_at(bytes: &[u8], i: usize) -> u8
    ensures { result ≡ slice_index bytes.now i }
{
    if i < bytes.len() { bytes[i] } else { 0 }
}

/// The lead of a text that has these bytes.
fn lead_of_bytes(bytes: &[u8]) -> u64
    ensures { IsLead bytes.now result }
{
    let mut lead = 0;
    for i in 0..8 {
        lead = lead * 256 + byte_at(bytes, i) as u64;
    }
    lead
}

/// The lead of a text: its first eight bytes as a number, the first as the greatest digit, and 0 past its end. Takes no
/// memory. Constant time.
pub fn lead_of(text: &str) -> u64
    ensures { IsLead text.now result }
{
    lead_of_bytes(text.as_bytes())
}

/// The lead of the text of so many bytes that these begin with. Takes no memory. Constant time.
#[inline(always)]
pub(crate) fn lead_ahead(ahead: &[u8], count: usize) -> u64
    requires { count ≤ length ahead.now }
    ensures { IsLead (take count ahead.now) result }
{
    let Some(first) = ahead.first_chunk::<8>() else {
        return lead_of_bytes(&ahead[..count]);
    };
    if count == 0 {
        return 0;
    }
    let behind = 64 - 8 * (count.min(8) as u32);
    u64::from_be_bytes(*first) >> behind << behind
}

/// Compares two texts by their bytes, beside which their leads are given. Takes no memory. Constant time where the
/// leads differ, and where both texts have the same length, at most eight bytes; the texts are looked at only in other
/// cases.
pub fn compare_by_leads(a: &str, a_lead: u64, b: &str, b_lead: u64) -> Ordering
    requires a { IsLead a.now a_lead }
    requires b { IsLead b.now b_lead }
    ensures { result ≡ bytes_cmp a.now b.now }
{
    if a_lead != b_lead {
        return a_lead.cmp(&b_lead);
    }
    if a.len() == b.len() && a.len() <= 8 {
        return Ordering::Equal;
    }
    a.cmp(b)
}
