//! Entries: how one is written, and how one is told from a torn one and from a wrong one.
ghost use Rattle.std.specs.Prelude.{◌≡◌, ◌≢◌, ◌≤◌, ◌<◌, ◌^◌, ◌++◌, ℕ, List, length, IfOk, OnOk, IsErrOf};
ghost use Rattle.std.specs.Option.{MatchOption};
ghost use Rattle.std.specs.Int.{w64, to_be_bytes};
ghost use Rattle.clip_journal.specs.Entries.{check, head, entry, link_after, IsTorn, IsWrong};

use sha2::{Digest, Sha256};
use std::alloc::AllocError;

/// The bytes of a head: a place, a size and a digest over both.
pub(crate) const HEAD_BYTES: usize = 48;

/// The bytes of a digest.
pub(crate) const LINK_BYTES: usize = 32;

/// A digest, which the next entry goes on from.
pub(crate) type Link = [u8; 32];

/// Why no entry stands at a place.
#[derive(Clone, Copy, Debug, PartialEq, Eq)]
pub(crate) enum NoEntry {
    /// Less than an entry stands there.
    Torn,
    /// Something else stands there.
    Wrong,
}

/// The digest of a head.
#[tactic(auto, unfolding(crate::specs::Entries::check, crate::specs::Entries::digest))]
fn check_of(link: &Link, place: u64, size: u64) -> Link
    ensures { result ≡ check link.now place size }
{
    let mut hasher = Sha256::new();
    hasher.update(link);
    hasher.update(&place.to_be_bytes());
    hasher.update(&size.to_be_bytes());
    hasher.finalize()
}

/// The link of an entry whose head has this digest.
#[tactic(auto, unfolding(crate::specs::Entries::link_after, crate::specs::Entries::digest))]
fn link_of(check_sum: &Link, said: &[u8]) -> Link
    ensures { (link : List ℕ) (place : ℕ) → check_sum.now ≡ check link place (length said.now)
        → result ≡ link_after link place said.now }
{
    let mut hasher = Sha256::new();
    hasher.update(check_sum);
    hasher.update(said);
    hasher.finalize()
}

/// Writes an entry behind what is there, and gives its link.
pub(crate) fn put_entry(
    out: &mut Vec<u8>,
    link: &Link,
    place: u64,
    said: &[u8],
) -> Result<Link, AllocError>
    ensures bytes { OnOk result (out.new.items ≡ out.old.items ++ entry link.now place said.now) }
    ensures link { IfOk result (λ next. next ≡ link_after link.now place said.now) }
    ensures small { length said.now < 2 ^ 64 }
{
    let size = said.len() as u64;
    let check_sum = check_of(link, place, size);
    let next = link_of(&check_sum, said);
    out.extend_from_slice(&place.to_be_bytes())?;
    out.extend_from_slice(&size.to_be_bytes())?;
    out.extend_from_slice(&check_sum)?;
    out.extend_from_slice(said)?;
    out.extend_from_slice(&next)?;
    Ok(next)
}

/// The number in front, and what stands behind it.
pub(crate) fn number_at(bytes: &[u8]) -> (u64, &[u8])
    requires { 8 ≤ length bytes.now }
    ensures { bytes.now ≡ to_be_bytes w64 result.0 ++ result.1.now }
{
    let (front, rest) = bytes.split_at(8);
    let number = u64::from_be_bytes([
        front[0], front[1], front[2], front[3], front[4], front[5], front[6], front[7],
    ]);
    (number, rest)
}

/// What stands behind these bytes, where they stand in front.
fn behind<'a>(bytes: &'a [u8], front: &[u8]) -> Option<&'a [u8]>
    ensures { MatchOption result ((rest : List ℕ) → bytes.now ≢ front.now ++ rest)
        (λ rest. bytes.now ≡ front.now ++ rest.now) }
{
    bytes.strip_prefix(front)
}

/// How much the entry in front says, the digest of its head, and what stands behind its head.
fn head_at<'a>(link: &Link, place: u64, bytes: &'a [u8]) -> Result<(u64, Link, &'a [u8]), NoEntry>
    ensures check { IfOk result (λ found. found.1 ≡ check link.now place found.0) }
    ensures found { IfOk result (λ found. bytes.now ≡ head link.now place found.0 ++ found.2.now) }
    ensures torn { IsErrOf result NoEntry.Torn → length bytes.now < 48 }
    ensures long { IsErrOf result NoEntry.Wrong → 48 ≤ length bytes.now }
    ensures wrong { IsErrOf result NoEntry.Wrong
        → (size : ℕ) (more : List ℕ) → size < 2 ^ 64 → bytes.now ≡ head link.now place size ++ more → ⊥ }
{
    if bytes.len() < HEAD_BYTES {
        return Err(NoEntry::Torn);
    }
    let (told, sized) = number_at(bytes);
    let (size, checked) = number_at(sized);
    if told != place {
        return Err(NoEntry::Wrong);
    }
    let check_sum = check_of(link, place, size);
    match behind(checked, &check_sum) {
        Some(rest) => Ok((size, check_sum, rest)),
        None => Err(NoEntry::Wrong),
    }
}

/// What the entry in front says, its link, and what stands behind it.
pub(crate) fn entry_at<'a>(
    link: &Link,
    place: u64,
    bytes: &'a [u8],
) -> Result<(&'a [u8], Link, &'a [u8]), NoEntry>
    ensures entry { IfOk result (λ found. bytes.now ≡ entry link.now place found.0.now ++ found.2.now) }
    ensures link { IfOk result (λ found. found.1 ≡ link_after link.now place found.0.now) }
    ensures torn { IsErrOf result NoEntry.Torn → IsTorn link.now place bytes.now }
    ensures wrong { IsErrOf result NoEntry.Wrong → IsWrong link.now place bytes.now }
{
    let (size, check_sum, body) = head_at(link, place, bytes)?;
    if body.len() < LINK_BYTES || size > (body.len() - LINK_BYTES) as u64 {
        return Err(NoEntry::Torn);
    }
    let (said, tail) = body.split_at(size as usize);
    let next = link_of(&check_sum, said);
    match behind(tail, &next) {
        Some(rest) => Ok((said, next, rest)),
        None => Err(NoEntry::Wrong),
    }
}
