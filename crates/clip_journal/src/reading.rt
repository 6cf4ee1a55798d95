//! A journal's bytes read back.
ghost use Rattle.std.specs.Prelude.{◌≡◌, ◌≢◌, ◌<◌, ◌≤◌, ◌+◌, ◌-◌, ◌^◌, ℕ, List, length, drop};
ghost use Rattle.std.specs.Prelude.{IfOk, IfErr, IfSome, IfNone};
ghost use Rattle.clip_journal.specs.Entries.{numbers};
ghost use Rattle.clip_journal.specs.Kept.{Kept, Reads, kept_in, said_by, says};
ghost use Rattle.clip_journal.specs.Parts.{Parts, IsWrongFrom, IsBroken};
ghost use Rattle.clip_journal.specs.Contents.{kept_of, torn_of};

use crate::contents::Contents;
use crate::entry::{Link, NoEntry, entry_at, number_at};
use crate::fault::ReadFault;
use std::alloc::Global;

/// The bytes of what a journal's first entry says: how much it keeps.
const OPENING_BYTES: usize = 16;

/// How many changes no journal tells of.
pub(crate) const CHANGES_END: u64 = 1 << 63;

/// The link that the first entry goes on from.
pub(crate) const FIRST_LINK: Link = [0; 32];

/// What whole entries say, the link of the last, and where they end.
#[derive(Drop)]
struct Whole {
    said: Vec<Vec<u8>>,
    link: Link,
    at: usize,
}

/// The whole entries in front, where less than an entry stands behind them.
fn whole_entries(alloc: Global, bytes: &[u8]) -> Result<Whole, ReadFault>
    ensures whole { IfOk result (λ whole. Parts bytes.now (says whole.said.items) whole.link whole.at) }
    ensures wrong { IfErr result (λ fault. IsWrongFrom bytes.now fault) }
    ensures small { length bytes.now < 2 ^ 64 }
{
    let size = bytes.len();
    let mut said = Vec::new(alloc);
    let mut link = FIRST_LINK;
    let mut rest = bytes;
    'entries: while !rest.is_empty() {
        let (one, next, behind) = match entry_at(&link, said.len() as u64, rest) {
            Ok(found) => found,
            Err(NoEntry::Torn) => break,
            Err(NoEntry::Wrong) => return Err(ReadFault::Broken(size - rest.len())),
        };
        said.push(Vec::from_slice(alloc, one)?)?;
        link = next;
        rest = behind;
    }
    let at = size - rest.len();
    Ok(Whole { said, link, at })
}

/// How many commands were accepted before, and how many queries were live then, where an entry says so before which
/// as many stand.
fn opening_in(first: &[u8], behind: usize) -> Option<(u64, usize)>
    ensures within { IfSome result (λ told. told.1 ≤ behind) }
    ensures counted { IfSome result (λ told. told.0 + (behind - told.1) < 2 ^ 63) }
    ensures some { IfSome result (λ told. first.now ≡ numbers told.0 told.1) }
    ensures none { IfNone result ((a b : ℕ) → b ≤ behind → a + (behind - b) < 2 ^ 63 → first.now ≢ numbers a b) }
{
    if first.len() != OPENING_BYTES {
        return None;
    }
    let (changes, rest) = number_at(first);
    let (live, _) = number_at(rest);
    if live > behind as u64 {
        return None;
    }
    let since = behind as u64 - live;
    let room = CHANGES_END.saturating_sub(changes);
    if since >= room {
        return None;
    }
    Some((changes, live as usize))
}

/// How many commands were accepted before, and how many queries were live then, by the first entry.
fn opening_of(said: &[Vec<u8>]) -> Option<(u64, usize)>
    ensures within { IfSome result (λ told. told.1 < length said.now) }
    ensures counted { IfSome result (λ told. told.0 + length (drop (1 + told.1) (says said.now)) < 2 ^ 63) }
    ensures some { IfSome result (λ told. says said.now ≡ said_by (kept_in told.0 told.1 (says said.now))) }
    ensures none { IfNone result ((kept : Kept) → kept.changes + length kept.since < 2 ^ 63
        → says said.now ≢ said_by kept) }
{
    match said {
        [] => None,
        [first, behind @ ..] => opening_in(first, behind.len()),
    }
}

/// What a journal keeps, read back from its bytes, with what stands torn at their end.
///
/// Cost: a digest of all of the bytes, and a copy of what they say.
///
/// # Errors
///
/// `Broken` where no journal has these bytes, even with less than an entry at its end; up to its byte whole entries
/// stand. `NoMemory` where an allocation failed.
pub fn read_back(alloc: Global, bytes: &[u8]) -> Result<Contents, ReadFault>
    ensures found { IfOk result (λ found. Reads bytes.now (kept_of found) (torn_of found)) }
    ensures only { (kept : Kept) (torn : List ℕ) → Reads bytes.now kept torn
        → IfOk result (λ found. (kept_of found ≡ kept) × (torn_of found ≡ torn)) }
    ensures broken { IfErr result (λ fault. IsBroken bytes.now fault) }
{
    let Whole { said, link, at } = whole_entries(alloc, bytes)?;
    let (changes, live) = match opening_of(&said) {
        Some(told) => told,
        None => return Err(ReadFault::Broken(at)),
    };
    let torn = Vec::from_slice(alloc, &bytes[at..])?;
    Ok(Contents {
        changes,
        live,
        said,
        link,
        torn,
    })
}
