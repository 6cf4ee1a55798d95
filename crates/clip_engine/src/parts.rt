//! What parts of a divided registry found of an article, put together for a caller outside of Rattle.
ghost use Rattle.std.specs.Prelude.{◌≡◌, ◌++◌, ◌≤◌, ◌^◌, ◌↔◌, None, map, IfOk, IfErr, IfSome, IsTrue, OnOk};
ghost use Rattle.clip_gather.specs.Merged.{NeverFalls, NoneFalls, merged_all};
ghost use Rattle.clip_gather.specs.Steps.Merging.{items_of};
ghost use Rattle.clip_engine.specs.Found.{number_bytes};
ghost use Rattle.clip_engine.specs.Gathered.{
  AreGatherable,
  AreWhole,
  IsUngathered,
  all_bytes,
  asked_in,
  gathered_bytes,
  id_of,
  told_bytes,
  told_in,
  told_of,
};

use crate::code;
use crate::found::add_number;
use clip_gather::{Keyed, merge_all, never_falls};
use clip_model::law_of_shards;
use clip_words::NoMemory;
use std::alloc::Global;
use std::collections::VecDeque;

/// The id of a query that holds of an article, and what goes with it.
#[repr(C)]
#[derive(Clone, Copy)]
pub struct Told<'a> {
    /// The id.
    pub id: &'a [u8],
    /// What goes with it, which is handed on as it is.
    pub rest: &'a [u8],
}

/// What a part found of an article.
#[repr(C)]
#[derive(Clone, Copy)]
pub struct Part<'a> {
    /// How many queries were tried.
    pub asked: u64,
    /// What it tells of each that holds, in the byte order of their ids.
    pub told: &'a [Told<'a>],
}

impl Keyed for Told<'_> {
    ghost key = { λ t. t.id.now };

    fn key(&self) -> &[u8] {
        self.id
    }
}

/// How many queries all parts tried, where 64 bits can count them.
fn asked_by(parts: &[Part<'_>]) -> Option<u64>
    ensures some { IfSome result (λ asked. asked ≡ asked_in parts.now) }
    ensures none { result ≡ None → 2 ^ 64 ≤ asked_in parts.now }
{
    let mut asked: u64 = 0;
    for part in parts {
        let Some(sum) = asked.checked_add(part.asked) else {
            return None;
        };
        asked = sum;
    }
    Some(asked)
}

/// Whether in a part no id is above the next.
fn is_in_order(part: &Part<'_>) -> bool
    ensures { IsTrue result ↔ NeverFalls id_of (told_in part.now) }
{
    never_falls(part.told)
}

/// Whether in no part an id is above the next.
fn are_in_order(parts: &[Part<'_>]) -> bool
    ensures { IsTrue result ↔ NoneFalls id_of (map told_in parts.now) }
{
    for part in parts {
        if !is_in_order(part) {
            return false;
        }
    }
    true
}

/// What a part tells, to be merged.
fn list_of<'a>(alloc: Global, part: &Part<'a>) -> Result<VecDeque<Told<'a>>, NoMemory>
    ensures { IfOk result (λ list. list.items ≡ part.now.told.now) }
{
    Ok(VecDeque::from(part.told.to_vec(alloc)?))
}

/// What each part tells, to be merged.
fn lists_of<'a>(alloc: Global, parts: &[Part<'a>]) -> Result<VecDeque<VecDeque<Told<'a>>>, NoMemory>
    ensures { IfOk result (λ lists. map items_of lists.items ≡ map (λ part. part.told.now) parts.now) }
{
    let mut lists = VecDeque::new(alloc);
    for part in parts {
        lists.push_back(list_of(alloc, part)?)?;
    }
    Ok(lists)
}

/// Adds what is told of a query: its id after its length, and what goes with it.
fn add_told(bytes: &mut Vec<u8>, told: &Told<'_>) -> Result<(), NoMemory>
    ensures { OnOk result (bytes.new.items ≡ bytes.old.items ++ told_bytes (told_of told.now)) }
{
    add_number(bytes, told.id.len() as u64)?;
    bytes.extend_from_slice(told.id)?;
    bytes.extend_from_slice(told.rest)?;
    Ok(())
}

/// How many queries were tried, and what is told after its count, as bytes.
fn bytes_of_told(alloc: Global, asked: u64, all: &[Told<'_>]) -> Result<Vec<u8>, NoMemory>
    ensures { IfOk result (λ bytes. bytes.items ≡ number_bytes asked ++ all_bytes (map told_of all.now)) }
{
    let mut bytes = Vec::new(alloc);
    add_number(&mut bytes, asked)?;
    add_number(&mut bytes, all.len() as u64)?;
    for told in all {
        add_told(&mut bytes, told)?;
    }
    Ok(bytes)
}

/// How many queries were tried, and what all parts tell, merged, as bytes.
fn merge_parts(alloc: Global, asked: u64, parts: &[Part<'_>]) -> Result<Vec<u8>, NoMemory>
    requires { NoneFalls id_of (map told_in parts.now) }
    ensures { IfOk result (λ bytes. bytes.items
        ≡ number_bytes asked ++ all_bytes (merged_all id_of (map told_in parts.now))) }
{
    let all = Vec::from(merge_all(alloc, lists_of(alloc, parts)?)?);
    bytes_of_told(alloc, asked, &all)
}

/// What all parts found, as bytes: how many queries were tried in all, the count of those that hold, and for each its
/// id after its length, and what goes with it. Numbers are eight bytes, the lowest first.
///
/// The first that holds: `LIMIT` where 64 bits can't count the queries that were tried, `ORDER` where in a part an id
/// is above the next; and `NO_MEMORY` where an allocation failed. The cost is that of `merge_all`, and a copy of all.
pub(crate) fn gathered(alloc: Global, parts: &[Part<'_>]) -> Result<Vec<u8>, u32>
    ensures ok { IfOk result (λ bytes. bytes.items ≡ gathered_bytes parts.now) }
    ensures kept { OnOk result (AreGatherable parts.now) }
    ensures err { IfErr result (λ code. code ≡ 0 → ⊥) }
    ensures why { IfErr result (IsUngathered parts.now) }
{
    let Some(asked) = asked_by(parts) else {
        return Err(code::LIMIT);
    };
    if !are_in_order(parts) {
        return Err(code::ORDER);
    }
    match merge_parts(alloc, asked, parts) {
        Ok(bytes) => Ok(bytes),
        Err(NoMemory) => Err(code::NO_MEMORY),
    }
}

/// What engines with the parts of a history found of an article, gathered, is what an engine with the whole finds.
pub fn law_of_gathering()
    ensures { AreWhole }
{
    law_of_shards();
}
