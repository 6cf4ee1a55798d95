//! Where listeners are, by their names.
ghost use Rattle.std.specs.Prelude.{◌≡◌, IfOk, bytes_eq, is_some, not};
ghost use Rattle.std.specs.List.{position_from};
ghost use Rattle.std.specs.Option.{ForSome};
ghost use Rattle.clip_listen.specs.Heard.{distinct, names_of};
ghost use Rattle.clip_listen.specs.Steps.Index.{Indexes};

use crate::listeners::Named;
use clip_words::NoMemory;
use std::alloc::Global;
use std::collections::BTreeMap;

/// The place of each listener, by a copy of its name.
pub(crate) type PlaceByName = BTreeMap<String, usize>;

/// The index of the listeners; `None` just where a name repeats.
///
/// `NoMemory` where an allocation failed. Cost: a copy of each name, and one search among the names for each.
pub(crate) fn index_of(alloc: Global, parts: &[Named]) -> Result<Option<PlaceByName>, NoMemory>
    ensures distinct { IfOk result (λ index. is_some index ≡ distinct (names_of parts.now)) }
    ensures places { IfOk result (λ index. ForSome index (λ places. Indexes places 0 (names_of parts.now))) }
{
    let mut index = BTreeMap::new(alloc);
    for at in (0..parts.len()).rev() {
        if index.insert(parts[at].0.clone()?, at)?.is_some() {
            return Ok(None);
        }
    }
    Ok(Some(index))
}

/// Where the listener of a name is. Cost: a walk over the names.
pub(crate) fn place_by_walk(parts: &[Named], name: &str) -> Option<usize>
    ensures { result ≡ position_from (bytes_eq name.now) 0 (names_of parts.now) }
{
    let mut at = 0;
    for part in parts {
        if name == part.0.as_str() {
            return Some(at);
        }
        at += 1;
    }
    None
}

/// Whether two of the listeners have one name. Cost: each name is compared with those after it.
#[tactic(auto, using(crate::proofs::Names::again, crate::proofs::Names::once))]
pub(crate) fn repeats(parts: &[Named]) -> bool
    ensures { result ≡ not (distinct (names_of parts.now)) }
{
    let mut rest = parts;
    while let Some((part, after)) = rest.split_first() {
        if place_by_walk(after, part.0.as_str()).is_some() {
            return true;
        }
        rest = after;
    }
    false
}
