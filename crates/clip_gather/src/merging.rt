//! Lists, merged by the ids of queries.
ghost use Rattle.std.specs.Prelude.{◌≡◌, ◌++◌, ◌≤◌, ◌↔◌, map, take, drop, true, IsTrue, IfOk};
ghost use Rattle.std.specs.Prelude.{MatchOption, option_to_list};
ghost use Rattle.std.specs.Ordering.{is_lt};
ghost use Rattle.std.specs.VecDeque.{deque_len};
ghost use Rattle.clip_words.specs.Order.{bytes_cmp};
ghost use Rattle.clip_gather.specs.Merged.{NeverFalls, NoneFalls, merged_all, merged_by};
ghost use Rattle.clip_gather.specs.Steps.Merging.{IsNotBelow, items_of};

use crate::keyed::Keyed;
use clip_words::NoMemory;
use std::alloc::Global;
use std::collections::VecDeque;

/// Whether no id of a list is above the next, so that it may be merged. Cost: a comparison of two ids for each item.
pub fn never_falls<T: Keyed>(list: &[T]) -> bool
    ensures { IsTrue result ↔ NeverFalls T.key list.now }
{
    let mut rest = list;
    while let Some((first, later)) = rest.split_first() {
        if let Some(next) = later.first() {
            if first.key().cmp(next.key()).is_gt() {
                return false;
            }
        }
        rest = later;
    }
    true
}

/// Takes the first item, where its id is below that of another. Constant time, but for the comparison.
fn pop_below<T: Keyed>(list: &mut VecDeque<T>, other: &T) -> Option<T>
    ensures items { list.old.items ≡ option_to_list result ++ list.new.items }
    ensures below { MatchOption result (IsNotBelow T.key list.new.items other.now)
        (λ a. is_lt (bytes_cmp (T.key a) (T.key other.now)) ≡ true) }
{
    let first = list.front()?;
    if first.key().cmp(other.key()).is_lt() {
        list.pop_front()
    } else {
        None
    }
}

/// Merges two lists, of one id those of the first before those of the second. Cost: a step for each item, and a
/// comparison of two ids.
fn merge<T: Keyed + Drop>(
    alloc: Global,
    mut first: VecDeque<T>,
    mut second: VecDeque<T>,
) -> Result<VecDeque<T>, NoMemory>
    requires first { NeverFalls T.key first.items }
    requires second { NeverFalls T.key second.items }
    ensures { IfOk result (λ found. found.items ≡ merged_by T.key first.items second.items) }
{
    let mut found = VecDeque::new(alloc);
    while let Some(item) = first.pop_front() {
        while let Some(below) = pop_below(&mut second, &item) {
            found.push_back(below)?;
        }
        found.push_back(item)?;
    }
    found.append(&mut second)?;
    Ok(found)
}

/// Merges the first so many lists in order, and takes them out. Cost: for each item a step and a comparison for each
/// time that the count can be halved.
fn merge_first<T: Keyed + Drop>(
    alloc: Global,
    lists: &mut VecDeque<VecDeque<T>>,
    count: usize,
) -> Result<VecDeque<T>, NoMemory>
    requires there { count ≤ deque_len lists.old }
    requires in_order { NoneFalls T.key (map items_of lists.old.items) }
    ensures found { IfOk result (λ found. found.items
        ≡ merged_all T.key (take count (map items_of lists.old.items))) }
    ensures rest { IfOk result (λ _. lists.new.items ≡ drop count lists.old.items) }
{
    if count == 0 {
        return Ok(VecDeque::new(alloc));
    }
    if count == 1 {
        let Some(only) = lists.pop_front() else {
            unreachable!()
        };
        return Ok(only);
    }
    let half = count / 2;
    let first = merge_first(alloc, lists, half)?;
    let second = merge_first(alloc, lists, count - half)?;
    merge(alloc, first, second)
}

/// Merges lists, each of which stands in the byte order of its ids, into one that does; of one id, what an earlier list
/// has comes before what a later one has.
///
/// `NoMemory` where an allocation failed. Cost: for each item a step and a comparison of two ids for each time that the
/// number of lists can be halved.
pub fn merge_all<T: Keyed + Drop>(
    alloc: Global,
    lists: VecDeque<VecDeque<T>>,
) -> Result<VecDeque<T>, NoMemory>
    requires { NoneFalls T.key (map items_of lists.items) }
    ensures { IfOk result (λ found. found.items ≡ merged_all T.key (map items_of lists.items)) }
{
    let mut lists = lists;
    let count = lists.len();
    merge_first(alloc, &mut lists, count)
}
