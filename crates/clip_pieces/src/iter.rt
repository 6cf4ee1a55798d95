//! The iterator of a list.
ghost use Rattle.std.specs.Prelude.{◌≡◌, length};
ghost use Rattle.std.specs.Iterator.{at_most};
ghost use Rattle.std.specs.Map.Iter.{TakesFirst, deref};

use crate::exact::Exact;
use crate::list::SharedList;
use std::marker::Model;

/// An iterator over the items of a list in order. Contracts see the items that are left.
#[derive(Drop)]
pub struct Iter<'a, T: Exact> {
    list: &'a SharedList<T>,
    place: usize,
}

impl<'a, T: Exact> Model for Iter<'a, T> {
    ghost use Rattle.std.specs.Prelude.{◌≤◌, List, length, drop};
    ghost use Rattle.std.specs.Coded.{coded_list};

    ghost Value = { List T };

    ghost coded = { coded_list T.code };

    ghost view = { λ iter. drop iter.place iter.list.now };

    ghost invariant = { λ iter. iter.place ≤ length iter.list.now };
}

impl<T: Exact> SharedList<T> {
    /// An iterator over the items in order. Takes no memory. Cost: constant time for each item.
    pub fn iter(&self) -> Iter<'_, T>
        ensures { result ≡ self.now }
    {
        Iter {
            list: self,
            place: 0,
        }
    }
}

impl<'a, T: Exact> Iterator for Iter<'a, T> {
    type Item = &'a T;

    ghost next_gives = { TakesFirst deref };

    ghost remaining = { λ left. at_most (length left) };

    fn next(&mut self) -> Option<&'a T> {
        let list = self.list;
        let place = self.place;
        if place == list.len() {
            return None;
        }
        self.place = place + 1;
        list.get(place)
    }
}

impl<'a, T: Exact> IntoIterator for &'a SharedList<T> {
    type Item = &'a T;

    type IntoIter = Iter<'a, T>;

    ghost into_iter_gives = { λ list iter. iter ≡ list.now };

    fn into_iter(self) -> Iter<'a, T> {
        self.iter()
    }
}
