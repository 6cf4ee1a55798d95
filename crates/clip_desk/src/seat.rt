//! A caller's seat, and the receipt of a commit.
ghost use Rattle.std.specs.Prelude.{◌≡◌, ◌+◌, ◌^◌, ◌<◌, ◌≤◌, ◌⊎◌, [], ◌∷◌, ◌++◌, length, take, IsTrue, IfOk, MatchBool};
ghost use mathlib.Core.List.{IsPrefix};
ghost use Rattle.left_right.specs.Sides.{view};
ghost use Rattle.clip_model.specs.History as model;
ghost use Rattle.clip_model.specs.History.{own, IsLegal};
ghost use Rattle.clip_desk.specs.Callers.{IsBy};
ghost use Rattle.clip_desk.specs.Chronicle.{head_of};
ghost use Rattle.clip_desk.specs.Ends.{IsOf, seen_keeps};
ghost use Rattle.clip_desk.specs.Purges.{IsPurgedAt};
ghost use Rattle.clip_desk.specs.Seats.{longer};

use crate::chronicle::{LengthWord, SeenHistory};
use crate::ends::read_here;
use crate::published::{Published, ReaderEnd};
use crate::rights::Right;
use clip_indexed::Index;
use clip_model::MOST_CALLERS;
use clip_registry::{Registrar, View};
use clip_standing::Applied;
use clip_words::NoMemory;
use std::marker::Model;

/// One caller's place at a desk, seen as the longest history that it got, the commands that were committed with it, how
/// long the history was at the last purge with it, and how many purges with it were answered `Ok`. It has the right to
/// add entries of its caller to the desk's history, which nothing else has.
pub struct Seat<I: Index> {
    end: ReaderEnd<I>,
    seen_history: SeenHistory,
    tag: u64,
    callers: u32,
    right: Right,
    purged_at: usize,
    purges: u64,
}

impl<I: Index> Drop for Seat<I> {
    fn drop(self) {
        let Seat {
            end: _,
            seen_history: _,
            tag: _,
            callers: _,
            right: _,
            purged_at: _,
            purges: _,
        } = self;
    }
}

impl<I: Index> Model for Seat<I> {
    ghost use Rattle.std.specs.Prelude.{◌≡◌, ◌<◌, ◌≤◌, length};
    ghost use Rattle.left_right.specs.Sides.{view as known_at};
    ghost use Rattle.clip_model.specs.declared.limits.TheConstants.{MOST_CALLERS};
    ghost use Rattle.clip_model.specs.History.{own};
    ghost use Rattle.clip_desk.specs.Ends.{IsOf, seen_keeps};
    ghost use Rattle.clip_desk.specs.Seats.{SeatIs, seat_code, mine_of};

    ghost Value = { SeatIs };

    ghost coded = { seat_code };

    ghost view = { λ s. record {
      tag = s.tag;
      caller = s.right.caller;
      callers = s.callers;
      keeps = seen_keeps (known_at s.end.place);
      book =
          s.seen_history.seen.book;
      seen = s.seen_history.seen.log;
      mine = mine_of s.seen_history.seen.log s.right.caller
          s.right.made;
      purged_at = s.purged_at;
      purges = s.purges;
    } };

    ghost invariant = { λ s. IsOf s.seen_history.seen.book s.callers (known_at s.end.place)
        × (s.right.made ≤ length (own s.seen_history.seen.log s.right.caller)) × (0 < s.right.caller)
        × (s.right.caller ≤ s.callers) × (s.callers ≤ MOST_CALLERS)
        × (s.right.book ≡ s.seen_history.seen.book) };
}

/// What a commit answers, seen as the history that ends with its command, and the answer.
#[derive(Drop)]
pub struct Receipt {
    seen_history: SeenHistory,
    tag: u64,
    applied: Applied,
}

impl Model for Receipt {
    ghost use Rattle.clip_desk.specs.Seats.{ReceiptIs, receipt_code};

    ghost Value = { ReceiptIs };

    ghost coded = { receipt_code };

    ghost view = { λ r. record {
      tag = r.tag;
      book = r.seen_history.seen.book;
      history = r.seen_history.seen.log;
      applied = r.applied;
    } };
}

impl Receipt {
    /// The receipt of the last command of a history. Constant time.
    pub(crate) fn new(tag: u64, seen_history: SeenHistory, applied: Applied) -> Receipt
        ensures { result ≡ record {
          tag = tag;
          book = seen_history.seen.book;
          history = seen_history.seen.log;
          applied = applied;
        } }
    {
        Receipt {
            seen_history,
            tag,
            applied,
        }
    }

    /// How many commands the history has, this one included. Constant time.
    pub fn place(&self) -> u64
        ensures { result ≡ length self.now.history }
    {
        self.seen_history.count as u64
    }

    /// The answer to the command. Constant time.
    pub fn applied(&self) -> Applied
        ensures { result ≡ self.now.applied }
    {
        self.applied
    }
}

impl<I: Index> Seat<I> {
    /// The seat of a caller, which has seen nothing. Constant time.
    pub(crate) fn new(
        end: ReaderEnd<I>,
        seen_history: SeenHistory,
        tag: u64,
        right: Right,
        callers: u32,
    ) -> Seat<I>
        requires end { IsOf seen_history.seen.book callers (view end.place) }
        requires caller { (0 < right.caller) × (right.caller ≤ callers) × (callers ≤ MOST_CALLERS) }
        requires right { (right.book ≡ seen_history.seen.book) × (right.made ≡ 0) }
        requires empty { seen_history.seen.log ≡ [] }
        ensures { result ≡ record {
          tag = tag;
          caller = right.caller;
          callers = callers;
          keeps = seen_keeps (view end.place);
          book =
              seen_history.seen.book;
          seen = [];
          mine = [];
          purged_at = 0;
          purges = 0;
        } }
    {
        Seat {
            end,
            seen_history,
            tag,
            callers,
            right,
            purged_at: 0,
            purges: 0,
        }
    }

    /// The tag of the seat's desk. Constant time.
    pub fn tag(&self) -> u64
        ensures { result ≡ self.now.tag }
    {
        self.tag
    }

    /// The caller's number, from 1. Constant time.
    pub fn caller(&self) -> u32
        ensures caller { result ≡ self.now.caller }
        ensures known { (0 < result) × (result ≤ self.now.callers) × (self.now.callers ≤ MOST_CALLERS) }
    {
        self.right.caller()
    }

    /// The registry as it was last published, whose history goes on from all that the seat has seen, with the commands
    /// that were committed with the seat as all of its caller's, and can be read just where the desk keeps it. It has
    /// no entry that was dead at the last purge with the seat. `NoMemory` where a count of holders is at its end. It
    /// waits for nobody, and costs that of `View::number_of`.
    pub fn look(&mut self) -> Result<View<I>, NoMemory>
        ensures seen { IfOk result (λ v. v.history ≡ self.new.seen) }
        ensures keeps { IfOk result (λ v. v.keeps ≡ self.old.keeps) }
        ensures mine { IfOk result (λ v. own v.history self.old.caller ≡ self.old.mine) }
        ensures legal { IfOk result (λ v. IsLegal v.history × IsBy self.old.callers v.history) }
        ensures purged { IfOk result (λ v. IsPurgedAt v self.old.purged_at) }
        ensures later { IsPrefix self.old.seen self.new.seen }
        ensures same { self.new ≡ record self.old { seen = self.new.seen } }
    {
        let answer = read_here(&mut self.end);
        let Ok(shown) = answer else {
            return Err(NoMemory);
        };
        let Published {
            view,
            seen_history,
            purged_at,
            ..
        } = shown;
        if seen_history.count < self.seen_history.count {
            return Err(NoMemory);
        }
        if purged_at < self.purged_at {
            return Err(NoMemory);
        }
        self.seen_history.meet(&seen_history);
        let there = view.number_of(self.right.caller());
        self.seen_history = seen_history;
        if there != self.right.made() {
            return Err(NoMemory);
        }
        Ok(view)
    }

    /// Takes in the history of a receipt of the seat's desk: afterwards the seat has seen the longer of its own and
    /// that. It waits for nobody, and takes no memory. Constant time.
    pub fn learn(&mut self, receipt: &Receipt)
        requires desk { receipt.now.book ≡ self.old.book }
        ensures one { IsPrefix self.old.seen receipt.now.history ⊎ IsPrefix receipt.now.history self.old.seen }
        ensures seen { self.new ≡ record self.old { seen = longer self.old.seen receipt.now.history } }
        ensures mine { IsPrefix self.new.mine (own self.new.seen self.new.caller) }
    {
        self.seen_history.meet(&receipt.seen_history);
        if self.seen_history.count < receipt.seen_history.count {
            self.seen_history = receipt.seen_history.again();
        }
    }

    /// Shows that of what two seats of one desk have seen one begins the other. It does nothing at run time.
    pub fn meet(&self, other: &Seat<I>)
        requires desk { other.now.book ≡ self.now.book }
        ensures shorter { length self.now.seen ≤ length other.now.seen → IsPrefix self.now.seen other.now.seen }
        ensures longer { length other.now.seen ≤ length self.now.seen → IsPrefix other.now.seen self.now.seen }
    {
        self.seen_history.meet(&other.seen_history);
    }

    /// Whether two numbers agree: the history is as long as what was seen at least, and has as many of the caller's
    /// commands as were committed with the seat. Constant time.
    pub(crate) fn agrees(&self, seen_history: &SeenHistory, there: u32) -> bool
        requires desk { seen_history.now.seen.book ≡ self.now.book }
        requires there { there ≡ length (own seen_history.now.seen.log self.now.caller) }
        ensures { IsTrue result → IsPrefix self.now.seen seen_history.now.seen.log
            × (own seen_history.now.seen.log self.now.caller ≡ self.now.mine) }
    {
        self.seen_history.meet(seen_history);
        self.seen_history.count <= seen_history.count && self.right.made() == there
    }

    /// Whether what was seen, and the last purge with the seat, are within a history of this length. Constant time.
    pub(crate) fn is_within(&self, count: usize) -> bool
        ensures seen { IsTrue result → length self.now.seen ≤ count }
        ensures mine { IsTrue result → length self.now.mine ≤ count }
        ensures purged { IsTrue result → self.now.purged_at ≤ count }
    {
        self.seen_history.count <= count && self.purged_at <= count
    }

    /// How many purges with the seat were answered `Ok`. Constant time.
    pub(crate) fn purges(&self) -> u64
        ensures { result ≡ self.now.purges }
    {
        self.purges
    }

    /// Counts a purge with the seat, and keeps how long the history was. Constant time.
    pub(crate) fn count_purge(&mut self, count: usize)
        requires { self.old.purges + 1 < 2 ^ 64 }
        ensures { self.new ≡ record self.old { purged_at = count; purges = self.old.purges + 1 } }
    {
        self.purged_at = count;
        self.purges += 1;
    }

    /// Sees a history that goes on from what was seen. Constant time.
    pub(crate) fn see(&mut self, seen_history: &SeenHistory)
        requires desk { seen_history.now.seen.book ≡ self.old.book }
        requires later { IsPrefix self.old.seen seen_history.now.seen.log }
        ensures { self.new ≡ record self.old { seen = seen_history.now.seen.log } }
    {
        self.seen_history = seen_history.again();
    }

    /// Adds the newest command of a registrar, which is its caller's next, to the history by the seat's right, and sees
    /// the history with it; or says that it did not, where the history is longer than was seen. Constant time.
    pub(crate) fn add(
        &mut self,
        seen_history: &mut SeenHistory,
        head: &LengthWord,
        registrar: &Registrar<I>,
    ) -> bool
        requires desk { (seen_history.old.seen.book ≡ self.old.book) × (head.now ≡ head_of self.old.book) }
        requires one_more { (e : model.HistoryEntry) × (registrar.now.history ≡ seen_history.old.seen.log ++ e ∷ [])
            × (e.caller ≡ self.old.caller) }
        requires own { length self.old.mine + 1 ≤ length (own registrar.now.history self.old.caller) }
        ensures book { seen_history.new.seen.book ≡ seen_history.old.seen.book }
        ensures added { MatchBool result (seen_history.new.seen.log ≡ registrar.now.history)
            (IsPrefix seen_history.old.seen.log seen_history.new.seen.log) }
        ensures legal { IsLegal registrar.now.history }
        ensures seat { MatchBool result
            ((self.new ≡ record self.old { seen = registrar.now.history; mine = self.new.mine })
            × (self.new.mine ≡ take (length self.old.mine + 1) (own registrar.now.history self.old.caller)))
            (self.new ≡ self.old) }
    {
        if !seen_history.follow(head, registrar, &mut self.right) {
            return false;
        }
        self.seen_history = seen_history.again();
        true
    }
}
