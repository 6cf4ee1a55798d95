//! The history as a token that can be copied: what was seen of it stays a beginning of it for good.
//!
//!     the history   r1 r2 d1 r3      its word, `LengthWord`, is 4
//!     seen before   r1 r2            a `SeenHistory` of count 2: a beginning of it, now and later
//!     seen now      r1 r2 d1 r3      what `follow` made of it, by the right of the caller who gave r3
//!
//! Of two that were seen the shorter begins the longer. All of it is tokens of no bytes; the counts alone are kept.
ghost use Rattle.std.specs.Prelude.{◌≡◌, ◌+◌, ◌==◌, ◌<◌, ◌≤◌, ◌^◌, ◌++◌, ◌∷◌, ◌⊎◌, [], length, MatchBool};
ghost use mathlib.Core.List.{IsPrefix};
ghost use Rattle.clip_desk.specs.Chronicle.{head_of};
ghost use Rattle.clip_model.specs.History as model;
ghost use Rattle.clip_model.specs.History.{IsLegal};
ghost use Rattle.clip_model.specs.declared.limits.TheConstants.{MOST_ENTRIES};
ghost use Rattle.clip_standing.specs.Command.{entry_of};

use crate::rights::{Right, Rights};
use clip_indexed::Index;
use clip_registry::Registrar;
use clip_standing::HistoryEntry;
use logbook::{Gain, Offer, Plain, Play, Rule, Seen, Start, Word};
use std::marker::Model;

/// An entry of the history, as the chronicle keeps it. No value of it is made.
pub(crate) struct LoggedEntry {
    /// The entry.
    pub(crate) entry: HistoryEntry,
}

impl Model for LoggedEntry {
    ghost use Rattle.clip_model.specs.History.{HistoryEntry, entry_code};
    ghost use Rattle.clip_standing.specs.Command.{entry_of};

    ghost Value = { HistoryEntry };

    ghost coded = { entry_code };

    ghost view = { λ l. entry_of l.entry };
}

/// The rule of the chronicle: its word is the length of the history.
pub(crate) struct Law;

impl Rule<LoggedEntry, u64> for Law {
    ghost use Rattle.std.specs.Prelude.{[]};
    ghost use base.Fml.{ftrue};
    ghost use Rattle.clip_desk.specs.Chronicle.{IsKept};

    ghost holds = { λ cells log. IsKept cells log };

    ghost first = { [] };

    ghost hinted = { λ n log. Unit {0} };

    ghost shows = { λ log. [] };

    ghost keeps = { λ names log. ftrue };

    ghost moves = { λ ask before after answer. Unit {0} };
}

/// Callers trade nothing.
struct Nothing;

impl Gain<LoggedEntry, u64> for Nothing {
    ghost use base.Fml.{ftrue};

    ghost after = { λ names about answer. ftrue };
}

/// A step that adds an entry.
struct Add;

impl Play<LoggedEntry, u64> for Add {
    ghost use Rattle.clip_desk.specs.Chronicle.{Adds};

    ghost then = { Adds };
}

/// What a step asks for: the entry.
impl Plain<HistoryEntry, LoggedEntry, u64> for Add {
    ghost use Rattle.std.specs.Prelude.{None};
    ghost use Rattle.clip_standing.specs.Command.{entry_of};

    ghost ask = { λ e. entry_of e };

    ghost state = { λ e. None };
}

/// The word of a chronicle: the length of its history. Only `SeenHistory::follow` changes it.
#[derive(Drop)]
pub(crate) struct LengthWord {
    word: Word<LoggedEntry, u64, Law>,
}

impl Model for LengthWord {
    ghost use Rattle.logbook.specs.Pages.{Named, named_coded};

    ghost Value = { Named };

    ghost coded = { named_coded };

    ghost view = { λ h. h.word };
}

/// A beginning of the history, which any later history begins with, and its length.
#[derive(Drop)]
pub(crate) struct SeenHistory {
    /// How many entries it has.
    pub(crate) count: usize,
    /// What was seen, a token of no bytes.
    pub(crate) seen: Seen<LoggedEntry, u64, Law>,
    pub(crate) ghost counted: { count ≡ length seen.log },
}

/// The word of a new chronicle, its empty history, and the rights to add to it. Constant time.
pub(crate) fn open_chronicle() -> (LengthWord, SeenHistory, Rights)
    ensures head { result.0 ≡ head_of result.1.seen.book }
    ensures empty { result.1.seen.log ≡ [] }
    ensures rights { result.2 ≡ record { book = result.1.seen.book; given = 0 } }
{
    let (seen, mut first, _second) = Seen::open(Start::alone(), 0, 0);
    let head = LengthWord {
        word: Word::tracked(0, &mut first),
    };
    let rights = Rights::new(&seen);
    (head, SeenHistory { count: 0, seen }, rights)
}

impl SeenHistory {
    /// A copy. Constant time.
    pub(crate) fn again(&self) -> SeenHistory
        ensures { result ≡ self.now }
    {
        SeenHistory {
            count: self.count,
            seen: self.seen.again(),
        }
    }

    /// Shows that of two beginnings of one history one begins the other. It does nothing at run time.
    pub(crate) fn meet(&self, other: &SeenHistory)
        requires { other.now.seen.book ≡ self.now.seen.book }
        ensures shorter { length self.now.seen.log ≤ length other.now.seen.log
            → IsPrefix self.now.seen.log other.now.seen.log }
        ensures longer { length other.now.seen.log ≤ length self.now.seen.log
            → IsPrefix other.now.seen.log self.now.seen.log }
    {
        let mut both = self.seen.again();
        both.learn(&other.seen);
    }

    /// Adds an entry to all that was seen, and says whether it did: it did not where the history is longer. It asks for
    /// the right of the entry's caller. Constant time.
    fn add(&mut self, head: &LengthWord, entry: &HistoryEntry, right: &mut Right) -> bool
        requires head { head.now ≡ head_of self.old.seen.book }
        requires room { length self.old.seen.log < 2 ^ 62 }
        requires right { (right.old.book ≡ self.old.seen.book)
            × (right.old.caller ≡ (entry_of entry.now).caller) }
        requires counted { right.old.made < MOST_ENTRIES }
        ensures book { self.new.seen.book ≡ self.old.seen.book }
        ensures added { MatchBool result (self.new.seen.log ≡ self.old.seen.log
            ++ entry_of entry.now ∷ []) (IsPrefix self.old.seen.log self.new.seen.log) }
        ensures right { MatchBool result (right.new ≡ record right.old { made = right.old.made + 1 })
            (right.new ≡ right.old) }
    {
        let mut offer: Offer<LoggedEntry, u64, Law, Nothing> = self
            .seen
            .plain::<Nothing, HistoryEntry, Add>(entry);
        let mut pen = self.seen.no_pen();
        let old = self.count as u64;
        let found = head
            .word
            .compare_exchange::<Add, Nothing>(old, old + 1, &mut self.seen, &mut offer, &mut pen);
        if found != old {
            self.count = found as usize;
            return false;
        }
        self.count += 1;
        right.count();
        true
    }

    /// Adds the newest command of a registrar to all that was seen, by the right of its caller, and says whether it
    /// did. Constant time.
    pub(crate) fn follow<I: Index>(
        &mut self,
        head: &LengthWord,
        registrar: &Registrar<I>,
        right: &mut Right,
    ) -> bool
        requires head { head.now ≡ head_of self.old.seen.book }
        requires one_more { (e : model.HistoryEntry) × (registrar.now.history ≡ self.old.seen.log ++ e ∷ [])
            × (e.caller ≡ right.old.caller) }
        requires book { right.old.book ≡ self.old.seen.book }
        requires counted { right.old.made ≤ length self.old.seen.log }
        ensures book { self.new.seen.book ≡ self.old.seen.book }
        ensures added { MatchBool result (self.new.seen.log ≡ registrar.now.history)
            (IsPrefix self.old.seen.log self.new.seen.log) }
        ensures right { MatchBool result (right.new ≡ record right.old { made = right.old.made + 1 })
            (right.new ≡ right.old) }
        ensures legal { IsLegal registrar.now.history }
    {
        match registrar.last_entry() {
            Some(entry) => self.add(head, entry, right),
            None => false,
        }
    }
}
