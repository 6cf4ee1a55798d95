//! What the writer publishes and the seats read, and the rule over their ends.
ghost use Rattle.std.specs.Prelude.{◌≡◌, IfOk};

use crate::chronicle::SeenHistory;
use atomic_table::{Join, Split};
use clip_indexed::Index;
use clip_registry::View;
use crossbeam_utils::rule::{Outcome, Protocol};
use left_right::Absorb;
use left_right::reader::Reader;
use left_right::writer::Writer;
use std::alloc::AllocError;
use std::marker::Model;

/// What a desk publishes: a view, the beginning that its history is, how many callers the desk has, all of whose the
/// history is, and how long it was at the last purge, at which no entry of the view was dead.
#[derive(Drop)]
pub(crate) struct Published<I: Index> {
    /// The registry as it stood.
    pub(crate) view: View<I>,
    /// Its history.
    pub(crate) seen_history: SeenHistory,
    /// Callers are numbered from 1 to this.
    pub(crate) callers: u32,
    /// How long its history was at the last purge, or 0 where there was none.
    pub(crate) purged_at: usize,
}

impl<I: Index> Model for Published<I> {
    ghost use Rattle.std.specs.Prelude.{◌≡◌};
    ghost use Rattle.clip_desk.specs.Callers.{IsBy};
    ghost use Rattle.clip_desk.specs.Published.{PublishedIs, published_code};
    ghost use Rattle.clip_desk.specs.Purges.{IsPurgedAt};

    ghost Value = { PublishedIs };

    ghost coded = { published_code };

    ghost view = { λ p. record {
      view = p.view;
      book = p.seen_history.seen.book;
      callers = p.callers;
      purged_at = p.purged_at;
    } };

    ghost invariant = { λ p. (p.seen_history.seen.log ≡ p.view.history) × IsBy p.callers p.view.history
        × IsPurgedAt p.view p.purged_at };
}

impl<I: Index> Published<I> {
    /// A copy, or `AllocError` where a count of holders is at its end. Constant time.
    pub(crate) fn copy(&self) -> Result<Published<I>, AllocError>
        ensures { IfOk result (λ p. p ≡ self.now) }
    {
        let Ok(view) = self.view.copy() else {
            return Err(AllocError);
        };
        Ok(Published {
            view,
            seen_history: self.seen_history.again(),
            callers: self.callers,
            purged_at: self.purged_at,
        })
    }
}

// Each operation replaces the whole value.
impl<I: Index> Absorb<Published<I>> for Published<I> {
    type State = Published<I>;

    ghost state = { λ p. p };

    ghost applied = { λ before operation. operation };

    fn absorb_first(
        &mut self,
        operation: &Published<I>,
        _other: &Published<I>,
    ) -> Result<(), AllocError> {
        *self = operation.copy()?;
        Ok(())
    }

    fn absorb_second(
        &mut self,
        operation: Published<I>,
        _other: &Published<I>,
    ) -> Result<(), Published<I>> {
        *self = operation;
        Ok(())
    }
}

/// What an end knows is the value that it saw last.
pub(crate) struct Rules;

impl<I: Index> Protocol<Published<I>, Option<Published<I>>> for Rules {
    ghost use Rattle.std.specs.Prelude.{None};
    ghost use Rattle.clip_desk.specs.Ends.{Keeps};

    ghost holds = { Keeps };

    ghost first = { None };
}

/// An end sees what is published.
pub(crate) struct Sight;

impl<I: Index> Outcome<Published<I>, Option<Published<I>>> for Sight {
    ghost use Rattle.clip_desk.specs.Ends.{Sees};

    ghost then = { Sees };
}

/// What the writer saw goes to a reader.
pub(crate) struct Handover;

impl<I: Index> Split<Option<Published<I>>> for Handover {
    ghost left = { λ v. v };

    ghost right = { λ v. v };
}

impl<I: Index> Join<Option<Published<I>>> for Handover {
    ghost use Rattle.std.specs.Prelude.{None};

    ghost both = { λ v w. w };

    ghost spent = { None };
}

/// The end by which a seat reads.
pub(crate) type ReaderEnd<I> = Reader<Published<I>, Option<Published<I>>, Rules>;

/// The end by which a desk publishes. It has no `Drop`: end it by `take`. A struct that holds one repeats the bound
/// `Absorb` of `Writer`, which only a generic `impl` meets here.
pub(crate) type WriterEnd<I> = Writer<Published<I>, Published<I>, Option<Published<I>>, Rules>;
