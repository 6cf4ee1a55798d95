//! The steps of the ends by which a desk publishes and its seats read.
ghost use Rattle.std.specs.Prelude.{◌≡◌, ℕ, IfOk, Some, MatchResult, ◌++◌, drop};
ghost use Rattle.left_right.specs.Sides.{view};
ghost use mathlib.Core.List.{IsPrefix};
ghost use Rattle.clip_desk.specs.Callers.{IsBy};
ghost use Rattle.clip_desk.specs.Ends.{Fits, StaysOf, Continues, Shows};
ghost use Rattle.clip_desk.specs.Purges.{IsPurgedAt};

use crate::chronicle::SeenHistory;
use crate::published::{Published, ReaderEnd, Sight, WriterEnd};
use clip_indexed::Index;
use clip_registry::View;
use core::mem::replace_with;
use std::alloc::AllocError;
use std::sync::Wait;

/// A copy of what is published, or `AllocError` where a count of holders is at its end. It waits for nobody.
fn read<I: Index>(end: ReaderEnd<I>) -> (ReaderEnd<I>, Result<Published<I>, AllocError>)
    ensures read { IfOk result.1 (λ p. (view result.0.place ≡ Some p) × Fits p (view end.place)) }
    ensures kept { StaysOf (view end.place) (view result.0.place) }
{
    match end.enter_as::<Sight>() {
        Ok(reading) => {
            let copy = reading.get().copy();
            (reading.leave(), copy)
        }
        Err(end) => (end, Err(AllocError)),
    }
}

/// A copy of what is published, or `AllocError` where a count of holders is at its end. It goes on from what the end
/// saw before. It waits for nobody. Constant time.
pub(crate) fn read_here<I: Index>(end: &mut ReaderEnd<I>) -> Result<Published<I>, AllocError>
    ensures read { IfOk result (λ p. (view end.new.place ≡ Some p) × Fits p (view end.old.place)) }
    ensures kept { StaysOf (view end.old.place) (view end.new.place) }
{
    replace_with(end, (), |end, _nothing| read(end))
}

/// Publishes a value that goes on from the one before; after an `AllocError` that one stays published. It may wait for
/// readers that read. Constant time.
pub(crate) fn publish<I: Index, R: Wait>(
    rt: &R,
    writer: WriterEnd<I>,
    next: Published<I>,
) -> (WriterEnd<I>, Result<(), AllocError>)
    requires { Continues writer.desk.shown.value next }
    ensures { MatchResult result.1 (λ _. (result.0.desk.shown.value ≡ next)
        × (view result.0.desk.place ≡ Some next))
        (λ _. (result.0.desk.shown.value ≡ writer.desk.shown.value)
        × (view result.0.desk.place ≡ view writer.desk.place)) }
{
    let mut writer = writer;
    let Ok(()) = writer.append(next) else {
        return (writer, Err(AllocError));
    };
    writer.publish_as::<Sight, R>(rt)
}

/// Publishes a copy of a value that goes on from the one before; after an `AllocError` that one stays published.
fn publish_copy<I: Index, R: Wait>(
    rt: &R,
    writer: WriterEnd<I>,
    next: &Published<I>,
) -> (WriterEnd<I>, Result<(), AllocError>)
    requires { Continues writer.desk.shown.value next.now }
    ensures { MatchResult result.1 (λ _. result.0.desk.shown.value ≡ next.now)
        (λ _. result.0.desk.shown.value ≡ writer.desk.shown.value) }
{
    match next.copy() {
        Ok(copy) => publish(rt, writer, copy),
        Err(AllocError) => (writer, Err(AllocError)),
    }
}

/// Publishes a value that goes on from the one before. Where that is refused it tries again, and so waits until a count
/// of holders falls or memory comes; it may wait for readers that read.
fn publish_surely<I: Index, R: Wait>(
    rt: &R,
    writer: WriterEnd<I>,
    next: &Published<I>,
) -> WriterEnd<I>
    requires { Continues writer.desk.shown.value next.now }
    ensures { result.desk.shown.value ≡ next.now }
{
    let mut writer = writer;
    for _ in rt.forever() {
        let (tried, shown) = publish_copy(rt, writer, next);
        writer = tried;
        if shown.is_ok() {
            return writer;
        }
    }
    unreachable!()
}

/// Publishes a view whose history is the one that was seen and goes on from the one before, and how long it was at the
/// last purge; after an `AllocError` the one before stays published. It may wait for readers that read. Constant time.
pub(crate) fn show<I: Index, R: Wait>(
    rt: &R,
    writer: &mut WriterEnd<I>,
    view: View<I>,
    seen_history: SeenHistory,
    purged_at: usize,
) -> Result<(), AllocError>
    requires log { seen_history.seen.log ≡ view.history }
    requires book { seen_history.seen.book ≡ writer.old.desk.shown.value.book }
    requires later { IsPrefix writer.old.desk.shown.value.view.history view.history }
    requires callers { IsBy writer.old.desk.shown.value.callers view.history }
    requires keeps { view.keeps ≡ writer.old.desk.shown.value.view.keeps }
    requires purged { IsPurgedAt view purged_at }
    ensures { MatchResult result (λ _. Shows writer.old.desk.shown.value view purged_at
        writer.new.desk.shown.value) (λ _. writer.new.desk.shown.value
        ≡ writer.old.desk.shown.value) }
{
    let callers = writer.published().callers;
    let next = Published {
        view,
        seen_history,
        callers,
        purged_at,
    };
    publish_here(rt, writer, next)
}

/// Publishes a view with what was seen, as `show` does, of which the last purge is the one before, and is never
/// refused: it tries again, and so waits until a count of holders falls or memory comes.
pub(crate) fn show_surely<I: Index, R: Wait>(
    rt: &R,
    writer: &mut WriterEnd<I>,
    view: View<I>,
    seen_history: SeenHistory,
)
    requires log { seen_history.seen.log ≡ view.history }
    requires book { seen_history.seen.book ≡ writer.old.desk.shown.value.book }
    requires later { IsPrefix writer.old.desk.shown.value.view.history view.history }
    requires callers { IsBy writer.old.desk.shown.value.callers view.history }
    requires keeps { view.keeps ≡ writer.old.desk.shown.value.view.keeps }
    requires purged { IsPurgedAt view writer.old.desk.shown.value.purged_at }
    ensures { Shows writer.old.desk.shown.value view writer.old.desk.shown.value.purged_at
        writer.new.desk.shown.value }
{
    let callers = writer.published().callers;
    let purged_at = writer.published().purged_at;
    let next = Published {
        view,
        seen_history,
        callers,
        purged_at,
    };
    publish_surely_here(rt, writer, next);
}

/// Publishes any value that goes on from the one before, and tries again where it is refused.
fn publish_surely_here<I: Index, R: Wait>(rt: &R, writer: &mut WriterEnd<I>, next: Published<I>)
    requires { Continues writer.old.desk.shown.value next }
    ensures { writer.new.desk.shown.value ≡ next }
{
    replace_with(
        writer,
        (rt, next),
        |writer, (rt, next)| (publish_surely(rt, writer, &next), ()),
    )
}

/// Publishes any value that goes on from the one before. `AllocError` where it is refused, with nothing changed.
fn publish_here<I: Index, R: Wait>(
    rt: &R,
    writer: &mut WriterEnd<I>,
    next: Published<I>,
) -> Result<(), AllocError>
    requires { Continues writer.old.desk.shown.value next }
    ensures { MatchResult result (λ _. writer.new.desk.shown.value ≡ next)
        (λ _. writer.new.desk.shown.value ≡ writer.old.desk.shown.value) }
{
    replace_with(
        writer,
        (rt, next),
        |writer, (rt, next)| publish(rt, writer, next),
    )
}
