//! The ends and seats of a desk, before it has a name.
ghost use Rattle.std.specs.Prelude.{◌≡◌, true, false, ◌↔◌, ◌+◌, ◌<◌, ◌≤◌, [], ◌∷◌, ◌++◌, length, IfOk, IfErr, OnOk};
ghost use Rattle.std.specs.Prelude.{vec_len};
ghost use Rattle.left_right.specs.Sides.{view};
ghost use Rattle.clip_desk.specs.Ends.{IsOf, seen_keeps};
ghost use Rattle.clip_desk.specs.Seats.{new_seat, AreSeated};
ghost use Rattle.clip_desk.specs.Locked.{IsSettled};

use crate::chronicle::{LengthWord, SeenHistory, open_chronicle};
use crate::ends::publish;
use crate::published::{Handover, Published, WriterEnd};
use crate::refused::NewRefused;
use crate::rights::{Right, Rights};
use crate::seat::Seat;
use crate::update_listener::UpdateListener;
use crate::update_listeners::UpdateListeners;
use clip_indexed::Index;
use clip_model::MOST_CALLERS;
use clip_registry::Registrar;
use clip_words::NoMemory;
use left_right::Absorb;
use left_right::writer::Writer;
use std::alloc::Global;
use std::marker::Model;
use std::sync::Wait;

/// All that a desk is made of, with its seats and its listeners. It has no `Drop`: hand it to `Desk::open`.
pub struct DeskParts<I: Index, L: UpdateListener>
where
    Published<I>: Absorb<Published<I>, State = Published<I>>,
{
    pub(crate) registrar: Registrar<I>,
    pub(crate) writer: WriterEnd<I>,
    pub(crate) head: LengthWord,
    pub(crate) seen_history: SeenHistory,
    pub(crate) seats: Vec<Seat<I>>,
    pub(crate) updates: UpdateListeners<L>,
    pub(crate) alloc: Global,
    pub(crate) tag: u64,
    pub(crate) callers: u32,
}

impl<I: Index, L: UpdateListener> Model for DeskParts<I, L>
where
    Published<I>: Absorb<Published<I>, State = Published<I>>,
{
    ghost use Rattle.std.specs.Prelude.{◌≡◌, [], vec_len};
    ghost use Rattle.clip_desk.specs.Seats.{PartsIs, AreSeated};
    ghost use Rattle.clip_desk.specs.Locked.{IsSettled};

    ghost Value = { PartsIs };

    ghost view = { λ p. record {
      tag = p.tag;
      callers = p.callers;
      keeps = p.registrar.keeps;
      book = p.seen_history.seen.book;
      updates = p.updates;
    } };

    ghost invariant = { λ p. IsSettled p.seen_history.seen.book p.callers p.registrar.keeps p.registrar p.head
        p.seen_history p.writer.desk.shown.value × (p.registrar.history ≡ [])
        × AreSeated p.tag p.callers p.registrar.keeps p.seen_history.seen.book p.seats.items
        × (vec_len p.seats ≡ p.callers) };
}

/// The seat of a caller, whose end knows what the writer has shown.
fn seat_one<I: Index>(
    writer: &mut WriterEnd<I>,
    seen_history: &SeenHistory,
    tag: u64,
    right: Right,
    callers: u32,
) -> Result<Seat<I>, NoMemory>
    requires told { IsOf seen_history.now.seen.book callers (view writer.old.desk.place) }
    requires caller { (0 < right.caller) × (right.caller ≤ callers) × (callers ≤ MOST_CALLERS) }
    requires right { (right.book ≡ seen_history.now.seen.book) × (right.made ≡ 0) }
    requires empty { seen_history.now.seen.log ≡ [] }
    ensures seat { IfOk result (λ s. s ≡ new_seat tag callers (seen_keeps (view writer.old.desk.place))
        seen_history.now.seen.book right.caller) }
    ensures kept { (view writer.new.desk.place ≡ view writer.old.desk.place)
        × (writer.new.desk.shown ≡ writer.old.desk.shown) }
{
    let mut end = writer.factory().reader()?;
    end.learn::<Handover>(writer.tell::<Handover>());
    Ok(Seat::new(end, seen_history.again(), tag, right, callers))
}

/// The seats of callers 1, 2, ..
fn seat_all<I: Index>(
    alloc: Global,
    writer: &mut WriterEnd<I>,
    seen_history: &SeenHistory,
    rights: Rights,
    tag: u64,
    callers: u32,
) -> Result<Vec<Seat<I>>, NoMemory>
    requires rights { (rights.book ≡ seen_history.now.seen.book) × (rights.given ≡ 0) }
    requires told { IsOf seen_history.now.seen.book callers (view writer.old.desk.place) }
    requires few { callers ≤ MOST_CALLERS }
    requires empty { seen_history.now.seen.log ≡ [] }
    ensures seats { IfOk result (λ v. AreSeated tag callers (seen_keeps (view writer.old.desk.place))
        seen_history.now.seen.book v.items × (vec_len v ≡ callers)) }
    ensures kept { writer.new.desk.shown ≡ writer.old.desk.shown }
{
    let mut seats = Vec::new(alloc);
    let mut left = rights;
    for number in 0..callers {
        let seat = seat_one(writer, seen_history, tag, left.give(), callers)?;
        seats.push(seat)?;
    }
    Ok(seats)
}

/// Three times the value that a desk publishes first.
fn first_values<I: Index>(
    registrar: &Registrar<I>,
    seen_history: &SeenHistory,
    callers: u32,
) -> Result<(Published<I>, Published<I>, Published<I>), NoMemory>
    requires { (seen_history.now.seen.log ≡ []) × (registrar.now.history ≡ []) × (registrar.now.segments ≡ []) }
    ensures same { IfOk result (λ t. (t.1 ≡ t.0) × (t.2 ≡ t.0)) }
    ensures first { IfOk result (λ t. (t.0.view ≡ registrar.now) × (t.0.book ≡ seen_history.now.seen.book)
        × (t.0.callers ≡ callers) × (t.0.purged_at ≡ 0)) }
{
    let first = Published {
        view: registrar.view()?,
        seen_history: seen_history.again(),
        callers,
        purged_at: 0,
    };
    let second = first.copy()?;
    let third = first.copy()?;
    Ok((first, second, third))
}

/// The writer of new ends, which knows what it has shown.
fn open_ends<I: Index, R: Wait>(
    rt: &R,
    alloc: Global,
    registrar: &Registrar<I>,
    seen_history: &SeenHistory,
    callers: u32,
) -> Result<WriterEnd<I>, NoMemory>
    requires { (seen_history.now.seen.log ≡ []) × (registrar.now.history ≡ []) × (registrar.now.segments ≡ [])
        × (0 < callers) × (callers ≤ MOST_CALLERS) }
    ensures shown { IfOk result (λ w. (w.desk.shown.value.view ≡ registrar.now)
        × (w.desk.shown.value.book ≡ seen_history.now.seen.book) × (w.desk.shown.value.callers ≡ callers)
        × (w.desk.shown.value.purged_at ≡ 0)) }
    ensures told { IfOk result (λ w. IsOf seen_history.now.seen.book callers (view w.desk.place)) }
    ensures keeps { IfOk result (λ w. seen_keeps (view w.desk.place) ≡ registrar.now.keeps) }
{
    let (first, second, third) = first_values(registrar, seen_history, callers)?;
    let writer = Writer::new(alloc, first, second, callers as usize)?;
    let (writer, shown) = publish(rt, writer, third);
    if shown.is_err() {
        writer.take(rt);
        return Err(NoMemory);
    }
    Ok(writer)
}

impl<I: Index, L: UpdateListener> DeskParts<I, L> {
    /// The parts of a desk of this tag, with an empty registry, a seat for each caller, and these listeners; or the
    /// listeners back: `TooMany` where there are more than `MOST_CALLERS` callers, and `NoMemory` where an allocation
    /// failed. The desk keeps its history, which is read once it is closed. The listeners are told nothing. It never
    /// waits, since nobody reads yet. It costs a step for each caller.
    pub fn new<R: Wait>(
        rt: &R,
        alloc: Global,
        tag: u64,
        callers: u32,
        updates: UpdateListeners<L>,
    ) -> Result<DeskParts<I, L>, (UpdateListeners<L>, NewRefused)>
        requires { 0 < callers }
        ensures ok { IfOk result (λ p. (p.tag ≡ tag) × (p.callers ≡ callers) × (p.updates ≡ updates)) }
        ensures keeps { IfOk result (λ p. p.keeps ≡ true) }
        ensures back { IfErr result (λ e. e.0 ≡ updates) }
        ensures few { OnOk result (callers ≤ MOST_CALLERS) }
        ensures many { (result ≡ Err (updates, NewRefused.TooMany)) ↔ (MOST_CALLERS < callers) }
    {
        DeskParts::of(rt, Registrar::new(alloc), alloc, tag, callers, updates)
    }

    /// The parts of a desk, as of `new`, but for the history, which the desk does not keep: its memory follows what is
    /// registered, and all its promises are those of `new` but that its history can't be read.
    pub fn without_history<R: Wait>(
        rt: &R,
        alloc: Global,
        tag: u64,
        callers: u32,
        updates: UpdateListeners<L>,
    ) -> Result<DeskParts<I, L>, (UpdateListeners<L>, NewRefused)>
        requires { 0 < callers }
        ensures ok { IfOk result (λ p. (p.tag ≡ tag) × (p.callers ≡ callers) × (p.updates ≡ updates)) }
        ensures keeps { IfOk result (λ p. p.keeps ≡ false) }
        ensures back { IfErr result (λ e. e.0 ≡ updates) }
        ensures few { OnOk result (callers ≤ MOST_CALLERS) }
        ensures many { (result ≡ Err (updates, NewRefused.TooMany)) ↔ (MOST_CALLERS < callers) }
    {
        DeskParts::of(
            rt,
            Registrar::without_history(alloc),
            alloc,
            tag,
            callers,
            updates,
        )
    }

    /// The parts of a desk with this registrar, which is new.
    fn of<R: Wait>(
        rt: &R,
        registrar: Registrar<I>,
        alloc: Global,
        tag: u64,
        callers: u32,
        updates: UpdateListeners<L>,
    ) -> Result<DeskParts<I, L>, (UpdateListeners<L>, NewRefused)>
        requires some { 0 < callers }
        requires empty { (registrar.history ≡ []) × (registrar.segments ≡ []) }
        ensures ok { IfOk result (λ p. (p.tag ≡ tag) × (p.callers ≡ callers) × (p.updates ≡ updates)) }
        ensures keeps { IfOk result (λ p. p.keeps ≡ registrar.keeps) }
        ensures back { IfErr result (λ e. e.0 ≡ updates) }
        ensures few { OnOk result (callers ≤ MOST_CALLERS) }
        ensures many { (result ≡ Err (updates, NewRefused.TooMany)) ↔ (MOST_CALLERS < callers) }
    {
        if callers > MOST_CALLERS {
            return Err((updates, NewRefused::TooMany));
        }
        let (head, seen_history, rights) = open_chronicle();
        let Ok(mut writer) = open_ends(rt, alloc, &registrar, &seen_history, callers) else {
            return Err((updates, NewRefused::NoMemory));
        };
        let Ok(seats) = seat_all(alloc, &mut writer, &seen_history, rights, tag, callers) else {
            writer.take(rt);
            return Err((updates, NewRefused::NoMemory));
        };
        Ok(DeskParts {
            registrar,
            writer,
            head,
            seen_history,
            seats,
            updates,
            alloc,
            tag,
            callers,
        })
    }
}
