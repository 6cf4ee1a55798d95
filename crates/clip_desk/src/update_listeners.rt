//! Update listeners, each with whether it missed an event.
ghost use Rattle.std.specs.Prelude.{◌≡◌, [], ◌∷◌, ◌++◌, OnOk, OnErr, IfOk, IfErr, map};
ghost use Rattle.clip_desk.specs.Updates.{IsTold, AreTold, heard_by, unmarked};
ghost use Rattle.clip_desk.specs.Told.{told_value};

use crate::events::Update;
use crate::update_listener::UpdateListener;
use clip_words::NoMemory;
use std::alloc::Global;
use std::marker::Model;

/// Listeners of one type, each with its mark: whether it missed an event. A marked one is told nothing more, so an
/// unmarked one has heard all that was told, and a marked one some first events of it.
///
/// Seen as what each has heard, and its mark.
pub struct UpdateListeners<L: UpdateListener> {
    parts: Vec<(L, bool)>,
}

impl<L: UpdateListener> Drop for UpdateListeners<L> {
    fn drop(self) {
        let UpdateListeners { parts: _ } = self;
    }
}

impl<L: UpdateListener> Model for UpdateListeners<L> {
    ghost use Rattle.std.specs.Prelude.{List, map};
    ghost use Rattle.clip_desk.specs.Updates.{Heard, heard_by};

    ghost Value = { List Heard };

    ghost view = { λ u. map (heard_by L.heard) u.parts.items };
}

/// Tells a listener what happened.
fn hear<L: UpdateListener>(
    alloc: Global,
    listener: &mut L,
    update: Update<'_>,
) -> Result<(), NoMemory>
    ensures ok { OnOk result (L.heard listener.new ≡ L.heard listener.old ++ told_value update.entry ∷ []) }
    ensures err { OnErr result (L.heard listener.new ≡ L.heard listener.old) }
{
    match update {
        Update::Updated(queries) => listener.after_update(alloc, queries),
        Update::Deleted(ids) => listener.after_delete(alloc, ids),
        Update::Cleared => listener.after_clear(alloc),
        Update::Purged => listener.on_purge(alloc),
    }
}

/// Tells a listener what happened, unless it is marked; marks it where it refuses.
fn tell_one<L: UpdateListener>(alloc: Global, part: &mut (L, bool), update: Update<'_>)
    ensures { IsTold (told_value update.entry) (heard_by L.heard part.old) (heard_by L.heard part.new) }
{
    if !part.1 && hear(alloc, &mut part.0, update).is_err() {
        part.1 = true;
    }
}

impl<L: UpdateListener> UpdateListeners<L> {
    /// The listeners, none of them marked; the listeners themselves where an allocation failed. Cost: a step for each.
    pub fn new(alloc: Global, listeners: Vec<L>) -> Result<UpdateListeners<L>, Vec<L>>
        ensures ok { IfOk result (λ it. it ≡ unmarked L.heard listeners.items) }
        ensures back { IfErr result (λ back. back.items ≡ listeners.items) }
    {
        let Ok(mut parts) = Vec::with_capacity(alloc, listeners.len()) else {
            return Err(listeners);
        };
        for listener in listeners {
            parts.push_reserved((listener, false));
        }
        Ok(UpdateListeners { parts })
    }

    /// Tells what happened to each listener that isn't marked, and marks those that refuse. It takes no memory of its
    /// own. Cost: what each listener takes.
    pub fn tell(&mut self, alloc: Global, update: Update<'_>)
        ensures { AreTold (told_value update.entry) self.old self.new }
    {
        for part in self.parts.iter_mut() {
            tell_one(alloc, part, update);
        }
    }

    /// The listeners, in order, each with its mark.
    pub fn into_parts(self) -> Vec<(L, bool)>
        ensures { map (heard_by L.heard) result.items ≡ self }
    {
        let UpdateListeners { parts } = self;
        parts
    }
}
