//! What hears of changes of the registry.
ghost use Rattle.std.specs.Prelude.{◌≡◌, [], IfOk, map, string_bytes};
ghost use Rattle.std.specs.Arc.{arc_value, arc_str_bytes};
ghost use Rattle.clip_desk.specs.Told.{event_value};

use crate::events::UpdateEvent;
use clip_standing::Standing;
use clip_words::NoMemory;
use std::alloc::Global;
use std::sync::{Arc, ArcStr};

/// What hears of changes of the registry, seen as the events that it has heard.
///
/// Each method answers `NoMemory` where an allocation failed, or where the listener has no memory of its own left; it
/// hasn't heard the event then.
pub trait UpdateListener: Drop {
    ghost use Rattle.std.specs.Prelude.{◌≡◌, List, [], ◌∷◌, ◌++◌, OnOk, OnErr, map, string_bytes};
    ghost use Rattle.std.specs.Arc.{arc_value};
    ghost use Rattle.clip_desk.specs.Updates.{Event, Updated, Deleted, Cleared, Purged};

    /// The events that it has heard, in order.
    ghost heard: { Self → List Event };

    /// Hears that these queries were registered, in order.
    fn after_update(&mut self, alloc: Global, queries: &[Arc<Standing>]) -> Result<(), NoMemory>
        ensures ok { OnOk result (heard self.new
            ≡ heard self.old ++ Updated (map (λ s. s.id) (map arc_value queries.now)) ∷ []) }
        ensures err { OnErr result (heard self.new ≡ heard self.old) };

    /// Hears that these ids were deleted, in order, whether a query was there or not.
    fn after_delete(&mut self, alloc: Global, ids: &[String]) -> Result<(), NoMemory>
        ensures ok { OnOk result (heard self.new
            ≡ heard self.old ++ Deleted (map string_bytes ids.now) ∷ []) }
        ensures err { OnErr result (heard self.new ≡ heard self.old) };

    /// Hears that all queries were taken out.
    fn after_clear(&mut self, alloc: Global) -> Result<(), NoMemory>
        ensures ok { OnOk result (heard self.new ≡ heard self.old ++ Cleared ∷ []) }
        ensures err { OnErr result (heard self.new ≡ heard self.old) };

    /// Hears that what stands for no registered query was cleared away.
    fn on_purge(&mut self, alloc: Global) -> Result<(), NoMemory>
        ensures ok { OnOk result (heard self.new ≡ heard self.old ++ Purged ∷ []) }
        ensures err { OnErr result (heard self.new ≡ heard self.old) };
}

/// Keeps the events that it hears, and takes memory for each. It shares the ids of queries, and copies deleted ids.
#[derive(Debug, Drop)]
pub struct UpdateLog {
    events: Vec<UpdateEvent>,
}

impl UpdateLog {
    /// A log that has heard nothing. Takes no memory.
    pub fn new(alloc: Global) -> UpdateLog
        ensures { ⟦<UpdateLog as UpdateListener>⟧.heard result ≡ [] }
    {
        UpdateLog {
            events: Vec::new(alloc),
        }
    }

    /// The events that it has heard, in order.
    pub fn events(&self) -> &[UpdateEvent]
        ensures { map event_value result.now ≡ ⟦<UpdateLog as UpdateListener>⟧.heard self.now }
    {
        &self.events
    }
}

/// The ids of queries, shared.
fn shared_ids(alloc: Global, queries: &[Arc<Standing>]) -> Result<Vec<ArcStr>, NoMemory>
    ensures { IfOk result (λ ids. map arc_str_bytes ids.items ≡ map (λ s. s.id) (map arc_value queries.now)) }
{
    let mut ids = Vec::with_capacity(alloc, queries.len())?;
    for query in queries {
        ids.push(query.shared_id().clone()?)?;
    }
    Ok(ids)
}

/// A copy of ids.
fn copied_ids(alloc: Global, ids: &[String]) -> Result<Vec<ArcStr>, NoMemory>
    ensures { IfOk result (λ copies. map arc_str_bytes copies.items ≡ map string_bytes ids.now) }
{
    let mut copies = Vec::with_capacity(alloc, ids.len())?;
    for id in ids {
        copies.push(ArcStr::from_str(alloc, id)?)?;
    }
    Ok(copies)
}

impl UpdateListener for UpdateLog {
    ghost use Rattle.std.specs.Prelude.{map};
    ghost use Rattle.clip_desk.specs.Told.{event_value};

    ghost heard = { λ l. map event_value l.events.items };

    fn after_update(&mut self, alloc: Global, queries: &[Arc<Standing>]) -> Result<(), NoMemory> {
        let ids = shared_ids(alloc, queries)?;
        self.events.push(UpdateEvent::Updated(ids))?;
        Ok(())
    }

    fn after_delete(&mut self, alloc: Global, ids: &[String]) -> Result<(), NoMemory> {
        let ids = copied_ids(alloc, ids)?;
        self.events.push(UpdateEvent::Deleted(ids))?;
        Ok(())
    }

    fn after_clear(&mut self, _alloc: Global) -> Result<(), NoMemory> {
        self.events.push(UpdateEvent::Cleared)?;
        Ok(())
    }

    fn on_purge(&mut self, _alloc: Global) -> Result<(), NoMemory> {
        self.events.push(UpdateEvent::Purged)?;
        Ok(())
    }
}
