//! Listeners by name, and the delivery of alerts to them.
ghost use Rattle.std.specs.Prelude.{◌≡◌, [], ◌∷◌, ◌++◌, map, option_map, IsTrue, true, false, bytes_eq, Some, IfOk};
ghost use Rattle.std.specs.Prelude.{OnOk, OnErr, IfErr, string_bytes};
ghost use Rattle.std.specs.Arc.{arc_str_bytes};
ghost use Rattle.std.specs.List.{position_from, cons_option};
ghost use Rattle.std.specs.Option.{ForSome};
ghost use Rattle.clip_standing.specs.Alerts.{alert_value};
ghost use Rattle.clip_listen.specs.Heard.{hearer, text_of, told_all, note_of, notes_of, note_value, alerts_of};
ghost use Rattle.clip_listen.specs.Heard.{HearsFront, distinct, names_of};
ghost use Rattle.clip_listen.specs.Steps.Index.{Indexes};

use crate::listener::Listener;
use crate::note::Note;
use crate::places::{PlaceByName, index_of, place_by_walk, repeats};
use clip_standing::{Alert, Alerts};
use clip_words::NoMemory;
use std::alloc::Global;
use std::sync::ArcStr;

/// A listener under its name.
pub type Named = (String, Box<dyn Listener + Send>);

/// What alerts are told to, seen as its listeners in order: each with its name, its style and what it has heard.
pub trait Audience {
    ghost use Rattle.std.specs.Prelude.{◌≡◌, ◌⊎◌, List, [], ◌∷◌, option_map, IfOk, OnOk, OnErr};
    ghost use Rattle.clip_standing.specs.Alerts.{alert_value};
    ghost use Rattle.clip_listen.specs.Heard.{Hearer, told_all, note_of, note_value, has_name};

    /// The listeners, in order.
    ghost hearers: { Self → List Hearer };

    /// Whether a listener has the name.
    fn has(&self, name: &str) -> bool
        ensures { result ≡ has_name (hearers self.now) name.now };

    /// Tells the alert to its listener, if it is here, and to no other; answers what that listener said.
    ///
    /// `NoMemory` where an allocation failed or the listener answers it; the listener has heard the alert then, or not.
    fn tell(&mut self, alloc: Global, alert: &Alert) -> Result<Option<Note>, NoMemory>
        ensures note { IfOk result (λ note. option_map note_value note
            ≡ note_of (hearers self.old) (alert_value alert.now)) }
        ensures ok { OnOk result (hearers self.new
            ≡ told_all (alert_value alert.now ∷ []) (hearers self.old)) }
        ensures err { OnErr result ((hearers self.new ≡ hearers self.old)
            ⊎ (hearers self.new ≡ told_all (alert_value alert.now ∷ []) (hearers self.old))) };
}

/// Tells each alert, in order, to its listener and to no other, and answers what the listeners said.
///
/// `NoMemory` where an allocation failed or a listener answers it; the listeners have heard some first ones of the
/// alerts then. Cost: that of `tell` for each alert.
pub fn deliver_to<A: Audience>(
    alloc: Global,
    audience: &mut A,
    alerts: &Alerts,
) -> Result<Vec<Note>, NoMemory>
    ensures notes { IfOk result (λ notes. map note_value notes.items
        ≡ notes_of (A.hearers audience.old) (alerts_of alerts.now)) }
    ensures ok { OnOk result (A.hearers audience.new
        ≡ told_all (alerts_of alerts.now) (A.hearers audience.old)) }
    ensures err { OnErr result (HearsFront (alerts_of alerts.now)
        (A.hearers audience.old) (A.hearers audience.new)) }
{
    let mut notes = Vec::new(alloc);
    for alert in &alerts.alerts {
        let note = audience.tell(alloc, alert)?;
        keep(&mut notes, note)?;
    }
    Ok(notes)
}

/// Adds the note, if there is one.
fn keep(notes: &mut Vec<Note>, note: Option<Note>) -> Result<(), NoMemory>
    ensures { OnOk result (map note_value notes.new.items
        ≡ map note_value notes.old.items ++ cons_option (option_map note_value note) []) }
{
    if let Some(note) = note {
        notes.push(note)?;
    }
    Ok(())
}

/// Listeners by name; no name occurs twice. An index has a copy of each name with its place, where there was memory for
/// one.
pub struct Listeners {
    parts: Vec<Named>,
    index: Option<PlaceByName>,
    ghost once: { IsTrue (distinct (names_of parts.items)) },
    ghost indexed: { ForSome index (λ index. Indexes index 0 (names_of parts.items)) },
}

impl Drop for Listeners {
    fn drop(self) {
        let Listeners { parts: _, index: _ } = self;
    }
}

impl Audience for Listeners {
    ghost use Rattle.std.specs.Prelude.{map, string_bytes};

    ghost hearers = { λ l. map (λ p. record {
      name = string_bytes p.0;
      style =
          (Listener-box p.1).style p.1.value;
      heard = (Listener-box p.1).heard p.1.value;
      keeps = (Listener-box p.1).keeps p.1.value;
    })
        l.parts.items };

    /// Whether a listener has the name. Cost: one search among the names; a walk over them where there is no index.
    fn has(&self, name: &str) -> bool {
        self.place(name).is_some()
    }

    /// Tells the alert to its listener, if it is here. Cost: one search among the names, or a walk over them where
    /// there is no index, and what the listener takes.
    fn tell(&mut self, alloc: Global, alert: &Alert) -> Result<Option<Note>, NoMemory> {
        let Some(name) = alert.listener() else {
            return Ok(None);
        };
        let Some(at) = self.place(name.as_str()) else {
            return Ok(None);
        };
        let listener = name.clone()?;
        let query = alert.query().clone()?;
        let text = ArcStr::from_string(hear_at(alloc, &mut self.parts, at, name, alert)?)?;
        Ok(Some(Note {
            listener,
            query,
            text,
        }))
    }
}

/// The listeners, where a name repeats.
#[derive(Drop)]
pub struct Twice {
    /// The listeners, as they were handed in.
    pub parts: Vec<Named>,
}

/// The listener at a place hears an alert of its name.
fn hear_at(
    alloc: Global,
    parts: &mut Vec<Named>,
    at: usize,
    name: &ArcStr,
    alert: &Alert,
) -> Result<String, NoMemory>
    requires once { distinct (names_of parts.old.items) ≡ true }
    requires place { position_from (bytes_eq (arc_str_bytes name.now)) 0 (names_of parts.old.items)
        ≡ Some at }
    requires own { (alert_value alert.now).listener ≡ Some (arc_str_bytes name.now) }
    ensures names { names_of parts.new.items ≡ names_of parts.old.items }
    ensures text { IfOk result (λ said. note_of (map (hearer style heard keeps) parts.old.items) (alert_value alert.now)
        ≡ Some (record {
          listener = arc_str_bytes name.now;
          query = (alert_value alert.now).query;
          text = string_bytes said;
        })) }
    ensures ok { OnOk result (map (hearer style heard keeps) parts.new.items
        ≡ told_all (alert_value alert.now ∷ []) (map (hearer style heard keeps) parts.old.items)) }
    ensures err { OnErr result (map (hearer style heard keeps) parts.new.items
        ≡ map (hearer style heard keeps) parts.old.items) }
{
    hear_by(alloc, &mut parts[at].1, alert)
}

/// A boxed listener hears an alert.
fn hear_by(
    alloc: Global,
    listener: &mut Box<dyn Listener + Send>,
    alert: &Alert,
) -> Result<String, NoMemory>
    ensures text { IfOk result (λ said. string_bytes said
        ≡ text_of (style listener.old) (alert_value alert.now)) }
    ensures style { style listener.new ≡ style listener.old }
    ensures keeps { keeps listener.new ≡ keeps listener.old }
    ensures ok { OnOk result (heard listener.new
        ≡ heard listener.old ++ alert_value alert.now ∷ []) }
    ensures err { OnErr result (heard listener.new ≡ heard listener.old) }
{
    listener.hear(alloc, alert)
}

impl Listeners {
    /// Keeps the listeners under their names, with an index of a copy of each name. Where memory for that is refused,
    /// they are kept without an index.
    ///
    /// `Twice`, with the listeners, just where a name repeats. Cost: one search among the names for each of them; where
    /// memory was refused, each name is compared with those after it.
    pub fn new(parts: Vec<Named>) -> Result<Listeners, Twice>
        ensures ok { IfOk result (λ it. ⟦<Listeners as Audience>⟧.hearers it
            ≡ map (hearer style heard keeps) parts.items) }
        ensures once { OnOk result (distinct (names_of parts.items) ≡ true) }
        ensures twice { OnErr result (distinct (names_of parts.items) ≡ false) }
        ensures back { IfErr result (λ e. e.parts.items ≡ parts.items) }
    {
        let index = match index_of(*parts.allocator(), &parts) {
            Ok(Some(index)) => Some(index),
            Ok(None) => return Err(Twice { parts }),
            Err(NoMemory) => {
                if repeats(&parts) {
                    return Err(Twice { parts });
                }
                None
            }
        };
        Ok(Listeners { parts, index })
    }

    /// Where the listener of a name is. Cost: one search among the names; a walk over them where there is no index.
    fn place(&self, name: &str) -> Option<usize>
        ensures { result ≡ position_from (bytes_eq name.now) 0 (names_of self.now.parts.items) }
    {
        match &self.index {
            Some(index) => index.get(name).copied(),
            None => place_by_walk(&self.parts, name),
        }
    }

    /// Tells each alert, in order, to its listener and to no other, and answers what the listeners said.
    ///
    /// `NoMemory` where an allocation failed or a listener answers it; the listeners have heard some first ones of the
    /// alerts then. Cost: that of `tell` for each alert.
    pub fn deliver(&mut self, alloc: Global, alerts: &Alerts) -> Result<Vec<Note>, NoMemory>
        ensures notes { IfOk result (λ notes. map note_value notes.items
            ≡ notes_of (⟦<Listeners as Audience>⟧.hearers self.old) (alerts_of alerts.now)) }
        ensures ok { OnOk result (⟦<Listeners as Audience>⟧.hearers self.new
            ≡ told_all (alerts_of alerts.now) (⟦<Listeners as Audience>⟧.hearers self.old)) }
        ensures err { OnErr result (HearsFront (alerts_of alerts.now)
            (⟦<Listeners as Audience>⟧.hearers self.old) (⟦<Listeners as Audience>⟧.hearers self.new)) }
    {
        deliver_to(alloc, self, alerts)
    }

    /// The listeners under their names, in order.
    pub fn into_parts(self) -> Vec<Named>
        ensures { map (hearer style heard keeps) result.items ≡ ⟦<Listeners as Audience>⟧.hearers self }
    {
        let Listeners { parts, index: _ } = self;
        parts
    }
}
