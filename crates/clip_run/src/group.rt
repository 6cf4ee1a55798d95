//! Lines whose articles are shared out among threads, article by article.
ghost use Rattle.std.specs.Prelude.{◌≡◌, IfOk, IfSome, IsPermutation};
ghost use Rattle.clip_run.specs.Due.{IsDueAt, AreDue, TakesAnswer};

use crate::batch::{Batch, Pending};
use clip_front::Settings;
use clip_match::Gate;
use clip_protocol::Found;
use clip_standing::Alert;
use clip_words::NoMemory;
use std::alloc::Global;
use std::sync::atomic::AtomicUsize;
use std::sync::atomic::Ordering::SeqCst;

/// Where an article of a group stands.
#[derive(Clone, Copy, Debug)]
pub struct Place {
    /// The place of its line among the lines.
    pub line: usize,
    /// Its place among the articles of its line.
    pub article: usize,
}

/// What was found of an article of a group.
#[derive(Drop)]
pub struct Answer {
    /// Its number among the articles of the group.
    pub number: usize,
    /// Where it stands.
    pub place: Place,
    /// What was found.
    pub found: Found,
}

/// Once what was found of a group's articles takes this many bytes, no more of them are taken: each that is left is
/// matched when its turn comes.
const MOST_HELD_BYTES: usize = 16_777_216;

/// About how many bytes an alert takes.
const ALERT_BYTES: usize = 64;

/// About how many bytes a hit takes.
const HIT_BYTES: usize = 32;

/// About how many bytes an alert takes with its hits.
fn bytes_of_alert(alert: &Alert) -> usize {
    match alert.found_hits() {
        Some(hits) => ALERT_BYTES.saturating_add(hits.len().saturating_mul(HIT_BYTES)),
        None => ALERT_BYTES,
    }
}

/// About how many bytes alerts take.
fn bytes_of_alerts(alerts: &[Alert]) -> usize {
    let mut bytes = 0usize;
    for alert in alerts {
        bytes = bytes.saturating_add(bytes_of_alert(alert));
    }
    bytes
}

/// About how many bytes what was found of an article takes.
fn bytes_of(found: &Found) -> usize {
    match found {
        Found::Shown(shown) => shown.as_slice().len(),
        Found::Alerts(alerts) => bytes_of_alerts(&alerts.alerts),
    }
}

/// Lines whose articles are shared out among threads: who is free takes the next one.
#[derive(Drop)]
pub struct Group<G> {
    /// What is owed to its lines.
    pub items: Vec<Pending>,
    /// How the run replies.
    pub settings: Settings,
    gate: G,
    places: Vec<Place>,
    next: AtomicUsize,
    /// About how many bytes what was found of its articles takes.
    held: AtomicUsize,
}

/// Adds the places of the articles of a line.
fn add_places(places: &mut Vec<Place>, line: usize, batch: &Batch) -> Result<(), NoMemory> {
    for article in 0..batch.drafts.len() {
        places.push(Place { line, article })?;
    }
    Ok(())
}

/// The places of the articles of these lines, in order.
fn places_of(alloc: Global, items: &[Pending]) -> Result<Vec<Place>, NoMemory> {
    let mut places = Vec::new(alloc);
    for (line, item) in items.iter().enumerate() {
        if let Pending::Waiting(batch) = item {
            add_places(&mut places, line, batch)?;
        }
    }
    Ok(places)
}

impl<G: Gate + Drop> Group<G> {
    /// The group of these lines, of which no article is taken yet. `NoMemory` where an allocation failed. Its cost is
    /// linear in the articles.
    pub fn of(
        alloc: Global,
        items: Vec<Pending>,
        settings: Settings,
        gate: G,
    ) -> Result<Group<G>, NoMemory>
        ensures items { IfOk result (λ group. group.items.items ≡ items.items) }
        ensures settings { IfOk result (λ group. group.settings ≡ settings) }
    {
        let places = places_of(alloc, &items)?;
        Ok(Group {
            items,
            settings,
            gate,
            places,
            next: AtomicUsize::new(0),
            held: AtomicUsize::new(0),
        })
    }

    /// How many articles it has. Constant time.
    pub fn len(&self) -> usize {
        self.places.len()
    }

    /// What is found of the article of this number and place, or none where memory is refused.
    fn answer(&self, alloc: Global, number: usize, place: Place) -> Option<Answer>
        ensures { IfSome result (λ answer. IsDueAt self.now.settings self.now.items.items answer) }
    {
        let Some(Pending::Waiting(batch)) = self.items.get(place.line) else {
            return None;
        };
        if place.article >= batch.drafts.len() {
            return None;
        }
        match batch.find(alloc, place.article, self.settings, &self.gate) {
            Ok(found) => Some(Answer {
                number,
                place,
                found,
            }),
            Err(_) => None,
        }
    }

    /// Takes articles until all are taken, and gives what is found of them. Where memory is refused, or what all
    /// threads have found takes 16 MiB, it takes no more. Cost: that of `Batch::find` for each article that it takes.
    pub fn take_articles(&self, alloc: Global) -> Vec<Answer>
        ensures { AreDue self.now.settings self.now.items.items result.items }
    {
        let mut answers = Vec::new(alloc);
        for _ in 0..self.places.len() {
            if self.held.load(SeqCst) >= MOST_HELD_BYTES {
                break;
            }
            let number = self.next.fetch_add(1, SeqCst);
            let Some(place) = self.places.get(number) else {
                break;
            };
            let Some(answer) = self.answer(alloc, number, *place) else {
                break;
            };
            self.held.fetch_add(bytes_of(&answer.found), SeqCst);
            if answers.push(answer).is_err() {
                break;
            }
        }
        answers
    }
}

/// Orders answers by their numbers, the first one last, so that `take_answer` finds them.
pub fn order_last_first(answers: &mut Vec<Answer>)
    ensures { IsPermutation answers.old.items answers.new.items }
{
    answers.sort_unstable_by_key(|answer: &Answer| -> usize { usize::MAX - answer.number });
}

/// Takes what was found of the article at a place, if that is the last of the answers, and else none. Constant time.
pub fn take_answer(answers: &mut Vec<Answer>, line: usize, article: usize) -> Option<Found>
    ensures { TakesAnswer answers.old.items answers.new.items line article result }
{
    let Some(answer) = answers.pop() else {
        return None;
    };
    if answer.place.line == line && answer.place.article == article {
        return Some(answer.found);
    }
    let _ = answers.push(answer);
    None
}
