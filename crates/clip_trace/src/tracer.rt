//! The tracer: it plays events one by one.
ghost use Rattle.std.specs.Prelude.{◌≡◌, ◌++◌, ◌∷◌, ◌==◌, [], List, map, length, IfOk, OnErr};
ghost use Rattle.std.specs.List.{zip, position};
ghost use Rattle.clip_standing.specs.Command.{command_of};
ghost use Rattle.clip_trace.specs.Event.{event_of, answer_of};
ghost use Rattle.clip_trace.specs.Event as event;
ghost use Rattle.clip_trace.specs.Schedule.{Step, IsDue, IsDueTo, after, nothing_open, stand};

use crate::batch::Batch;
use crate::event::{Event, TraceAnswer};
use crate::limits::{MOST_BATCHES, MOST_MERGES};
use clip_match::{MergeJob, Registrar};
use clip_meaning::Article;
use clip_model::{MOST_ARTICLES, MOST_CALLERS};
use clip_registry::Installed;
use clip_standing::{Command, Refused};
use clip_words::NoMemory;
use std::alloc::Global;
use std::marker::Model;

/// A registrar with begun merges and open batches, on which events are played one by one.
#[derive(Drop)]
pub struct Tracer {
    alloc: Global,
    registrar: Registrar,
    merges: Vec<(u64, MergeJob)>,
    batches: Vec<(u64, Batch)>,
}

impl Model for Tracer {
    ghost use Rattle.clip_trace.specs.Schedule.{Stand, stand_code};

    ghost Value = { Stand };

    ghost coded = { stand_code };

    ghost use Rattle.clip_trace.specs.Steps.Tracer.{tracer_inside, IsTracerInside};

    ghost view = { tracer_inside };

    ghost invariant = { IsTracerInside };
}

/// Where the number is among the open merges or batches. Cost: a step for each.
fn place_of<T>(numbered: &[(u64, T)], number: u64) -> Option<usize>
    ensures { result ≡ position (λ n. n.0 == number) numbered.now }
{
    numbered.iter().position(|n| n.0 == number)
}

impl Tracer {
    /// A tracer to which nothing has happened. Takes no memory.
    pub fn new(alloc: Global) -> Tracer
        ensures { result ≡ nothing_open }
    {
        Tracer {
            alloc,
            registrar: Registrar::without_history(alloc),
            merges: Vec::new(alloc),
            batches: Vec::new(alloc),
        }
    }

    /// Plays an event, and returns the answer that is due to it, which may be a refusal: the first that holds of
    /// `Unknown`, `Used`, `TooMany` and `Full`, with nothing changed. `NoMemory` where an allocation failed, with
    /// nothing changed. Cost: that of the event.
    pub fn step(&mut self, event: Event) -> Result<TraceAnswer, NoMemory>
        ensures due { IfOk result (λ answer. IsDueTo self.old (event_of event) (answer_of answer)) }
        ensures stand { IfOk result (λ answer. self.new ≡ after self.old (event_of event) (answer_of answer)) }
        ensures goes_on { IfOk result (λ answer. (steps : List Step) → IsDue steps → stand steps ≡ self.old
            → IsDue (steps ++ (event_of event, answer_of answer) ∷ [])
            × (stand (steps ++ (event_of event, answer_of answer) ∷ []) ≡ self.new)) }
        ensures unchanged { OnErr result (self.new ≡ self.old) }
    {
        self.play(event)
    }

    /// Plays an event, by one method for each kind.
    fn play(&mut self, event: Event) -> Result<TraceAnswer, NoMemory>
        ensures due { IfOk result (λ answer. IsDueTo self.old (event_of event) (answer_of answer)) }
        ensures stand { IfOk result (λ answer. self.new ≡ after self.old (event_of event) (answer_of answer)) }
        ensures unchanged { OnErr result (self.new ≡ self.old) }
    {
        match event {
            Event::Accept(caller, command) => self.accept(caller, command),
            Event::Begin(merge) => self.begin(merge),
            Event::Install(merge) => self.install(merge),
            Event::Purge => self.purge(),
            Event::Look(batch, articles) => self.look(batch, articles),
            Event::Piece(batch) => self.piece(batch),
            Event::Finish(batch) => self.finish(batch),
        }
    }

    /// Plays a command of a caller.
    fn accept(&mut self, caller: u32, command: Command) -> Result<TraceAnswer, NoMemory>
        ensures due { IfOk result (λ answer.
            IsDueTo self.old (event.Accept caller (command_of command)) (answer_of answer)) }
        ensures stand { IfOk result (λ answer.
            self.new ≡ after self.old (event.Accept caller (command_of command)) (answer_of answer)) }
        ensures unchanged { OnErr result (self.new ≡ self.old) }
    {
        if caller == 0 || caller > MOST_CALLERS {
            return Ok(TraceAnswer::Unknown);
        }
        if !command.fits() {
            return Ok(TraceAnswer::TooMany);
        }
        match self.registrar.apply(caller, command) {
            Ok(applied) => Ok(TraceAnswer::Accepted(applied)),
            Err((_, Refused::Full)) => Ok(TraceAnswer::Full),
            Err((_, Refused::NoMemory)) => Err(NoMemory),
        }
    }

    /// Begins a merge.
    fn begin(&mut self, merge: u64) -> Result<TraceAnswer, NoMemory>
        ensures due { IfOk result (λ answer. IsDueTo self.old (event.Begin merge) (answer_of answer)) }
        ensures stand { IfOk result (λ answer. self.new ≡ after self.old (event.Begin merge) (answer_of answer)) }
        ensures unchanged { OnErr result (self.new ≡ self.old) }
    {
        if place_of(&self.merges, merge).is_some() {
            return Ok(TraceAnswer::Used);
        }
        if self.merges.len() >= MOST_MERGES {
            return Ok(TraceAnswer::TooMany);
        }
        let Some(job) = self.registrar.begin()? else {
            return Ok(TraceAnswer::Nothing);
        };
        self.merges.push((merge, job))?;
        Ok(TraceAnswer::Begun)
    }

    /// Runs a merge and installs it. Its number stays in use where memory failed.
    fn install(&mut self, merge: u64) -> Result<TraceAnswer, NoMemory>
        ensures due { IfOk result (λ answer. IsDueTo self.old (event.Install merge) (answer_of answer)) }
        ensures stand { IfOk result (λ answer. self.new ≡ after self.old (event.Install merge) (answer_of answer)) }
        ensures unchanged { OnErr result (self.new ≡ self.old) }
    {
        let Some(place) = place_of(&self.merges, merge) else {
            return Ok(TraceAnswer::Unknown);
        };
        let merged = self.merges[place].1.run()?;
        let answer = match self.registrar.install(merged)? {
            Installed::Done => TraceAnswer::Installed,
            Installed::Stale => TraceAnswer::Stale,
        };
        self.merges.remove(place);
        Ok(answer)
    }

    /// Purges dead entries.
    fn purge(&mut self) -> Result<TraceAnswer, NoMemory>
        ensures due { IfOk result (λ answer. IsDueTo self.old event.Purge (answer_of answer)) }
        ensures stand { IfOk result (λ answer. self.new ≡ after self.old event.Purge (answer_of answer)) }
        ensures unchanged { OnErr result (self.new ≡ self.old) }
    {
        self.registrar.purge()?;
        Ok(TraceAnswer::Purged)
    }

    /// Opens a batch on the registry as it stands.
    fn look(&mut self, batch: u64, articles: Vec<Article>) -> Result<TraceAnswer, NoMemory>
        ensures due { IfOk result (λ answer. IsDueTo self.old (event.Look batch articles.items) (answer_of answer)) }
        ensures stand { IfOk result (λ answer.
            self.new ≡ after self.old (event.Look batch articles.items) (answer_of answer)) }
        ensures unchanged { OnErr result (self.new ≡ self.old) }
    {
        if place_of(&self.batches, batch).is_some() {
            return Ok(TraceAnswer::Used);
        }
        if self.batches.len() >= MOST_BATCHES || articles.len() > MOST_ARTICLES {
            return Ok(TraceAnswer::TooMany);
        }
        let fresh = Batch::new(self.alloc, self.registrar.view()?, articles);
        self.batches.push((batch, fresh))?;
        Ok(TraceAnswer::Looked)
    }

    /// Matches the first article of a batch that is not matched yet.
    fn piece(&mut self, batch: u64) -> Result<TraceAnswer, NoMemory>
        ensures due { IfOk result (λ answer. IsDueTo self.old (event.Piece batch) (answer_of answer)) }
        ensures stand { IfOk result (λ answer. self.new ≡ after self.old (event.Piece batch) (answer_of answer)) }
        ensures unchanged { OnErr result (self.new ≡ self.old) }
    {
        let Some(place) = place_of(&self.batches, batch) else {
            return Ok(TraceAnswer::Unknown);
        };
        if !self.batches[place].1.is_unmatched() {
            return Ok(TraceAnswer::Unknown);
        }
        self.batches[place].1.match_next()?;
        Ok(TraceAnswer::Matched)
    }

    /// Matches the rest of a batch and takes it out. It stays open where memory failed.
    fn finish(&mut self, batch: u64) -> Result<TraceAnswer, NoMemory>
        ensures due { IfOk result (λ answer. IsDueTo self.old (event.Finish batch) (answer_of answer)) }
        ensures stand { IfOk result (λ answer. self.new ≡ after self.old (event.Finish batch) (answer_of answer)) }
        ensures unchanged { OnErr result (self.new ≡ self.old) }
    {
        let Some(place) = place_of(&self.batches, batch) else {
            return Ok(TraceAnswer::Unknown);
        };
        self.batches[place].1.match_rest()?;
        let (_, finished) = self.batches.remove(place);
        Ok(TraceAnswer::Finished(finished.into_found()))
    }
}

/// Plays events from the beginning, and returns their answers, in order. `NoMemory` where an allocation failed. Cost:
/// that of each event.
pub fn trace(alloc: Global, events: Vec<Event>) -> Result<Vec<TraceAnswer>, NoMemory>
    ensures each { IfOk result (λ answers. length answers.items ≡ length events.items) }
    ensures due { IfOk result (λ answers. IsDue (zip (map event_of events.items) (map answer_of answers.items))) }
{
    let mut tracer = Tracer::new(alloc);
    let mut answers = Vec::new(alloc);
    for event in events {
        answers.push(tracer.step(event)?)?;
    }
    Ok(answers)
}
