//! Flags, one for each word of a field, that are raised where leaves of a query name the word.
ghost use Rattle.std.specs.Prelude.{◌≡◌, ℕ, Option, [], ◌++◌, ◌∷◌, OnOk, OnErr, map, length, nat_eq, replicate};
ghost use Rattle.std.specs.Arc.{arc_str_bytes};
ghost use Rattle.std.specs.List.{list_any};
ghost use Rattle.clip_meaning.specs.Hits.{hit_value, is_within};
ghost use Rattle.clip_meaning.specs.Steps.Marks.{AreRaised, GivesStarts, is_within_run, raised};

use crate::hit::Hit;
use crate::index::Occurrence;
use clip_words::NoMemory;
use memchr::memchr_iter;
use std::alloc::Global;
use std::marker::Model;
use std::sync::ArcStr;

/// A flag that is up.
const UP: u8 = 1;

/// A flag that is down.
const DOWN: u8 = 0;

/// A flag for each word of a field, and an end of those that may be up, so that little is read where few are. Contracts
/// see the flags.
#[derive(Drop)]
pub struct FieldFlags {
    flags: Vec<u8>,
    /// The position behind the last flag that may be up.
    end: usize,
}

impl Model for FieldFlags {
    ghost use Rattle.std.specs.Prelude.{ℕ, List};
    ghost use Rattle.clip_meaning.specs.Steps.Flags.{IsEnd};

    ghost Value = { List ℕ };

    ghost view = { λ f. f.flags.items };

    ghost invariant = { λ f. IsEnd f.flags.items f.end };
}

/// Raises the flags of `count` positions from `start` on, as far as there are flags.
fn mark_run(flags: &mut Vec<u8>, start: usize, count: usize)
    ensures long { length flags.new.items ≡ length flags.old.items }
    ensures raised { AreRaised flags.old.items flags.new.items (is_within start count) }
{
    let end = flags.len().min(start.saturating_add(count));
    for position in start..end {
        flags[position] = UP;
    }
}

/// Adds a hit.
fn add_hit(name: &ArcStr, position: usize, found: &mut Vec<Hit>) -> Result<(), NoMemory>
    ensures { OnOk result (map hit_value found.new.items
        ≡ map hit_value found.old.items ++ (arc_str_bytes name.now, position) ∷ []) }
{
    found.push(Hit {
        field: name.clone()?,
        position: position as u64,
    })?;
    Ok(())
}

/// Adds a hit for each flag that is up, in order.
fn add_raised(name: &ArcStr, flags: &[u8], found: &mut Vec<Hit>) -> Result<(), NoMemory>
    ensures { OnOk result (map hit_value found.new.items
        ≡ map hit_value found.old.items ++ raised (arc_str_bytes name.now) flags.now) }
{
    for position in memchr_iter(UP, flags) {
        add_hit(name, position, found)?;
    }
    Ok(())
}

impl FieldFlags {
    /// No flags. Takes no memory.
    pub fn new(alloc: Global) -> FieldFlags
        ensures { result ≡ [] }
    {
        FieldFlags {
            flags: Vec::new(alloc),
            end: 0,
        }
    }

    /// Has as many flags as a field has words, all down, in place of those that were there.
    ///
    /// `NoMemory` where an allocation failed; there are no flags then. Cost: a byte for each flag.
    pub fn restart(&mut self, count: usize) -> Result<(), NoMemory>
        ensures ok { OnOk result (self.new ≡ replicate count 0) }
        ensures err { OnErr result (self.new ≡ []) }
    {
        self.end = 0;
        self.flags.clear();
        self.flags.resize(count, DOWN)?;
        Ok(())
    }

    /// Raises the flags of `count` positions from `start` on, as far as there are flags. Takes no memory. Cost: a step
    /// for each.
    pub fn raise(&mut self, start: usize, count: usize)
        ensures long { length self.new ≡ length self.old }
        ensures raised { AreRaised self.old self.new (is_within start count) }
    {
        mark_run(&mut self.flags, start, count);
        let end = self.flags.len().min(start.saturating_add(count));
        self.end = self.end.max(end);
    }

    /// Raises the flags of `count` positions from a start on, if there is one.
    fn raise_run(&mut self, start: Option<usize>, count: usize)
        ensures long { length self.new ≡ length self.old }
        ensures raised { AreRaised self.old self.new (is_within_run start count) }
    {
        if let Some(start) = start {
            self.raise(start, count);
        }
    }

    /// Raises the flags of `count` positions from each start on that `start_of` gives for one of these items, as far as
    /// there are flags: where a phrase of so many words stands, these are the words that it names. Takes no memory.
    /// Cost: a call for each item, and a step for each flag that is raised.
    pub fn raise_runs<T, F: Fn(&T) -> Option<usize>>(
        &mut self,
        items: &[T],
        count: usize,
        start_of: F,
    )
        requires { F.IsAlwaysCallable start_of }
        ensures long { length self.new ≡ length self.old }
        ensures raised { (start : T → Option ℕ) → GivesStarts (F.post start_of) start
            → AreRaised self.old self.new (λ k. list_any (λ x. is_within_run (start x) count k) items.now) }
    {
        for item in items {
            self.raise_run(start_of(item), count);
        }
    }

    /// Raises the flags of the positions of occurrences.
    pub(crate) fn raise_all(&mut self, found: &[Occurrence])
        ensures long { length self.new ≡ length self.old }
        ensures raised { AreRaised self.old self.new (λ k. list_any (λ o. nat_eq k o.position) found.now) }
    {
        for occurrence in found {
            self.raise(occurrence.position(), 1);
        }
    }

    /// Adds a hit in the field of this name for each flag that is up, in order.
    ///
    /// `NoMemory` where an allocation failed, or where the count of the name is at its end; some hits may then have
    /// been added. Cost: a look at each flag up to the last that was raised, many at once, and a step for each hit.
    pub fn add_hits(&self, name: &ArcStr, found: &mut Vec<Hit>) -> Result<(), NoMemory>
        ensures { OnOk result (map hit_value found.new.items
            ≡ map hit_value found.old.items ++ raised (arc_str_bytes name.now) self.now) }
    {
        add_raised(name, &self.flags[..self.end], found)
    }
}
