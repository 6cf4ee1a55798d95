//! Views: the registry as it was at one place of its history.
ghost use Rattle.std.specs.Prelude.{◌≡◌, IfOk, filter, map, length, option_map, option_copied, slice_get, string_bytes};
ghost use Rattle.std.specs.Arc.{arc_value};
ghost use Rattle.std.specs.FinMap as finite;
ghost use Rattle.clip_model.specs.History.{IsLegal, own, replay, is_live};
ghost use Rattle.clip_indexed.specs.Segment.{IsRising, all_entries};
ghost use Rattle.clip_registry.specs.RegistryState.{IsWhole, kept_history};

use crate::held::{copy_of, history_of, number_of};
use crate::history::History;
use crate::live_flags::add_live;
use crate::state::State;
use clip_indexed::{Index, Segment};
use clip_pieces::SharedFlags;
use clip_standing::Entry;
use clip_words::NoMemory;
use std::alloc::Global;
use std::marker::Model;
use std::sync::Arc;

/// The registry as it was when the view was taken, seen as its list of segments and its history. Later commands don't
/// change it.
#[derive(Drop)]
pub struct View<I: Index> {
    pub(crate) keeps: bool,
    pub(crate) state: Option<Arc<State<I>>>,
}

impl<I: Index> Model for View<I> {
    ghost use Rattle.clip_registry.specs.RegistryState.{RegistryState, state_code};
    ghost use Rattle.clip_registry.specs.Steps.State.{state_or_beginning};

    ghost Value = { RegistryState };

    ghost coded = { state_code };

    ghost view = { λ v. state_or_beginning v.keeps v.state };
}

impl<I: Index> View<I> {
    /// A copy of this view, which shares its state, or `NoMemory` where the count of the registry's holders is at its
    /// end. Constant time.
    pub fn copy(&self) -> Result<View<I>, NoMemory>
        ensures { IfOk result (λ copy. copy ≡ self.now) }
    {
        Ok(View {
            keeps: self.keeps,
            state: copy_of(&self.state)?,
        })
    }

    /// How many queries are registered. Constant time.
    pub fn count(&self) -> u64
        ensures { result ≡ finite.len (replay self.now.history) }
    {
        match &self.state {
            Some(state) => state.roster.len(),
            None => 0,
        }
    }

    /// The text of the query that is registered under the id, if one is. It costs one search among the ids.
    pub fn text_of(&self, id: &str) -> Option<&str>
        ensures { option_copied result ≡ option_map (λ r. r.standing.text)
            (finite.get (replay self.now.history) id.now) }
    {
        match &self.state {
            Some(state) => match state.roster.get(id) {
                Some(entry) => Some(entry.standing().text()),
                None => None,
            },
            None => None,
        }
    }

    /// A copy of the text of the query that is registered under the id, if one is.
    ///
    /// `NoMemory` where an allocation failed. Cost: one search among the ids, and the copy.
    pub fn copied_text(&self, alloc: Global, id: &str) -> Result<Option<String>, NoMemory>
        ensures { IfOk result (λ text. option_map string_bytes text
            ≡ option_map (λ r. r.standing.text) (finite.get (replay self.now.history) id.now)) }
    {
        match self.text_of(id) {
            Some(text) => Ok(Some(String::from_str(alloc, text)?)),
            None => Ok(None),
        }
    }

    /// How many commands were accepted before the view was taken. Constant time.
    pub fn place(&self) -> u64
        ensures { result ≡ length self.now.history }
    {
        match &self.state {
            Some(state) => state.log.len(),
            None => 0,
        }
    }

    /// The commands that were accepted before the view was taken, in order, where its registrar keeps them, and else
    /// none. Constant time.
    pub fn history(&self) -> History<'_>
        ensures history { result ≡ kept_history self.now.keeps self.now.history }
        ensures whole { IsWhole self.now }
        ensures legal { IsLegal self.now.history }
    {
        history_of(&self.state)
    }

    /// How many commands of the caller were accepted before the view was taken, so the number of the last of these: 0
    /// where it had given none, and for what is no caller. Constant time.
    pub fn number_of(&self, caller: u32) -> u32
        ensures count { result ≡ length (own self.now.history caller) }
        ensures legal { IsLegal self.now.history }
    {
        number_of(&self.state, caller)
    }

    /// The segments, oldest first. Of their entries, the live ones are exactly the registered queries. Constant time.
    pub fn segments(&self) -> &[Arc<Segment<I>>]
        ensures segments { map arc_value result.now ≡ self.now.segments }
        ensures whole { IsWhole self.now }
        ensures legal { IsLegal self.now.history }
    {
        match &self.state {
            Some(state) => &state.segments,
            None => &[],
        }
    }

    /// For each entry of the segment at a place of `segments`, by position, whether a registered query has its seq, or
    /// `None` past the last segment. Constant time.
    pub fn live_at(&self, place: usize) -> Option<&SharedFlags>
        ensures { option_copied result
            ≡ option_map (map (λ r. is_live self.now.history r.seq)) (slice_get self.now.segments place) }
    {
        match &self.state {
            Some(state) => match state.live.get(place) {
                Some(flags) => Some(flags.value()),
                None => None,
            },
            None => None,
        }
    }

    /// The entries of the registered queries, in the order of their seqs.
    ///
    /// `NoMemory` where an allocation failed. Cost: a step for each entry of the segments.
    pub fn live_entries(&self, alloc: Global) -> Result<Vec<&Entry>, NoMemory>
        ensures live { IfOk result (λ found. map (λ e. e.now) found.items
            ≡ filter (λ r. is_live self.now.history r.seq) (all_entries self.now.segments)) }
        ensures rising { IfOk result (λ found. IsRising (map (λ e. e.now) found.items)) }
        ensures whole { IsWhole self.now }
    {
        let mut found = Vec::new(alloc);
        for (place, segment) in self.segments().iter().enumerate() {
            let Some(live) = self.live_at(place) else {
                unreachable!();
            };
            add_live(segment, live, &mut found)?;
        }
        Ok(found)
    }

    /// Whether a registered query has the entry's seq. Cost: that of `is_live_seq`; no text is read.
    pub fn is_live(&self, entry: &Entry) -> bool
        ensures { result ≡ is_live self.now.history entry.now.seq }
    {
        self.is_live_seq(entry.seq())
    }

    /// Whether a registered query has the seq. Takes no memory. Cost: a step for each segment up to the one that has
    /// it, and a binary search in each of these that has a seq that is not below it: for the seq of an entry just one.
    pub fn is_live_seq(&self, seq: u64) -> bool
        ensures { result ≡ is_live self.now.history seq }
    {
        match &self.state {
            Some(state) => state.is_live(seq),
            None => false,
        }
    }
}
