//! The registered queries by id, with how many were ever listed.
ghost use Rattle.std.specs.Prelude.{◌≡◌, ◌++◌, suc, map, option_map, option_copied, IfOk, OnOk, string_bytes, [], ◌∷◌};
ghost use Rattle.std.specs.Arc.{arc_value};
ghost use Rattle.std.specs.FinMap as finite;
ghost use Rattle.clip_model.specs.Steps.Numbered.{IsNumbered};
ghost use Rattle.clip_registry.specs.Steps.Roster as value;
ghost use Rattle.clip_registry.specs.Steps.Roster.{HaveGone, SeqsFollow, roster_with, roster_with_all, roster_without};
ghost use Rattle.clip_registry.specs.Steps.Roster.{seqs_given};

use crate::by_id::ById;
use clip_standing::Entry;
use clip_words::NoMemory;
use std::alloc::{AllocError, Global};
use std::marker::Model;
use std::sync::Arc;

/// The registered entries by id, and how many queries were listed. A clone shares the pieces of the map, and a change
/// of one copies those that it touches.
#[derive(Drop)]
pub struct Roster {
    by_id: ById,
    listed: u64,
}

impl Model for Roster {
    ghost use Rattle.clip_registry.specs.Steps.Roster as value;

    ghost Value = { value.Roster };

    ghost coded = { value.roster_code };

    ghost use Rattle.clip_registry.specs.Steps.RosterInside.{roster_of, IsRoster};

    ghost view = { roster_of };

    ghost invariant = { IsRoster };
}

impl Clone for Roster {
    ghost is_clone = { λ roster copy. copy ≡ roster };

    fn clone(&self) -> Result<Roster, AllocError> {
        Ok(Roster {
            by_id: self.by_id.clone()?,
            listed: self.listed,
        })
    }
}

/// Adds the seq of an entry, if there is one. `NoMemory` where an allocation failed.
fn add_seq(seqs: &mut Vec<u64>, entry: Option<Arc<Entry>>) -> Result<(), NoMemory>
    ensures { OnOk result (seqs.new.items ≡ seqs.old.items ++ seqs_given (option_map arc_value entry)) }
{
    if let Some(entry) = entry {
        seqs.push(entry.seq())?;
    }
    Ok(())
}

impl Roster {
    /// No query is registered, and this many were listed.
    pub fn new(alloc: Global, listed: u64) -> Roster
        ensures { result ≡ record { registry = finite.empty; listed = listed } }
    {
        Roster {
            by_id: ById::new(alloc),
            listed,
        }
    }

    /// How many queries are registered.
    pub fn len(&self) -> u64
        ensures { result ≡ finite.len self.now.registry }
    {
        self.by_id.len()
    }

    /// How many queries were listed.
    pub fn listed(&self) -> u64
        ensures listed { result ≡ self.now.listed }
        ensures numbered { IsNumbered self.now.listed self.now.registry }
    {
        self.listed
    }

    /// The entry under the id. It costs one search among the ids.
    pub fn get(&self, id: &str) -> Option<&Arc<Entry>>
        ensures { option_map arc_value (option_copied result) ≡ finite.get self.now.registry id.now }
    {
        self.by_id.get(id)
    }

    /// The roster with the next entry in the place of the one with its id, whose seq is added to those that have gone.
    /// `NoMemory` where an allocation failed.
    fn with_entry(
        self,
        alloc: Global,
        entry: &Arc<Entry>,
        gone: &mut Vec<u64>,
    ) -> Result<Roster, NoMemory>
        requires { entry.now.value.seq ≡ suc self.listed }
        ensures roster { IfOk result (λ roster. roster ≡ roster_with self entry.now.value) }
        ensures gone { IfOk result (λ roster. (first : value.Roster) → HaveGone gone.old.items first self
            → HaveGone gone.new.items first roster) }
    {
        let Roster {
            mut by_id,
            listed: _,
        } = self;
        add_seq(gone, by_id.insert(alloc, entry.clone()?)?)?;
        Ok(Roster {
            by_id,
            listed: entry.seq(),
        })
    }

    /// The roster with the next entries in the places of those with their ids, in order, and the seqs of those that
    /// have gone. `NoMemory` where an allocation failed. It costs a search among the ids for each entry.
    pub fn with_entries(
        self,
        alloc: Global,
        entries: &[Arc<Entry>],
    ) -> Result<(Roster, Vec<u64>), NoMemory>
        requires { SeqsFollow self.listed (map arc_value entries.now) }
        ensures roster { IfOk result (λ after. after.0 ≡ roster_with_all self (map arc_value entries.now)) }
        ensures gone { IfOk result (λ after. HaveGone after.1.items self after.0) }
    {
        let mut gone = Vec::new(alloc);
        let mut roster = self;
        for entry in entries {
            roster = roster.with_entry(alloc, entry, &mut gone)?;
        }
        Ok((roster, gone))
    }

    /// The roster without the query under the id, if one is there, whose seq is added to those that have gone.
    /// `NoMemory` where an allocation failed.
    fn without_id(self, id: &str, gone: &mut Vec<u64>) -> Result<Roster, NoMemory>
        ensures roster { IfOk result (λ roster. roster ≡ roster_without self (id.now ∷ [])) }
        ensures gone { IfOk result (λ roster. (first : value.Roster) → HaveGone gone.old.items first self
            → HaveGone gone.new.items first roster) }
    {
        let Roster { mut by_id, listed } = self;
        add_seq(gone, by_id.remove(id)?)?;
        Ok(Roster { by_id, listed })
    }

    /// The roster without the queries under these ids, and the seqs of those that have gone. `NoMemory` where an
    /// allocation failed. It costs a search among the ids for each.
    pub fn without_ids(self, alloc: Global, ids: &[String]) -> Result<(Roster, Vec<u64>), NoMemory>
        ensures roster { IfOk result (λ after. after.0 ≡ roster_without self (map string_bytes ids.now)) }
        ensures gone { IfOk result (λ after. HaveGone after.1.items self after.0) }
    {
        let mut gone = Vec::new(alloc);
        let mut roster = self;
        for id in ids {
            roster = roster.without_id(id.as_str(), &mut gone)?;
        }
        Ok((roster, gone))
    }
}
