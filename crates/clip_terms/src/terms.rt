//! Keys in order, by their numbers.
ghost use Rattle.std.specs.Prelude.{◌≡◌, ◌<◌, ◌≤◌, ◌==◌, [], IfOk, length, map};
ghost use Rattle.std.specs.List.Sorted.{IsStrictlySortedBy};
ghost use Rattle.clip_extract.specs.Keys.{Word, Front, key_of, key_cmp, in_order};
ghost use Rattle.clip_terms.specs.Terms.{number_of, term_at};
ghost use Rattle.clip_terms.specs.Steps.Leads.{heading, AreLeads, AreShortLengths, IsPart};
ghost use Rattle.clip_terms.specs.Steps.LeadMarks.{AreMarked};

use crate::field_terms::FieldTerms;
use crate::heads::{Head, head_leads, head_lengths, keys_of};
use crate::hints::Hints;
use crate::lead_marks::LeadMarks;
use crate::leads::{leads_of, lengths_of};
use crate::numbering::key_numbers;
use crate::parts::{FieldPart, parts_of, ranges_of, words_of};
use clip_extract::{Key, sort_keys};
use clip_words::NoMemory;
use std::alloc::Global;
use std::marker::Model;
use std::ops::Range;

/// The most terms of a table, so that each number fits in 32 bits.
pub const MOST_TERMS: usize = 4_294_967_295;

/// Keys in order, each once and numbered from 0. Contracts see the list of the keys.
///
/// The leads and the short lengths of their texts are kept beside them, by which most are told apart without a look at
/// them, and where the words and the fronts of each field stand; also a mark for each lead, by which most texts that
/// are none of the keys' are told, and hints of where words are.
#[derive(Debug)]
pub struct Terms {
    keys: Vec<Key>,
    leads: Vec<u64>,
    lengths: Vec<u8>,
    parts: Vec<FieldPart>,
    marks: LeadMarks,
    hints: Hints,
}

impl Drop for Terms {
    fn drop(self) {
        let Terms {
            keys: _,
            leads: _,
            lengths: _,
            parts: _,
            marks: _,
            hints: _,
        } = self;
    }
}

impl Model for Terms {
    ghost use Rattle.std.specs.Prelude.{List, map, length, ◌≤◌};
    ghost use Rattle.std.specs.List.{All};
    ghost use Rattle.std.specs.List.Sorted.{IsStrictlySortedBy};
    ghost use Rattle.clip_extract.specs.Keys.{KeyValue, key_of, key_cmp};
    ghost use Rattle.clip_terms.specs.Steps.Leads.{AreLeads, AreShortLengths};
    ghost use Rattle.clip_terms.specs.Steps.LeadMarks.{AreMarked};
    ghost use Rattle.clip_terms.specs.Steps.Parts.{IsFieldPart};
    ghost use Rattle.clip_terms.specs.declared.terms.TheConstants.{MOST_TERMS};

    ghost Value = { List KeyValue };

    ghost view = { λ t. map key_of t.keys.items };

    ghost invariant = { λ t. IsStrictlySortedBy key_cmp (map key_of t.keys.items) × (length t.keys.items ≤ MOST_TERMS)
        × AreLeads (map key_of t.keys.items) t.leads.items
        × AreShortLengths (map key_of t.keys.items) t.lengths.items
        × All (IsFieldPart (map key_of t.keys.items)) t.parts.items
        × AreMarked (map key_of t.keys.items) t.marks };
}

impl Terms {
    /// The table of these keys, in order and each once.
    ///
    /// `NoMemory` where an allocation failed, and where there are more than `MOST_TERMS`. Cost: n log n comparisons of
    /// n keys, and a step for each; for each field some binary searches. Texts are shared.
    pub fn of(keys: Vec<Key>) -> Result<Terms, NoMemory>
        ensures { IfOk result (λ terms. terms ≡ in_order (map key_of keys.items)) }
    {
        let keys = sort_keys(keys)?;
        if keys.len() > MOST_TERMS {
            return Err(NoMemory);
        }
        let leads = leads_of(*keys.allocator(), &keys)?;
        let lengths = lengths_of(*keys.allocator(), &keys)?;
        let parts = parts_of(*keys.allocator(), &keys)?;
        let marks = LeadMarks::of(*keys.allocator(), &leads)?;
        let hints = Hints::of(*keys.allocator(), &leads, &parts)?;
        Ok(Terms {
            keys,
            leads,
            lengths,
            parts,
            marks,
            hints,
        })
    }

    /// The table of these keys, which are in order, each once.
    ///
    /// `NoMemory` where an allocation failed, and where there are more than `MOST_TERMS`. Cost: a step for each key;
    /// for each field some binary searches. Texts are shared.
    pub fn of_heads(alloc: Global, heads: &[Head]) -> Result<Terms, NoMemory>
        requires { IsStrictlySortedBy key_cmp heads.now }
        ensures { IfOk result (λ terms. terms ≡ heads.now) }
    {
        if heads.len() > MOST_TERMS {
            return Err(NoMemory);
        }
        let keys = keys_of(alloc, heads)?;
        let leads = head_leads(alloc, heads)?;
        let lengths = head_lengths(alloc, heads)?;
        let parts = parts_of(alloc, &keys)?;
        let marks = LeadMarks::of(alloc, &leads)?;
        let hints = Hints::of(alloc, &leads, &parts)?;
        Ok(Terms {
            keys,
            leads,
            lengths,
            parts,
            marks,
            hints,
        })
    }

    /// How many terms there are. Takes no memory. Constant time.
    pub fn len(&self) -> usize
        ensures { result ≡ length self.now }
    {
        self.keys.len()
    }

    /// Whether there are no terms. Takes no memory. Constant time.
    pub fn is_empty(&self) -> bool
        ensures { result ≡ (length self.now == 0) }
    {
        self.keys.is_empty()
    }

    /// The number of a key, `None` where it is no term. Takes no memory. Cost: a binary search among the fields, and
    /// one among the words or the fronts of the key's field, by the first bytes of its text.
    pub fn number(&self, key: &Key) -> Option<u32>
        ensures { result ≡ number_of self.now (key_of key.now) }
    {
        match key {
            Key::Any => match self.keys.binary_search(key) {
                Ok(number) => Some(number as u32),
                Err(_) => None,
            },
            Key::Word(field, word) => self.of_field(field).word(word),
            Key::Front(field, text) => self.of_field(field).front(text),
        }
    }

    /// The terms of one field, to look its words and fronts up. Takes no memory. Cost: binary searches among the terms.
    pub fn of_field<'a>(&'a self, field: &'a str) -> FieldTerms<'a>
        ensures { result ≡ record { terms = self.now; field = field.now } }
    {
        FieldTerms::of(self, field)
    }

    /// The terms, in order. Constant time.
    pub fn keys(&self) -> &[Key]
        ensures terms { map key_of result.now ≡ self.now }
        ensures few { length result.now ≤ MOST_TERMS }
    {
        &self.keys
    }

    /// The term of a number. Takes no memory. Constant time.
    pub fn head(&self, number: usize) -> Head<'_>
        requires { number < length self.now }
        ensures { result ≡ term_at self.now number }
    {
        Head::with(&self.keys[number], self.leads[number], self.lengths[number])
    }

    /// The leads of the keys. Constant time.
    pub(crate) fn leads(&self) -> &[u64]
        ensures { AreLeads self.now result.now }
    {
        &self.leads
    }

    /// The short lengths of the keys' texts. Constant time.
    pub(crate) fn lengths(&self) -> &[u8]
        ensures { AreShortLengths self.now result.now }
    {
        &self.lengths
    }

    /// Marks of the leads of the keys' texts. Constant time.
    pub(crate) fn marks(&self) -> &LeadMarks
        ensures { AreMarked self.now result.now }
    {
        &self.marks
    }

    /// Where words likely are among the keys. Constant time.
    pub(crate) fn hints(&self) -> &Hints {
        &self.hints
    }

    /// Where the words of a field are, and its fronts. Takes no memory. Cost: a binary search among the fields.
    pub(crate) fn ranges_of(&self, field: &str) -> (Range<usize>, Range<usize>)
        ensures words { IsPart self.now (heading (Word field.now [])) result.0.start result.0.end }
        ensures fronts { IsPart self.now (heading (Front field.now [])) result.1.start result.1.end }
    {
        ranges_of(&self.keys, &self.parts, field)
    }

    /// Where the words of a field are, which is likely the field of this place among those of the terms. Takes no
    /// memory. Cost: a comparison with the field of that place, and where it is another one that of `ranges_of`.
    pub(crate) fn words_of(&self, field: &str, likely: usize) -> Range<usize>
        ensures { IsPart self.now (heading (Word field.now [])) result.start result.end }
    {
        words_of(&self.keys, &self.parts, field, likely)
    }

    /// The numbers of other terms, in their order; none of one that is no term here.
    ///
    /// `NoMemory` where an allocation failed. Cost: for each of them some steps from the place of the one before it, and
    /// where it is not found so that of `number`, by the first bytes of its text, which are known.
    pub fn numbers(&self, alloc: Global, others: &Terms) -> Result<Vec<Option<u32>>, NoMemory>
        ensures { IfOk result (λ numbers. numbers.items ≡ map (number_of self.now) others.now) }
    {
        key_numbers(alloc, self, others.keys(), others.leads(), others.lengths())
    }

    /// That the terms are in order, each once, for proofs. Takes no memory. Constant time.
    pub fn order_law(&self)
        ensures { IsStrictlySortedBy key_cmp self.now }
    {
        let _keys = &self.keys;
    }
}
