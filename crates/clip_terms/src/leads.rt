//! Keys by rank, field and text, and the leads and lengths of their texts.
ghost use Rattle.std.specs.Prelude.{◌≡◌, true, IfOk, map};
ghost use Rattle.clip_words.specs.Order.{bytes_cmp};
ghost use Rattle.clip_meaning.specs.Leads.{IsLead};
ghost use Rattle.clip_extract.specs.Keys.{key_of, text_of};
ghost use Rattle.clip_terms.specs.Steps.Leads.{heading, heading_cmp, AreLeads, IsShortLength, AreShortLengths};
ghost use Rattle.clip_terms.specs.Steps.Sought.{text_sought};

use clip_extract::{Key, short_length};
use clip_meaning::{compare_by_leads, lead_of};
use clip_words::NoMemory;
use std::alloc::Global;
use std::cmp::Ordering;
use std::marker::Model;
use std::sync::ArcStr;

/// Compares a key with those of a rank and a field.
pub(crate) fn heading_order(key: &Key, rank: u8, field: &str) -> Ordering
    ensures { result ≡ heading_cmp (heading (key_of key.now)) (rank, field.now) }
{
    key.rank().cmp(&rank).then(key.field().cmp(field))
}

/// The leads of keys, in order.
pub(crate) fn leads_of(alloc: Global, keys: &[Key]) -> Result<Vec<u64>, NoMemory>
    ensures { IfOk result (λ leads. AreLeads (map key_of keys.now) leads.items) }
{
    let mut leads = Vec::with_capacity(alloc, keys.len())?;
    for key in keys {
        leads.push(lead_of(key.text()))?;
    }
    Ok(leads)
}

/// The short lengths of the texts of keys, in order.
pub(crate) fn lengths_of(alloc: Global, keys: &[Key]) -> Result<Vec<u8>, NoMemory>
    ensures { IfOk result (λ lengths. AreShortLengths (map key_of keys.now) lengths.items) }
{
    let mut lengths = Vec::with_capacity(alloc, keys.len())?;
    for key in keys {
        lengths.push(short_length(key.text()))?;
    }
    Ok(lengths)
}

/// A text, or a word whose text is not looked at before it has to be.
#[derive(Clone, Copy)]
pub(crate) enum SoughtText<'a> {
    /// A text.
    Text(&'a str),
    /// A word.
    Word(&'a ArcStr),
}

/// A text that is looked for among keys, with its lead and its short length. Contracts see the text.
#[derive(Drop)]
pub(crate) struct Sought<'a> {
    text: SoughtText<'a>,
    lead: u64,
    length: u8,
}

impl<'a> Model for Sought<'a> {
    ghost use Rattle.std.specs.Prelude.{ℕ, List};
    ghost use Rattle.clip_meaning.specs.Leads.{IsLead};
    ghost use Rattle.clip_terms.specs.Steps.Leads.{IsShortLength};
    ghost use Rattle.clip_terms.specs.Steps.Sought.{text_sought};

    ghost Value = { List ℕ };

    ghost view = { λ s. text_sought s.text };

    ghost invariant = { λ s. IsLead (text_sought s.text) s.lead × IsShortLength (text_sought s.text) s.length };
}

impl<'a> Sought<'a> {
    /// Looks for a text.
    pub(crate) fn of(text: &'a str) -> Sought<'a>
        ensures { result ≡ text.now }
    {
        Sought {
            text: SoughtText::Text(text),
            lead: lead_of(text),
            length: short_length(text),
        }
    }

    /// Looks for a text of this lead and this short length, and does not look at it.
    pub(crate) fn with(text: SoughtText<'a>, lead: u64, length: u8) -> Sought<'a>
        requires lead { IsLead (text_sought text) lead }
        requires length { IsShortLength (text_sought text) length }
        ensures { result ≡ text_sought text.entry }
    {
        Sought { text, lead, length }
    }

    /// The text.
    fn text(&self) -> &str
        ensures { result.now ≡ self.now }
    {
        match &self.text {
            SoughtText::Text(text) => text,
            SoughtText::Word(word) => word.as_str(),
        }
    }

    /// The text's lead.
    pub(crate) fn lead(&self) -> u64
        ensures { IsLead self.now result }
    {
        self.lead
    }

    /// Whether the text is that of a key, of this lead and this short length. Looks at them only where these are the
    /// same and don't settle it.
    pub(crate) fn is_text_of(&self, key: &Key, lead: u64, length: u8) -> bool
        requires lead { IsLead (text_of (key_of key.now)) lead }
        requires length { IsShortLength (text_of (key_of key.now)) length }
        ensures { result ≡ true → text_of (key_of key.now) ≡ self.now }
    {
        if lead != self.lead || length != self.length {
            return false;
        }
        length <= 8 || key.text() == self.text()
    }

    /// Compares the text of a key, of this lead and this short length, with the text. Looks at them only where the
    /// leads are the same and the lengths don't settle it.
    pub(crate) fn order(&self, key: &Key, lead: u64, length: u8) -> Ordering
        requires lead { IsLead (text_of (key_of key.now)) lead }
        requires length { IsShortLength (text_of (key_of key.now)) length }
        ensures { result ≡ bytes_cmp (text_of (key_of key.now)) self.now }
    {
        if lead != self.lead {
            return lead.cmp(&self.lead);
        }
        if length == self.length && length <= 8 {
            return Ordering::Equal;
        }
        compare_by_leads(key.text(), lead, self.text(), self.lead)
    }
}
