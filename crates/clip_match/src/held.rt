//! Entries whose queries hold of an article, and when their hits are found.
ghost use Rattle.std.specs.Prelude.{◌≡◌, None, Some, true};
ghost use Rattle.clip_words.specs.Order.{bytes_cmp};

use clip_meaning::{compare_by_leads, lead_of};
use clip_standing::Entry;
use std::cmp::Ordering;
use std::marker::Model;

/// So many hits of an article are many: where they are found while they are few, those of further queries are not.
const MANY_HITS: usize = 262_144;

/// When the hits of an alert are found.
#[derive(Clone, Copy, Debug, PartialEq, Eq)]
pub enum HitsFound {
    /// When they are asked for.
    WhenAsked,
    /// At once, while its query is judged; the alert carries them.
    AtOnce,
    /// At once, until 262,144 hits of its article are found, and after that when they are asked for. So what an article
    /// holds is bounded, however many hits it has: by that many, and those of one query more.
    WhileFew,
}

impl HitsFound {
    /// Whether the hits of one query more are found at once, where so many of others are.
    pub(crate) fn finds_more(self, found: usize) -> bool
        ensures { self ≡ HitsFound.AtOnce → result ≡ true }
    {
        match self {
            HitsFound::WhenAsked => false,
            HitsFound::AtOnce => true,
            HitsFound::WhileFew => found < MANY_HITS,
        }
    }
}

/// The id of a query beside its lead, by which most ids are told apart without a look at their texts. Contracts see the
/// id.
#[derive(Drop)]
struct LedId<'a> {
    id: &'a str,
    lead: u64,
}

impl<'a> Model for LedId<'a> {
    ghost use Rattle.std.specs.Prelude.{ℕ, List};
    ghost use Rattle.clip_meaning.specs.Leads.{IsLead};

    ghost Value = { List ℕ };

    ghost view = { λ i. i.id.now };

    ghost invariant = { λ i. IsLead i.id.now i.lead };
}

impl<'a> LedId<'a> {
    /// An id with its lead.
    fn of(id: &'a str) -> LedId<'a>
        ensures { result ≡ id.now }
    {
        LedId {
            id,
            lead: lead_of(id),
        }
    }

    /// The order of two ids, by their bytes.
    fn order(&self, other: &LedId<'a>) -> Ordering
        ensures { result ≡ bytes_cmp self.now other.now }
    {
        compare_by_leads(self.id, self.lead, other.id, other.lead)
    }
}

/// Where the hits of one query stand in a list of those of many: from one place up to another, which is not theirs.
#[derive(Clone, Copy)]
pub(crate) struct HitPlaces {
    pub(crate) start: usize,
    pub(crate) end: usize,
}

/// An entry whose query holds of an article, with the id of its query, and with the places of its hits where they were
/// found at once.
#[derive(Drop)]
pub(crate) struct Held<'a> {
    pub(crate) registered: &'a Entry,
    pub(crate) hits: Option<HitPlaces>,
    id: LedId<'a>,
    ghost own: { id ≡ registered.now.standing.id },
}

impl<'a> Held<'a> {
    /// An entry whose query has this id, without hits. The entry is not looked at.
    pub(crate) fn of(registered: &'a Entry, id: &'a str) -> Held<'a>
        requires { id.now ≡ registered.now.standing.id }
        ensures registered { result.registered.now ≡ registered.now }
        ensures hits { result.hits ≡ None }
    {
        Held {
            registered,
            hits: None,
            id: LedId::of(id),
        }
    }

    /// This entry with the places of its hits, which were found.
    pub(crate) fn with_hits(self, places: HitPlaces) -> Held<'a>
        ensures registered { result.registered.now ≡ self.entry.registered.now }
        ensures hits { result.hits ≡ Some places }
    {
        Held {
            registered: self.registered,
            hits: Some(places),
            id: self.id,
        }
    }

    /// The id of the query.
    pub(crate) fn id(&self) -> &'a str
        ensures { result.now ≡ self.now.registered.now.standing.id }
    {
        self.id.id
    }

    /// The order of the ids of two entries. A text is looked at only where both have the same lead.
    pub(crate) fn order(&self, other: &Held<'a>) -> Ordering
        ensures { result ≡ bytes_cmp self.now.registered.now.standing.id other.now.registered.now.standing.id }
    {
        self.id.order(&other.id)
    }
}
