//! Standing queries: a query under an id, with the name of a listener or none.
ghost use Rattle.std.specs.Prelude.{◌≡◌, IfOk, IfErr, map, option_map, string_bytes};
ghost use Rattle.std.specs.Arc.{arc_str_bytes};
ghost use Rattle.std.specs.Option.{option_copied};
ghost use Rattle.clip_standing.specs.Standing.{IsStanding, IsStandingFault};
ghost use Rattle.clip_standing.specs.Steps.KeptReading.{KeptReading, one_tree_of};
ghost use Rattle.clip_grammar.specs.Reading.{IsFault, Reads};
ghost use Rattle.clip_grammar.specs.Tree.{tree_of};
ghost use Rattle.clip_meaning.specs.Hits.{hit_value, hits};

use crate::fresh::{FreshSlot, slot_of, take_from};
use crate::reading::ReadQuery;
use clip_grammar::fault::QueryFault;
use clip_grammar::laws::one_reading;
use clip_grammar::query::Query;
use clip_meaning::{Article, Hit, hits};
use clip_syntax::read_query;
use clip_words::{NoMemory, is_id};
use once_cell::race::OnceBox;
use std::alloc::{AllocError, Global};
use std::fmt;
use std::marker::Model;
use std::sync::ArcStr;
use thiserror::Error;

/// Why a standing query is refused, the first that holds in this order; `NoMemory` comes wherever an allocation failed.
#[derive(Clone, Copy, Debug, PartialEq, Eq, Error)]
pub enum StandingFault {
    /// The id has not 1 to 256 bytes.
    #[error("the id is not 1 to 256 bytes long")]
    Id,
    /// The text is refused by `read_query`, with its fault.
    #[error("{0}")]
    Query(QueryFault),
    /// An allocation failed.
    #[error("no memory")]
    NoMemory,
}

impl From<NoMemory> for StandingFault {
    ghost use Rattle.clip_standing.specs.declared.standing.StandingFault.TheVariants as faults;

    ghost from_gives = { λ _ fault. fault ≡ faults.NoMemory };

    fn from(_error: NoMemory) -> StandingFault {
        StandingFault::NoMemory
    }
}

impl From<AllocError> for StandingFault {
    ghost use Rattle.clip_standing.specs.declared.standing.StandingFault.TheVariants as faults;

    ghost from_gives = { λ _ fault. fault ≡ faults.NoMemory };

    fn from(_error: AllocError) -> StandingFault {
        StandingFault::NoMemory
    }
}

impl From<QueryFault> for StandingFault {
    ghost use Rattle.clip_standing.specs.Standing.{standing_fault};

    ghost from_gives = { λ error fault. fault ≡ standing_fault error };

    fn from(error: QueryFault) -> StandingFault {
        match error {
            QueryFault::NoMemory => StandingFault::NoMemory,
            fault => StandingFault::Query(fault),
        }
    }
}

/// A standing query: a query under an id, with the name of a listener or none.
///
/// Its query is the reading of its text. The tree that was made when it was read goes to the first who takes it, which
/// is the segment that it is listed in; after that none is kept until hits are asked for, since a query's tree takes
/// far more memory than its text. Its texts are shared by clones. No reader but `query`, `take_query` and `hits_in`
/// takes memory, and each other takes constant time.
pub struct Standing {
    id: ArcStr,
    text: ArcStr,
    listener: Option<ArcStr>,
    fresh: FreshSlot,
    kept: OnceBox<ReadQuery>,
    ghost reading: { KeptReading (arc_str_bytes text) } by { one_tree_of _ },
}

impl Drop for Standing {
    fn drop(self) {
        let Standing {
            id: _,
            text: _,
            listener: _,
            fresh: _,
            kept: _,
        } = self;
    }
}

impl Model for Standing {
    ghost use Rattle.clip_model.specs.Standing as value;

    ghost Value = { value.Standing };

    ghost coded = { value.standing_code };

    ghost use Rattle.clip_standing.specs.Standing.{IsStanding};
    ghost use Rattle.clip_standing.specs.Steps.StandingView.{standing_of};

    ghost view = { standing_of };

    ghost invariant = { λ s. IsStanding (standing_of s) };
}

impl fmt::Debug for Standing {
    fn fmt<W: fmt::Write>(&self, f: &mut fmt::Formatter<W>) -> fmt::Result {
        f.debug_struct("Standing")
            .field("id", &self.id)
            .field("text", &self.text)
            .field("listener", &self.listener)
            .finish()
    }
}

/// The name of a listener, as a text that a `clone` shares.
fn shared_name(listener: Option<String>) -> Result<Option<ArcStr>, NoMemory>
    ensures { IfOk result (λ name. option_map arc_str_bytes name ≡ option_map string_bytes listener) }
{
    match listener {
        Some(name) => Ok(Some(ArcStr::from_string(name)?)),
        None => Ok(None),
    }
}

/// The texts of a standing query, as texts that a `clone` shares.
fn shared_texts(
    id: String,
    text: String,
    listener: Option<String>,
) -> Result<(ArcStr, ArcStr, Option<ArcStr>), NoMemory>
    ensures id { IfOk result (λ texts. arc_str_bytes texts.0 ≡ string_bytes id) }
    ensures text { IfOk result (λ texts. arc_str_bytes texts.1 ≡ string_bytes text) }
    ensures listener { IfOk result (λ texts. option_map arc_str_bytes texts.2 ≡ option_map string_bytes listener) }
{
    let listener = shared_name(listener)?;
    let id = ArcStr::from_string(id)?;
    Ok((id, ArcStr::from_string(text)?, listener))
}

/// A query beside the text that it was read from, for the first who takes it.
fn fresh(alloc: Global, text: &ArcStr, query: Query) -> Result<FreshSlot, NoMemory>
    requires { Reads (arc_str_bytes text.now) (tree_of query) }
{
    let reading = Box::new(alloc, ReadQuery::new(text.clone()?, query))?;
    Ok(slot_of(reading))
}

impl Standing {
    /// Reads the text as a query, which stands under the id, with the name of a listener or none.
    ///
    /// Cost: the reading of the text. The id, the text and the name are moved and not copied.
    ///
    /// # Errors
    ///
    /// The first refusal that holds: `Id` where the id is not 1 to 256 bytes long; `Query` where the text is no query,
    /// with `read_query`'s fault. `NoMemory` where an allocation failed.
    pub fn read(
        alloc: Global,
        id: String,
        text: String,
        listener: Option<String>,
    ) -> Result<Standing, StandingFault>
        ensures id { IfOk result (λ standing. standing.id ≡ string_bytes id) }
        ensures text { IfOk result (λ standing. standing.text ≡ string_bytes text) }
        ensures listener { IfOk result (λ standing. standing.listener ≡ option_map string_bytes listener) }
        ensures standing { IfOk result IsStanding }
        ensures refused { IfErr result (λ fault. IsStandingFault (string_bytes id) (string_bytes text) fault) }
    {
        if !is_id(id.as_str()) {
            return Err(StandingFault::Id);
        }
        let query = read_query(alloc, text.as_str())?;
        let (id, text, listener) = shared_texts(id, text, listener)?;
        let fresh = fresh(alloc, &text, query)?;
        Ok(Standing {
            id,
            text,
            listener,
            fresh,
            kept: OnceBox::new(alloc),
        })
    }

    /// The id, 1 to 256 bytes.
    pub fn id(&self) -> &str
        ensures { result.now ≡ self.now.id }
    {
        self.id.as_str()
    }

    /// The id, as a text that a `clone` shares.
    pub fn shared_id(&self) -> &ArcStr
        ensures { arc_str_bytes result.now ≡ self.now.id }
    {
        &self.id
    }

    /// The text.
    pub fn text(&self) -> &str
        ensures { result.now ≡ self.now.text }
    {
        self.text.as_str()
    }

    /// The query that the text is read as. It is read again at each call.
    ///
    /// `NoMemory` where an allocation failed. Cost: the reading of the text.
    pub fn query(&self, alloc: Global) -> Result<Query, NoMemory>
        ensures { IfOk result (λ query. tree_of query ≡ self.now.tree) }
    {
        one_reading();
        match read_query(alloc, self.text.as_str()) {
            Ok(query) => Ok(query),
            Err(QueryFault::NoMemory) => Err(NoMemory),
            Err(_) => unreachable!(),
        }
    }

    /// The query that the text is read as: the one that was made when it was read for the first who takes it, and one
    /// that is read again after that.
    ///
    /// `NoMemory` where an allocation failed. Cost: for the first constant time, after that the reading of the text.
    pub fn take_query(&self, alloc: Global) -> Result<Query, NoMemory>
        ensures { IfOk result (λ query. tree_of query ≡ self.now.tree) }
    {
        if let Some(fresh) = take_from(&self.fresh)
            && fresh.reading.is_of(self.text.as_str())
        {
            return Ok(Box::into_inner(fresh.reading).into_query());
        }
        self.query(alloc)
    }

    /// The reading of the text, which is made at the first call and kept.
    fn reading(&self, alloc: Global) -> Result<&ReadQuery, NoMemory> {
        if let Some(reading) = self.kept.get() {
            return Ok(reading);
        }
        let query = self.query(alloc)?;
        let made = Box::new(alloc, ReadQuery::new(self.text.clone()?, query))?;
        Ok(self.kept.get_or_init(move || made))
    }

    /// Where in the article the query holds, as `clip_meaning::hits` finds it. The query's tree is made at the first
    /// call and kept as long as the standing query is.
    ///
    /// `NoMemory` where an allocation failed. Cost: that of `clip_meaning::hits`, and at the first call the reading of
    /// the text.
    pub fn hits_in(&self, alloc: Global, article: &Article) -> Result<Vec<Hit>, NoMemory>
        ensures { IfOk result (λ found. map hit_value found.items ≡ hits self.now.tree article.now.fields) }
    {
        let reading = self.reading(alloc)?;
        if reading.is_of(self.text.as_str()) {
            return hits(alloc, reading.query(), article);
        }
        hits(alloc, &self.query(alloc)?, article)
    }

    /// The law that every standing query keeps. Takes no memory. Constant time.
    pub fn law(&self)
        ensures { IsStanding self.now }
    {
        let _id = &self.id;
    }

    /// The name of the listener, if there is one.
    pub fn listener(&self) -> Option<&str>
        ensures { option_copied result ≡ self.now.listener }
    {
        match &self.listener {
            Some(name) => Some(name.as_str()),
            None => None,
        }
    }

    /// The name of the listener, if there is one, as a text that a `clone` shares.
    pub fn shared_listener(&self) -> Option<&ArcStr>
        ensures { option_map arc_str_bytes (option_copied result) ≡ self.now.listener }
    {
        self.listener.as_ref()
    }
}
