//! Listed queries, read as standing ones.
ghost use Rattle.std.specs.Prelude.{◌≡◌, true};
ghost use Rattle.clip_words.specs.Ids.{is_id};
ghost use Rattle.clip_protocol.specs.Steps.Listings.{ReadsListing};
ghost use Rattle.clip_protocol.specs.Steps.Views.{listing_view};

use crate::refusal::{Refusal, Unread};
use crate::request::Listing;
use clip_standing::{Standing, StandingFault};
use std::alloc::{AllocError, AllocFailed, Global};
use std::sync::Arc;

/// Why a list of queries is not registered.
#[derive(Clone, Copy)]
pub enum ListFault {
    /// The query at this place, from 0, is the first that is refused, for this reason.
    Refused(Refusal, u64),
    /// An allocation failed.
    NoMemory,
}

impl From<AllocError> for ListFault {
    ghost use Rattle.clip_protocol.specs.declared.listing.ListFault.TheVariants as faults;

    ghost from_gives = { λ _ e. e ≡ faults.NoMemory };

    fn from(_error: AllocError) -> ListFault {
        ListFault::NoMemory
    }
}

impl<T: Drop> From<AllocFailed<T>> for ListFault {
    ghost use Rattle.clip_protocol.specs.declared.listing.ListFault.TheVariants as faults;

    ghost from_gives = { λ _ e. e ≡ faults.NoMemory };

    fn from(_error: AllocFailed<T>) -> ListFault {
        ListFault::NoMemory
    }
}

/// Reads a listed query.
pub fn read_listing(alloc: Global, listing: Listing) -> Result<Arc<Standing>, Unread>
    requires { is_id (listing_view listing).id ≡ true }
    ensures { ReadsListing (listing_view listing) result }
{
    let Listing {
        id,
        query,
        listener,
    } = listing;
    match Standing::read(alloc, id, query, listener) {
        Ok(standing) => Ok(Arc::new(alloc, standing)?),
        Err(StandingFault::Query(_)) => Err(Unread::Refused(Refusal::Query)),
        Err(StandingFault::NoMemory) => Err(Unread::NoMemory),
        Err(StandingFault::Id) => unreachable!(),
    }
}
