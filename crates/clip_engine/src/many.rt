//! A list of queries, taken together.
ghost use Rattle.std.specs.Prelude.{◌≡◌, map};
ghost use Rattle.clip_protocol.specs.Steps.Views.{listing_view};
ghost use Rattle.clip_engine.specs.Engine.{house};
ghost use Rattle.clip_engine.specs.Many.{TakesMany, TakesOne};

use crate::house::House;
use clip_front::take_listing;
use clip_listen::Audience;
use clip_protocol::{ListFault, Listing, Refusal, Unread};
use clip_standing::Standing;
use clip_words::is_id;
use std::alloc::Global;
use std::sync::Arc;

/// The standing query of a listing, or why it is refused by itself: `Limit` where its id is none, `Query` where its
/// text is none, and `Listener` where its listener is not here.
fn take_one(alloc: Global, listeners: &House, listing: Listing) -> Result<Arc<Standing>, Unread>
    requires { ⟦<House as Audience>⟧.hearers listeners.now ≡ house }
    ensures { TakesOne (listing_view listing) result }
{
    if !is_id(listing.id.as_str()) {
        return Err(Unread::Refused(Refusal::Limit));
    }
    take_listing(alloc, listeners, listing)
}

/// The standing queries of a list, or the first that is refused.
pub(crate) fn take_many(
    alloc: Global,
    listeners: &House,
    listings: Vec<Listing>,
) -> Result<Vec<Arc<Standing>>, ListFault>
    requires { ⟦<House as Audience>⟧.hearers listeners.now ≡ house }
    ensures { TakesMany (map listing_view listings.items) result }
{
    let mut all = Vec::with_capacity(alloc, listings.len())?;
    for listing in listings {
        let place = all.len() as u64;
        match take_one(alloc, listeners, listing) {
            Ok(standing) => all.push(standing)?,
            Err(Unread::Refused(reason)) => return Err(ListFault::Refused(reason, place)),
            Err(Unread::NoMemory) => return Err(ListFault::NoMemory),
        }
    }
    Ok(all)
}
