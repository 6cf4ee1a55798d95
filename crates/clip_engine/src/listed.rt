//! Queries that a caller outside of Rattle registers together.
ghost use Rattle.std.specs.Prelude.{◌≡◌, IfOk, IfErr, OnOk, map};
ghost use Rattle.std.specs.List.{All};
ghost use Rattle.clip_protocol.specs.Steps.Views.{listing_view};
ghost use Rattle.clip_engine.specs.Listed.{IsUnread, IsWhich};
ghost use Rattle.clip_engine.specs.Texts.{IsNoText, IsReadable, listing_at, listings_at};

use crate::code;
use crate::kept::listing_of;
use clip_protocol::{ListFault, Listing, Unread};
use std::alloc::Global;

/// A query to be registered among others.
#[repr(C)]
#[derive(Clone, Copy)]
pub struct Listed<'a> {
    /// Its id.
    pub id: &'a [u8],
    /// Its text.
    pub query: &'a [u8],
    /// The name of its listener, where it has one.
    pub listener: &'a [u8],
    /// Whether it has one.
    pub has_listener: bool,
}

/// Why queries are not registered together, and the place of the one that is refused.
#[derive(Clone, Copy)]
pub(crate) struct Which {
    pub(crate) code: u32,
    pub(crate) place: u64,
}

/// The query to register, or why its texts are not read.
fn read_one(alloc: Global, one: &Listed<'_>) -> Result<Listing, u32>
    ensures ok { IfOk result (λ listing. listing_view listing
        ≡ listing_at one.now.id.now one.now.query.now one.now.has_listener one.now.listener.now) }
    ensures texts { OnOk result (IsReadable one.now) }
    ensures why { IfErr result (IsNoText (IsReadable one.now)) }
{
    listing_of(alloc, one.id, one.query, one.has_listener, one.listener)
}

/// The queries to register together, or the first whose texts are not read.
pub(crate) fn listings_of(alloc: Global, listed: &[Listed<'_>]) -> Result<Vec<Listing>, Which>
    ensures ok { IfOk result (λ listings. map listing_view listings.items ≡ listings_at listed.now) }
    ensures texts { OnOk result (All IsReadable listed.now) }
    ensures err { IfErr result (λ which. IsUnread listed.now which.code which.place) }
{
    let mut listings = Vec::new(alloc);
    for one in listed {
        let place = listings.len() as u64;
        match read_one(alloc, one) {
            Ok(listing) => {
                if listings.push(listing).is_err() {
                    let code = code::NO_MEMORY;
                    return Err(Which { code, place });
                }
            }
            Err(code) => return Err(Which { code, place }),
        }
    }
    Ok(listings)
}

/// The number of what stands against registering queries together, and the place of the one that is refused.
pub(crate) fn which_of(why: ListFault) -> Which
    ensures { IsWhich why result.code result.place }
{
    match why {
        ListFault::Refused(reason, place) => Which {
            code: code::code_of(Unread::Refused(reason)),
            place,
        },
        ListFault::NoMemory => Which {
            code: code::NO_MEMORY,
            place: 0,
        },
    }
}
