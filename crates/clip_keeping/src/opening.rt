//! A store's journal, compacted where it is long.
ghost use Rattle.std.specs.Prelude.{◌≡◌, ◌+◌, length, IfOk};
ghost use Rattle.clip_front.specs.Outcome.{names_in};
ghost use Rattle.clip_journal.specs.Contents.{kept_of};
ghost use Rattle.clip_journal.specs.Stands.{Stands};
ghost use Rattle.clip_keeping.specs.Opening.{GoesOnFrom};

use crate::fault::Fault;
use crate::live::live_lines;
use clip_journal::{Contents, Store};
use clip_kept::{Opened, open_kept};
use clip_listen::Audience;
use std::alloc::Global;

/// How many changes a journal keeps: those before it was written anew, and those since.
pub fn changes_in(found: &Contents) -> u64
    ensures { result ≡ (kept_of found.now).changes + length (kept_of found.now).since }
{
    found.changes() + found.since().len() as u64
}

/// Opens a store's journal, and writes it anew where it is long: the queries that are live, each as the line that
/// registers it, in the place of all that led to them where these listeners are here.
///
/// The errors are those of `open_kept` and of `Journal::compact`. Cost: that of `open_kept`; where the journal is long,
/// also that of taking its lines, and of writing the live ones.
pub fn open_short<S: Store + Drop, A: Audience>(
    alloc: Global,
    audience: &A,
    store: S,
) -> Result<Opened<S>, Fault>
    ensures stands { IfOk result (λ opened. Stands S.seen S.may_leave opened.journal (kept_of opened.found)
        (length (kept_of opened.found).since)) }
    ensures kept { IfOk result (λ opened.
        GoesOnFrom (names_in (A.hearers audience.now)) (S.seen store) (kept_of opened.found)) }
{
    let opened = open_kept(alloc, store)?;
    if !opened.found.is_long() {
        return Ok(opened);
    }
    let Opened { mut journal, found } = opened;
    let live = live_lines(alloc, audience, found.into_lines())?;
    journal.compact(alloc, &live)?;
    Ok(open_kept(alloc, journal.into_store())?)
}
