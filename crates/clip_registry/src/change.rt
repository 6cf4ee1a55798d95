//! What commands do to the segments and the roster.
ghost use Rattle.std.specs.Prelude.{◌≡◌, ◌+◌, ◌<◌, ◌≤◌, ◌^◌, true, map, filter, length, replicate, IfOk, IfErr, IsTrue};
ghost use Rattle.std.specs.Arc.{arc_value};
ghost use Rattle.std.specs.FinMap as finite;
ghost use Rattle.std.specs.List.{All};
ghost use Rattle.clip_model.specs.History as model;
ghost use Rattle.clip_model.specs.History.{fits, register_all, after_command};
ghost use Rattle.clip_standing.specs.Command.{command_of};
ghost use Rattle.clip_indexed.specs.Segment.{IsRising, all_entries};
ghost use Rattle.clip_indexed.specs.declared.segment.TheConstants.{MOST_POSITIONS};
ghost use Rattle.clip_registry.specs.Steps.Change.{content, IsChanged};
ghost use Rattle.clip_registry.specs.Steps.LiveFlags.{flags_in, without_all};
ghost use Rattle.clip_registry.specs.RegistryState.{numbered};
ghost use Rattle.clip_standing.specs.declared.command.Refused.TheVariants as refused;

use crate::live_flags::{all_set, clear, clear_each};
use crate::purging::live_segment;
use crate::roster::Roster;
use clip_indexed::{Index, Segment};
use clip_model::{MOST_LISTED, MOST_LIVE};
use clip_pieces::{Shared, SharedFlags};
use clip_standing::{Applied, Command, Entry, Refused, Standing};
use clip_words::NoMemory;
use std::alloc::Global;
use std::sync::Arc;

/// The entries of the queries, with the seqs that follow those listed, or `NoMemory` where an allocation failed.
fn numbered_entries(
    alloc: Global,
    listed: u64,
    standings: &[Arc<Standing>],
) -> Result<Vec<Arc<Entry>>, NoMemory>
    requires { listed + length standings.now < 2 ^ 64 }
    ensures { IfOk result (λ entries. map arc_value entries.items ≡ numbered listed (map arc_value standings.now)) }
{
    let mut entries = Vec::with_capacity(alloc, standings.len())?;
    let mut seq = listed;
    for standing in standings {
        seq += 1;
        let entry = Entry::new(seq, standing.clone()?);
        entries.push(Arc::new(alloc, entry)?)?;
    }
    Ok(entries)
}

/// The segment of those of the entries whose seqs are not among these, and a flag for each of them, all set. `NoMemory`
/// where an allocation failed.
fn standing_segment<I: Index>(
    alloc: Global,
    entries: Vec<Arc<Entry>>,
    gone: &[u64],
) -> Result<(Arc<Segment<I>>, Shared<SharedFlags>), NoMemory>
    requires short { length entries.items ≤ MOST_POSITIONS }
    requires rising { IsRising (map arc_value entries.items) }
    ensures entries { IfOk result (λ kept. kept.0.value
        ≡ filter (λ r. without_all gone.now (λ _. true) r.seq) (map arc_value entries.items)) }
    ensures set { IfOk result (λ kept. kept.1 ≡ replicate (length kept.0.value) true) }
{
    let segment = Arc::new(alloc, Segment::build(alloc, entries)?)?;
    let mut flags = all_set(alloc, segment.len())?;
    clear(&mut flags, &segment, gone)?;
    live_segment(alloc, &segment, &flags)
}

/// What a command leaves of the segments, their live flags and the roster, and the answer to it.
#[derive(Drop)]
pub struct Changed<I: Index> {
    pub segments: Vec<Arc<Segment<I>>>,
    pub roster: Roster,
    pub applied: Applied,
    pub live: Vec<Shared<SharedFlags>>,
}

/// Registers queries: they take the places of those with their ids, and a segment with those that stand goes to the
/// end, with its live flags.
fn register<I: Index>(
    alloc: Global,
    segments: Vec<Arc<Segment<I>>>,
    live: Vec<Shared<SharedFlags>>,
    roster: Roster,
    standings: &[Arc<Standing>],
) -> Result<Changed<I>, Refused>
    requires listed { roster.listed + MOST_LISTED < 2 ^ 64 }
    requires fits { length standings.now ≤ MOST_LISTED }
    requires small { finite.len roster.registry ≤ MOST_LIVE }
    requires flags { live.items ≡ flags_in roster.registry (map arc_value segments.items) }
    requires within { All (λ r. r.seq ≤ roster.listed) (all_entries (map arc_value segments.items)) }
    ensures changed { IfOk result (λ after. IsChanged (model.Register (map arc_value standings.now))
        (content segments.items roster) (content after.segments.items after.roster) after.applied) }
    ensures flags { IfOk result (λ after.
        after.live.items ≡ flags_in after.roster.registry (map arc_value after.segments.items)) }
    ensures full { IfErr result (λ why. why ≡ refused.Full → MOST_LIVE
        < finite.len (register_all roster.listed (map arc_value standings.now) roster.registry)) }
{
    if standings.is_empty() {
        return Ok(Changed {
            segments,
            roster,
            applied: Applied::Registered(0),
            live,
        });
    }
    let entries = numbered_entries(alloc, roster.listed(), standings)?;
    let (roster, gone) = roster.with_entries(alloc, &entries)?;
    if roster.len() > MOST_LIVE {
        return Err(Refused::Full);
    }
    let (mut segments, mut live) = (segments, live);
    clear_each(&mut live, &segments, &gone)?;
    let (segment, flags) = standing_segment(alloc, entries, &gone)?;
    let count = segment.len() as u64;
    segments.push(segment)?;
    live.push(flags)?;
    Ok(Changed {
        segments,
        roster,
        applied: Applied::Registered(count),
        live,
    })
}

/// Does a command to the segments, their live flags and the roster: `Full` where more than `MOST_LIVE` queries would
/// then be registered, and `NoMemory` where an allocation failed.
pub fn change<I: Index>(
    alloc: Global,
    segments: Vec<Arc<Segment<I>>>,
    live: Vec<Shared<SharedFlags>>,
    roster: Roster,
    command: &Command,
) -> Result<Changed<I>, Refused>
    requires listed { roster.listed + MOST_LISTED < 2 ^ 64 }
    requires fits { IsTrue (fits (command_of command.now)) }
    requires small { finite.len roster.registry ≤ MOST_LIVE }
    requires flags { live.items ≡ flags_in roster.registry (map arc_value segments.items) }
    requires within { All (λ r. r.seq ≤ roster.listed) (all_entries (map arc_value segments.items)) }
    ensures changed { IfOk result (λ after. IsChanged (command_of command.now)
        (content segments.items roster) (content after.segments.items after.roster) after.applied) }
    ensures flags { IfOk result (λ after.
        after.live.items ≡ flags_in after.roster.registry (map arc_value after.segments.items)) }
    ensures full { IfErr result (λ why. why ≡ refused.Full → MOST_LIVE
        < finite.len (after_command roster.listed (command_of command.now) roster.registry)) }
{
    match command {
        Command::Register(standings) => register(alloc, segments, live, roster, standings),
        Command::Delete(ids) => {
            let before = roster.len();
            let (roster, gone) = roster.without_ids(alloc, ids)?;
            let mut live = live;
            clear_each(&mut live, &segments, &gone)?;
            let applied = Applied::Deleted(before - roster.len());
            Ok(Changed {
                segments,
                roster,
                applied,
                live,
            })
        }
        Command::Clear => Ok(Changed {
            segments: Vec::new(alloc),
            roster: Roster::new(alloc, roster.listed()),
            applied: Applied::Cleared(roster.len()),
            live: Vec::new(alloc),
        }),
    }
}
