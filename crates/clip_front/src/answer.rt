//! Lines taken: what each comes to, before any alert is told.
ghost use Rattle.std.specs.Prelude.{◌≡◌, IfOk, OnOk, IsTrue, List, map, string_bytes, option_map, true};
ghost use Rattle.std.specs.List.{list_all};
ghost use Rattle.clip_model.specs.History.{fits};
ghost use Rattle.clip_standing.specs.Command.{command_of};
ghost use Rattle.clip_words.specs.Ids.{is_id};
ghost use Rattle.clip_protocol.specs.LineMeaning.{Means, is_here, judged, purging};
ghost use Rattle.clip_front.specs.Outcome.{names_in};
ghost use Rattle.clip_front.specs.Steps.Answers.{TakesListing, TakesList, Replies, Says, Settles, Comes};
ghost use Rattle.clip_protocol.specs.Steps.Outline.{is_within, purges, registers};
ghost use Rattle.clip_front.specs.Steps.Taking.{PurgesIf, Takes, Unpurged};
ghost use Rattle.clip_protocol.specs.Steps.Views.{line_view, listing_view, reply_view};

use crate::registry::Registry;
use clip_listen::Audience;
use clip_protocol::{
    JudgedDraft, Line, ListFault, Listing, Refusal, Reply, Unread, accepted, read_listing,
};
use clip_standing::{Command, Standing};
use clip_words::NoMemory;
use std::alloc::Global;
use std::sync::Arc;

/// Whether the listener of this name is here, or there is none to hear.
fn is_here<A: Audience>(audience: &A, listener: &Option<String>) -> bool
    ensures { result ≡ is_here (names_in (A.hearers audience.now)) (option_map string_bytes listener.now) }
{
    match listener {
        Some(name) => audience.has(name.as_str()),
        None => true,
    }
}

/// Reads a listed query, whose listener, where it has one, is to be of the audience.
///
/// The first refusal that holds: `Query` where the text is no query, `Listener` where nobody of the audience has the
/// listener's name. `NoMemory` where an allocation failed. Cost: that of `Audience::has` and of `read_listing`.
pub fn take_listing<A: Audience>(
    alloc: Global,
    audience: &A,
    listing: Listing,
) -> Result<Arc<Standing>, Unread>
    requires { is_id (listing_view listing).id ≡ true }
    ensures { TakesListing (names_in (A.hearers audience.now)) (listing_view listing) result }
{
    let here = is_here(audience, &listing.listener);
    let standing = read_listing(alloc, listing)?;
    if here {
        Ok(standing)
    } else {
        Err(Unread::Refused(Refusal::Listener))
    }
}

/// The standing queries of a list, or the first that is refused.
fn take_all<A: Audience>(
    alloc: Global,
    audience: &A,
    listings: Vec<Listing>,
) -> Result<Vec<Arc<Standing>>, ListFault>
    requires { list_all (λ l. is_id l.id) (map listing_view listings.items) ≡ true }
    ensures { TakesList (names_in (A.hearers audience.now)) (map listing_view listings.items) result }
{
    let mut all = Vec::with_capacity(alloc, listings.len())?;
    for listing in listings {
        let place = all.len() as u64;
        match take_listing(alloc, audience, listing) {
            Ok(standing) => all.push(standing)?,
            Err(Unread::Refused(reason)) => return Err(ListFault::Refused(reason, place)),
            Err(Unread::NoMemory) => return Err(ListFault::NoMemory),
        }
    }
    Ok(all)
}

/// Accepts a command, where there is room for it.
fn apply<H: Registry>(registry: &mut H, command: Command) -> Result<Reply, NoMemory>
    requires { IsTrue (fits (command_of command)) }
    ensures replies { IfOk result (λ reply. Replies (H.history_in registry.old) (H.history_in registry.new)
        (judged (H.history_in registry.old) (command_of command)) (reply_view reply)) }
    ensures unpurged { OnOk result (Unpurged H.goes_on registry.old registry.new) }
{
    match registry.accept(command)? {
        Some(applied) => Ok(accepted(applied)),
        None => Ok(Reply::Refused(Refusal::Full)),
    }
}

/// Registers a list of queries, all or none.
fn register<A: Audience, H: Registry>(
    alloc: Global,
    registry: &mut H,
    audience: &A,
    listings: Vec<Listing>,
) -> Result<Reply, NoMemory>
    requires { is_within (registers (map listing_view listings.items)) ≡ true }
    ensures settles { IfOk result (λ reply. Settles (names_in (A.hearers audience.now)) (H.history_in registry.old)
        (H.history_in registry.new) (registers (map listing_view listings.items)) (reply_view reply)) }
    ensures unpurged { OnOk result (Unpurged H.goes_on registry.old registry.new) }
{
    match take_all(alloc, audience, listings) {
        Ok(standings) => apply(registry, Command::Register(standings)),
        Err(ListFault::Refused(reason, place)) => Ok(Reply::RefusedAt(reason, place)),
        Err(ListFault::NoMemory) => Err(NoMemory),
    }
}

/// What a line comes to.
#[derive(Drop)]
pub enum Step {
    /// The text of its reply, with its line feed, or nothing for a blank line.
    Reply(Vec<u8>),
    /// Drafts whose articles are to be matched at the registry as it stands.
    Match(Vec<JudgedDraft>),
}

/// The step of the line of this number that has this reply.
fn step_of(alloc: Global, number: u64, reply: Reply) -> Result<Step, NoMemory>
    ensures { IfOk result (Says number (reply_view reply)) }
{
    Ok(Step::Reply(reply.text(alloc, number)?))
}

/// Does what a line says, but for the matching: changes apply to the registry, and all else is answered by it.
fn respond<A: Audience, H: Registry>(
    alloc: Global,
    registry: &mut H,
    audience: &A,
    number: u64,
    line: Line,
) -> Result<Step, NoMemory>
    requires { is_within (line_view line) ≡ true }
    ensures comes { IfOk result (Comes (names_in (A.hearers audience.now)) (H.history_in registry.old)
        (H.history_in registry.new) number (line_view line)) }
    ensures purged { OnOk result (PurgesIf (line_view line ≡ purges) H.purges H.goes_on registry.old registry.new) }
{
    match line {
        Line::Blank => step_of(alloc, number, Reply::Nothing),
        Line::Refused(reason) => step_of(alloc, number, Reply::Refused(reason)),
        Line::Register(listings) => {
            step_of(
                alloc,
                number,
                register(alloc, registry, audience, listings)?,
            )
        }
        Line::Delete(ids) => step_of(alloc, number, apply(registry, Command::Delete(ids))?),
        Line::Clear => step_of(alloc, number, apply(registry, Command::Clear)?),
        Line::Purge => {
            registry.purge_dead()?;
            step_of(alloc, number, Reply::Purged)
        }
        Line::Count => step_of(alloc, number, Reply::Counted(registry.count()?)),
        Line::Show(id) => {
            step_of(
                alloc,
                number,
                Reply::Shown(registry.show(alloc, id.as_str())?),
            )
        }
        Line::Match(drafts) => Ok(Step::Match(drafts)),
    }
}

/// Takes the line of this number: a change applies to the registry, a purge purges it, and all else but a match is
/// answered by it. No alert is told. The articles of a match are judged and not read: any thread may do that.
///
/// `NoMemory` where an allocation failed. A change costs that of `Registry::accept` after the reading of its queries; a
/// purge costs that of `Registry::purge_dead`; a count takes that of `Registry::count`, and a show that of
/// `Registry::show`; a match costs the reading of its JSON value.
pub fn take_line<A: Audience, H: Registry>(
    alloc: Global,
    registry: &mut H,
    audience: &A,
    number: u64,
    bytes: &[u8],
) -> Result<Step, NoMemory>
    ensures taken { IfOk result (λ step. Takes (names_in (A.hearers audience.now)) (H.history_in registry.old)
        (H.history_in registry.new) number bytes.now step) }

    // A line that means a purge purges the registry, once, and no other line does.
    ensures purged { OnOk result (PurgesIf (Means (names_in (A.hearers audience.now)) (H.history_in registry.old)
        bytes.now purging) H.purges H.goes_on registry.old registry.new) }
{
    let line = Line::of_bytes(alloc, bytes)?;
    respond(alloc, registry, audience, number, line)
}
