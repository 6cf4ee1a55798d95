//! The queries that kept lines leave live, each as the line that registers it.
ghost use Rattle.std.specs.Prelude.{◌≡◌, [], ◌∷◌, codes, IfOk, map};
ghost use Rattle.clip_front.specs.Outcome.{OfKept, names_in};
ghost use Rattle.clip_protocol.specs.Request.{listing_value};
ghost use Rattle.clip_protocol.specs.Steps.Printing.{Appends, data_tokens};
ghost use Rattle.clip_journal.specs.Kept.{says};
ghost use Rattle.clip_keeping.specs.Live.{AreLive, line_of, listener_tokens, listing_of};

use clip_front::take_kept;
use clip_listen::Audience;
use clip_run::OwnRegistrar;
use clip_standing::{Entry, Standing};
use clip_words::NoMemory;
use json::Writer;
use std::alloc::Global;

/// How many bytes most lines have.
const USUAL_BYTES: usize = 128;

/// Writes the member for a listener, if there is one.
fn write_listener(out: &mut Writer, standing: &Standing) -> Result<(), NoMemory>
    ensures { Appends result out.old out.new (listener_tokens standing.now.listener) }
{
    if let Some(listener) = standing.listener() {
        out.key("listener")?;
        out.string(listener)?;
    }
    Ok(())
}

/// Writes a query as a register lists it.
fn write_listing(out: &mut Writer, standing: &Standing) -> Result<(), NoMemory>
    ensures { Appends result out.old out.new (data_tokens (listing_value (listing_of standing.now))) }
{
    out.begin_object()?;
    out.key("id")?;
    out.string(standing.id())?;
    write_listener(out, standing)?;
    out.key("query")?;
    out.string(standing.text())?;
    out.end_object()?;
    Ok(())
}

/// The line that registers a query.
fn register_line(alloc: Global, standing: &Standing) -> Result<Vec<u8>, NoMemory>
    ensures { IfOk result (λ line. line.items ≡ line_of standing.now) }
{
    let mut out = Writer::new(Vec::with_capacity(alloc, USUAL_BYTES)?);
    out.begin_object()?;
    out.key("op")?;
    out.string("register")?;
    out.key("queries")?;
    out.begin_array()?;
    write_listing(&mut out, standing)?;
    out.end_array()?;
    out.end_object()?;
    Ok(out.into_inner())
}

/// The lines that register these.
fn lines_of(alloc: Global, entries: &[&Entry]) -> Result<Vec<Vec<u8>>, NoMemory>
    ensures { IfOk result (λ lines. says lines.items ≡ map (λ r. line_of r.standing) (map (λ e. e.now) entries.now)) }
{
    let mut lines = Vec::with_capacity(alloc, entries.len())?;
    for entry in entries {
        lines.push(register_line(alloc, entry.standing())?)?;
    }
    Ok(lines)
}

/// The lines that register the queries which kept lines leave live where these listeners are here, one for each, in the
/// order in which they were registered last.
///
/// `NoMemory` where an allocation failed. Cost: that of `take_kept`, and a line for each live query.
pub fn live_lines<A: Audience>(
    alloc: Global,
    audience: &A,
    kept: Vec<Vec<u8>>,
) -> Result<Vec<Vec<u8>>, NoMemory>
    ensures { IfOk result (λ lines. OfKept (names_in (A.hearers audience.now)) (says kept.items)
        (λ begins. AreLive begins (says lines.items))) }
{
    let mut registry = OwnRegistrar::new(alloc);
    take_kept(alloc, &mut registry, audience, kept)?;
    let view = registry.registrar.view()?;
    let entries = view.live_entries(alloc)?;
    lines_of(alloc, &entries)
}
