//! A journal that is looked at, and neither opened nor changed.
ghost use Rattle.std.specs.Prelude.{◌≡◌, OnOk};
ghost use Rattle.clip_front.specs.Outcome.{names_in};
ghost use Rattle.clip_journal.specs.Kept.{says};
ghost use Rattle.clip_keeping.specs.Looking.{PrintsLive};

use crate::fault::Fault;
use crate::folder::{file_of, refuse_other};
use crate::live::live_lines;
use crate::opening::changes_in;
use crate::printing::print_lines;
use crate::words::Look;
use clip_journal::{Contents, read_back};
use clip_listen::Audience;
use clip_stream::{RunFault, Sink, StdSink};
use std::alloc::Global;
use std::fs::File;
use std::io::{self, Read};
use std::rt::Files;

/// What the file of a journal has.
#[derive(Drop)]
struct Looked {
    /// How many bytes the file has.
    bytes: usize,
    /// What it keeps; nothing where the file is empty, as a stop leaves it that comes before a journal is begun.
    found: Option<Contents>,
}

/// Reads the file of a folder's journal, which another process may have open for more.
fn look<R: Files<File = File>>(files: &R, alloc: Global, folder: &str) -> Result<Looked, Fault> {
    refuse_other(files, alloc, folder)?;
    let mut bytes = Vec::new(alloc);
    let mut file = File::open(files, file_of(alloc, folder)?.as_str())?;
    file.read_to_end(&mut bytes)?;
    let found = if bytes.is_empty() {
        None
    } else {
        Some(read_back(alloc, &bytes)?)
    };
    Ok(Looked {
        bytes: bytes.len(),
        found,
    })
}

/// Prints the queries that kept lines leave live where these listeners are here, each as the line that registers it.
///
/// `NoMemory` where an allocation failed, `Unheard` where the writer fails. Cost: that of `live_lines`, and of what is
/// printed.
pub fn print_live<W: Sink, A: Audience>(
    alloc: Global,
    writer: &mut W,
    audience: &A,
    kept: Vec<Vec<u8>>,
) -> Result<(), Fault>
    ensures { OnOk result (PrintsLive (names_in (A.hearers audience.now)) (W.taken writer.old) (W.taken writer.new)
        (says kept.items)) }
{
    let lines = live_lines(alloc, audience, kept)?;
    match print_lines(alloc, writer, &lines) {
        Ok(()) => Ok(()),
        Err(RunFault::NoMemory) => Err(Fault::NoMemory),
        Err(RunFault::Read | RunFault::Write) => Err(Fault::Unheard),
    }
}

/// Prints the queries that a journal leaves live.
fn print_dump<R: Print + AllocGlobal, A: Audience>(
    rt: &R,
    audience: &A,
    looked: Looked,
) -> Result<(), Fault> {
    let Looked { bytes: _, found } = looked;
    let Some(found) = found else {
        return Ok(());
    };
    let mut sink = StdSink::new(io::writer(rt));
    print_live(rt.alloc(), &mut sink, audience, found.into_lines())
}

/// Prints how many bytes a file has, how many changes it keeps, how many queries were live when it was written anew,
/// how many changes came since, and how many bytes are torn at its end: a JSON object with its members in byte order.
fn print_stats<R: Print>(rt: &R, looked: &Looked) -> io::Result<()> {
    let bytes = looked.bytes;
    let (changes, live, since, torn) = match &looked.found {
        Some(found) => (
            changes_in(found),
            found.live().len(),
            found.since().len(),
            found.torn().len(),
        ),
        None => (0, 0, 0, 0),
    };
    println!(rt;
        r#"{{"bytes":{bytes},"changes":{changes},"live":{live},"since":{since},"torn":{torn}}}"#
    )
}

/// Prints how many changes are kept.
fn print_check<R: Print>(rt: &R, looked: &Looked) -> io::Result<()> {
    let changes = match &looked.found {
        Some(found) => changes_in(found),
        None => 0,
    };
    println!(rt; "{changes} changes are kept")
}

/// Where what was printed was taken.
fn taken_or_unheard(answer: io::Result<()>) -> Result<(), Fault> {
    match answer {
        Ok(()) => Ok(()),
        Err(_) => Err(Fault::Unheard),
    }
}

/// Looks at the journal in a folder, and prints what is asked for. What is torn at its end is left out.
///
/// `Broken` and `Other` where it is no such journal; `Unopened` where its file can't be read; `Unheard` where nobody
/// reads what is printed; `NoMemory`. Cost: reads the file, with a digest of each entry; a dump takes all that it keeps
/// again.
pub fn print_looked<R: Print + Files<File = File> + AllocGlobal, A: Audience>(
    rt: &R,
    audience: &A,
    folder: &str,
    how: Look,
) -> Result<(), Fault> {
    let looked = look(rt, rt.alloc(), folder)?;
    match how {
        Look::Dump => print_dump(rt, audience, looked),
        Look::Check => taken_or_unheard(print_check(rt, &looked)),
        Look::Stats => taken_or_unheard(print_stats(rt, &looked)),
    }
}
