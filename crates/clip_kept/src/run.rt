//! The run whose changes survive.
ghost use Rattle.std.specs.Prelude.{◌≡◌, ◌≤◌, ℕ, List, length, [], true, IfOk, OnOk, OnErr};
ghost use Rattle.clip_stream.specs.Lines.{lines_of, OfInput, OfLinesRead};
ghost use Rattle.clip_journal.specs.Contents.{kept_of};
ghost use Rattle.clip_journal.specs.Stands.{Stands};
ghost use Rattle.clip_front.specs.Devices.{AreFresh, devices_at};
ghost use Rattle.clip_front.specs.Outcome.{names_in, OfKept, GivesAllFrom, GivesFrontFrom, GivesLinesFrom};
ghost use Rattle.clip_ahead.specs.Anew.{HasKept};
ghost use Rattle.clip_ahead.specs.Handing.{put_back, WasAhead};
ghost use Rattle.clip_kept.specs.Opened.{begun_with, kept_lines};
ghost use Rattle.clip_kept.specs.Whose.{FailsToRead, IsHonestKept};

use crate::fault::{KeptFault, fault_of};
use crate::opened::Opened;
use clip_ahead::{KeptParts, KeptSource, RunName, Shortener};
use clip_journal::Store;
use clip_listen::Audience;
use clip_match::Gate;
use clip_run::{Beginning, Ended, Settings, run_again};
use clip_stream::{MOST_WORKERS, Sink, Source};
use std::alloc::Global;
use std::marker::Brand;
use std::sync::Wait;
use std::thread::Threads;

/// What a run begins with that keeps its changes.
pub struct Keeping<'g, S: Store, G, L> {
    /// How it runs.
    pub settings: Settings,
    /// The journal, with what it kept.
    pub opened: Opened<S>,
    /// Who may match.
    pub gate: &'g G,
    /// Who makes the journal's lines few where it is long.
    pub shortener: &'g L,
}

/// What such a run leaves.
#[derive(Drop)]
pub struct KeptRun<R: Source, S: Store> {
    /// How it ended.
    pub answer: Result<Ended, KeptFault>,
    /// Its reader and its journal.
    pub parts: KeptParts<R, S>,
}

/// The run, where it has a name.
fn run_named<
    N: RunName,
    H: Threads + Wait + Sync,
    R: Source,
    S: Store,
    W: Sink,
    A: Audience,
    G: Gate + Clone + Send + 'static,
    L: Shortener,
>(
    rt: &H,
    alloc: Global,
    reader: R,
    writer: &mut W,
    audience: &mut A,
    keeping: Keeping<'_, S, G, L>,
) -> KeptRun<R, S>
    requires fresh { AreFresh (devices_at R.Source W.Sink reader writer.old) }
    requires workers { keeping.settings.workers ≤ MOST_WORKERS }
    requires stands { Stands S.seen S.may_leave keeping.opened.journal (kept_of keeping.opened.found)
        (length (kept_of keeping.opened.found).since) }
    requires named { N.begun ≡ begun_with R.Source S.Store reader keeping.opened }
    requires shortens { (old new : List (List ℕ)) → L.stand_for keeping.shortener.now old new → N.stand_for old new }
    ensures outcome { IfOk result.answer (λ ended. OfKept (names_in (A.hearers audience.old))
        (kept_lines keeping.entry.opened.found) (λ begins. OfInput (R.left reader)
        (GivesAllFrom begins (A.hearers audience.old) (A.hearers audience.new) keeping.entry.settings
        (W.taken writer.old) (W.taken writer.new) ended.lines ended.ledger))) }
    ensures front { OnErr result.answer (OfKept (names_in (A.hearers audience.old))
        (kept_lines keeping.entry.opened.found) (λ begins.
        OfLinesRead (R.left reader) (put_back result.parts.held.items (R.left result.parts.reader)) result.parts.met_end
        (GivesFrontFrom begins (A.hearers audience.old) (A.hearers audience.new) keeping.entry.settings.form
        (W.taken writer.old) (W.taken writer.new)))) }
    ensures none_held { FailsToRead result.answer → (W.is_flushed writer.new ≡ true)
        × OfKept (names_in (A.hearers audience.old)) (kept_lines keeping.entry.opened.found) (λ begins.
        OfLinesRead (R.left reader) (put_back result.parts.held.items (R.left result.parts.reader)) result.parts.met_end
        (GivesLinesFrom begins (A.hearers audience.old) (A.hearers audience.new) keeping.entry.settings.form
        (W.taken writer.old) (W.taken writer.new))) }
    ensures was_ahead { WasAhead N.stand_for S.Store N.begun (R.left result.parts.reader) result.parts.held.items
        result.parts.met_end result.parts.fault result.parts.journal }
    ensures honest { IsHonestKept result.answer result.parts.fault
        (devices_at R.Source W.Sink result.parts.reader writer.new) result.parts.reads result.parts.met_end }
{
    let Keeping {
        settings,
        opened,
        gate,
        shortener,
    } = keeping;
    let Opened { journal, found } = opened;
    let mut source = KeptSource::<N, R, S, L>::new(alloc, reader, journal, shortener);
    let beginning = Beginning {
        settings,
        kept: found.into_lines(),
        gate,
    };
    let answer = run_again(rt, alloc, &mut source, writer, audience, beginning);
    let parts = source.into_parts();
    KeptRun {
        answer: fault_of(answer, parts.fault),
        parts,
    }
}

/// Takes the lines that a journal keeps, and then does what `run` of `clip_run` does, with each change kept ahead:
/// before the run is handed a line that asks for one, the line is in the journal, and synced. So of each change whose
/// reply was written no stop of the machine loses the line, and what is read back from the store is what a later run
/// goes on from.
///
/// A line that asks for a change is kept whether the change is accepted or not: taken again, it is refused again.
///
/// The devices are to be fresh, as for `run`. The reader and the journal are given back, with how the run ended:
/// `Journal` where a change was not kept, and so was not made; the other faults are those of `run`. After a fault the
/// journal has all changes whose lines the run was handed, and may have some more of those that were read.
///
/// Where the journal is long before a read, it is written anew with the lines that the shortener gives for all that it
/// keeps, put in place at once; where that can't be done, it goes on as it was.
///
/// Cost: that of `run_again`, and for each line the reading of its JSON value once more; for each change the digest of
/// its line, and one sync for all changes of up to 64 KiB that are read at once. Memory: one line and 64 KiB more, and
/// for each id that changes registered since the journal was written anew its hash. Where it is written anew also the
/// time and memory of reading it back and of the shortener: as there are more than twice as many changes since as
/// there are queries, that is a fixed part for each change.
pub fn run_kept<
    H: Threads + Wait + Sync,
    R: Source,
    S: Store,
    W: Sink,
    A: Audience,
    G: Gate + Clone + Send + 'static,
    L: Shortener,
>(
    rt: &H,
    alloc: Global,
    reader: R,
    writer: &mut W,
    audience: &mut A,
    keeping: Keeping<'_, S, G, L>,
) -> KeptRun<R, S>
    requires fresh { AreFresh (devices_at R.Source W.Sink reader writer.old) }
    requires workers { keeping.settings.workers ≤ MOST_WORKERS }
    requires stands { Stands S.seen S.may_leave keeping.opened.journal (kept_of keeping.opened.found)
        (length (kept_of keeping.opened.found).since) }

    // The kept lines lead to a history, and after it all is as `run` says of its input: what was written and flushed is
    // the reply text, and each listener has heard just its own alerts.
    ensures outcome { IfOk result.answer (λ ended. OfKept (names_in (A.hearers audience.old))
        (kept_lines keeping.entry.opened.found) (λ begins. OfInput (R.left reader)
        (GivesAllFrom begins (A.hearers audience.old) (A.hearers audience.new) keeping.entry.settings
        (W.taken writer.old) (W.taken writer.new) ended.lines ended.ledger))) }

    // At a good end the journal stands with the changes of all lines of the input, synced, written anew or not.
    ensures kept { OnOk result.answer (OfInput (R.left reader) (λ input.
        HasKept (L.stand_for keeping.entry.shortener.now) S.Store
        (begun_with R.Source S.Store reader keeping.entry.opened) (lines_of input) result.parts.journal)) }

    // After a fault what was written and heard is a front of what the lines give that the run was handed, after that
    // history.
    ensures front { OnErr result.answer (OfKept (names_in (A.hearers audience.old))
        (kept_lines keeping.entry.opened.found) (λ begins.
        OfLinesRead (R.left reader) (put_back result.parts.held.items (R.left result.parts.reader)) result.parts.met_end
        (GivesFrontFrom begins (A.hearers audience.old) (A.hearers audience.new) keeping.entry.settings.form
        (W.taken writer.old) (W.taken writer.new)))) }

    // Where a read failed, or the journal did not take a change, each line that the run was handed whole is answered:
    // its reply is written and flushed, and its alerts are told, after that history. Any read may fail, so whenever the
    // run asks for more bytes nothing is held back.
    ensures none_held { FailsToRead result.answer → (W.is_flushed writer.new ≡ true)
        × OfKept (names_in (A.hearers audience.old)) (kept_lines keeping.entry.opened.found) (λ begins.
        OfLinesRead (R.left reader) (put_back result.parts.held.items (R.left result.parts.reader)) result.parts.met_end
        (GivesLinesFrom begins (A.hearers audience.old) (A.hearers audience.new) keeping.entry.settings.form
        (W.taken writer.old) (W.taken writer.new))) }

    // At every end what a stop leaves is read back as what was kept and a front of the changes of the lines that were
    // read, written anew or not, with all changes of the lines that the run was handed; and at each moment since the
    // beginning a stop left so what was kept and a front of these changes.
    ensures was_ahead { WasAhead (L.stand_for keeping.entry.shortener.now) S.Store
        (begun_with R.Source S.Store reader keeping.entry.opened) (R.left result.parts.reader) result.parts.held.items
        result.parts.met_end result.parts.fault result.parts.journal }

    // What was written was flushed and nothing has failed, where the run ended well, and each fault has its reason.
    ensures honest { IsHonestKept result.answer result.parts.fault
        (devices_at R.Source W.Sink result.parts.reader writer.new) result.parts.reads result.parts.met_end }
{
    run_named::<Brand, _, _, _, _, _, _, _>(rt, alloc, reader, writer, audience, keeping)
}
