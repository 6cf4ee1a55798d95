//! The run with workers.
ghost use Rattle.std.specs.Prelude.{◌≡◌, ◌≤◌, [], map, true, Err, IfOk, OnErr};
ghost use Rattle.std.specs.Thread.{IsSync, IsSend};
ghost use Rattle.clip_stream.specs.Lines.{OfInput, OfLinesRead};
ghost use Rattle.clip_desk.specs.Updates.{all_heard};
ghost use Rattle.clip_front.specs.Devices.{AreFresh, IsHonest, devices_at};
ghost use Rattle.clip_front.specs.Outcome.{GivesAll, GivesAllFrom, GivesFront, GivesFrontFrom, GivesLines};
ghost use Rattle.clip_front.specs.Outcome.{GivesLinesFrom, OfKept, names_in};
ghost use Rattle.clip_run.specs.Crews.{IsNew};
ghost use Rattle.clip_run.specs.Ran.{Ran, RanAgain, RanToEnd, told};
ghost use Rattle.clip_run.specs.Seated.{IsOnlyNew};

use crate::alone::run_alone_again;
use crate::caller::Caller;
use crate::crew::Crew;
use crate::desk::{Desk, DeskParts, Seat};
use crate::serving::serve_crew;
use clip_desk::{DeskName, Nudge, UpdateListeners};
use clip_front::{Ended, Settings, take_kept};
use clip_listen::Audience;
use clip_match::Gate;
use clip_stream::{MOST_WORKERS, RunFault, Sink, Source};
use clip_words::NoMemory;
use crossbeam_channel::{Sender, unbounded};
use std::alloc::Global;
use std::marker::Brand;
use std::sync::Wait;
use std::thread::{Threads, join_mut};

/// The tag of the desk of a run.
const TAG: u64 = 1;

/// What a run begins with that goes on from an earlier one.
#[derive(Drop)]
pub struct Beginning<'g, G> {
    /// How the run replies, what it is to do beside that, and by how many workers.
    pub settings: Settings,
    /// Lines that earlier runs took, in their order. Lines that change nothing may be left out.
    pub kept: Vec<Vec<u8>>,
    /// What matches pass, as in `run`.
    pub gate: &'g G,
}

/// Answers the lines, joins the helpers, and tells the merging thread to stop.
fn serve_and_stop<
    R: Threads + Wait + Sync,
    N: DeskName,
    S: Source,
    W: Sink,
    A: Audience,
    G: Gate + Clone + Send + 'static,
>(
    alloc: Global,
    reader: &mut S,
    writer: &mut W,
    audience: &mut A,
    crew: &mut Crew<'_, '_, '_, R, N, G>,
) -> Result<u64, RunFault>
    requires fresh { AreFresh (devices_at S.Source W.Sink reader.old writer.old) }
    requires begins { IsNew crew.old }
    ensures { Ran crew.old.history (λ lines. lines) (λ lines. crew.new.rows) crew.old.settings
        (told S.Source W.Sink A.Audience reader.old writer.old audience.old)
        (told S.Source W.Sink A.Audience reader.new writer.new audience.new)
        result }
{
    let answer = serve_crew(alloc, reader, writer, audience, crew);
    crew.stop();
    answer
}

/// The crew, which tells a merging thread of each change from now on.
fn telling_crew<'a, R: Threads + Wait + Sync, N: DeskName, G: Gate + Clone + Send + 'static>(
    crew: Crew<'a, 'a, 'a, R, N, G>,
    nudges: Sender<Nudge>,
) -> Crew<'a, 'a, 'a, R, N, G>
    ensures { result ≡ crew.entry }
{
    crew.with_merging_thread(nudges)
}

/// Answers the lines by a crew, while another thread merges.
fn run_crew<
    R: Threads + Wait + Sync,
    N: DeskName + Send + Sync,
    S: Source,
    W: Sink,
    A: Audience,
    G: Gate + Clone + Send + 'static,
>(
    rt: &R,
    reader: &mut S,
    writer: &mut W,
    audience: &mut A,
    desk: &Desk<N>,
    crew: Crew<'_, '_, '_, R, N, G>,
) -> Result<Ended, RunFault>
    requires fresh { AreFresh (devices_at S.Source W.Sink reader.old writer.old) }
    requires begins { IsNew crew }
    ensures { RanToEnd crew.entry.history crew.entry.settings
        (told S.Source W.Sink A.Audience reader.old writer.old audience.old)
        (told S.Source W.Sink A.Audience reader.new writer.new audience.new)
        result }
{
    let alloc = crew.allocator();
    let (nudges, nudged) = unbounded(alloc)?;
    let mut telling = telling_crew(crew, nudges);
    let (_, lines) = join_mut(
        rt,
        &mut || desk.serve_merges(rt, &nudged),
        &mut || -> Result<u64, RunFault>
            requires sent { IsSync R.row × IsSync G.row × IsSend G.row }
            requires fresh { AreFresh (devices_at S.Source W.Sink reader.now writer.now) }
            requires begins { IsNew telling }
            ensures { Ran telling.entry.history (λ lines. lines) (λ lines. telling.exit.rows) telling.entry.settings
                (told S.Source W.Sink A.Audience reader.entry.now writer.entry.now audience.entry.now)
                (told S.Source W.Sink A.Audience reader.exit.now writer.exit.now audience.exit.now)
                result }
        { serve_and_stop(alloc, reader, writer, audience, &mut telling) },
    );
    Ok(Ended {
        lines: lines?,
        ledger: telling.into_ledger(),
    })
}

/// A run with workers that is to begin: what it starts threads by, what it takes memory from, and what it begins with.
#[derive(Drop)]
struct Job<'r, 'g, R, G> {
    rt: &'r R,
    alloc: Global,
    beginning: Beginning<'g, G>,
}

/// Takes the kept lines as the only caller at a desk, which merges by itself meanwhile, and answers those of the
/// reader then.
fn run_seated<
    R: Threads + Wait + Sync,
    N: DeskName + Send + Sync,
    S: Source,
    W: Sink,
    A: Audience,
    G: Gate + Clone + Send + 'static,
>(
    job: Job<'_, '_, R, G>,
    reader: &mut S,
    writer: &mut W,
    audience: &mut A,
    desk: &Desk<N>,
    seat: Seat,
) -> Result<Ended, RunFault>
    requires fresh { AreFresh (devices_at S.Source W.Sink reader.old writer.old) }
    requires only { IsOnlyNew N.book N.callers desk.now seat }
    ensures { RanAgain (map (λ line. line.items) job.entry.beginning.kept.items) job.entry.beginning.settings
        (told S.Source W.Sink A.Audience reader.old writer.old audience.old)
        (told S.Source W.Sink A.Audience reader.new writer.new audience.new)
        result }
{
    let Job {
        rt,
        alloc,
        beginning,
    } = job;
    let Beginning {
        settings,
        kept,
        gate,
    } = beginning;
    let mut caller = Caller::new(rt, desk, seat);
    take_kept(alloc, &mut caller, audience, kept)?;
    let crew = Crew::new(alloc, gate, caller, settings);
    run_crew(rt, reader, writer, audience, desk, crew)
}

/// The parts of a desk of one caller, without listeners.
fn parts_of_one<R: Wait>(rt: &R, alloc: Global) -> Result<DeskParts, NoMemory>
    ensures { IfOk result (λ parts. (parts.tag ≡ TAG) × (parts.callers ≡ 1)) }
{
    let Ok(updates) = UpdateListeners::new(alloc, Vec::new(alloc)) else {
        return Err(NoMemory);
    };
    match DeskParts::without_history(rt, alloc, TAG, 1, updates) {
        Ok(parts) => Ok(parts),
        Err(_) => Err(NoMemory),
    }
}

/// Answers the lines at a desk of these parts.
fn run_desk<
    N: DeskName + Send + Sync,
    R: Threads + Wait + Sync,
    S: Source,
    W: Sink,
    A: Audience,
    G: Gate + Clone + Send + 'static,
>(
    job: Job<'_, '_, R, G>,
    reader: &mut S,
    writer: &mut W,
    audience: &mut A,
    parts: DeskParts,
) -> Result<Ended, RunFault>
    requires fresh { AreFresh (devices_at S.Source W.Sink reader.old writer.old) }
    requires named { (parts.book ≡ N.book) × (parts.callers ≡ N.callers) × (N.heard_before ≡ all_heard parts.updates)
        × (parts.keeps ≡ N.keeps) }
    requires one { parts.callers ≡ 1 }
    ensures { RanAgain (map (λ line. line.items) job.entry.beginning.kept.items) job.entry.beginning.settings
        (told S.Source W.Sink A.Audience reader.old writer.old audience.old)
        (told S.Source W.Sink A.Audience reader.new writer.new audience.new)
        result }
{
    let rt = job.rt;
    let (desk, mut seats) = Desk::<N>::open(parts);
    let Some(seat) = seats.pop() else {
        unreachable!();
    };
    let answer = run_seated(job, reader, writer, audience, &desk, seat);
    desk.end(rt);
    answer
}

/// Reads requests, a JSON object a line, and writes the replies in the order of the lines. Each alert of a match is
/// told to the listener of its query, whose note stands in the reply. `Listeners` are an audience.
///
/// With workers, the articles of match lines that stand read, of up to 32 at a time, are shared out one by one among
/// the thread that calls this and helpers, each at the registry that the lines before its own leave; another thread
/// merges after each accepted change. So few articles that they are matched before a helper comes have none. Whatever
/// order these take, the replies, what is heard and the ledger are those of `run_alone`, which does it all with 0
/// workers. Alerts are told and replies written on the thread that calls this, in the order of the lines.
///
/// Before it asks the reader for more bytes, each line that was read whole is answered, and the replies are written and
/// flushed: a client that waits for a reply before it sends its next line gets it. At the end, and after a fault, each
/// thread that it started has ended.
///
/// The devices are to be fresh: nothing was read yet, the reader has not met its end, and no call of it or of the
/// writer has failed.
///
/// After `Ok` what was written was flushed, and no call of the reader or the writer has failed. `Read` where a read
/// failed, or 1,099,511,627,776 reads met no end, more than which are never made; `Write` where a write or a flush
/// failed, or a write took nothing; `NoMemory` where an allocation failed outside of a merge, a listener answers it, or
/// the desk's call does. After a fault nothing more is written, and no more is delivered.
///
/// Cost: that of `run_alone`, of which matches and merges are shared among threads; for 32 match lines or fewer the
/// start of as many threads as there are workers but one; and for each change a view. Memory: that of `run_alone`, with
/// up to 32 batches, some 16 MiB of what was found of them and an article for each thread more, the text that one
/// article has in a reply, and the replies to the other lines that wait among them. What was found of an article is let
/// go once its part of the reply is put, so the reply to a line of many articles is not held.
pub fn run<
    R: Threads + Wait + Sync,
    S: Source,
    W: Sink,
    A: Audience,
    G: Gate + Clone + Send + 'static,
>(
    rt: &R,
    alloc: Global,
    reader: &mut S,
    writer: &mut W,
    audience: &mut A,
    settings: Settings,
    gate: &G,
) -> Result<Ended, RunFault>
    requires fresh { AreFresh (devices_at S.Source W.Sink reader.old writer.old) }
    requires workers { settings.workers ≤ MOST_WORKERS }

    // What was written and flushed is the reply text of the input, each listener has heard just its own alerts, in
    // order, the ledger has a row for each alert, or none where none are kept, and the lines are counted. Where the
    // reader doesn't tell its bytes, there is some input of which this holds.
    ensures outcome { IfOk result (λ ended. OfInput (S.left reader.old)
        (GivesAll (A.hearers audience.old) (A.hearers audience.new) settings
        (W.taken writer.old) (W.taken writer.new) ended.lines ended.ledger)) }

    // What was written was flushed and no device has failed, where the run ended well, and each fault has its reason.
    ensures honest { IsHonest result (devices_at S.Source W.Sink reader.new writer.new) }

    // After a fault, what was written and heard is a front of what the lines give that were read: the first of the
    // input, or of some input, where the reader doesn't tell its bytes.
    ensures front { OnErr result (OfLinesRead (S.left reader.old) (S.left reader.new) (S.met_end reader.new)
        (GivesFront (A.hearers audience.old) (A.hearers audience.new) settings.form
        (W.taken writer.old) (W.taken writer.new))) }

    // Where a read failed, each line that was read whole is answered: its reply is written and flushed, and its alerts
    // are told. Any read may fail, so whenever the reader is asked nothing is held back.
    ensures none_held { result ≡ Err RunFault.Read → (W.is_flushed writer.new ≡ true)
        × OfLinesRead (S.left reader.old) (S.left reader.new) (S.met_end reader.new)
        (GivesLines (A.hearers audience.old) (A.hearers audience.new) settings.form
        (W.taken writer.old) (W.taken writer.new)) }
{
    let beginning = Beginning {
        settings,
        kept: Vec::new(alloc),
        gate,
    };
    run_again(rt, alloc, reader, writer, audience, beginning)
}

/// Takes lines that earlier runs kept, and then does what `run` does: the first line of the reader is line 1, and it
/// comes after all that the kept lines changed.
///
/// Each kept line is taken as a request, with nobody answered, no alert told and no line counted. A change that was
/// accepted is accepted again. A line that is refused, or asks for no change, leaves what is registered: so lines may
/// be kept before they are answered. The audience is to have the listeners that it had when a query was registered:
/// one whose listener is not here is refused. Each line is let go once it is taken.
///
/// The devices are to be fresh, as for `run`. The faults are those of `run`, and `NoMemory` where the taking of a kept
/// line answers it: then no line was read, and nothing was written. Cost: that of `run`, and for each kept line that of
/// answering it with 0 workers; with workers also a view.
pub fn run_again<
    R: Threads + Wait + Sync,
    S: Source,
    W: Sink,
    A: Audience,
    G: Gate + Clone + Send + 'static,
>(
    rt: &R,
    alloc: Global,
    reader: &mut S,
    writer: &mut W,
    audience: &mut A,
    beginning: Beginning<'_, G>,
) -> Result<Ended, RunFault>
    requires fresh { AreFresh (devices_at S.Source W.Sink reader.old writer.old) }
    requires workers { beginning.settings.workers ≤ MOST_WORKERS }

    // The kept lines lead to a history, to just one, and after it all is as `run` says of its input: what was written
    // and flushed is the reply text, each listener has heard just its own alerts, in order, the ledger has a row for
    // each alert, or none where none are kept, and the lines are counted.
    ensures outcome { IfOk result (λ ended. OfKept (names_in (A.hearers audience.old))
        (map (λ line. line.items) beginning.entry.kept.items) (λ begins. OfInput (S.left reader.old)
        (GivesAllFrom begins (A.hearers audience.old) (A.hearers audience.new) beginning.entry.settings
        (W.taken writer.old) (W.taken writer.new) ended.lines ended.ledger))) }

    // What was written was flushed and no device has failed, where the run ended well, and each fault has its reason.
    ensures honest { IsHonest result (devices_at S.Source W.Sink reader.new writer.new) }

    // After a fault, what was written and heard is a front of what the lines give that were read, after that history.
    ensures front { OnErr result (OfKept (names_in (A.hearers audience.old))
        (map (λ line. line.items) beginning.entry.kept.items) (λ begins.
        OfLinesRead (S.left reader.old) (S.left reader.new) (S.met_end reader.new)
        (GivesFrontFrom begins (A.hearers audience.old) (A.hearers audience.new) beginning.entry.settings.form
        (W.taken writer.old) (W.taken writer.new)))) }

    // Where a read failed, each line that was read whole is answered: its reply is written and flushed, and its alerts
    // are told, after that history. Any read may fail, so whenever the reader is asked nothing is held back.
    ensures none_held { result ≡ Err RunFault.Read → (W.is_flushed writer.new ≡ true)
        × OfKept (names_in (A.hearers audience.old)) (map (λ line. line.items) beginning.entry.kept.items) (λ begins.
        OfLinesRead (S.left reader.old) (S.left reader.new) (S.met_end reader.new)
        (GivesLinesFrom begins (A.hearers audience.old) (A.hearers audience.new) beginning.entry.settings.form
        (W.taken writer.old) (W.taken writer.new))) }
{
    if beginning.settings.workers == 0 {
        let Beginning { settings, kept, .. } = beginning;
        return run_alone_again(alloc, reader, writer, audience, settings, kept);
    }
    let parts = parts_of_one(rt, alloc)?;
    let job = Job {
        rt,
        alloc,
        beginning,
    };
    run_desk::<Brand, _, _, _, _, _>(job, reader, writer, audience, parts)
}
