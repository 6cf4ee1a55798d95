//! A run on one thread: a registrar of its own, its books, and merge turns between the lines.
ghost use Rattle.std.specs.Prelude.{◌≡◌, map, true, Err, IfOk, OnErr};
ghost use Rattle.clip_stream.specs.Lines.{OfInput, OfLinesRead};
ghost use Rattle.clip_front.specs.Devices.{AreFresh, IsHonest, devices_at};
ghost use Rattle.clip_front.specs.Outcome.{GivesAll, GivesFront, GivesLines};
ghost use Rattle.clip_run.specs.Ran.{RanAgain, told};

use crate::batch::Batch;
use crate::giver::Giver;
use crate::own_registrar::OwnRegistrar;
use clip_front::{Ended, Server, Settings, Step, serve, take_kept, take_line};
use clip_listen::Audience;
use clip_match::OpenGate;
use clip_registry::Payment;
use clip_stream::{Flow, RunFault, Sink, Source};
use std::alloc::Global;

/// How many entries one segment may have that matched articles have paid for: more are rewritten by the turns after a
/// change alone, since nothing is answered meanwhile.
const MOST_PAID: usize = 1_048_576;

/// The registry of a run, what its articles have paid towards one segment, and what gives batches. They answer
/// requests, with an audience to which alerts are told.
#[derive(Drop)]
struct RunServer<'g> {
    registry: OwnRegistrar,
    payment: Payment,
    giver: Giver<'g, OpenGate>,
}

impl<A: Audience, W: Sink> Server<A, W> for RunServer<'_> {
    ghost use Rattle.std.specs.Prelude.{⊤};
    ghost use Rattle.clip_front.specs.Steps.Answers.{BreaksIn};
    ghost use Rattle.clip_run.specs.RunServer.{AnswersAlone, held_at};

    ghost answers = { AnswersAlone A.hearers };

    ghost breaks_off = { BreaksIn (held_at A.hearers) };

    ghost is_settled = { λ s. ⊤ };

    fn answer(
        &mut self,
        audience: &mut A,
        flow: &mut Flow<'_, W>,
        number: u64,
        bytes: &[u8],
        _has_more: bool,
    ) -> Result<(), RunFault> {
        let alloc = self.giver.alloc;
        match take_line(alloc, &mut self.registry, audience, number, bytes)? {
            Step::Reply(text) => flow.put(&text),
            Step::Match(drafts) => {
                self.registry.merge_paid(&mut self.payment, drafts.len());
                let view = self.registry.registrar.view()?;
                let batch = Batch {
                    number,
                    batch: 0,
                    view,
                    drafts,
                };
                let mut none = Vec::new(alloc);
                self.giver
                    .settle_batch(audience, 0, &batch, &mut none, flow)
            }
        }
    }
}

/// Reads requests, a JSON object a line, and writes the replies in the order of the lines, all on the thread that calls
/// it. Each alert of a match is told to the listener of its query, whose note stands in the reply. `Listeners` are an
/// audience.
///
/// Before it asks the reader for more bytes, each reply to a line that was read whole is written and flushed; between
/// two reads the replies are gathered, so that the writer gets few writes. Each line is answered by the registry that
/// the lines before it leave. A match is answered article by article: the alerts of each are delivered before its part
/// of the reply is written, and that before the next is matched, so no reply is held whole.
///
/// After each accepted change merge turns are taken until there is nothing to merge: the oldest four neighbouring
/// segments of one level become one, or, where there are no such four, all from the oldest on behind which one has a
/// higher level. Then there are three segments at most for each level up to that of all their entries together. Where a
/// turn is refused memory, the turns after the next change merge again. What is registered stays as it is. Each matched
/// article pays for the segments in which it is looked up beside the oldest (`Payment::is_due`); before the line by
/// which that is as much as all entries, up to 1,048,576, all segments become one.
///
/// The devices are to be fresh: nothing was read yet, the reader has not met its end, and no call of it or of the
/// writer has failed.
///
/// After `Ok` what was written was flushed, and no call of the reader or the writer has failed. `Read` where a read
/// failed, or 1,099,511,627,776 reads met no end, more than which are never made; `Write` where a write or a flush
/// failed, or a write took nothing; `NoMemory` where an allocation failed outside of a merge turn, or a listener
/// answers it. After a fault nothing more is written, and no more is delivered.
///
/// Cost: a register reads each query that it lists, looks its listener's name up, extracts its keys and searches the
/// ids for its own; a delete searches the ids for each that it lists. A merge turn takes a step for each segment and,
/// where there are some to merge, a look-up for each key of each of their entries. While no query is replaced or
/// taken out, an entry is rewritten at most once for each level that it rises, and once more, so at most about log4 n
/// times where n queries are registered; a merge that leaves dead entries out may stay at its level. A purge takes a
/// step for each entry, and rewrites the segments that have a dead one. A match costs for each article its words, a
/// look-up of its keys in each segment, and its candidates, and not the registry, and for each alert with a listener a
/// look-up of the name and what that listener takes. Memory: one line and what it asks for, up to 64 KiB of gathered
/// replies and a piece of 64 ids or hits more, the alerts of one article and the notes of one line, the registered
/// queries, and those that no merge or purge has left out yet, with their index, and a row for each alert where rows
/// are kept.
pub fn run_alone<R: Source, W: Sink, A: Audience>(
    alloc: Global,
    reader: &mut R,
    writer: &mut W,
    audience: &mut A,
    settings: Settings,
) -> Result<Ended, RunFault>
    requires fresh { AreFresh (devices_at R.Source W.Sink reader.old writer.old) }

    // What was written and flushed is the reply text of the input, each listener has heard just its own alerts, in
    // order, the ledger has a row for each alert, or none where none are kept, and the lines are counted. Where the
    // reader doesn't tell its bytes, there is some input of which this holds.
    ensures outcome { IfOk result (λ ended. OfInput (R.left reader.old)
        (GivesAll (A.hearers audience.old) (A.hearers audience.new) settings
        (W.taken writer.old) (W.taken writer.new) ended.lines ended.ledger)) }

    // What was written was flushed and no device has failed, where the run ended well, and each fault has its reason.
    ensures honest { IsHonest result (devices_at R.Source W.Sink reader.new writer.new) }

    // After a fault, what was written and heard is a front of what the lines give that were read: the first of the
    // input, or of some input, where the reader doesn't tell its bytes.
    ensures front { OnErr result (OfLinesRead (R.left reader.old) (R.left reader.new) (R.met_end reader.new)
        (GivesFront (A.hearers audience.old) (A.hearers audience.new) settings.form
        (W.taken writer.old) (W.taken writer.new))) }

    // Where a read failed, each line that was read whole is answered: its reply is written and flushed, and its alerts
    // are told. Any read may fail, so whenever the reader is asked nothing is held back.
    ensures none_held { result ≡ Err RunFault.Read → (W.is_flushed writer.new ≡ true)
        × OfLinesRead (R.left reader.old) (R.left reader.new) (R.met_end reader.new)
        (GivesLines (A.hearers audience.old) (A.hearers audience.new) settings.form
        (W.taken writer.old) (W.taken writer.new)) }
{
    run_alone_again(alloc, reader, writer, audience, settings, Vec::new(alloc))
}

/// Takes lines that were kept, with nobody answered, and answers those of the reader then, as `run_alone` does.
///
/// `NoMemory` also where the taking answers it. Cost: that of `take_kept`, and of `run_alone`.
pub fn run_alone_again<R: Source, W: Sink, A: Audience>(
    alloc: Global,
    reader: &mut R,
    writer: &mut W,
    audience: &mut A,
    settings: Settings,
    kept: Vec<Vec<u8>>,
) -> Result<Ended, RunFault>
    requires fresh { AreFresh (devices_at R.Source W.Sink reader.old writer.old) }
    ensures { RanAgain (map (λ line. line.items) kept.items) settings
        (told R.Source W.Sink A.Audience reader.old writer.old audience.old)
        (told R.Source W.Sink A.Audience reader.new writer.new audience.new)
        result }
{
    let gate = OpenGate;
    let mut server = RunServer {
        registry: OwnRegistrar::new(alloc),
        payment: Payment::towards(MOST_PAID),
        giver: Giver::new(alloc, &gate, settings),
    };
    take_kept(alloc, &mut server.registry, audience, kept)?;
    let lines = serve(alloc, reader, writer, audience, &mut server)?;
    Ok(Ended {
        lines,
        ledger: server.giver.into_ledger(),
    })
}
