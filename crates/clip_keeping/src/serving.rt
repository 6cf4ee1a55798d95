//! The run over a store.
ghost use Rattle.std.specs.Prelude.{◌≡◌, ◌≤◌, OnOk, IfSome};
ghost use Rattle.clip_front.specs.Devices.{AreFresh, devices_at};
ghost use Rattle.clip_front.specs.Outcome.{OfKept, names_in};
ghost use Rattle.clip_keeping.specs.Live.{AreLive};
ghost use Rattle.clip_keeping.specs.Serving.{GivesAllOver, IsKept};
ghost use Rattle.clip_keeping.specs.Statuses.{outcome_of};

use crate::fault::{Fault, fault_of_run};
use crate::opening::{changes_in, open_short};
use crate::shortening::Shortening;
use clip_ahead::KeptParts;
use clip_journal::Store;
use clip_kept::{Keeping, KeptFault, KeptRun, run_kept};
use clip_listen::Audience;
use clip_run::{Ended, OpenGate, Settings};
use clip_stream::{MOST_WORKERS, Sink, Source};
use std::sync::Wait;
use std::thread::Threads;

/// What a run over a store is made of.
pub struct Serving<'b, S: Store, B: Audience> {
    /// What its journal is in.
    pub store: S,
    /// How it runs.
    pub settings: Settings,
    /// Listeners of the names that the run's have, which hear nothing: by them is told what is live where the journal
    /// is written anew.
    pub namesakes: &'b B,
}

/// What a run over a store leaves.
#[derive(Drop)]
pub struct Served<R: Source, S: Store> {
    /// Why it did not do what it was asked, where it did not.
    pub outcome: Result<(), Fault>,
    /// Its reader and its journal; nothing where the journal was not opened.
    pub parts: Option<KeptParts<R, S>>,
}

/// Whether a run ended well, and why it did not.
fn outcome_of(answer: Result<Ended, KeptFault>) -> Result<(), Fault>
    ensures { result ≡ outcome_of answer }
{
    match answer {
        Ok(_) => Ok(()),
        Err(fault) => Err(fault_of_run(fault)),
    }
}

/// Runs over the journal that a store has, by `run_kept`. Standard error is told how many changes are kept, and where
/// the journal is written anew while the run goes on.
///
/// The faults are those of `open_short` and of `run_kept`; the cost is theirs, and that of `live_lines` each time that
/// the journal is written anew.
pub fn serve_store<
    H: Eprint + Threads + Wait + Sync + AllocGlobal,
    R: Source + Drop,
    S: Store + Drop,
    W: Sink,
    A: Audience,
    B: Audience,
>(rt: &H, reader: R, writer: &mut W, audience: &mut A, serving: Serving<'_, S, B>) -> Served<R, S>
    requires fresh { AreFresh (devices_at R.Source W.Sink reader writer.old) }
    requires workers { serving.settings.workers ≤ MOST_WORKERS }
    ensures given { OnOk result.outcome (GivesAllOver (S.seen serving.entry.store) (A.hearers audience.old)
        (A.hearers audience.new) serving.entry.settings (R.left reader) (W.taken writer.old) (W.taken writer.new)) }

    // However it ended, what `run_kept` promises of its journal and its answer is so: it went on from what the store
    // had, and what a stop leaves is read back as that and a front of the changes that were read, with all that the
    // run was handed.
    ensures kept { IfSome result.parts (λ parts. IsKept R.Source S.Store
        (λ old new. OfKept (names_in (B.hearers serving.entry.namesakes.now)) old (λ begins. AreLive begins new))
        (names_in (A.hearers audience.old)) reader (S.seen serving.entry.store) result.outcome parts
        (devices_at R.Source W.Sink parts.reader writer.new)) }
{
    let alloc = rt.alloc();
    let Serving {
        store,
        settings,
        namesakes,
    } = serving;
    let opened = match open_short(alloc, audience, store) {
        Ok(opened) => opened,
        Err(fault) => {
            return Served {
                outcome: Err(fault),
                parts: None,
            };
        }
    };
    let changes = changes_in(&opened.found);
    let _ = eprintln!(rt; "pressclip-keep: {changes} changes are kept");
    let keeping = Keeping {
        settings,
        opened,
        gate: &OpenGate,
        shortener: &Shortening {
            rt,
            audience: namesakes,
        },
    };
    let KeptRun { answer, parts } = run_kept(rt, alloc, reader, writer, audience, keeping);
    Served {
        outcome: outcome_of(answer),
        parts: Some(parts),
    }
}
