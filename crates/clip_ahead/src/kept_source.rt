//! A reader that hands out bytes once the changes are kept for which they ask.
ghost use Rattle.std.specs.Prelude.{◌≡◌, ◌+◌, ◌<◌, ◌≤◌, ◌^◌, ◌||◌, ℕ, List, [], length, true, false};
ghost use Rattle.std.specs.Prelude.{OnOk, OnErr, IsErrOf, is_some};
ghost use Rattle.std.specs.Io.KnownBytes.{Consumes, IsAtEnd, Keeps};
ghost use Rattle.clip_ahead.specs.Ahead.{Begun, Appended};
ghost use Rattle.clip_ahead.specs.Handing.{put_back, WasAhead};

use crate::anew::Shortener;
use crate::keeper::Keeper;
use clip_journal::{Journal, JournalFault, Store};
use clip_stream::{Failed, Source};
use std::alloc::Global;
use std::marker::{Brand, Model, PhantomData};

/// How many bytes are read at once.
const CHUNK: usize = 65_536;

/// Names one run, in contracts only: with what it began, and how its journal may be written anew.
pub trait RunName {
    ghost use Rattle.std.specs.Prelude.{ℕ, List};
    ghost use Rattle.clip_ahead.specs.Ahead.{Begun};

    ghost begun: { Begun };

    /// Whether lines, the second, may stand for others in its journal.
    ghost stand_for: { List (List ℕ) → List (List ℕ) → Type 0 };
}

impl RunName for Brand {
    ghost use Rattle.std.specs.Prelude.{◌≡◌};
    ghost use Rattle.clip_ahead.specs.Ahead.{no_beginning};

    ghost begun = { no_beginning };

    ghost stand_for = { λ old new. new ≡ old };
}

/// A reader over another, and a journal. What it hands out is kept: the changes for which the lines ask that end in it
/// are in the journal, and synced.
///
/// Before a read the journal is written anew where it is long, with the lines that a shortener gives.
///
/// Once the journal has failed, or an allocation has, each read fails.
pub struct KeptSource<'l, N: RunName, R: Source, S: Store, L: Shortener> {
    reader: R,
    keeper: Keeper<S>,
    shortener: &'l L,
    held: Vec<u8>,
    reads: u64,
    met_end: bool,
    fault: Option<JournalFault>,
    of: PhantomData<N>,
}

impl<'l, N: RunName, R: Source, S: Store, L: Shortener> Model for KeptSource<'l, N, R, S, L> {
    ghost use Rattle.std.specs.Prelude.{◌≤◌, ◌||◌, ℕ, List, is_some};
    ghost use Rattle.clip_ahead.specs.Handing.{Handing, put_back};
    ghost use Rattle.clip_ahead.specs.Stages.{IsAheadAnew};

    ghost Value = { Handing };

    ghost view = { λ s. record {
      left = put_back s.held.items (R.left s.reader);
      has_failed = R.has_failed s.reader || is_some s.fault;
      reads = s.reads;
      met_end = s.met_end;
    } };

    ghost invariant = { λ s.
        IsAheadAnew N.stand_for S.Store N.begun (R.left s.reader) s.held.items s.keeper s.met_end s.fault
        × (R.reads s.reader ≤ s.reads)
        × ((old new : List (List ℕ)) → L.stand_for s.shortener.now old new → N.stand_for old new) };
}

/// Why bytes were not read.
enum Unread {
    /// The reader failed.
    Failed,
    /// An allocation failed.
    NoMemory,
}

/// Reads so many bytes at most.
fn read_some<R: Source>(reader: &mut R, held: &mut Vec<u8>, room: usize) -> Result<(), Unread>
    requires counted { R.reads reader.old < 2 ^ 63 }
    ensures short { OnOk result (length held.new.items ≤ room) }
    ensures given { OnOk result (Consumes (R.left reader.old) (R.left reader.new) held.new.items) }
    ensures ended { OnOk result (held.new.items ≡ [] → 0 < room → IsAtEnd (R.left reader.new)) }
    ensures none { OnErr result (held.new.items ≡ []) }
    ensures kept { OnErr result (Keeps (R.left reader.old) (R.left reader.new)) }
    ensures well { OnOk result (R.has_failed reader.new ≡ R.has_failed reader.old) }
    ensures failed { IsErrOf result Unread.Failed → R.has_failed reader.new ≡ true }
    ensures memory { IsErrOf result Unread.NoMemory → R.has_failed reader.new ≡ R.has_failed reader.old }
    ensures counted { R.reads reader.new ≤ R.reads reader.old + 1 }
{
    held.clear();
    if held.resize(room, 0).is_err() {
        held.clear();
        return Err(Unread::NoMemory);
    }
    match reader.read(held) {
        Ok(n) => {
            held.truncate(n);
            Ok(())
        }
        Err(Failed) => {
            held.clear();
            Err(Unread::Failed)
        }
    }
}

/// What is left of a reader and its journal.
#[derive(Drop)]
pub struct KeptParts<R: Source, S: Store> {
    /// The reader.
    pub reader: R,
    /// The bytes that were read and not handed out, since they were not kept.
    pub held: Vec<u8>,
    /// How often it was asked for bytes.
    pub reads: u64,
    /// Whether the end was handed out.
    pub met_end: bool,
    /// The journal.
    pub journal: Journal<S>,
    /// Why the journal took no more, where it did not.
    pub fault: Option<JournalFault>,
}

impl<'l, N: RunName, R: Source, S: Store, L: Shortener> KeptSource<'l, N, R, S, L> {
    /// A reader over another, of which nothing was read yet. Takes no memory.
    pub fn new(
        alloc: Global,
        reader: R,
        journal: Journal<S>,
        shortener: &'l L,
    ) -> KeptSource<'l, N, R, S, L>
        requires named { (old new : List (List ℕ)) → L.stand_for shortener.now old new → N.stand_for old new }
        requires appended { Appended S.Store N.begun [] [] journal }
        requires left { N.begun.left ≡ R.left reader }
        requires faults { N.begun.faults ≤ S.faults journal.store }
        requires unread { R.reads reader ≡ 0 }
        ensures left { result.left ≡ R.left reader }
        ensures well { result.has_failed ≡ R.has_failed reader }
        ensures fresh { (result.reads ≡ 0) × (result.met_end ≡ false) }
    {
        KeptSource {
            reader,
            keeper: Keeper::new(alloc, journal),
            shortener,
            held: Vec::new(alloc),
            reads: 0,
            met_end: false,
            fault: None,
            of: PhantomData,
        }
    }

    /// The reader and the journal, where no more is read. Constant time.
    pub fn into_parts(self) -> KeptParts<R, S>
        ensures left { self.entry.left ≡ put_back result.held.items (R.left result.reader) }
        ensures ended { self.entry.met_end ≡ result.met_end }
        ensures reads { (self.entry.reads ≡ result.reads) × (R.reads result.reader ≤ result.reads) }
        ensures failed { self.entry.has_failed ≡ (R.has_failed result.reader || is_some result.fault) }
        ensures was_ahead { WasAhead N.stand_for S.Store N.begun (R.left result.reader) result.held.items result.met_end
            result.fault result.journal }
    {
        let KeptSource {
            reader,
            keeper,
            shortener: _,
            held,
            reads,
            met_end,
            fault,
            of: _,
        } = self;
        KeptParts {
            reader,
            held,
            reads,
            met_end,
            journal: keeper.into_journal(),
            fault,
        }
    }
}

impl<N: RunName, R: Source, S: Store, L: Shortener> Source for KeptSource<'_, N, R, S, L> {
    ghost left = { λ s. s.left };

    ghost has_failed = { λ s. s.has_failed };

    ghost reads = { λ s. s.reads };

    ghost met_end = { λ s. s.met_end };

    /// Bytes of the reader, each of whose changes is synced. `Failed` where the reader or the journal failed, or an
    /// allocation did: no byte is lost then.
    fn read(&mut self, buffer: &mut [u8]) -> Result<usize, Failed> {
        self.reads += 1;
        if self.fault.is_some() {
            return Err(Failed);
        }
        if self.met_end || buffer.is_empty() {
            return Ok(0);
        }
        if let Err(why) = self.keeper.shorten::<N, L>(self.shortener) {
            self.fault = Some(why);
            return Err(Failed);
        }
        let room = buffer.len().min(CHUNK);
        match read_some(&mut self.reader, &mut self.held, room) {
            Ok(()) => {}
            Err(Unread::Failed) => return Err(Failed),
            Err(Unread::NoMemory) => {
                self.fault = Some(JournalFault::NoMemory);
                return Err(Failed);
            }
        }
        if let Err(fault) = self.keeper.take(&self.held) {
            self.fault = Some(fault);
            return Err(Failed);
        }
        let n = self.held.len();
        buffer[..n].copy_from_slice(&self.held);
        self.held.clear();
        self.met_end = n == 0;
        Ok(n)
    }
}
