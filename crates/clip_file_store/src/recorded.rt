//! A store over a backing, by the record of its calls.
ghost use Rattle.std.specs.Prelude.{◌≡◌, reverse};
ghost use Rattle.std.specs.Option.{ForSome};
ghost use Rattle.clip_file_store.specs.Calls.{content, all_of};

use crate::backing::{Backing, Failed};
use crate::told::Told;
use clip_journal::{Store, StoreFault};
use http_server::Log;
use std::alloc::Global;

/// A store over a backing. What it has is said by contracts from what became of its calls, each of which is recorded
/// for proofs alone.
///
/// Once a call has failed, each later one fails. What the backing had as it was opened, or as all of it was put in place,
/// is held, and can be read, until the next call that is no read; later it is read by opening it again.
#[derive(Drop)]
pub struct Recorded<B: Backing> {
    alloc: Global,
    backing: B,
    first: Option<Vec<u8>>,
    is_broken: bool,
    told: Log<Vec<u8>, Told>,
    ghost first_is: { ForSome first (λ bytes. bytes.items ≡ all_of (content (reverse told.items))) },
}

impl<B: Backing> Recorded<B> {
    ghost use Rattle.std.specs.Prelude.{◌≡◌, ℕ, ◌∷◌, reverse, Vec};
    ghost use Rattle.std.specs.declared.alloc.Global.{Global};
    ghost use Rattle.clip_journal.specs.Stop.{Only};

    /// The store over a backing that has these bytes, all of them synced. Takes no memory.
    pub fn over(alloc: Global, backing: B, bytes: Vec<u8>) -> Recorded<B>
        ensures seen { ⟦<Recorded<B> as Store>⟧.seen result ≡ bytes.items }
        ensures durable { Only bytes.items (⟦<Recorded<B> as Store>⟧.may_leave result) }
    {
        let told = Log::new().and(&bytes, &Told::Put);
        Recorded {
            alloc,
            backing,
            first: Some(bytes),
            is_broken: false,
            told,
        }
    }

    /// The backing, where the store is not needed any more. Constant time.
    pub fn into_backing(self) -> B
        ensures { result ≡ self.backing }
    {
        let Recorded { backing, .. } = self;
        backing
    }

    /// Records what became of a call, and holds no bytes any more.
    fn record(&mut self, bytes: &Vec<u8>, told: Told)
        ensures { reverse self.new.told.items ≡ (bytes.now, told) ∷ reverse self.old.told.items }
    {
        self.first = None;
        self.is_broken = self.is_broken
            || matches!(told, Told::CutOff | Told::Tried | Told::Failed);
        self.told = self.told.and(bytes, &told);
    }

    /// Fails, and records it.
    fn fail(&mut self) -> StoreFault
        ensures why { result ≡ StoreFault.Failed }
        ensures recorded { (none : Vec ℕ Global)
            × (reverse self.new.told.items ≡ (none, Told.Failed) ∷ reverse self.old.told.items) }
    {
        let none = Vec::new(self.alloc);
        self.record(&none, Told::Failed);
        StoreFault::Failed
    }
}

impl<B: Backing> Store for Recorded<B> {
    ghost use Rattle.std.specs.Prelude.{reverse, length};
    ghost use Rattle.clip_file_store.specs.Calls.{content, all_of, MayLeave, LeftSince, failed, now_counts, now_only};

    ghost seen = { λ s. all_of (content (reverse s.told.items)) };

    ghost may_leave = { λ s. MayLeave (content (reverse s.told.items)) };

    ghost moment = { λ s. length (reverse s.told.items) };

    ghost left_since = { λ s. LeftSince (reverse s.told.items) };

    ghost faults = { λ s. failed (reverse s.told.items) };

    /// What the backing has; `Failed` where that is not held any more.
    fn read(&mut self, alloc: Global) -> Result<Vec<u8>, StoreFault> {
        let Some(first) = &self.first else {
            return Err(self.fail());
        };
        match Vec::from_slice(alloc, first) {
            Ok(bytes) => Ok(bytes),
            Err(_) => Err(StoreFault::NoMemory),
        }
    }

    fn read_again(&self, alloc: Global) -> Result<Vec<u8>, StoreFault> {
        match self.backing.read(alloc) {
            Ok(bytes) => Ok(bytes),
            Err(Failed) => Err(StoreFault::Failed),
        }
    }

    fn append(&mut self, bytes: &[u8]) -> Result<(), StoreFault> {
        if self.is_broken {
            return Err(self.fail());
        }
        let Ok(said) = Vec::from_slice(self.alloc, bytes) else {
            return Err(StoreFault::NoMemory);
        };
        if let Err(Failed) = self.backing.append(bytes) {
            self.record(&said, Told::CutOff);
            return Err(StoreFault::Failed);
        }
        self.record(&said, Told::Added);
        Ok(())
    }

    fn sync(&mut self) -> Result<(), StoreFault> {
        if self.is_broken {
            return Err(self.fail());
        }
        if let Err(Failed) = self.backing.sync() {
            return Err(self.fail());
        }
        let none = Vec::new(self.alloc);
        self.record(&none, Told::Synced);
        Ok(())
    }

    fn put_in_place(&mut self, bytes: &[u8]) -> Result<(), StoreFault> {
        if self.is_broken {
            return Err(self.fail());
        }
        let Ok(said) = Vec::from_slice(self.alloc, bytes) else {
            return Err(StoreFault::NoMemory);
        };
        if let Err(Failed) = self.backing.put_beside(bytes) {
            return Err(StoreFault::Unwritten);
        }
        if let Err(Failed) = self.backing.put_in_place() {
            self.record(&said, Told::Tried);
            return Err(StoreFault::Failed);
        }
        self.record(&said, Told::Put);
        self.first = Some(said);
        Ok(())
    }

    ghost counts_now = { λ s. now_counts (reverse s.told.items) };

    ghost only_now = { λ s. now_only (reverse s.told.items) };
}
