//! Where a caller outside of Rattle keeps an engine.
ghost use Rattle.std.specs.Prelude.{◌≡◌, Option, Some, None, IsSome};
ghost use Rattle.clip_engine.specs.Calls.{SnapshotTo};
ghost use Rattle.clip_engine.specs.Slot.{kept_code, lies_in};
ghost use Rattle.clip_engine.specs.declared.kept.Kept as keeps;

use crate::code;
use crate::kept::Kept;
use clip_words::NoMemory;
use std::alloc::Global;
use std::marker::Model;

/// The address of room that the caller gives and takes away. Whether something is kept there, contracts alone see.
#[repr(C)]
#[derive(Drop)]
pub struct Slot {
    at: *mut u8,
    pub ghost kept: { Option keeps.Kept } by { kept_code },
}

impl Model for Slot {
    ghost also_owns = { λ s. lies_in s.at s.kept };
}

impl Slot {
    /// Keeps it, where nothing is kept. Constant time.
    pub fn put(&mut self, kept: Kept)
        requires { self.old.kept ≡ None }
        ensures { self.new.kept ≡ Some kept }
    {
        unsafe {
            std::ptr::write(self.at as *mut Kept, kept);
        }
    }

    /// Gives what is kept, and keeps nothing then. Constant time.
    pub fn take(&mut self) -> Kept
        requires { IsSome self.old.kept }
        ensures { (Some result ≡ self.old.kept) × (self.new.kept ≡ None) }
    {
        unsafe { std::ptr::read(self.at as *const Kept) }
    }

    /// Ends what is kept, and gives its memory back. The room stays the caller's.
    pub fn clear(&mut self)
        requires { IsSome self.old.kept }
        ensures { self.new.kept ≡ None }
    {
        drop(self.take());
    }
}

/// Keeps a snapshot of what is kept elsewhere, where nothing is kept; nothing is kept after a refusal. Constant time.
pub fn snapshot_into(alloc: Global, kept: &Kept, slot: &mut Slot) -> u32
    requires { slot.old.kept ≡ None }
    ensures { SnapshotTo result (Some kept.now) slot.new.kept }
{
    match kept.snapshot(alloc) {
        Ok(snapshot) => {
            slot.put(snapshot);
            code::OK
        }
        Err(NoMemory) => code::NO_MEMORY,
    }
}

// It owns its room, and what it keeps there may go from thread to thread.
unsafe impl Send for Slot {}
