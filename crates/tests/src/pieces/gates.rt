//! Gates: one that counts, and one that holds two pieces until they overlap.
use clip_match::Gate;
use clip_samples::is_set_in_time;
use std::sync::atomic::Ordering::SeqCst;
use std::sync::atomic::{AtomicBool, AtomicU64};

/// The batch that the gates expect.
pub const BATCH: u64 = 7;

/// The mark of a piece: two decimal digits for each of the first three, and far above for what is not
/// expected.
fn mark(batch: u64, piece: u32) -> u64 {
    match (batch, piece) {
        (BATCH, 0) => 1,
        (BATCH, 1) => 100,
        (BATCH, 2) => 10000,
        _ => 1000000,
    }
}

/// Counts how often each piece is entered, and how often left.
#[derive(Drop)]
pub struct Counts {
    entered: AtomicU64,
    left: AtomicU64,
}

impl Counts {
    pub fn new() -> Counts {
        Counts {
            entered: AtomicU64::new(0),
            left: AtomicU64::new(0),
        }
    }

    /// The sum of the marks of what was entered, and of what was left.
    pub fn sums(&self) -> (u64, u64) {
        (self.entered.load(SeqCst), self.left.load(SeqCst))
    }
}

impl Gate for Counts {
    fn enter(&self, batch: u64, piece: u32) {
        self.entered.fetch_add(mark(batch, piece), SeqCst);
    }

    fn leave(&self, batch: u64, piece: u32) {
        self.left.fetch_add(mark(batch, piece), SeqCst);
    }
}

/// Holds piece 0 until piece 1 has left, and piece 1 until piece 0 has come.
#[derive(Drop)]
pub struct Overlap {
    came: AtomicBool,
    left: AtomicBool,
    given_up: AtomicBool,
}

impl Overlap {
    pub fn new() -> Overlap {
        Overlap {
            came: AtomicBool::new(false),
            left: AtomicBool::new(false),
            given_up: AtomicBool::new(false),
        }
    }

    /// Whether piece 0 came, piece 1 left, and none was held to the limit.
    pub fn is_met(&self) -> bool {
        self.came.load(SeqCst) && self.left.load(SeqCst) && !self.given_up.load(SeqCst)
    }

    /// Waits for a flag, up to the limit.
    fn hold(&self, flag: &AtomicBool) {
        if !is_set_in_time(flag) {
            self.given_up.store(true, SeqCst);
        }
    }
}

impl Gate for Overlap {
    fn enter(&self, _batch: u64, piece: u32) {
        if piece == 0 {
            self.came.store(true, SeqCst);
            self.hold(&self.left);
        } else {
            self.hold(&self.came);
        }
    }

    fn leave(&self, _batch: u64, piece: u32) {
        if piece == 1 {
            self.left.store(true, SeqCst);
        }
    }
}
