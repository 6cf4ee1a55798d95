//! What the threads at a desk share.
ghost use Rattle.std.specs.Prelude.{◌≡◌};

use crate::desk::types::Desk;
use clip_desk::{DeskName, Nudge, Receipt};
use crossbeam_channel::{Receiver, Sender, unbounded};
use std::alloc::Global;
use std::marker::PhantomData;
use std::process::Abort;

/// What the two callers at a desk do.
#[derive(Clone, Copy)]
pub enum Plan {
    /// Each commits a list of its own.
    Lists,
    /// Each waits for the other's receipt before it commits.
    Turns,
}

/// A receipt of the desk, as one caller hands it to another.
#[derive(Drop)]
pub struct Handed<N: DeskName> {
    /// The receipt.
    pub receipt: Receipt,
    /// The desk.
    pub of: PhantomData<N>,
    ghost book: { receipt.book ≡ N.book },
}

/// The way of one caller's receipts to the other.
#[derive(Drop)]
pub struct Way<N: DeskName> {
    /// Where they are handed over.
    pub sender: Sender<Handed<N>>,
    /// Where they are taken.
    pub receiver: Receiver<Handed<N>>,
}

/// What the threads share.
pub struct Room<N: DeskName> {
    /// What all threads take memory from.
    pub alloc: Global,
    /// The desk.
    pub desk: Desk<N>,
    /// Where the merger is nudged.
    pub sender: Sender<Nudge>,
    /// The nudges on their way.
    pub nudges: Receiver<Nudge>,
    /// What the callers do.
    pub plan: Plan,
    /// The way of the first caller's receipts.
    pub firsts: Way<N>,
    /// The way of the second caller's receipts.
    pub seconds: Way<N>,
}

fn new_way<N: DeskName, R: Abort>(rt: &R, alloc: Global) -> Way<N> {
    let Ok((sender, receiver)) = unbounded(alloc) else {
        panic!(rt; "no channel")
    };
    Way { sender, receiver }
}

impl<N: DeskName> Room<N> {
    /// The room at a desk.
    pub fn new<R: Abort>(rt: &R, alloc: Global, desk: Desk<N>, plan: Plan) -> Room<N> {
        let Ok((sender, nudges)) = unbounded(alloc) else {
            panic!(rt; "no channel")
        };
        Room {
            alloc,
            desk,
            sender,
            nudges,
            plan,
            firsts: new_way(rt, alloc),
            seconds: new_way(rt, alloc),
        }
    }

    /// The desk, once the threads have ended.
    pub fn into_desk(self) -> Desk<N> {
        let Self {
            alloc: _,
            desk,
            sender: _sender,
            nudges: _nudges,
            plan: _,
            firsts: _firsts,
            seconds: _seconds,
        } = self;
        desk
    }
}
