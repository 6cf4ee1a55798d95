//! Waiting for another thread, up to a limit.
use std::sync::atomic::AtomicBool;
use std::sync::atomic::Ordering::SeqCst;
use std::thread::yield_now;

/// How many turns are waited at most.
const MOST_TURNS: u32 = 1_000_000;

/// Waits until a flag is set, up to the limit: whether it was.
pub fn is_set_in_time(flag: &AtomicBool) -> bool {
    for _ in 0..MOST_TURNS {
        if flag.load(SeqCst) {
            return true;
        }
        yield_now();
    }
    false
}
