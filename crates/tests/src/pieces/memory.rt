//! Each piece that is entered is left, also where memory is refused.
//! Where memory is ample nothing is refused, so this is to be run with an allocation that fails
//! (`rt try --test --fail-alloc N`).
use crate::pieces::gates::{BATCH, Counts};
use crate::pieces::making::{ALERTS_OF_THREE, three_articles, three_queries};
use crate::showing::told;
use clip_match::match_pieces;
use std::alloc::Global;
use std::process::Abort;
use std::thread::Threads;

#[test]
fn what_was_entered_is_left(rt: HostRuntime) {
    match_three(&rt, rt.alloc());
}

fn match_three<R: Threads + Abort + Sync>(rt: &R, alloc: Global) {
    let (Some(view), Some(articles)) = (three_queries(alloc), three_articles(alloc)) else {
        return;
    };
    let gate = Counts::new();
    if let Ok(found) = match_pieces(rt, alloc, &view, &articles, BATCH, 2, &gate) {
        if let Ok(text) = told(alloc, &found) {
            assert!(rt; text.as_str() == ALERTS_OF_THREE);
        }
    }
    assert!(rt; gate.sums() == (101, 101));
}
