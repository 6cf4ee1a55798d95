//! Traces over devices that fail. Whole traces are in files that `examples` plays.
use crate::runs::devices::{Failing, MANY, blank_tape, script_of};
use clip_stream::RunFault;
use clip_trace::run_trace;
use std::process::Abort;

/// A purge, and how it is answered on line 1.
const PURGE: &str = "{\"op\":\"purge\"}\n";

const PURGED: &str = "{\"line\":1,\"step\":\"purged\"}\n";

/// A trace that reads and writes a byte at a time, of which so many reads, writes or flushes go well, ends with this
/// fault, if any, and has written so many bytes of its reply.
fn ends_with<R: Abort + AllocGlobal>(
    rt: &R,
    reads: u64,
    failing: Failing,
    well: u64,
    fault: Option<RunFault>,
    written: u64,
) {
    let mut source = script_of(PURGE.as_bytes(), 1, reads);
    let mut sink = blank_tape(rt.alloc(), 1, failing, well);
    let outcome = run_trace(rt.alloc(), &mut source, &mut sink);
    assert!(rt; outcome.err() == fault);
    assert!(rt; sink.taken.len() as u64 == written);
    assert!(rt; PURGED.as_bytes().starts_with(&sink.taken));
}

#[test]
fn a_trace_ends_with_the_fault_of_its_reader(rt: HostRuntime) {
    // The event has 15 bytes with its line feed, its reply 27, and the sixteenth read meets the end.
    for well in 0..16u64 {
        let written = if well < 15 { 0 } else { 27 };
        ends_with(
            &rt,
            well,
            Failing::Flush,
            MANY,
            Some(RunFault::Read),
            written,
        );
    }
    ends_with(&rt, 16, Failing::Flush, MANY, None, 27);
}

#[test]
fn a_trace_ends_with_the_fault_of_its_writer(rt: HostRuntime) {
    for failing in [Failing::Write, Failing::WriteOfNothing] {
        for well in 0..27u64 {
            ends_with(&rt, MANY, failing, well, Some(RunFault::Write), well);
        }
    }
    // It is flushed before the event and the end are looked for.
    ends_with(&rt, MANY, Failing::Flush, 0, Some(RunFault::Write), 0);
    ends_with(&rt, MANY, Failing::Flush, 1, Some(RunFault::Write), 27);
    ends_with(&rt, MANY, Failing::Flush, 2, None, 27);
}
