//! `pressclip-keep FOLDER [workers] [hits]`: requests on standard input, replies on standard output, and each change
//! that was answered in the folder's journal, from which the next run goes on.
#![tactic(auto)]

use clip_keeping::play;
use std::process::ExitCode;

fn main(rt: HostRuntime) -> ExitCode {
    play(&rt)
}
