//! `pressclip run [workers]`: requests on standard input, replies on standard output, and two listeners, `mail` and
//! `feed`.
//! `pressclip trace`: events on standard input, their answers on standard output.
#![tactic(auto)]

use clip_program::play;
use std::process::ExitCode;

fn main(rt: HostRuntime) -> ExitCode {
    play(&rt)
}
