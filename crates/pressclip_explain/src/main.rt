//! `pressclip-explain`: lines on standard input that name a query, a text or a line of the protocol, and on standard
//! output what each of them is: JSON lines or, with `--plain`, text for people.
#![tactic(auto)]

use clip_explain_lines::play;
use std::process::ExitCode;

fn main(rt: HostRuntime) -> ExitCode {
    play(&rt)
}
