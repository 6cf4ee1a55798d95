//! Makes public calls that take memory: of each is printed its name, and in the next line what it answers, as a number,
//! or that it was refused. A refused call is made once more.
//!
//! `stress/refusals` runs this once for each allocation of each call, which it has refused.
#![tactic(auto)]

mod desks;
mod listening;
mod matching;
mod registry;
mod telling;

fn main(rt: HostRuntime) {
    // Where memory is refused for what calls are given, those calls are not made.
    let _ = registry::play(&rt);
    let _ = matching::play(&rt);
    let _ = listening::play(&rt);
    let _ = desks::play(&rt);
}
