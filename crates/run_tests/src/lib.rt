//! Tests of what stands on a run, by its public calls: runs with workers over devices in memory and on a pipe, traces,
//! and the command line.
#![tactic(auto)]

#[cfg(test)]
mod command_line;
#[cfg(test)]
mod runs;
