//! Tests of the crates below a run, by their public calls: worked examples, limits, each call that takes memory once,
//! pieces of a batch in threads, callers, merges and purges of a shared desk, and update listeners.
#![tactic(auto)]

#[cfg(test)]
mod cost;
#[cfg(test)]
mod desk;
#[cfg(test)]
mod explain;
#[cfg(test)]
mod extract;
#[cfg(test)]
mod hits;
#[cfg(test)]
mod index;
#[cfg(test)]
mod ledger;
#[cfg(test)]
mod listen;
#[cfg(test)]
mod lists;
#[cfg(test)]
mod making;
#[cfg(test)]
mod many;
#[cfg(test)]
mod meaning;
#[cfg(test)]
mod merge;
#[cfg(test)]
mod pieces;
#[cfg(test)]
mod registry;
#[cfg(test)]
mod script;
#[cfg(test)]
mod segment;
#[cfg(test)]
mod showing;
#[cfg(test)]
mod syntax;
#[cfg(test)]
mod updates;
#[cfg(test)]
mod words;
