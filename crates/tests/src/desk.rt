//! The desk, by its public calls: worked examples, refusals, and callers in threads.
mod callers;
mod four_threads;
mod listening;
mod making;
mod memory;
mod merging;
mod plain;
mod receipts;
mod refusals;
mod room;
mod types;
