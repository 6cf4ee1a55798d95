//! How a run replies, what it is to do beside that, and by how many workers.

use clip_stream::Form;

/// How a run replies, what it is to do beside that, and by how many workers.
#[derive(Clone, Copy, Debug, PartialEq, Eq)]
pub struct Settings {
    /// What the replies to matches show.
    pub form: Form,
    /// Whether the ledger keeps a row for each alert. Where it keeps none, it stays empty, and the memory of a run does
    /// not grow by its alerts.
    pub keeps_rows: bool,
    /// How many workers match, at most 64. `run_alone` uses none, and does not read it.
    pub workers: u32,
}
