//! Events, and their answers.
use clip_meaning::Article;
use clip_standing::{Alerts, Applied, Command};

/// A step of the engine. Merges and batches go by numbers that the trace chooses.
///
/// Beside what is said here, an event costs a step for each open merge, or for each open batch, where it names one.
#[derive(Drop)]
pub enum Event {
    /// A caller gives a command: `Accepted`, or `Unknown` for a caller not from 1 to 64, `TooMany` for a command that
    /// does not fit, and `Full` where there is no room for it. Cost: that of `Registrar::apply`, so the extraction of
    /// the keys of each listed query, or a search for each listed id.
    Accept(u32, Command),
    /// A merge is begun under this number: `Begun`, or `Used` for a number of an open merge, `TooMany` where
    /// `MOST_MERGES` are open, and `Nothing` where there is nothing to merge. Cost: that of `Registrar::begin`, so a
    /// step for each segment and each of its levels.
    Begin(u64),
    /// The merge of this number is run and installed: `Installed` or `Stale`, or `Unknown` where none is open under the
    /// number. Cost: that of `MergeJob::run` and `Registrar::install`, so a comparison for each term of four segments,
    /// a step for each position and each step of a plan in them, and one for each segment.
    Install(u64),
    /// Dead entries are purged: `Purged`. Cost: that of `Registrar::purge`, so a step for each entry, and in segments
    /// with dead entries that of `Segment::select`.
    Purge,
    /// A view is taken for a batch of articles, under this number: `Looked`, or `Used` for a number of an open batch,
    /// and `TooMany` where `MOST_BATCHES` are open or there are more than `MOST_ARTICLES` articles. No article is read.
    Look(u64, Vec<Article>),
    /// The first article of the batch that is not matched yet is matched, on its view: `Matched`, or `Unknown` where
    /// none is open under the number or none of its articles is left. Cost: that of `match_article`, so a step for each
    /// word of the article, and a look-up in each segment for each of its keys.
    Piece(u64),
    /// The rest of the batch is matched, and its alerts are returned: `Finished`, or `Unknown` where none is open under
    /// the number. Cost: that of `match_article` for each article that is left.
    Finish(u64),
}

/// The answer to an event: the first refusal that holds, in this order, and else what was done.
#[derive(Debug, Drop)]
pub enum TraceAnswer {
    /// A merge that was not begun, a batch that was not looked at or has no article left to match, or a caller not
    /// from 1 to 64.
    Unknown,
    /// The number is in use.
    Used,
    /// A command that does not fit, a merge more than `MOST_MERGES`, a batch more than `MOST_BATCHES`, or more than
    /// `MOST_ARTICLES` articles.
    TooMany,
    /// The registry has no room for the command.
    Full,
    /// The command was accepted.
    Accepted(Applied),
    /// The merge was begun.
    Begun,
    /// There was nothing to merge, and the number stays free.
    Nothing,
    /// The merge was installed, and its number is free.
    Installed,
    /// The merge came too late, and its number is free.
    Stale,
    /// Dead entries were purged.
    Purged,
    /// The view was taken.
    Looked,
    /// An article was matched.
    Matched,
    /// The alerts of each article of the batch, whose number is free.
    Finished(Vec<Alerts>),
}
