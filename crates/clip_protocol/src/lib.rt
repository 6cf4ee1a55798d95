//! The protocol: what a JSON line asks for, what it means after a history, and the text of its reply.
#![tactic(auto)]

mod found;
mod judged;
mod line;
mod listing;
mod members;
mod printing;
mod put;
mod refusal;
mod reply;
mod request;
mod said;
mod shown;

pub use found::{Found, closed_text, found_text, opened_text};
pub use judged::{JudgedDraft, articles_of, judge_drafts};
pub use line::{Line, is_blank, json_of, may_delete, may_register, read_value};
pub use listing::{ListFault, read_listing};
pub use members::{items_of, members_of, operation_of, take_member, three_members, two_members};
pub use put::{ArticlePart, put_alerts, put_part};
pub use refusal::{LIMITED, Refusal, UNSHAPED, Unread};
pub use reply::{Reply, accepted};
pub use request::{Draft, Listing, Request, drafts_of};
pub use said::AlertsSaid;
pub use shown::Shown;
