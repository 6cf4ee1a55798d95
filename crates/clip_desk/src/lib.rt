//! A registry that callers in threads share: one history, in which each caller's commands stand.
#![tactic(auto)]

mod chronicle;
mod desk;
mod desk_merging;
mod ends;
mod events;
mod growing;
mod locked;
mod locked_merging;
mod parts;
mod published;
mod refused;
mod rights;
mod seat;
mod update_listener;
mod update_listeners;

pub use desk::{Closed, Desk, SeatMissing};
pub use desk_merging::Nudge;
pub use events::{Update, UpdateEvent};
pub use locked::{DeskName, Locked};
pub use parts::DeskParts;
pub use refused::{NewRefused, Refused};
pub use seat::{Receipt, Seat};
pub use update_listener::{UpdateListener, UpdateLog};
pub use update_listeners::UpdateListeners;
