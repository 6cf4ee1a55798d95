//! Listeners by name: each hears the alerts of its own queries, once, in order, and words them in its style.
#![tactic(auto)]

mod listener;
mod listeners;
mod note;
mod places;
mod render;
mod style;
mod told;

pub use listener::{Folder, Listener, Teller};
pub use listeners::{Audience, Listeners, Named, Twice, deliver_to};
pub use note::Note;
pub use render::{Render, Wording};
pub use style::Style;
pub use told::Told;
