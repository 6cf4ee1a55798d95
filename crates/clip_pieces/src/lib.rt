//! Lists in shared pieces: a copy of a list shares its pieces, and a write copies just the pieces it touches. Beside
//! them lists that lie in one buffer, and sets of numbers.
#![tactic(auto)]

mod block;
mod exact;
mod iter;
mod list;
mod marks;
mod packed;
mod part;
mod parts;
mod piece;
mod shared;
mod shared_flags;

pub use exact::Exact;
pub use iter::Iter;
pub use list::SharedList;
pub use marks::Marks;
pub use packed::PackedLists;
pub use shared::Shared;
pub use shared_flags::SharedFlags;
