//! The presearcher: the keys of an article, and by them the few standing queries that could hold of it, which are those
//! that matching tries.
#![tactic(auto)]

ghost use Rattle.std.specs.Prelude.{◌≡◌};

mod keys;
mod presearch;

pub use keys::article_keys;
pub use presearch::candidates;
