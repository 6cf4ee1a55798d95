//! The grammar of query texts: the lexemes that spell a text, the tokens that these say, the clauses that tokens
//! write, the tree of a query, and the refusals; with the laws about them.
//!
//! The crate runs nothing but comparisons, conversions and the printing of its types. Its definitions are what the
//! contracts of the crates above cite.
#![tactic(auto)]

ghost use Rattle.std.specs.Prelude.{◌≡◌};

pub mod fault;
pub mod glyph;
pub mod laws;
pub mod limits;
pub mod query;
pub mod stage;
