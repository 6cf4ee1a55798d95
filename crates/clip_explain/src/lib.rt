//! How a query is read, and what is sure of it before any article comes.
#![tactic(auto)]

ghost use Rattle.std.specs.Prelude.{◌≡◌};

mod certain;
mod cutting;
mod explaining;
mod fronts;
mod laws;
mod places;
mod spelling;

pub use certain::{is_always, is_never};
pub use cutting::{Lexed, Lexeme, lexemes};
pub use explaining::{Explained, Explanation, Refusal, explain};
pub use laws::{always_law, never_law, tried_on_all_law};
pub use spelling::spell;
