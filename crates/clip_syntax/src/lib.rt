//! Reads the text of a query as its tree, or says why it is none.
//!
//! The syntax is Lucene's classic query syntax (`QueryParser`) in part: words, quoted phrases, prefixes (`tea*`),
//! ranges (`[a TO b}`), fields (`title:tea`), groups, the signs `+`, `-`, `!` and `NOT`, the operators `AND`, `OR`,
//! `&&` and `||` between clauses, and `*:*`. Other wild cards, fuzzy words, boosts and regular expressions are refused
//! as `LeftOut`.
//!
//! A text is judged in passes, along its characters and then its tokens, none of which recurses along the text:
//! length, lexemes, left-out forms, clauses, words, size. Only then is the tree built, and it is then at most 65
//! groups deep.
#![tactic(auto)]

mod build;
mod lexer;
mod parser;
mod reader;
mod size;
mod token;
mod words;

pub use clip_grammar::fault::QueryFault;
pub use lexer::{is_start, is_white, lexeme};
pub use parser::{Progress, begins_left_out};
pub use reader::read_query;
pub use token::Token;
pub use words::item_text;
