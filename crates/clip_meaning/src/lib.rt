//! Articles, when a query holds of one, and which of its words a query names.
//!
//! An article's texts are cut into words and folded once, when it is read, and each field keeps its words sorted, so
//! that a query is answered by searches among them.
#![tactic(auto)]

ghost use Rattle.std.specs.Prelude.{◌≡◌};

mod arranged;
mod article;
mod fault;
mod field;
mod field_map;
mod flags;
mod hit;
mod index;
mod lead;
mod meaning;

pub use article::Article;
pub use fault::{ArticleFault, MOST_FIELDS, MOST_NAME_BYTES, fault_of, is_field_name};
pub use field::{Field, stands_at};
pub use flags::FieldFlags;
pub use hit::{Hit, hits, mark};
pub use index::{Posting, Postings};
pub use lead::{compare_by_leads, lead_of};
pub use meaning::holds;
