//! How a listener words an alert.
ghost use Rattle.std.specs.Prelude.{◌≡◌, IfOk};
ghost use Rattle.clip_listen.specs.Heard.{style_value};

use clip_words::NoMemory;
use std::alloc::Global;
use std::sync::ArcStr;

/// A style of wording: an alert is worded as the head, the query's id, the middle and the article's id, in this order.
#[derive(Clone, Debug, Drop)]
pub struct Style {
    /// What stands before the query's id.
    pub head: ArcStr,
    /// What stands between the query's id and the article's.
    pub middle: ArcStr,
}

impl Style {
    /// The style of these texts. `NoMemory` where an allocation failed. Cost: a copy of both.
    pub fn new(alloc: Global, head: &str, middle: &str) -> Result<Style, NoMemory>
        ensures { IfOk result (λ style. style_value style ≡ record { head = head.now; middle = middle.now }) }
    {
        let head = ArcStr::from_str(alloc, head)?;
        let middle = ArcStr::from_str(alloc, middle)?;
        Ok(Style { head, middle })
    }
}
