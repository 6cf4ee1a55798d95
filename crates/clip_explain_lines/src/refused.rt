//! Lines of the input that are refused.
ghost use Rattle.std.specs.Prelude.{◌≡◌, IfOk};
ghost use Rattle.serde_json.specs.Written.{compact_text};
ghost use Rattle.clip_explain_lines.specs.Asked.{refused_data};

use crate::writing::{Member, object_text};
use clip_protocol::Refusal;
use clip_words::NoMemory;
use std::alloc::Global;

/// A sentence that says why a line of the input is refused.
pub fn refused_says(reason: Refusal) -> &'static str {
    match reason {
        Refusal::Long => "A line has at most 1,048,576 bytes.",
        Refusal::Json => "The line is not a JSON value.",
        _ => {
            "The line has to be an object with one member: query, text or line, which is a string."
        }
    }
}

/// What is told where a line of the input is refused: JSON.
pub fn refused_text(alloc: Global, reason: Refusal, says: &str) -> Result<Vec<u8>, NoMemory>
    ensures { IfOk result (λ text. text.items ≡ compact_text (refused_data reason says.now)) }
{
    object_text(
        alloc,
        &[
            Member::Text("refused", reason.word()),
            Member::Text("says", says),
        ],
    )
}
