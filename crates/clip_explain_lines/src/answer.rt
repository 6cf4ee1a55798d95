//! One line of the input in, one reply out.
ghost use Rattle.std.specs.Prelude.{◌≡◌, ◌++◌, ◌∷◌, [], IfOk};
ghost use Rattle.clip_explain_lines.specs.Asked.{input_of};
ghost use Rattle.clip_explain_lines.specs.Replied.{Answers, RepliesIn};
ghost use Rattle.clip_explain_lines.specs.Steps.Asking.{ask_view, input_view};

use crate::asked::{Ask, Input, input_of};
use crate::form::Form;
use crate::lines::line_text;
use crate::plain::plain_reply;
use crate::queries::query_text;
use crate::refused::{refused_says, refused_text};
use crate::spans::words_text;
use clip_words::NoMemory;
use std::alloc::Global;

/// The answer to what is asked: JSON.
fn ask_text(alloc: Global, ask: &Ask) -> Result<Vec<u8>, NoMemory>
    ensures { IfOk result (λ answer. Answers (ask_view ask.now) answer.items) }
{
    match ask {
        Ask::Query(text) => query_text(alloc, text),
        Ask::Text(text) => words_text(alloc, text),
        Ask::Line(text) => line_text(alloc, text.as_bytes()),
    }
}

/// A text and a line feed.
fn with_feed(mut text: Vec<u8>) -> Result<Vec<u8>, NoMemory>
    ensures { IfOk result (λ line. line.items ≡ text.items ++ 10 ∷ []) }
{
    text.push(b'\n')?;
    Ok(text)
}

/// The reply to a line of the input as a JSON line.
fn json_reply(alloc: Global, input: &Input) -> Result<Vec<u8>, NoMemory>
    ensures { IfOk result (λ reply. RepliesIn Form.Json (input_view input.now) reply.items) }
{
    match input {
        Input::Blank => Ok(Vec::new(alloc)),
        Input::Refused(reason) => {
            with_feed(refused_text(alloc, *reason, refused_says(*reason))?)
        }
        Input::Asks(ask) => with_feed(ask_text(alloc, ask)?),
    }
}

/// The reply to a line of the input in a form, its line feeds with it. `NoMemory` where an allocation failed. The cost
/// is that of the answer.
pub fn reply_to(alloc: Global, form: Form, bytes: &[u8]) -> Result<Vec<u8>, NoMemory>
    ensures { IfOk result (λ reply. RepliesIn form (input_of bytes.now) reply.items) }
{
    let input = input_of(alloc, bytes)?;
    match form {
        Form::Json => json_reply(alloc, &input),
        Form::Plain => plain_reply(alloc, &input, bytes),
    }
}
