//! The words of a text, each with where it stands.
ghost use Rattle.std.specs.Prelude.{◌≡◌, ◌≤◌, IfOk, map};
ghost use Rattle.std.specs.List.{All};
ghost use Rattle.serde_json.specs.Written.{compact_text};
ghost use Rattle.clip_where.specs.Spans.{IsBetweenCharacters};
ghost use Rattle.clip_protocol.specs.Request.{array_of};
ghost use Rattle.clip_protocol.specs.Steps.Printing.{Appends, data_tokens};
ghost use Rattle.clip_explain_lines.specs.SpansData.{span_data, spans_data, words_data};
ghost use Rattle.clip_explain_lines.specs.Steps.Forward.{IsForward};

use crate::writing::{Member, begin_object, end_object, write_object};
use clip_where::{WordSpan, word_spans};
use clip_words::{NoMemory, fold};
use json::Writer;
use std::alloc::Global;

/// Writes where a word stands in a text, and the word.
fn write_span(out: &mut Writer, alloc: Global, text: &str, span: &WordSpan) -> Result<(), NoMemory>
    requires whole { IsBetweenCharacters text.now span.now }
    requires forward { IsForward span.now }
    ensures { Appends result out.old out.new (data_tokens (span_data text.now span.now)) }
{
    let word = fold(alloc, &text[span.start..span.end])?;
    write_object(
        out,
        &[
            Member::Number("end", span.end as u64),
            Member::Number("start", span.start as u64),
            Member::Text("word", &word),
        ],
    )
}

/// Writes where words stand in a text, and the words, as an array.
fn write_spans(
    out: &mut Writer,
    alloc: Global,
    text: &str,
    spans: &[WordSpan],
) -> Result<(), NoMemory>
    requires whole { All (IsBetweenCharacters text.now) spans.now }
    requires forward { All IsForward spans.now }
    ensures { Appends result out.old out.new (data_tokens (array_of (map (span_data text.now) spans.now))) }
{
    out.begin_array()?;
    for span in spans {
        write_span(out, alloc, text, span)?;
    }
    out.end_array()?;
    Ok(())
}

/// The words of a text that stand at these places: JSON.
fn spans_text(alloc: Global, text: &str, spans: &[WordSpan]) -> Result<Vec<u8>, NoMemory>
    requires whole { All (IsBetweenCharacters text.now) spans.now }
    requires forward { All IsForward spans.now }
    ensures { IfOk result (λ answer. answer.items ≡ compact_text (spans_data text.now spans.now)) }
{
    let mut out = begin_object(alloc)?;
    out.key("words")?;
    write_spans(&mut out, alloc, text, spans)?;
    end_object(out)
}

/// The words of a text as the engine cuts and folds them, each with the bytes between which it stands, as compact JSON
/// without a line feed. A byte counts from 0, and `end` is the byte behind the last one.
///
/// `NoMemory` where an allocation failed. The cost is linear in the bytes of the text.
#[tactic(auto, using(crate::proofs::Apart::all_forward))]
pub fn words_text(alloc: Global, text: &str) -> Result<Vec<u8>, NoMemory>
    ensures { IfOk result (λ answer. answer.items ≡ compact_text (words_data text.now)) }
{
    let spans = word_spans(alloc, text)?;
    spans_text(alloc, text, &spans)
}
