//! Remarks written as JSON.
ghost use Rattle.std.specs.Prelude.{◌≡◌, map};
ghost use Rattle.clip_protocol.specs.Request.{array_of};
ghost use Rattle.clip_protocol.specs.Steps.Printing.{Appends, data_tokens};
ghost use Rattle.clip_explain_lines.specs.Told.{level_word, remark_data};

use crate::writing::{Member, write_object};
use clip_remarks::{Level, Remark};
use clip_words::NoMemory;
use json::Writer;

/// The word for how much a remark matters.
pub fn level_word(level: Level) -> &'static str
    ensures { result.now ≡ level_word level }
{
    match level {
        Level::Hint => "hint",
        Level::Notice => "notice",
        Level::Warning => "warning",
    }
}

/// Writes a remark.
fn write_remark(out: &mut Writer, remark: &Remark) -> Result<(), NoMemory>
    ensures { Appends result out.old out.new (data_tokens (remark_data remark.now)) }
{
    let rule = remark.rule;
    write_object(
        out,
        &[
            Member::Number("at", remark.at as u64),
            Member::Text("level", level_word(rule.level())),
            Member::Text("rule", rule.name()),
            Member::Text("says", rule.says()),
        ],
    )
}

/// Writes remarks as an array.
pub fn write_remarks(out: &mut Writer, remarks: &[Remark]) -> Result<(), NoMemory>
    ensures { Appends result out.old out.new (data_tokens (array_of (map remark_data remarks.now))) }
{
    out.begin_array()?;
    for remark in remarks {
        write_remark(out, remark)?;
    }
    out.end_array()?;
    Ok(())
}
