//! Keys written as JSON.
ghost use Rattle.std.specs.Prelude.{◌≡◌, map};
ghost use Rattle.clip_extract.specs.Keys.{key_of};
ghost use Rattle.clip_protocol.specs.Request.{array_of};
ghost use Rattle.clip_protocol.specs.Steps.Printing.{Appends, data_tokens};
ghost use Rattle.clip_explain_lines.specs.Told.{key_data};

use crate::writing::{Member, write_object};
use clip_extract::Key;
use clip_words::NoMemory;
use json::Writer;

/// Writes a key.
fn write_key(out: &mut Writer, key: &Key) -> Result<(), NoMemory>
    ensures { Appends result out.old out.new (data_tokens (key_data (key_of key.now))) }
{
    match key {
        Key::Any => Ok(out.string("any")?),
        Key::Word(field, word) => {
            write_object(
                out,
                &[Member::Text("field", field), Member::Text("word", word)],
            )
        }
        Key::Front(field, front) => {
            write_object(
                out,
                &[Member::Text("field", field), Member::Text("front", front)],
            )
        }
    }
}

/// Writes keys as an array.
pub fn write_keys(out: &mut Writer, keys: &[Key]) -> Result<(), NoMemory>
    ensures { Appends result out.old out.new (data_tokens (array_of (map key_data (map key_of keys.now)))) }
{
    out.begin_array()?;
    for key in keys {
        write_key(out, key)?;
    }
    out.end_array()?;
    Ok(())
}
