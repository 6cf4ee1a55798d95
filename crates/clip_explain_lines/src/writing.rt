//! JSON objects, written member by member.
ghost use Rattle.std.specs.Prelude.{◌≡◌, [], ◌∷◌, ◌++◌, IfOk, flat_map, map};
ghost use Rattle.json.specs.Token.{begin_object, end_object, key, string};
ghost use Rattle.serde_json.specs.Data.{Data};
ghost use Rattle.serde_json.specs.Written.{compact_text};
ghost use Rattle.clip_protocol.specs.Request.{object_of};
ghost use Rattle.clip_protocol.specs.Steps.Printing.{Appends, data_tokens};
ghost use Rattle.clip_explain_lines.specs.Steps.Plain.{member_of, member_tokens};

use clip_words::NoMemory;
use json::Writer;
use std::alloc::Global;

/// A member whose value is no list and no object.
#[derive(Clone, Copy)]
pub enum Member<'v> {
    /// A text under this name.
    Text(&'v str, &'v str),
    /// A number under this name.
    Number(&'v str, u64),
    /// True or false under this name.
    Flag(&'v str, bool),
    /// Null under this name.
    Null(&'v str),
}

/// A text in which an object has begun.
pub fn begin_object(alloc: Global) -> Result<Writer, NoMemory>
    ensures before { IfOk result (λ out. out.before ≡ []) }
    ensures tokens { IfOk result (λ out. out.tokens ≡ begin_object ∷ []) }
{
    let mut out = Writer::new(Vec::with_capacity(alloc, 128)?);
    out.begin_object()?;
    Ok(out)
}

/// The text of a value, of which all but the end of its object is written: compact JSON.
pub fn end_object(mut out: Writer) -> Result<Vec<u8>, NoMemory>
    ensures { (d : Data) → out.before ≡ [] → out.tokens ++ end_object ∷ [] ≡ data_tokens d
        → IfOk result (λ text. text.items ≡ compact_text d) }
{
    out.end_object()?;
    Ok(out.into_inner())
}

/// Writes a member that is a text.
pub fn write_text(out: &mut Writer, name: &str, text: &str) -> Result<(), NoMemory>
    ensures { Appends result out.old out.new (key name.now ∷ string text.now ∷ []) }
{
    out.key(name)?;
    out.string(text)?;
    Ok(())
}

/// Writes a member.
fn write_member(out: &mut Writer, member: &Member<'_>) -> Result<(), NoMemory>
    ensures { Appends result out.old out.new (member_tokens (member_of member.now)) }
{
    match member {
        Member::Text(name, text) => write_text(out, *name, *text),
        Member::Number(name, number) => {
            out.key(*name)?;
            Ok(out.u64(*number)?)
        }
        Member::Flag(name, flag) => {
            out.key(*name)?;
            Ok(out.boolean(*flag)?)
        }
        Member::Null(name) => {
            out.key(*name)?;
            Ok(out.null()?)
        }
    }
}

/// Writes members, one after the other.
pub fn write_members(out: &mut Writer, members: &[Member<'_>]) -> Result<(), NoMemory>
    ensures { Appends result out.old out.new (flat_map member_tokens (map member_of members.now)) }
{
    for member in members {
        write_member(out, member)?;
    }
    Ok(())
}

/// Writes an object of members.
pub fn write_object(out: &mut Writer, members: &[Member<'_>]) -> Result<(), NoMemory>
    ensures { Appends result out.old out.new (data_tokens (object_of (map member_of members.now))) }
{
    out.begin_object()?;
    write_members(out, members)?;
    out.end_object()?;
    Ok(())
}

/// An object of members as compact JSON.
pub fn object_text(alloc: Global, members: &[Member<'_>]) -> Result<Vec<u8>, NoMemory>
    ensures { IfOk result (λ text. text.items ≡ compact_text (object_of (map member_of members.now))) }
{
    let mut out = begin_object(alloc)?;
    write_members(&mut out, members)?;
    end_object(out)
}
