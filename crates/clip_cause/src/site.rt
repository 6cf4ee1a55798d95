//! Places in the value of a line, and their texts.
ghost use Rattle.std.specs.Prelude.{◌≡◌, ◌++◌, IfOk, OnOk, string_bytes};
ghost use Rattle.clip_cause.specs.Path.{path_text, steps_text};
ghost use Rattle.clip_cause.specs.Faults.{item_path};
ghost use Rattle.clip_cause.specs.Steps.Sites.{site_path, spot_path};

use clip_words::NoMemory;
use std::alloc::Global;

/// A place in an object.
#[derive(Clone, Copy)]
pub enum Spot<'v> {
    /// The object itself, or what stands in its place.
    Whole,
    /// The member of this name.
    Member(&'v str),
    /// In the member `fields`, the member of this name.
    Field(&'v str),
}

/// A place in the value of a line.
#[derive(Clone, Copy)]
pub enum Site<'v> {
    /// In the line's object.
    In(Spot<'v>),
    /// In the list of this name, at the item of this number, from 0, this place in it.
    Item(&'static str, usize, Spot<'v>),
}

/// Puts the path of a place behind that of what it is in.
fn push_spot(text: &mut String, spot: Spot<'_>) -> Result<(), NoMemory>
    ensures { OnOk result (string_bytes text.new ≡ string_bytes text.old ++ steps_text (spot_path spot.entry)) }
{
    match spot {
        Spot::Whole => Ok(()),
        Spot::Member(name) => {
            text.push('.')?;
            text.push_str(name)?;
            Ok(())
        }
        Spot::Field(name) => {
            text.push_str(".fields.")?;
            text.push_str(name)?;
            Ok(())
        }
    }
}

/// The path of a place in the line's object.
fn spot_text(alloc: Global, spot: Spot<'_>) -> Result<String, NoMemory>
    ensures { IfOk result (λ text. string_bytes text ≡ path_text (spot_path spot.entry)) }
{
    match spot {
        Spot::Whole => Ok(String::new(alloc)),
        Spot::Member(name) => Ok(String::from_str(alloc, name)?),
        Spot::Field(name) => {
            let mut text = String::from_str(alloc, "fields.")?;
            text.push_str(name)?;
            Ok(text)
        }
    }
}

/// The path of a place in an item of a list, as `queries[0].id`. `NoMemory` where an allocation failed. Its cost is
/// linear in the text.
pub fn item_text(
    alloc: Global,
    list: &str,
    place: usize,
    spot: Spot<'_>,
) -> Result<String, NoMemory>
    ensures { IfOk result (λ text. string_bytes text ≡ path_text (item_path list.now place (spot_path spot.entry))) }
{
    let number = place.to_string(alloc)?;
    let mut text = String::from_str(alloc, list)?;
    text.push('[')?;
    text.push_str(number.as_str())?;
    text.push(']')?;
    push_spot(&mut text, spot)?;
    Ok(text)
}

/// The path of a place in the value of a line. `NoMemory` where an allocation failed. Its cost is linear in the text.
pub fn site_text(alloc: Global, site: Site<'_>) -> Result<String, NoMemory>
    ensures { IfOk result (λ text. string_bytes text ≡ path_text (site_path site.entry)) }
{
    match site {
        Site::In(spot) => spot_text(alloc, spot),
        Site::Item(list, place, spot) => item_text(alloc, list, place, spot),
    }
}
