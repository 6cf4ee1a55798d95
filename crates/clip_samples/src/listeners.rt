//! Listeners of a style, and lists of named ones.
use clip_listen::{Folder, Listener, Named, Render, Style, Teller};
use clip_words::NoMemory;
use std::alloc::Global;

/// A folder of the style of these texts.
pub fn folder(alloc: Global, head: &str, middle: &str) -> Result<Box<Folder<Style>>, NoMemory> {
    let render = Render::in_style(Style::new(alloc, head, middle)?)?;
    Ok(Box::new(alloc, Folder::new(alloc, render))?)
}

/// A teller of the style of these texts.
pub fn teller(alloc: Global, head: &str, middle: &str) -> Result<Box<Teller<Style>>, NoMemory> {
    let render = Render::in_style(Style::new(alloc, head, middle)?)?;
    Ok(Box::new(alloc, Teller::new(render))?)
}

/// Adds a listener under a name.
pub fn add_listener(
    alloc: Global,
    parts: &mut Vec<Named>,
    name: &str,
    listener: Box<dyn Listener + Send>,
) -> Result<(), NoMemory> {
    let name = String::from_str(alloc, name)?;
    Ok(parts.push((name, listener))?)
}
