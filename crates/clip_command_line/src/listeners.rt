//! The listeners of the program: each says its alerts in its style and keeps nothing. What they hear is in contracts
//! all the same.
ghost use Rattle.std.specs.Prelude.{◌≡◌, [], ◌∷◌, codes, map, IfOk};
ghost use Rattle.clip_listen.specs.Heard.{names_of};

use clip_listen::{Listener, Named, Render, Style, Teller};
use clip_words::NoMemory;
use std::alloc::Global;

/// The name of the listener `mail`.
pub const MAIL_NAME: &str = "mail";

/// The name of the listener `feed`.
pub const FEED_NAME: &str = "feed";

/// The listener `mail`, which says `mail: `, the query's id, ` in ` and the article's. It has heard nothing.
pub fn mail(alloc: Global) -> Result<Teller<Style>, NoMemory>
    ensures style { IfOk result (λ teller. ⟦<Teller<Style> as Listener>⟧.style teller
        ≡ record { head = codes "mail: "; middle = codes " in " }) }
    ensures heard { IfOk result (λ teller. ⟦<Teller<Style> as Listener>⟧.heard teller ≡ []) }
{
    let style = Style::new(alloc, "mail: ", " in ")?;
    Ok(Teller::new(Render::in_style(style)?))
}

/// The listener `feed`, which says `feed `, the query's id, `/` and the article's. It has heard nothing.
pub fn feed(alloc: Global) -> Result<Teller<Style>, NoMemory>
    ensures style { IfOk result (λ teller. ⟦<Teller<Style> as Listener>⟧.style teller
        ≡ record { head = codes "feed "; middle = codes "/" }) }
    ensures heard { IfOk result (λ teller. ⟦<Teller<Style> as Listener>⟧.heard teller ≡ []) }
{
    let style = Style::new(alloc, "feed ", "/")?;
    Ok(Teller::new(Render::in_style(style)?))
}

/// The listeners `mail` and `feed`, under their names.
pub fn named(
    alloc: Global,
    mail: Box<dyn Listener + Send>,
    feed: Box<dyn Listener + Send>,
) -> Result<Vec<Named>, NoMemory>
    ensures names { IfOk result (λ parts. names_of parts.items ≡ codes "mail" ∷ codes "feed" ∷ []) }
    ensures under { IfOk result (λ parts. map (λ part. part.1) parts.items ≡ mail ∷ feed ∷ []) }
{
    let mut parts: Vec<Named> = Vec::new(alloc);
    parts.push((String::from_str(alloc, MAIL_NAME)?, mail))?;
    parts.push((String::from_str(alloc, FEED_NAME)?, feed))?;
    Ok(parts)
}
