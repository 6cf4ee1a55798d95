//! Of texts that lie one behind another those whose flags are set.
ghost use Rattle.std.specs.Prelude.{◌≡◌, ◌++◌, IfOk};
ghost use Rattle.clip_indexed.specs.Selecting.{flagged};

use crate::kept_terms::flag_at;
use clip_words::{NoMemory, Room, Texts};

/// Room for what a room is for, and for those of these texts whose flags are set.
pub(crate) fn add_room(texts: &Texts, flags: &[bool], room: Room) -> Room {
    let mut room = room;
    for place in 0..texts.len() {
        if flag_at(flags, place)
            && let Some(text) = texts.get(place)
        {
            room = room.and(text);
        }
    }
    room
}

/// Texts, and behind them those of others whose flags are set; a missing flag is not.
///
/// `NoMemory` as of `Texts::with`.
pub(crate) fn with_flagged(texts: Texts, others: &Texts, flags: &[bool]) -> Result<Texts, NoMemory>
    ensures { IfOk result (λ all. all ≡ texts ++ flagged flags.now others.now) }
{
    let mut texts = texts;
    for place in 0..others.len() {
        if !flag_at(flags, place) {
            continue;
        }
        let Some(text) = others.get(place) else {
            unreachable!()
        };
        texts = texts.with(text)?;
    }
    Ok(texts)
}
