//! A listener of the program's own.
ghost use Rattle.std.specs.Prelude.{◌≡◌, [], IfOk};
ghost use Rattle.clip_listen.specs.Heard.{style_value};

use clip_listen::{Listener, Render, Style};
use clip_standing::Alert;
use clip_words::NoMemory;
use std::alloc::Global;

/// A desk of the newspaper. It keeps the alerts of its queries, in a list whose memory is taken when the day begins.
#[derive(Drop)]
pub struct Desk {
    render: Render<Style>,
    kept: Vec<Alert>,
}

impl Desk {
    /// A desk that has heard nothing, with memory for so many alerts; for more it takes memory as it hears them.
    pub fn new(alloc: Global, render: Render<Style>, room: usize) -> Result<Desk, NoMemory>
        ensures style { IfOk result (λ desk. ⟦<Desk as Listener>⟧.style desk ≡ style_value render.style) }
        ensures heard { IfOk result (λ desk. ⟦<Desk as Listener>⟧.heard desk ≡ []) }
    {
        let kept = Vec::with_capacity(alloc, room)?;
        Ok(Desk { render, kept })
    }
}

impl Listener for Desk {
    ghost use Rattle.std.specs.Prelude.{true, map};
    ghost use Rattle.clip_standing.specs.Alerts.{alert_value};
    ghost use Rattle.clip_listen.specs.Heard.{style_value};

    ghost style = { λ desk. style_value desk.render.style };

    ghost heard = { λ desk. map alert_value desk.kept.items };

    ghost keeps = { λ desk. true };

    fn hear(&mut self, alloc: Global, alert: &Alert) -> Result<String, NoMemory> {
        let text = self.render.text(alloc, alert)?;
        self.kept.push(alert.copy()?)?;
        Ok(text)
    }

    fn heard(&self) -> Option<&[Alert]> {
        Some(&self.kept)
    }
}
