//! What hears alerts.
ghost use Rattle.std.specs.Prelude.{◌≡◌, [], true, false};
ghost use Rattle.clip_listen.specs.Heard.{style_value};

use crate::render::{Render, Wording};
use crate::told::Told;
use clip_standing::Alert;
use clip_words::NoMemory;
use std::alloc::Global;

/// What hears alerts, and says each in its style.
pub trait Listener: Drop {
    ghost use Rattle.std.specs.Prelude.{◌≡◌, Bool, List, [], ◌∷◌, ◌++◌, option_map, map, IfOk, OnOk, OnErr};
    ghost use Rattle.std.specs.Prelude.{string_bytes};
    ghost use Rattle.clip_model.specs.Alerts.{Alert};
    ghost use Rattle.clip_standing.specs.Alerts.{alert_value};
    ghost use Rattle.clip_listen.specs.Heard.{StyleValue, text_of, tells};

    /// The style in which it says an alert.
    ghost style: { Self → StyleValue };

    /// The alerts that it has heard, in order.
    ghost heard: { Self → List Alert };

    /// Whether it keeps the alerts that it has heard.
    ghost keeps: { Self → Bool };

    /// Hears an alert and says it in its style.
    ///
    /// `NoMemory` where an allocation failed, or where the listener has no memory of its own left; it hasn't heard the
    /// alert then.
    fn hear(&mut self, alloc: Global, alert: &Alert) -> Result<String, NoMemory>
        ensures text { IfOk result (λ said. string_bytes said ≡ text_of (style self.old) (alert_value alert.now)) }
        ensures style { style self.new ≡ style self.old }
        ensures keeps { keeps self.new ≡ keeps self.old }
        ensures ok { OnOk result (heard self.new ≡ heard self.old ++ alert_value alert.now ∷ []) }
        ensures err { OnErr result (heard self.new ≡ heard self.old) };

    /// The alerts that it has heard, in order; `None` where it doesn't keep them.
    fn heard(&self) -> Option<&[Alert]>
        ensures { option_map (λ alerts. map alert_value alerts.now) result ≡ tells (keeps self.now) (heard self.now) };
}

/// Says each alert by its render, keeps what it heard and can report it. It takes memory for each alert, and what the
/// alert shares, its query and its article, stays in memory with it.
#[derive(Drop)]
pub struct Folder<W: Wording> {
    render: Render<W>,
    alerts: Vec<Alert>,
}

impl<W: Wording> Folder<W> {
    /// A listener that has heard nothing. Takes no memory.
    pub fn new(alloc: Global, render: Render<W>) -> Folder<W>
        ensures style { ⟦<Folder<W> as Listener>⟧.style result ≡ style_value render.style }
        ensures heard { ⟦<Folder<W> as Listener>⟧.heard result ≡ [] }
        ensures keeps { ⟦<Folder<W> as Listener>⟧.keeps result ≡ true }
    {
        Folder {
            render,
            alerts: Vec::new(alloc),
        }
    }
}

impl<W: Wording> Listener for Folder<W> {
    ghost use Rattle.std.specs.Prelude.{true, map};
    ghost use Rattle.clip_standing.specs.Alerts.{alert_value};
    ghost use Rattle.clip_listen.specs.Heard.{style_value};

    ghost style = { λ f. style_value f.render.style };

    ghost heard = { λ f. map alert_value f.alerts.items };

    ghost keeps = { λ f. true };

    fn hear(&mut self, alloc: Global, alert: &Alert) -> Result<String, NoMemory> {
        let text = self.render.text(alloc, alert)?;
        self.alerts.push(alert.copy()?)?;
        Ok(text)
    }

    fn heard(&self) -> Option<&[Alert]> {
        Some(&self.alerts)
    }
}

/// Says each alert by its render and keeps nothing, so that its memory doesn't grow: what it heard, proofs alone know.
#[derive(Drop)]
pub struct Teller<W: Wording> {
    render: Render<W>,
    told: Told,
}

impl<W: Wording> Teller<W> {
    /// A listener that says alerts by the render, and has heard nothing. Takes no memory.
    pub fn new(render: Render<W>) -> Teller<W>
        ensures style { ⟦<Teller<W> as Listener>⟧.style result ≡ style_value render.style }
        ensures heard { ⟦<Teller<W> as Listener>⟧.heard result ≡ [] }
        ensures keeps { ⟦<Teller<W> as Listener>⟧.keeps result ≡ false }
    {
        let told = Told::new();
        Teller { render, told }
    }
}

impl<W: Wording> Listener for Teller<W> {
    ghost use Rattle.std.specs.Prelude.{false};
    ghost use Rattle.clip_listen.specs.Heard.{style_value};

    ghost style = { λ t. style_value t.render.style };

    ghost heard = { λ t. t.told.alerts };

    ghost keeps = { λ t. false };

    fn hear(&mut self, alloc: Global, alert: &Alert) -> Result<String, NoMemory> {
        let text = self.render.text(alloc, alert)?;
        self.told = self.told.then(alert);
        Ok(text)
    }

    fn heard(&self) -> Option<&[Alert]> {
        None
    }
}
