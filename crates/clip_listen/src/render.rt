//! What words alerts in a style.
ghost use Rattle.std.specs.Prelude.{◌≡◌, IfOk, string_bytes};
ghost use Rattle.clip_standing.specs.Alerts.{alert_value};
ghost use Rattle.clip_listen.specs.Heard.{style_value, text_of};

use crate::style::Style;
use clip_standing::Alert;
use clip_words::NoMemory;
use std::alloc::Global;

/// Words every alert in one style.
pub trait Wording: Drop {
    ghost use Rattle.std.specs.Prelude.{◌≡◌, IfOk, string_bytes};
    ghost use Rattle.clip_standing.specs.Alerts.{alert_value};
    ghost use Rattle.clip_listen.specs.Heard.{StyleValue, text_of};

    /// The style.
    ghost style: { Self → StyleValue };

    /// The alert in words: head, query id, middle, article id.
    ///
    /// `NoMemory` where an allocation failed, or where the wording has no memory of its own left.
    fn text(&self, alloc: Global, alert: &Alert) -> Result<String, NoMemory>
        ensures { IfOk result (λ said. string_bytes said ≡ text_of (style self.now) (alert_value alert.now)) };
}

impl Wording for Style {
    ghost use Rattle.clip_listen.specs.Heard.{style_value};

    ghost style = { λ s. style_value s };

    fn text(&self, alloc: Global, alert: &Alert) -> Result<String, NoMemory> {
        let mut text = String::from_str(alloc, &self.head)?;
        text.push_str(alert.query())?;
        text.push_str(&self.middle)?;
        text.push_str(alert.article().id())?;
        Ok(text)
    }
}

/// A style, and what words every alert in it.
#[derive(Drop)]
pub struct Render<W: Wording> {
    style: Style,
    wording: W,
    pub ghost agrees: { W.style wording ≡ style_value style },
}

impl<W: Wording> Render<W> {
    /// Keeps what words each alert in the style. Cost: none.
    pub fn new(style: Style, wording: W) -> Render<W>
        requires { W.style wording ≡ style_value style }
        ensures { result.style ≡ style }
    {
        Render { style, wording }
    }

    /// The style.
    pub fn style(&self) -> &Style
        ensures { result.now ≡ self.now.style }
    {
        &self.style
    }

    /// The alert in words: head, query id, middle, article id.
    ///
    /// `NoMemory` where the wording answers it. Cost: that of the wording.
    pub fn text(&self, alloc: Global, alert: &Alert) -> Result<String, NoMemory>
        ensures { IfOk result (λ said. string_bytes said
            ≡ text_of (style_value self.now.style) (alert_value alert.now)) }
    {
        self.wording.text(alloc, alert)
    }
}

impl Render<Style> {
    /// A style that words each alert itself.
    ///
    /// `NoMemory` where an allocation failed.
    pub fn in_style(style: Style) -> Result<Render<Style>, NoMemory>
        ensures { IfOk result (λ render. render.style ≡ style) }
    {
        let wording = style.clone()?;
        Ok(Render { style, wording })
    }
}
