//! The program's listeners as one audience.
ghost use Rattle.std.specs.Prelude.{◌≡◌, ◌⊎◌, [], ◌∷◌, ◌++◌, codes, IfOk, OnOk, OnErr};
ghost use Rattle.std.specs.Arc.{arc_str_bytes};
ghost use Rattle.clip_listen.specs.Heard.{note_value, text_of};
ghost use Rattle.clip_standing.specs.Alerts.{alert_value};
ghost use Rattle.clip_engine.specs.Engine.{house};

use clip_command_line::{FEED_NAME, MAIL_NAME, feed, mail};
use clip_listen::{Audience, Listener, Note, Style, Teller};
use clip_standing::Alert;
use clip_words::NoMemory;
use std::alloc::Global;
use std::sync::ArcStr;

/// The listeners `mail` and `feed`.
#[derive(Drop)]
pub(crate) struct House {
    mail: Teller<Style>,
    feed: Teller<Style>,
}

impl House {
    /// The two, which have heard nothing. `NoMemory` where an allocation failed.
    pub(crate) fn new(alloc: Global) -> Result<House, NoMemory>
        ensures { IfOk result (λ it. ⟦<House as Audience>⟧.hearers it ≡ house) }
    {
        let mail = mail(alloc)?;
        let feed = feed(alloc)?;
        Ok(House { mail, feed })
    }
}

/// The listener of this name hears the alert, which gives its note.
fn heard_by(
    alloc: Global,
    listener: &mut Teller<Style>,
    name: &ArcStr,
    alert: &Alert,
) -> Result<Note, NoMemory>
    ensures note { IfOk result (λ note. note_value note ≡ record {
      listener = arc_str_bytes name.now;
      query = (alert_value alert.now).query;
      text = text_of (⟦<Teller<Style> as Listener>⟧.style listener.old) (alert_value alert.now);
    }) }
    ensures style { ⟦<Teller<Style> as Listener>⟧.style listener.new
        ≡ ⟦<Teller<Style> as Listener>⟧.style listener.old }
    ensures ok { OnOk result (⟦<Teller<Style> as Listener>⟧.heard listener.new
        ≡ ⟦<Teller<Style> as Listener>⟧.heard listener.old ++ alert_value alert.now ∷ []) }
    ensures err { OnErr result ((⟦<Teller<Style> as Listener>⟧.heard listener.new
        ≡ ⟦<Teller<Style> as Listener>⟧.heard listener.old) ⊎ (⟦<Teller<Style> as Listener>⟧.heard listener.new
        ≡ ⟦<Teller<Style> as Listener>⟧.heard listener.old ++ alert_value alert.now ∷ [])) }
{
    let listener_name = name.clone()?;
    let query = alert.query().clone()?;
    let text = ArcStr::from_string(listener.hear(alloc, alert)?)?;
    Ok(Note {
        listener: listener_name,
        query,
        text,
    })
}

impl Audience for House {
    ghost use Rattle.std.specs.Prelude.{[], ◌∷◌, codes};

    ghost hearers = { λ h. record {
      name = codes "mail";
      style = ⟦<Teller<Style> as Listener>⟧.style h.mail;
      heard = ⟦<Teller<Style> as Listener>⟧.heard h.mail;
      keeps = ⟦<Teller<Style> as Listener>⟧.keeps h.mail;
    } ∷ record {
      name = codes "feed";
      style = ⟦<Teller<Style> as Listener>⟧.style h.feed;
      heard = ⟦<Teller<Style> as Listener>⟧.heard h.feed;
      keeps = ⟦<Teller<Style> as Listener>⟧.keeps h.feed;
    } ∷ [] };

    fn has(&self, name: &str) -> bool {
        name == MAIL_NAME || name == FEED_NAME
    }

    fn tell(&mut self, alloc: Global, alert: &Alert) -> Result<Option<Note>, NoMemory> {
        let Some(name) = alert.listener() else {
            return Ok(None);
        };
        if name.as_str() == MAIL_NAME {
            return Ok(Some(heard_by(alloc, &mut self.mail, name, alert)?));
        }
        if name.as_str() == FEED_NAME {
            return Ok(Some(heard_by(alloc, &mut self.feed, name, alert)?));
        }
        Ok(None)
    }
}
