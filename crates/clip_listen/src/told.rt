//! What a listener was told, for proofs alone.
ghost use Rattle.std.specs.Prelude.{◌≡◌, List, [], ◌∷◌, ◌++◌};
ghost use Rattle.clip_standing.specs.Alerts.{alert_value};
ghost use Rattle.clip_model.specs.Alerts as model;
ghost use Rattle.clip_listen.specs.Told.{alerts_code};

use clip_standing::Alert;
use std::marker::Model;

/// The alerts that a listener was told, in order, for one that keeps none of them. It has no bytes and its calls do
/// nothing: only proofs read the list, as `alerts`. Take one step for each alert, where it is heard.
#[derive(Drop)]
pub struct Told {
    pub ghost alerts: { List model.Alert } by { alerts_code },
}

impl Model for Told {
    ghost use Rattle.std.specs.Borrow.{ftrue};

    ghost also_owns = { λ _. ftrue };
}

// A struct with `also_owns` is neither `Send` nor `Sync` by itself, and `Told` owns nothing.
unsafe impl Send for Told {}

unsafe impl Sync for Told {}

impl Told {
    /// The list of no alerts. Costs nothing.
    pub fn new() -> Told
        ensures { result.alerts ≡ [] }
    {
        Told {}
    }

    /// The list with one alert more. Costs nothing.
    #[inline(always)]
    pub fn then(&self, _alert: &Alert) -> Told
        ensures { result.alerts ≡ self.now.alerts ++ alert_value _alert.now ∷ [] }
    {
        Told {}
    }
}
