//! What alerts say, for proofs alone.
ghost use Rattle.std.specs.Prelude.{◌≡◌};
ghost use Rattle.clip_standing.specs.Alerts.{AlertsValue, alerts_value};
ghost use Rattle.clip_protocol.specs.Said.{alerts_value_code};

use clip_standing::Alerts;
use std::marker::Model;

/// What the alerts of an article say, for one that keeps none of them, or for whom none were made. It has no bytes and
/// its calls do nothing: only proofs read it, as `value`.
#[derive(Drop)]
pub struct AlertsSaid {
    pub ghost value: { AlertsValue } by { alerts_value_code },
}

impl Model for AlertsSaid {
    ghost use Rattle.std.specs.Borrow.{ftrue};

    ghost also_owns = { λ _. ftrue };
}

// A struct with `also_owns` has neither by itself. This one owns nothing.
unsafe impl Send for AlertsSaid {}

unsafe impl Sync for AlertsSaid {}

impl AlertsSaid {
    /// What these alerts say. Costs nothing.
    #[inline(always)]
    pub fn of(_alerts: &Alerts) -> AlertsSaid
        ensures { result.value ≡ alerts_value _alerts.now }
    {
        AlertsSaid {}
    }
}
