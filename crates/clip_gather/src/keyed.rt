//! What stands in lists by the ids of queries.
ghost use Rattle.std.specs.Prelude.{◌≡◌, ℕ, List};
ghost use Rattle.clip_standing.specs.Alerts.{alert_value};

use clip_standing::Alert;

/// What stands in a list by the id of a query.
pub trait Keyed {
    /// The id's bytes.
    ghost key: { Self → List ℕ };

    /// The id's bytes. Constant time.
    fn key(&self) -> &[u8]
        ensures { result.now ≡ key self.now };
}

impl Keyed for Alert {
    ghost key = { λ a. (alert_value a).query };

    fn key(&self) -> &[u8] {
        self.query().as_str().as_bytes()
    }
}
