//! A registry that several tenants share.

ghost use Rattle.clip_model.specs.Tenants.{AlertsArePrivate, HeardIsPrivate, OthersPassBy};

/// What a test on ids lets through of an article's alerts depends on the queries under these ids alone, and so does
/// what each listener hears of it. No register or delete of other ids changes these queries; a clear takes out all.
pub fn private_alerts()
    ensures alerts { AlertsArePrivate }
    ensures heard { HeardIsPrivate }
    ensures others { OthersPassBy }
{}
