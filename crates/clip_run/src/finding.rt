//! What a run finds of an article: when the hits of its alerts, whether the alerts themselves, and else what they would
//! say.
ghost use Rattle.std.specs.Prelude.{◌≡◌, false, is_some, option_map, IfOk};
ghost use Rattle.std.specs.List.{list_any};
ghost use Rattle.clip_match.specs.Due.{due_value, AreTheirHits};
ghost use Rattle.clip_run.specs.Quiet.{alerts_shown};

use clip_front::Settings;
use clip_match::{DueEntries, HitsFound};
use clip_standing::AlertView;
use clip_stream::Form;
use clip_words::NoMemory;
use std::alloc::Global;

/// At once, while they are few, where replies show hits or rows keep them, and else when a listener asks.
pub fn hits_found(settings: Settings) -> HitsFound {
    match settings.form {
        Form::WithHits => HitsFound::WhileFew,
        Form::Plain if settings.keeps_rows => HitsFound::WhileFew,
        Form::Plain => HitsFound::WhenAsked,
    }
}

/// Whether alerts are made of what is due: where rows are kept, and where a query has a listener. Else what is shown of
/// it needs none.
pub fn wants_alerts(settings: Settings, due: &DueEntries<'_>) -> bool
    ensures unkept { result ≡ false → settings.keeps_rows ≡ false }
    ensures unheard { result ≡ false → list_any (λ a. is_some a.listener) (due_value due.now).alerts ≡ false }
{
    settings.keeps_rows || due.has_listener()
}

/// What the alerts of what is due would say, where the form shows their hits.
///
/// `NoMemory` where an allocation failed. Cost: that of `DueEntries::views`, or none.
pub fn views_to_show<'a>(
    alloc: Global,
    form: Form,
    due: &'a DueEntries<'_>,
) -> Result<Option<Vec<AlertView<'a>>>, NoMemory>
    requires { AreTheirHits due.now }
    ensures { IfOk result (λ views. option_map (λ v. v.items) views ≡ alerts_shown form (due_value due.now).alerts) }
{
    match form {
        Form::Plain => Ok(None),
        Form::WithHits => Ok(Some(due.views(alloc)?)),
    }
}
