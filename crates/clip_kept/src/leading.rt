//! Where lines lead.
ghost use Rattle.std.specs.Prelude.{List, ℕ, ◌++◌};
ghost use Rattle.clip_model.specs.History.{History};
ghost use Rattle.clip_front.specs.Outcome.{Follows};
ghost use Rattle.clip_ahead.specs.Changes.{changes_of};

/// Lines lead from one history to another just where those of them do that ask for a change. So a run that goes on
/// from what was kept, and from the changes of lines behind it, goes on from where these lines led.
pub fn changes_lead_on()
    ensures changes { (names lines : List (List ℕ)) (h new : History)
        → Follows names h lines new → Follows names h (changes_of lines) new }
    ensures lines { (names lines : List (List ℕ)) (h new : History)
        → Follows names h (changes_of lines) new → Follows names h lines new }
    ensures behind { (names kept lines : List (List ℕ)) (h mid new : History)
        → Follows names h kept mid → Follows names mid lines new → Follows names h (kept ++ changes_of lines) new }
{}
