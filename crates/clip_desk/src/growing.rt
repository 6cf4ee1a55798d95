//! The registry after one command more, beside the one before it.
ghost use Rattle.std.specs.Prelude.{◌≡◌, ◌≢◌, ◌<◌, ◌≤◌, IfOk, IsTrue, IsFalse};
ghost use Rattle.clip_model.specs.History.{fits, has_room, applied};
ghost use Rattle.clip_standing.specs.Command.{command_of, answer_of};
ghost use Rattle.clip_registry.specs.RegistryState.{state_after};

use crate::refused::Refused;
use clip_indexed::Index;
use clip_model::MOST_CALLERS;
use clip_registry::{Registrar, View};
use clip_standing::{Applied, Command, Refused as Declined};

/// A registrar that has taken a command, a view of it, and the answer.
#[derive(Drop)]
pub struct Grown<I: Index> {
    pub registrar: Registrar<I>,
    pub view: View<I>,
    pub applied: Applied,
}

/// The registry after a caller's next command, where the registrar stays as it is: `Full` where the command has no
/// room, and `NoMemory` where an allocation failed. It costs that of `Registrar::after`.
pub fn grow<I: Index>(
    registrar: &Registrar<I>,
    caller: u32,
    command: &Command,
) -> Result<Grown<I>, Refused>
    requires fits { IsTrue (fits (command_of command.now)) }
    requires caller { (0 < caller) × (caller ≤ MOST_CALLERS) }
    ensures registrar { IfOk result (λ n. n.registrar ≡ state_after registrar.now caller (command_of command.now)) }
    ensures view { IfOk result (λ n. n.view ≡ n.registrar) }
    ensures applied { IfOk result (λ n. n.applied
        ≡ answer_of (command_of command.now) (applied registrar.now.history
        (command_of command.now))) }
    ensures full { result ≡ Err Refused.Full → IsFalse (has_room registrar.now.history (command_of command.now)) }
    ensures never_foreign { result ≢ Err Refused.Foreign }
{
    let (registrar, applied) = match registrar.after(caller, command) {
        Ok(next) => next,
        Err(Declined::Full) => return Err(Refused::Full),
        Err(Declined::NoMemory) => return Err(Refused::NoMemory),
    };
    let view = registrar.view()?;
    Ok(Grown {
        registrar,
        view,
        applied,
    })
}
