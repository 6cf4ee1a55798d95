//! A registrar that takes four queries, merges them, and purges one that was deleted.
ghost use Rattle.std.specs.Prelude.{IfSome, IsTrue};
ghost use Rattle.clip_model.specs.History.{fits};
ghost use Rattle.clip_standing.specs.Command.{command_of};

use crate::telling::{answered, call, refused};
use clip_match::{MergeJob, Registrar};
use clip_registry::Installed;
use clip_samples::{owned, standing};
use clip_standing::{Applied, Command, Refused};
use clip_words::NoMemory;
use std::alloc::Global;

/// The command that registers `tea` under an id; none where memory is refused.
pub fn registering(alloc: Global, id: &str) -> Option<Command>
    ensures { IfSome result (λ c. IsTrue (fits (command_of c))) }
{
    let standing = standing(alloc, id, "tea").ok()?;
    Some(Command::Register(vec![in alloc; standing].ok()?))
}

/// How many queries were registered or taken out.
fn count_of(applied: Applied) -> u64 {
    match applied {
        Applied::Registered(count) | Applied::Deleted(count) | Applied::Cleared(count) => count,
    }
}

/// Accepts a command, which comes back where it is refused.
fn of_apply<R: Print>(rt: &R, registrar: &mut Registrar, command: Command)
    requires { IsTrue (fits (command_of command)) }
{
    call(rt, "Registrar::apply");
    match registrar.apply(1, command) {
        Ok(applied) => {
            answered(rt, count_of(applied));
        }
        Err((command, Refused::NoMemory)) => {
            refused(rt);
            call(rt, "Registrar::apply");
            if let Ok(applied) = registrar.apply(1, command) {
                answered(rt, count_of(applied));
            }
        }
        Err((_, Refused::Full)) => {}
    }
}

/// Begins a merge.
fn of_begin<R: Print>(rt: &R, registrar: &Registrar) -> bool {
    call(rt, "Registrar::begin");
    match registrar.begin() {
        Ok(job) => answered(rt, job.is_some() as u64),
        Err(NoMemory) => refused(rt),
    }
}

/// Runs a merge.
fn of_run<R: Print>(rt: &R, job: &MergeJob) -> bool {
    call(rt, "MergeJob::run");
    match job.run() {
        Ok(_) => answered(rt, 1),
        Err(NoMemory) => refused(rt),
    }
}

/// Installs a merge that is run before.
fn of_install<R: Print>(rt: &R, registrar: &mut Registrar, job: &MergeJob) -> Option<bool> {
    let merged = job.run().ok()?;
    call(rt, "Registrar::install");
    Some(match registrar.install(merged) {
        Ok(installed) => answered(rt, (installed == Installed::Done) as u64),
        Err(NoMemory) => refused(rt),
    })
}

/// Purges.
fn of_purge<R: Print>(rt: &R, registrar: &mut Registrar) -> bool {
    call(rt, "Registrar::purge");
    match registrar.purge() {
        Ok(()) => answered(rt, 1),
        Err(NoMemory) => refused(rt),
    }
}

/// Merges the four segments of a registrar.
fn merge<R: Print>(rt: &R, registrar: &mut Registrar) -> Option<()> {
    let _ = of_begin(rt, registrar) || of_begin(rt, registrar);
    let job = registrar.begin().ok()??;
    let _ = of_run(rt, &job) || of_run(rt, &job);
    let _ = of_install(rt, registrar, &job)? || of_install(rt, registrar, &job)?;
    Some(())
}

/// Deletes q2, and purges.
fn purge<R: Print>(rt: &R, alloc: Global, registrar: &mut Registrar) -> Option<()> {
    let delete = Command::Delete(owned(alloc, &["q2"]).ok()?);
    if delete.fits() {
        of_apply(rt, registrar, delete);
    }
    let _ = of_purge(rt, registrar) || of_purge(rt, registrar);
    Some(())
}

/// Makes each call on a registrar.
pub fn play<R: Print + AllocGlobal>(rt: &R) -> Option<()> {
    let alloc = rt.alloc();
    let mut registrar = Registrar::new(alloc);
    for id in ["q1", "q2", "q3", "q4"] {
        of_apply(rt, &mut registrar, registering(alloc, id)?);
    }
    merge(rt, &mut registrar)?;
    purge(rt, alloc, &mut registrar)
}
