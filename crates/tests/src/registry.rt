//! The registry, candidates and alerts: scripts worked by hand, and limits.
use crate::script::{Step, answer, play};
use clip_match::Registrar;
use clip_registry::merge_all;
use clip_samples::standing;
use clip_standing::Command;
use std::alloc::Global;
use std::process::Abort;
use std::test::Fail;

/// A query takes the place of the one with its id.
#[rattlefmt::skip]
static REPLACING: [(Step, &str); 11] = [
    (Step::Count, "0 0"),
    (Step::Segments, ""),
    (Step::Register(&[("q1", "tea")]), "Registered(1)"),
    (Step::Count, "1 1"),
    (Step::Segments, "1/1 "),
    (Step::Register(&[("q2", "milk"), ("q1", "mat"), ("q1", "coffee")]), "Registered(2)"),
    (Step::Count, "2 2"),
    (Step::Segments, "1/0 2/2 "),
    (Step::Candidates("tea"), ""),
    (Step::Candidates("mat"), ""),
    (Step::Candidates("coffee"), "q1 "),
];

/// A delete counts the distinct ids that are there, and a clear all queries.
static DELETING: [(Step, &str); 10] = [
    (Step::Register(&[("q1", "tea")]), "Registered(1)"),
    (Step::Delete(&["q1", "q1", "q9"]), "Deleted(1)"),
    (Step::Delete(&["q1", "q1", "q9"]), "Deleted(0)"),
    (Step::Segments, "1/0 "),
    (Step::Clear(1), "Cleared(0)"),
    (Step::Segments, ""),
    (Step::Register(&[("q1", "tea")]), "Registered(1)"),
    (Step::Segments, "1/1 "),
    (Step::Clear(1), "Cleared(1)"),
    (Step::Count, "6 0"),
];

/// Callers have the numbers 1 to 64.
static NUMBERING: [(Step, &str); 5] = [
    (Step::Clear(1), "Cleared(0)"),
    (Step::Clear(64), "Cleared(0)"),
    (Step::Register(&[]), "Registered(0)"),
    (Step::Clear(65), "does not fit"),
    (Step::Count, "3 0"),
];

/// Just the live queries that share a key are candidates, by seq.
#[rattlefmt::skip]
static SHARING: [(Step, &str); 8] = [
    (Step::Register(&[("q1", "tea"), ("q2", "coffee"), ("q3", "+tea +milk")]), "Registered(3)"),
    (Step::Candidates("tea"), "q1 "),
    (Step::Register(&[("q0", "-spam tea milk")]), "Registered(1)"),
    (Step::Candidates("milk tea"), "q1 q3 q0 "),
    (Step::Register(&[("q1", "coffee")]), "Registered(1)"),
    (Step::Candidates("milk tea"), "q3 q0 "),
    (Step::Candidates("coffee"), "q2 q1 "),
    (Step::Candidates(""), ""),
];

/// The candidates are asked, and those that hold are alerted by id.
#[rattlefmt::skip]
static ALERTING: [(Step, &str); 4] = [
    (Step::Listen("q9", "tea", "desk"), "Registered(1)"),
    (Step::Register(&[("q2", "coffee"), ("q10", "+tea -milk"), ("q3", "+tea +milk")]), "Registered(3)"),
    (
        Step::Batch(&[("b", "tea"), ("a", "Tea, milk"), ("b", ""), ("a", "coffee tea")]),
        "b 2 2 q10/b/- q9/b/desk. a 2 3 q3/a/- q9/a/desk. b 2 0. a 2 3 q10/a/- q2/a/- q9/a/desk. ",
    ),
    (Step::Batch(&[]), ""),
];

/// A query that was replaced, deleted or cleared is not alerted.
#[rattlefmt::skip]
static LETTING_GO: [(Step, &str); 8] = [
    (Step::Register(&[("q1", "tea"), ("q2", "tea")]), "Registered(2)"),
    (Step::Batch(&[("a1", "tea"), ("a2", "coffee")]), "a1 1 2 q1/a1/- q2/a1/-. a2 1 0. "),
    (Step::Register(&[("q1", "coffee")]), "Registered(1)"),
    (Step::Batch(&[("a1", "tea"), ("a2", "coffee")]), "a1 2 1 q2/a1/-. a2 2 1 q1/a2/-. "),
    (Step::Delete(&["q2"]), "Deleted(1)"),
    (Step::Batch(&[("a1", "tea"), ("a2", "coffee")]), "a1 3 0. a2 3 1 q1/a2/-. "),
    (Step::Clear(1), "Cleared(1)"),
    (Step::Batch(&[("a1", "tea"), ("a2", "coffee")]), "a1 4 0. a2 4 0. "),
];

/// Plays a script with a new registrar that keeps its history, and with one that doesn't.
fn play_anew(rt: &impl Abort, alloc: Global, script: &[(Step, &str)]) -> Result<(), Fail> {
    let mut keeping = Registrar::new(alloc);
    play(rt, alloc, &mut keeping, script)?;
    let mut forgetting = Registrar::without_history(alloc);
    play(rt, alloc, &mut forgetting, script)
}

/// Whether the last command was the second of caller 1.
fn ends_with_second(registrar: &Registrar) -> bool {
    match registrar.last_entry() {
        Some(entry) => entry.caller == 1 && entry.number == 2,
        None => false,
    }
}

#[test]
fn a_history_is_kept_where_it_is_asked_for(rt: HostRuntime) -> Result<(), Fail> {
    let mut keeping = Registrar::new(rt.alloc());
    let mut forgetting = Registrar::without_history(rt.alloc());
    assert!(rt; keeping.last_entry().is_none());
    play(&rt, rt.alloc(), &mut keeping, &NUMBERING)?;
    play(&rt, rt.alloc(), &mut forgetting, &NUMBERING)?;
    assert!(rt; keeping.history().len() == 3);
    assert!(rt; forgetting.history().len() == 0);
    assert!(rt; ends_with_second(&keeping));
    assert!(rt; ends_with_second(&forgetting));
    assert!(rt; forgetting.number_of(64) == 1);
    Ok(())
}

#[test]
fn each_step_of_a_script_gives_what_stands_beside_it(rt: HostRuntime) -> Result<(), Fail> {
    play_anew(&rt, rt.alloc(), &REPLACING)?;
    play_anew(&rt, rt.alloc(), &DELETING)?;
    play_anew(&rt, rt.alloc(), &NUMBERING)?;
    play_anew(&rt, rt.alloc(), &SHARING)?;
    play_anew(&rt, rt.alloc(), &ALERTING)?;
    play_anew(&rt, rt.alloc(), &LETTING_GO)
}

/// A clear of two queries.
static CLEARED: [(Step, &str); 1] = [(Step::Clear(1), "Cleared(2)")];

#[test]
fn a_view_that_is_held_stays_while_the_registrar_goes_on(rt: HostRuntime) -> Result<(), Fail> {
    let mut registrar = Registrar::new(rt.alloc());
    play(&rt, rt.alloc(), &mut registrar, &REPLACING)?;
    let held = registrar.view()?;
    play(&rt, rt.alloc(), &mut registrar, &CLEARED)?;
    assert!(rt; held.count() == 2);
    Ok(())
}

/// A register of queries with the ids of these numbers.
fn numbered(alloc: Global, from: u32, to: u32) -> Result<Command, Fail> {
    let mut list = Vec::new(alloc);
    for number in from..to {
        let id = format!(in alloc; "{number}")?;
        list.push(standing(alloc, &id, "tea")?)?;
    }
    Ok(Command::Register(list))
}

/// Registers the queries of these numbers: whether this is the answer.
fn registers(
    alloc: Global,
    registrar: &mut Registrar,
    from: u32,
    to: u32,
    wanted: &str,
) -> Result<bool, Fail> {
    let command = numbered(alloc, from, to)?;
    Ok(answer(alloc, registrar, 1, command)?.as_str() == wanted)
}

/// Registers a line of the queries of these numbers, and takes merge turns: how many segments there are then.
fn segments_after(
    alloc: Global,
    registrar: &mut Registrar,
    from: u32,
    to: u32,
) -> Result<usize, Fail> {
    let command = numbered(alloc, from, to)?;
    answer(alloc, registrar, 1, command)?;
    merge_all(registrar, false)?;
    Ok(registrar.view()?.segments().len())
}

/// The most segments that there are after one of 200 lines of 1 and of 5 queries in turn.
fn most_of_mixed_sizes(alloc: Global) -> Result<usize, Fail> {
    let mut registrar = Registrar::without_history(alloc);
    let mut most = 0;
    for pair in 0..100u32 {
        let (from, to) = (pair * 6, pair * 6 + 6);
        let small = segments_after(alloc, &mut registrar, from, from + 1)?;
        let large = segments_after(alloc, &mut registrar, from + 1, to)?;
        most = most.max(small).max(large);
    }
    Ok(most)
}

#[test]
fn segments_of_mixed_sizes_are_few(rt: HostRuntime) -> Result<(), Fail> {
    // 600 entries lie between 4 to the power 4 and 4 to the power 5: levels 0 to 4, of each three at most.
    assert!(rt; most_of_mixed_sizes(rt.alloc())? <= 15);
    Ok(())
}

/// What a registry of 999,424 queries gives once 576 more are registered.
static FULL: [(Step, &str); 6] = [
    (Step::Count, "977 1000000"),
    (Step::Register(&[("new", "tea")]), "Full"),
    (Step::Count, "977 1000000"),
    (Step::Register(&[("7", "mat")]), "Registered(1)"),
    (Step::Count, "978 1000000"),
    (Step::Candidates("mat"), "7 "),
];

/// Registers a million queries.
fn fill(rt: &impl Abort, alloc: Global, registrar: &mut Registrar) -> Result<(), Fail> {
    for list in 0..976u32 {
        let (from, to) = (list * 1024, list * 1024 + 1024);
        assert!(rt; registers(alloc, registrar, from, to, "Registered(1024)")?);
    }
    assert!(rt; registers(alloc, registrar, 999_424, 1_000_000, "Registered(576)")?);
    play(rt, alloc, registrar, &FULL)
}

#[test]
fn a_million_queries_fill_the_registry(rt: HostRuntime) -> Result<(), Fail> {
    let mut registrar = Registrar::new(rt.alloc());
    fill(&rt, rt.alloc(), &mut registrar)
}
