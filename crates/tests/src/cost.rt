//! What an article costs: how many queries are tried for it, how many plans judged, how many positions read.
use crate::script::answer;
use clip_match::{HitsFound, Registrar, entries_due};
use clip_samples::{article, standing};
use clip_standing::Command;
use std::test::Fail;

/// The text of an article, how many queries are tried, how many plans are judged, and how many positions are read.
type Row = (&'static str, u64, u64, u64);

#[rattlefmt::skip]
static ROWS: [Row; 3] = [
    // `tea` has q1 as its key, and q2 has it as a second key; `milk` is the key of q2
    ("milk tea", 2, 2, 3),
    // the second key of q2 is not there, so no plan is judged
    ("milk", 1, 0, 1),
    ("rain", 0, 0, 0),
];

#[test]
fn plans_are_judged_and_positions_read_of_candidates_alone(rt: HostRuntime) -> Result<(), Fail> {
    let alloc = rt.alloc();
    let mut registrar = Registrar::new(alloc);
    let list = vec![in alloc;
        standing(alloc, "q1", "tea")?,
        standing(alloc, "q2", "+tea +milk")?,
        standing(alloc, "q3", "coffee")?,
    ]?;
    answer(alloc, &mut registrar, 1, Command::Register(list))?;
    let view = registrar.view()?;
    for (text, asked, judged, read) in &ROWS {
        let article = article(alloc, "a1", &[("text", *text)])?;
        let due = entries_due(alloc, &view, &article, HitsFound::WhenAsked)?;
        let counts = (due.asked(), due.judged(), due.positions_read());
        assert!(rt;
            counts.0 == *asked && counts.1 == *judged && counts.2 == *read,
            "{text}"
        );
    }
    Ok(())
}
