//! The steps of a plan.
use clip_grammar::query::Occur;

/// A step of a plan: a leaf as a clause of the group that is open, or the beginning or the end of a group.
#[derive(Clone, Copy, Debug)]
pub(crate) enum Step {
    /// The article has the term of this number.
    Term(Occur, u32),
    /// The terms of these numbers stand next to each other in a field, in order.
    Pair(Occur, u32, u32),
    /// The words of the run of this place stand next to each other in a field, in order.
    Phrase(Occur, u32),
    /// The query of this place holds.
    Query(Occur, u32),
    /// A group begins, as a clause of the one around it, and so many steps stand between this one and its end.
    Open(Occur, u32),
    /// The group that was begun last ends, and is a clause of the one around it.
    Close(Occur),
}
