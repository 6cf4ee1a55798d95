//! Laws of the grammar, for the crates above.
ghost use Rattle.clip_grammar.specs.Laws.{OneLexing, OneTree, OneFault, ReadsApart, ReadsOrFaults};

/// Each text is read in one way: it has at most one list of lexemes, at most one tree and, want of memory aside, at
/// most one fault; and it has either a tree and no fault, or a fault. Costs nothing.
pub fn one_reading()
    ensures lexemes { OneLexing }
    ensures tree { OneTree }
    ensures fault { OneFault }
    ensures apart { ReadsApart }
    ensures decided { ReadsOrFaults }
{}
