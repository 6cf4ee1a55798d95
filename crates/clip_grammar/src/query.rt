//! Queries.
ghost use Rattle.std.specs.Prelude.{◌≡◌, ◌<◌, None, IfSome};
ghost use Rattle.clip_grammar.specs.Tree.{bare, nodes, tree_of};

use std::sync::ArcStr;

/// How a clause counts in its group.
#[derive(Clone, Copy, Debug)]
pub enum Occur {
    /// The clause has to hold.
    Must,
    /// Where no clause of the group has to hold, one of its `Should` clauses has to.
    Should,
    /// The clause may not hold.
    MustNot,
}

/// An end of a range of words, which are ordered by their bytes.
#[derive(Clone, Debug, Drop)]
pub enum Bound {
    /// No limit on this side.
    Free,
    /// This text is the end, itself included.
    With(String),
    /// This text is the end, itself left out.
    Without(String),
}

/// What is asked of an article. Fields stand as they are written; words, prefixes and ends of ranges are folded.
///
/// Texts are shared, but for the ends of ranges. Dropping recurses along the tree: in a query that was read 66 levels
/// at most, which are the outermost group, 64 groups in parentheses and a leaf.
#[derive(Debug)]
pub enum Query {
    /// The word is among the field's words.
    Term {
        field: ArcStr,
        word: ArcStr,
    },
    /// The words are in the field one after the other.
    Phrase {
        field: ArcStr,
        words: Vec<ArcStr>,
    },
    /// Some word of the field begins with this prefix.
    Prefix {
        field: ArcStr,
        front: ArcStr,
    },
    /// Some word of the field lies in the range.
    Span {
        field: ArcStr,
        low: Bound,
        high: Bound,
    },
    /// Every article.
    All,
    /// Clauses, each with how it counts, in the order in which they are written.
    Group(Vec<(Occur, Query)>),
}

impl Drop for Query {
    fn drop(self) {
        match self {
            Query::Term { field: _, word: _ } => {}
            Query::Phrase { field: _, words: _ } => {}
            Query::Prefix { field: _, front: _ } => {}
            Query::Span {
                field: _,
                low: _,
                high: _,
            } => {}
            Query::All => {}
            Query::Group(_) => {}
        }
    }
}

impl Query {
    /// The child of a group whose only clause must or may hold: the group holds where the child does.
    fn only_child(&self) -> Option<&Query>
        ensures some { IfSome result (λ child. bare (tree_of child.now) ≡ bare (tree_of self.now)) }
        ensures fewer { IfSome result (λ child. nodes (tree_of child.now) < nodes (tree_of self.now)) }
        ensures none { result ≡ None → bare (tree_of self.now) ≡ tree_of self.now }
    {
        let Query::Group(clauses) = self else {
            return None;
        };
        if clauses.len() != 1 {
            return None;
        }
        let (occur, child) = &clauses[0];
        match occur {
            Occur::Must | Occur::Should => Some(child),
            Occur::MustNot => None,
        }
    }

    /// What is left of a query without the groups around it that hold where their only child does. Takes no memory.
    /// Cost: a step for each group that is left out.
    pub fn bare(&self) -> &Query
        ensures { tree_of result.now ≡ bare (tree_of self.now) }
    {
        let mut bare = self;
        while let Some(child) = bare.only_child() {
            bare = child;
        }
        bare
    }
}
