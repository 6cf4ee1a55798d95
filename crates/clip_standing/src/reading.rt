//! Readings: a text beside the query that it is read as.
ghost use Rattle.std.specs.Prelude.{◌≡◌};
ghost use Rattle.std.specs.Arc.{arc_str_bytes};
ghost use Rattle.std.specs.Str.{bytes_eq};
ghost use Rattle.clip_grammar.specs.Reading.{Reads};
ghost use Rattle.clip_grammar.specs.Tree.{tree_of};

use clip_grammar::query::Query;
use std::marker::Model;
use std::sync::ArcStr;

/// A text and the query that it is read as. Contracts see the text's bytes and the query's tree.
#[derive(Debug, Drop)]
pub(crate) struct ReadQuery {
    text: ArcStr,
    query: Query,
}

impl Model for ReadQuery {
    ghost use Rattle.std.specs.Prelude.{ℕ, List};
    ghost use Rattle.std.specs.Arc.{arc_str_bytes};
    ghost use Rattle.std.specs.Coded.{coded×, coded_list, coded_ℕ};
    ghost use Rattle.clip_grammar.specs.Reading.{Reads};
    ghost use Rattle.clip_grammar.specs.Tree.{Tree, tree_of};
    ghost use Rattle.clip_grammar.specs.TreeCode.{tree_code};

    ghost Value = { List ℕ × Tree };

    ghost coded = { coded× (coded_list coded_ℕ) tree_code };

    ghost view = { λ r. (arc_str_bytes r.text, tree_of r.query) };

    ghost invariant = { λ r. Reads (arc_str_bytes r.text) (tree_of r.query) };
}

impl ReadQuery {
    /// A text beside the query that it is read as.
    pub(crate) fn new(text: ArcStr, query: Query) -> ReadQuery
        requires { Reads (arc_str_bytes text) (tree_of query) }
        ensures { result ≡ (arc_str_bytes text, tree_of query) }
    {
        ReadQuery { text, query }
    }

    /// Whether it is the reading of this text.
    pub(crate) fn is_of(&self, text: &str) -> bool
        ensures { result ≡ bytes_eq self.now.0 text.now }
    {
        self.text.as_str() == text
    }

    /// The query.
    pub(crate) fn query(&self) -> &Query
        ensures query { tree_of result.now ≡ self.now.1 }
        ensures reads { Reads self.now.0 self.now.1 }
    {
        &self.query
    }

    /// The query, where the text is not needed any more.
    pub(crate) fn into_query(self) -> Query
        ensures query { tree_of result ≡ self.1 }
        ensures reads { Reads self.0 self.1 }
    {
        let ReadQuery { text: _, query } = self;
        query
    }
}
