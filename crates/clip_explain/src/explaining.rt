//! How a text is read as a query, or why it is none.
ghost use Rattle.std.specs.Prelude.{◌≡◌, ◌≤◌, IfOk, map};
ghost use Rattle.std.specs.List.{list_any};
ghost use Rattle.clip_grammar.specs.Tree.{tree_of, nodes};
ghost use Rattle.clip_grammar.specs.declared.limits.TheConstants.{MOST_NODES};
ghost use Rattle.clip_extract.specs.Keys.{key_of};
ghost use Rattle.clip_explain.specs.Explaining.{is_any, Explains};

use crate::certain::{is_always, is_never};
use crate::places::place;
use clip_extract::{Key, keys, weight};
use clip_grammar::query::Query;
use clip_syntax::{QueryFault, read_query};
use clip_words::NoMemory;
use std::alloc::Global;

/// How a text is read.
#[derive(Drop)]
pub struct Explanation {
    /// What the text asks for.
    pub query: Query,
    /// The keys by which the query is found, in order, each once.
    pub keys: Vec<Key>,
    /// How many characters the word or the front has that decides the keys; 0 where nothing narrows the query.
    pub weight: u64,
    /// How many nodes the query's tree has, its groups among them.
    pub nodes: usize,
    /// Whether `Any` is among the keys, so that no article is ruled out by them.
    pub tried_on_all: bool,
    /// Whether no article holds the query, as far as `is_never` tells.
    pub never: bool,
    /// Whether every article holds the query, as far as `is_always` tells.
    pub always: bool,
}

/// Why a text is no query.
#[derive(Clone, Copy)]
pub struct Refusal {
    /// The reason, which is never `NoMemory`.
    pub fault: QueryFault,
    /// The byte of the text at which the fault is, at most its length.
    ///
    /// `TooLong`: the first byte past the bound. `Lexical(at)`: that byte. `LeftOut`: the first byte of the first
    /// lexeme that is left out. `Structure`: the first byte of the first lexeme that no clauses have behind those
    /// before it, or the text's length where each lexeme may stand and something is missing at the end. `NoWords`: the
    /// first byte of the first word or quoted text that is asked for and has no words. `TooBig`: the text's length.
    pub at: usize,
}

/// What a text is as a query.
#[derive(Drop)]
pub enum Explained {
    /// A query.
    Read(Explanation),
    /// None, for this reason.
    Refused(Refusal),
}

/// How many nodes the tree of a query has, of at most `MOST_NODES`.
fn node_count(query: &Query) -> usize
    requires { nodes (tree_of query.now) ≤ MOST_NODES }
    ensures { result ≡ nodes (tree_of query.now) }
{
    let mut count = 1;
    if let Query::Group(clauses) = query {
        for (_, child) in clauses {
            count += node_count(child);
        }
    }
    count
}

/// Whether a key is the one that every article has.
fn is_any(key: &Key) -> bool
    ensures { result ≡ is_any (key_of key.now) }
{
    match key {
        Key::Any => true,
        Key::Word(_, _) => false,
        Key::Front(_, _) => false,
    }
}

/// Whether one of the keys is that which every article has.
fn has_any(keys: &[Key]) -> bool
    ensures { result ≡ list_any is_any (map key_of keys.now) }
{
    for key in keys {
        if is_any(key) {
            return true;
        }
    }
    false
}

/// How a text is read as a query, or why it is none and where: just what the reader says of it, with the place.
///
/// `NoMemory` where an allocation failed. The cost is that of `read_query` and `keys`: linear in the bytes of the text,
/// and a sort of the keys; a refused text is cut into lexemes once more.
pub fn explain(alloc: Global, text: &str) -> Result<Explained, NoMemory>
    ensures { IfOk result (λ explained. Explains text.now explained) }
{
    let query = match read_query(alloc, text) {
        Ok(query) => query,
        Err(QueryFault::NoMemory) => return Err(NoMemory),
        Err(fault) => {
            let at = place(alloc, text, fault)?;
            return Ok(Explained::Refused(Refusal { fault, at }));
        }
    };
    let keys = keys(alloc, &query)?;
    Ok(Explained::Read(Explanation {
        weight: weight(&query),
        nodes: node_count(&query),
        tried_on_all: has_any(&keys),
        never: is_never(&query),
        always: is_always(&query),
        keys,
        query,
    }))
}
