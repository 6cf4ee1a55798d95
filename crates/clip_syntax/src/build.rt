//! Queries built of their tokens.
ghost use Rattle.std.specs.Prelude.{◌≡◌, [], map, IfOk};
ghost use Rattle.std.specs.Arc.{arc_str_bytes};
ghost use Rattle.clip_grammar.specs.Shape as shape;
ghost use Rattle.clip_grammar.specs.Shape.{Written, written_tree, words_tree, fold_end, beside_and};
ghost use Rattle.clip_grammar.specs.Steps.Parser.{begins_colon, begins_and};
ghost use Rattle.clip_grammar.specs.Tree.{Tree, clauses_of, tree_of, end_of};
ghost use Rattle.clip_syntax.specs.Steps.Building.{fresh, item_field, add, add_prefix, add_span, add_words, open_group};
ghost use Rattle.clip_syntax.specs.Steps.Building.{close, read, group_of, state_of};
ghost use Rattle.clip_syntax.specs.Steps.Items.{items_words, words_of_items};
ghost use Rattle.clip_syntax.specs.Steps.TokenOf.{token_of, IfWritten};

use crate::token::{Token, begins_and, begins_colon};
use clip_grammar::query::{Bound, Occur, Query};
use clip_words::{NoMemory, fold};
use std::alloc::Global;
use std::mem;
use std::sync::ArcStr;
use std::vec::IntoIter;

/// A group whose clauses are still read.
#[derive(Drop)]
pub struct OpenGroup {
    clauses: Vec<(Occur, Query)>,
    /// The field of the items that name none.
    field: ArcStr,
    /// How the next clause counts.
    occur: Occur,
    /// The field that the next item names.
    nearer: Option<ArcStr>,
}

impl OpenGroup {
    /// A group with no clause yet, whose items are in this field.
    fn new(alloc: Global, field: ArcStr) -> OpenGroup
        ensures { group_of result ≡ fresh [] (arc_str_bytes field) }
    {
        OpenGroup {
            clauses: Vec::new(alloc),
            field,
            occur: Occur::Should,
            nearer: None,
        }
    }

    /// The field of the next item.
    fn item_field(&self) -> Result<ArcStr, NoMemory>
        ensures { IfOk result (λ field. arc_str_bytes field ≡ item_field (group_of self.now)) }
    {
        let field = match &self.nearer {
            Some(nearer) => nearer,
            None => &self.field,
        };
        Ok(field.clone()?)
    }

    /// Adds a clause.
    fn add(&mut self, query: Query, before_and: bool) -> Result<(), NoMemory>
        ensures { IfOk result (λ _. group_of self.new ≡ add (group_of self.old) before_and (tree_of query)) }
    {
        self.clauses
            .push((beside_and(before_and, self.occur), query))?;
        self.occur = Occur::Should;
        self.nearer = None;
        Ok(())
    }

    /// Adds a prefix, folded.
    fn add_prefix(&mut self, alloc: Global, front: &str, before_and: bool) -> Result<(), NoMemory>
        ensures { IfOk result (λ _. group_of self.new ≡ add_prefix (group_of self.old) before_and front.now) }
    {
        let field = self.item_field()?;
        let front = ArcStr::from_string(fold(alloc, front)?)?;
        self.add(Query::Prefix { field, front }, before_and)
    }

    /// Adds a range, its ends folded.
    fn add_span(
        &mut self,
        alloc: Global,
        low: &Bound,
        high: &Bound,
        before_and: bool,
    ) -> Result<(), NoMemory>
        ensures { IfOk result (λ _. group_of self.new
            ≡ add_span (group_of self.old) before_and (end_of low.now) (end_of high.now)) }
    {
        let field = self.item_field()?;
        let low = fold_bound(alloc, low)?;
        let high = fold_bound(alloc, high)?;
        self.add(Query::Span { field, low, high }, before_and)
    }

    /// The query whose clauses have been read.
    fn into_query(self) -> Query
        ensures { tree_of result ≡ Tree.Group (clauses_of (group_of self).clauses) }
    {
        let OpenGroup { clauses, .. } = self;
        Query::Group(clauses)
    }
}

/// How a clause counts that stands beside an `AND` or not.
fn beside_and(joined: bool, occur: Occur) -> Occur
    ensures { result ≡ beside_and joined occur }
{
    match occur {
        Occur::Should if joined => Occur::Must,
        _ => occur,
    }
}

/// One word is a term, several are a phrase.
fn words_query(field: ArcStr, mut words: Vec<ArcStr>) -> Query
    ensures { tree_of result ≡ words_tree (arc_str_bytes field) (map arc_str_bytes words.items) }
{
    if words.len() == 1 {
        let word = words.remove(0);
        Query::Term { field, word }
    } else {
        Query::Phrase { field, words }
    }
}

/// An end of a range, folded.
fn fold_bound(alloc: Global, bound: &Bound) -> Result<Bound, NoMemory>
    ensures { IfOk result (λ folded. end_of folded ≡ fold_end (end_of bound.now)) }
{
    match bound {
        Bound::Free => Ok(Bound::Free),
        Bound::With(text) => Ok(Bound::With(fold(alloc, text)?)),
        Bound::Without(text) => Ok(Bound::Without(fold(alloc, text)?)),
    }
}

/// A query of which some tokens have been read.
#[derive(Drop)]
pub struct Builder {
    /// The groups around, the innermost last.
    around: Vec<OpenGroup>,
    group: OpenGroup,
    /// The words of the items to come.
    words: IntoIter<Vec<ArcStr>>,
}

impl Builder {
    /// Adds an item that has the next words.
    fn add_words(&mut self, before_and: bool) -> Result<(), NoMemory>
        ensures { IfOk result (λ _. state_of self.new
            ≡ add_words (state_of self.old) before_and (state_of self.old).words) }
    {
        if let Some(words) = self.words.next() {
            let field = self.group.item_field()?;
            self.group.add(words_query(field, words), before_and)?;
        }
        Ok(())
    }

    /// Opens a group.
    fn open(&mut self, alloc: Global) -> Result<(), NoMemory>
        ensures { IfOk result (λ _. state_of self.new ≡ open_group (state_of self.old)) }
    {
        let field = self.group.item_field()?;
        let outer = mem::replace(&mut self.group, OpenGroup::new(alloc, field));
        self.around.push(outer)?;
        Ok(())
    }

    /// Closes the group: it becomes a clause of the group around it.
    fn close(&mut self, before_and: bool) -> Result<(), NoMemory>
        ensures { IfOk result (λ _. state_of self.new
            ≡ close (state_of self.old) before_and (state_of self.old).around) }
    {
        if let Some(outer) = self.around.pop() {
            let inner = mem::replace(&mut self.group, outer);
            self.group.add(inner.into_query(), before_and)?;
        }
        Ok(())
    }

    /// Reads a token; the rest is what follows it.
    fn read(&mut self, alloc: Global, token: &Token, rest: &[Token]) -> Result<(), NoMemory>
        ensures { IfOk result (λ _. state_of self.new ≡ read (token_of token.now)
            (begins_colon (map token_of rest.now)) (begins_and (map token_of rest.now)) (state_of self.old)) }
    {
        let before_colon = begins_colon(rest);
        let before_and = begins_and(rest);
        match token {
            Token::Plus | Token::And => self.group.occur = Occur::Must,
            Token::Minus | Token::Bang | Token::Not => self.group.occur = Occur::MustNot,
            Token::Plain(text) if before_colon => {
                let field = ArcStr::from_str(alloc, text)?;
                self.group.nearer = Some(field);
            }
            Token::Plain(_) | Token::Phrase(_) => self.add_words(before_and)?,
            Token::Front(text) => self.group.add_prefix(alloc, text, before_and)?,
            Token::Range(low, high) => self.group.add_span(alloc, low, high, before_and)?,
            Token::Star if !before_colon => self.group.add(Query::All, before_and)?,
            Token::Open => self.open(alloc)?,
            Token::Close => self.close(before_and)?,
            Token::Star | Token::Colon | Token::Or | Token::Other => {}
        }
        Ok(())
    }
}

/// The query that the tokens write. Items that name no field are in `text`.
///
/// `words` has the words of each plain or quoted item in order, as `item_words` returns them.
/// The cost is linear in the tokens and the bytes of their texts: no word is copied, and a field is shared.
#[tactic(auto, unfolding(crate::specs::Steps::Building::read_all))]
pub fn build(alloc: Global, tokens: &[Token], words: Vec<Vec<ArcStr>>) -> Result<Query, NoMemory>
    requires { words_of_items words.items ≡ items_words (map token_of tokens.now) }
    ensures { IfOk result (λ query. IfWritten tokens.now (λ written. tree_of query ≡ written_tree written)) }
{
    let field = ArcStr::from_str(alloc, "text")?;
    let mut builder = Builder {
        around: Vec::new(alloc),
        group: OpenGroup::new(alloc, field),
        words: words.into_iter(),
    };
    let mut rest = tokens;
    while let Some((token, after)) = rest.split_first() {
        rest = after;
        builder.read(alloc, token, rest)?;
    }
    let Builder { group, .. } = builder;
    Ok(group.into_query())
}
