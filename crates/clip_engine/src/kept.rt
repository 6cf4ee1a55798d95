//! What C keeps: an engine, and the bytes that its last call left to be taken.
ghost use Rattle.std.specs.Prelude.{◌≡◌, IfOk, IfErr, OnOk, OnErr, None, Ok, Err, map, option_map, string_bytes, true};
ghost use Rattle.std.specs.FinMap as finite;
ghost use Rattle.std.specs.List.{All};
ghost use Rattle.std.specs.Str.{IsUtf8};
ghost use Rattle.clip_words.specs.Ids.{is_id};
ghost use Rattle.clip_meaning.specs.Article.{fault_of, pairs_of};
ghost use Rattle.clip_engine.specs.Engine.{fresh, history_of};
ghost use Rattle.clip_protocol.specs.Steps.Views.{listing_view};
ghost use Rattle.clip_model.specs.History.{replay};
ghost use Rattle.clip_engine.specs.Texts.{AreTexts, IsField, IsFoundAt, IsNoText, IsReadable, fields_of};
ghost use Rattle.clip_engine.specs.Texts.{listing_at, listings_at};
ghost use Rattle.clip_engine.specs.Many.{RegistersMany};
ghost use Rattle.clip_engine.specs.Calls.{
  ClearTo,
  CountTo,
  DeleteTo,
  ExplainLineTo,
  ExplainTo,
  GatherTo,
  IdsTo,
  IsNoArticle,
  IsNoId,
  IsRefusedAt,
  LineTo,
  ManyTo,
  MatchTo,
  PurgeTo,
  RegisterTo,
  ShowTo,
  TakeTo,
  WordsTo,
};

use crate::code;
use crate::engine::Engine;
use crate::explained::{line_told, query_told, words_told};
use crate::listed::{Listed, Which, listings_of, which_of};
use crate::parts::{Part, gathered};
use clip_protocol::Listing;
use clip_words::NoMemory;
use std::alloc::Global;

/// A field of an article: its name and its text.
#[repr(C)]
#[derive(Clone, Copy)]
pub struct Field<'a> {
    /// The name.
    pub name: &'a [u8],
    /// The text.
    pub text: &'a [u8],
}

/// An engine, and the bytes that its last call left to be taken.
#[derive(Drop)]
pub struct Kept {
    /// The engine.
    pub engine: Engine,
    /// The bytes.
    pub text: Vec<u8>,
}

/// The text that the bytes are, or `UTF8` where they are none.
fn text_of(alloc: Global, bytes: &[u8]) -> Result<String, u32>
    ensures ok { IfOk result (λ text. string_bytes text ≡ bytes.now) }
    ensures text { OnOk result (IsUtf8 bytes.now) }
    ensures err { IfErr result (λ code. code ≡ 0 → ⊥) }
    ensures why { IfErr result (IsNoText (IsUtf8 bytes.now)) }
{
    let Ok(text) = str::from_utf8(bytes) else {
        return Err(code::UTF8);
    };
    match String::from_str(alloc, text) {
        Ok(text) => Ok(text),
        Err(_) => Err(code::NO_MEMORY),
    }
}

/// The query to register, or why its texts are not read.
pub(crate) fn listing_of(
    alloc: Global,
    id: &[u8],
    query: &[u8],
    has_listener: bool,
    listener: &[u8],
) -> Result<Listing, u32>
    ensures ok { IfOk result (λ listing. listing_view listing ≡ listing_at id.now query.now has_listener listener.now) }
    ensures texts { OnOk result (AreTexts id.now query.now has_listener listener.now) }
    ensures err { IfErr result (λ code. code ≡ 0 → ⊥) }
    ensures why { IfErr result (IsNoText (AreTexts id.now query.now has_listener listener.now)) }
{
    let id = text_of(alloc, id)?;
    let query = text_of(alloc, query)?;
    if has_listener {
        let listener = Some(text_of(alloc, listener)?);
        return Ok(Listing {
            id,
            query,
            listener,
        });
    }
    Ok(Listing {
        id,
        query,
        listener: None,
    })
}

/// The names and texts of an article.
pub(crate) fn texts_of(alloc: Global, fields: &[Field<'_>]) -> Result<Vec<(String, String)>, u32>
    ensures ok { IfOk result (λ pairs. pairs_of pairs.items ≡ fields_of fields.now) }
    ensures texts { OnOk result (All IsField (fields_of fields.now)) }
    ensures err { IfErr result (λ code. code ≡ 0 → ⊥) }
    ensures why { IfErr result (IsNoText (All IsField (fields_of fields.now))) }
{
    let mut pairs = Vec::new(alloc);
    for field in fields {
        let name = text_of(alloc, field.name)?;
        let text = text_of(alloc, field.text)?;
        if pairs.push((name, text)).is_err() {
            return Err(code::NO_MEMORY);
        }
    }
    Ok(pairs)
}

impl Kept {
    /// An engine with no query. Takes no memory. Constant time.
    pub fn new(alloc: Global, hits: bool) -> Kept
        ensures { result.engine ≡ fresh hits }
    {
        Kept {
            engine: Engine::new(alloc, hits),
            text: Vec::new(alloc),
        }
    }

    /// Answers a line, and keeps the reply.
    pub fn line(&mut self, line: &[u8]) -> u32
        ensures { LineTo line.now result self.old self.new }
    {
        match self.engine.line(line) {
            Ok(text) => {
                self.text = text;
                code::OK
            }
            Err(why) => code::code_of_line(why),
        }
    }

    /// Registers a query.
    pub fn register(
        &mut self,
        alloc: Global,
        id: &[u8],
        query: &[u8],
        has_listener: bool,
        listener: &[u8],
    ) -> u32
        ensures { RegisterTo id.now query.now has_listener listener.now result self.old self.new }
    {
        match listing_of(alloc, id, query, has_listener, listener) {
            Ok(listing) => match self.engine.register(listing) {
                Ok(()) => code::OK,
                Err(why) => code::code_of(why),
            },
            Err(code) => code,
        }
    }

    /// Registers queries, all or none, or says which is refused.
    #[tactic(auto, using(crate::proofs::Together::refused_at))]
    fn registered_many(&mut self, alloc: Global, listed: &[Listed<'_>]) -> Result<(), Which>
        ensures ok { OnOk result (RegistersMany self.old.engine self.new.engine (listings_at listed.now) (Ok tt)) }
        ensures texts { OnOk result (All IsReadable listed.now) }
        ensures err { IfErr result (λ which.
            IsRefusedAt listed.now self.old.engine self.new.engine which.code which.place) }
        ensures unchanged { OnErr result (self.new.engine ≡ self.old.engine) }
    {
        let listings = listings_of(alloc, listed)?;
        match self.engine.register_many(listings) {
            Ok(()) => Ok(()),
            Err(why) => Err(which_of(why)),
        }
    }

    /// Registers queries, all or none; `which` is the place of the one that is refused.
    pub fn register_many(&mut self, alloc: Global, listed: &[Listed<'_>], which: &mut u64) -> u32
        ensures { ManyTo listed.now result which.new self.old self.new }
    {
        match self.registered_many(alloc, listed) {
            Ok(()) => code::OK,
            Err(Which { code, place }) => {
                *which = place;
                code
            }
        }
    }

    /// Takes all queries out.
    pub fn clear(&mut self) -> u32
        ensures { ClearTo result self.old self.new }
    {
        match self.engine.clear() {
            Ok(_) => code::OK,
            Err(why) => code::code_of(why),
        }
    }

    /// Gives back the memory of queries that were replaced or taken out.
    pub fn purge(&mut self) -> u32
        ensures { PurgeTo result self.old self.new }
    {
        match self.engine.purge() {
            Ok(()) => code::OK,
            Err(NoMemory) => code::NO_MEMORY,
        }
    }

    /// A snapshot of what it keeps, which has no bytes to be taken. Constant time.
    pub fn snapshot(&self, alloc: Global) -> Result<Kept, NoMemory>
        ensures { IfOk result (λ snapshot. snapshot.engine ≡ self.now.engine) }
    {
        Ok(Kept {
            engine: self.engine.snapshot()?,
            text: Vec::new(alloc),
        })
    }

    /// The text of the query with this id, if one has it.
    fn shown(&self, alloc: Global, id: &[u8]) -> Result<Option<String>, u32>
        ensures ok { IfOk result (λ text. option_map string_bytes text
            ≡ option_map (λ r. r.standing.text) (finite.get (replay (history_of self.now.engine)) id.now)) }
        ensures is { OnOk result (IsUtf8 id.now × (is_id id.now ≡ true)) }
        ensures err { IfErr result (IsNoId id.now) }
    {
        let id = text_of(alloc, id)?;
        match self.engine.show(id.as_str()) {
            Ok(text) => Ok(text),
            Err(why) => Err(code::code_of(why)),
        }
    }

    /// Keeps the text of the query with this id, and says whether one has it.
    #[tactic(auto, using(crate::proofs::Together::shown_some, crate::proofs::Together::shown_none))]
    pub fn show(&mut self, alloc: Global, id: &[u8], has: &mut bool) -> u32
        ensures { ShowTo id.now result has.new self.old self.new }
    {
        match self.shown(alloc, id) {
            Ok(Some(text)) => {
                *has = true;
                self.text = text.into_bytes();
                code::OK
            }
            Ok(None) => {
                *has = false;
                code::OK
            }
            Err(code) => code,
        }
    }

    /// Keeps the ids of the registered queries, in their byte order.
    pub fn ids(&mut self) -> u32
        ensures { IdsTo result self.old self.new }
    {
        match self.engine.ids() {
            Ok(ids) => {
                self.text = ids;
                code::OK
            }
            Err(NoMemory) => code::NO_MEMORY,
        }
    }

    /// Takes a query out.
    pub fn delete(&mut self, alloc: Global, id: &[u8], deleted: &mut u64) -> u32
        ensures { DeleteTo id.now result deleted.new self.old self.new }
    {
        match text_of(alloc, id) {
            Ok(id) => match self.engine.delete(id) {
                Ok(count) => {
                    *deleted = count;
                    code::OK
                }
                Err(why) => code::code_of(why),
            },
            Err(code) => code,
        }
    }

    /// How many queries are registered.
    pub fn count(&self, count: &mut u64) -> u32
        ensures { CountTo result count.new self.now self.now }
    {
        match self.engine.count() {
            Ok(found) => {
                *count = found;
                code::OK
            }
            Err(NoMemory) => code::NO_MEMORY,
        }
    }

    /// What is found of an article, as bytes.
    #[tactic(auto, using(crate::proofs::Asking::told_at))]
    fn found(&self, alloc: Global, id: &[u8], fields: &[Field<'_>]) -> Result<Vec<u8>, u32>
        ensures ok { IfOk result (λ bytes. IsFoundAt self.now.engine id.now (fields_of fields.now) bytes.items) }
        ensures is { OnOk result (IsUtf8 id.now × All IsField (fields_of fields.now)
            × (fault_of id.now (fields_of fields.now) ≡ None)) }
        ensures err { IfErr result (λ code. code ≡ 0 → ⊥) }
        ensures why { IfErr result (IsNoArticle id.now (fields_of fields.now)) }
    {
        let id = text_of(alloc, id)?;
        let pairs = texts_of(alloc, fields)?;
        match self.engine.match_article(id.as_str(), &pairs) {
            Ok(bytes) => Ok(bytes),
            Err(why) => Err(code::code_of(why)),
        }
    }

    /// Keeps what was made, or answers why it was not.
    fn keep(&mut self, made: Result<Vec<u8>, u32>) -> u32
        requires { IfErr made (λ code. code ≡ 0 → ⊥) }
        ensures kept { result ≡ 0 → made ≡ Ok self.new.text }
        ensures refused { (result ≡ 0 → ⊥) → made ≡ Err result }
        ensures engine { self.new.engine ≡ self.old.engine }
    {
        match made {
            Ok(bytes) => {
                self.text = bytes;
                code::OK
            }
            Err(code) => code,
        }
    }

    /// Matches an article, and keeps what was found.
    pub fn match_article(&mut self, alloc: Global, id: &[u8], fields: &[Field<'_>]) -> u32
        ensures { MatchTo id.now (fields_of fields.now) result self.old self.new }
    {
        let found = self.found(alloc, id, fields);
        self.keep(found)
    }

    /// Gathers what parts found of an article, and keeps it: that of `gathered`, at its cost. Where they are parts of
    /// one history, that is what an engine with the whole finds (`law_of_gathering`).
    pub fn gather(&mut self, alloc: Global, parts: &[Part<'_>]) -> u32
        ensures { GatherTo parts.now result self.old self.new }
    {
        self.keep(gathered(alloc, parts))
    }

    /// Explains a query's text, and keeps what is told of it as compact JSON: that of `query_text` of
    /// `clip_explain_lines`. Its cost is that of `query_text`.
    pub fn explain(&mut self, alloc: Global, query: &[u8]) -> u32
        ensures { ExplainTo query.now result self.old self.new }
    {
        self.keep(query_told(alloc, query))
    }

    /// Finds where the words of a text stand, and keeps it as two numbers for each word, of eight bytes, the lowest
    /// first: its first byte, and the byte behind its last one. Its cost is linear in the text.
    pub fn words(&mut self, alloc: Global, text: &[u8]) -> u32
        ensures { WordsTo text.now result self.old self.new }
    {
        self.keep(words_told(alloc, text))
    }

    /// Keeps what a line would be refused for as compact JSON: that of `line_text` of `clip_explain_lines`. Its cost is
    /// that of `line_text`.
    pub fn explain_line(&mut self, alloc: Global, line: &[u8]) -> u32
        ensures { ExplainLineTo line.now result self.old self.new }
    {
        self.keep(line_told(alloc, line))
    }

    /// Copies the bytes that are kept to room of their size, and keeps none then; else all stays as it is. Whether
    /// there was such room.
    pub fn take(&mut self, room: &mut [u8]) -> bool
        ensures { TakeTo room.old room.new result self.old self.new }
    {
        if room.len() != self.text.len() {
            return false;
        }
        room.copy_from_slice(&self.text);
        self.text.clear();
        true
    }
}
