//! An engine: lines and plain calls over one registrar.
ghost use Rattle.std.specs.Prelude.{◌≡◌, ◌⊎◌, [], ◌∷◌, IfOk, IfErr, OnOk, OnErr, Err, None, IsTrue, IsFalse, true};
ghost use Rattle.std.specs.Prelude.{false, map, option_map, string_bytes};
ghost use Rattle.std.specs.FinMap as finite;
ghost use Rattle.clip_model.specs.History.{Clear, Delete, applied, fits, has_room, replay};
ghost use Rattle.clip_model.specs.Alerts.{alerts};
ghost use Rattle.clip_meaning.specs.Article.{article_value, fault_of, pairs_of};
ghost use Rattle.clip_match.specs.Due.{due_value, AreTheirHits};
ghost use Rattle.clip_words.specs.Ids.{is_id};
ghost use Rattle.clip_protocol.specs.Steps.Views.{listing_view};
ghost use Rattle.clip_protocol.specs.declared.refusal.Unread.TheVariants as unread;
ghost use Rattle.clip_standing.specs.Command.{command_of};
ghost use Rattle.clip_engine.specs.Asked.{IsAsked};
ghost use Rattle.clip_engine.specs.Engine.{Accepts, Registers, Replies, form_of, fresh, has_feed, history_of};
ghost use Rattle.clip_engine.specs.Engine.{purged_engine};
ghost use Rattle.clip_engine.specs.Found.{ids_bytes};
ghost use Rattle.clip_engine.specs.Many.{RegistersMany};
ghost use Rattle.clip_engine.specs.Texts.{IsFoundAt};

use crate::answer::{answer, settings_of};
use crate::found::bytes_of_due;
use crate::house::House;
use crate::ids::bytes_of_ids;
use crate::many::take_many;
use clip_front::take_listing;
use clip_match::{DueEntries, HitsFound, View, entries_due};
use clip_meaning::{Article, ArticleFault};
use clip_model::MOST_LISTED;
use clip_protocol::{ListFault, Listing, Refusal, Unread};
use clip_run::{OwnRegistrar, hits_found};
use clip_standing::{Applied, Command, Refused};
use clip_stream::Form;
use clip_words::{NoMemory, is_id};
use std::alloc::Global;
use std::marker::Model;

/// An engine: a registrar of its own, how many lines it has answered, and whether its replies show hits. Contracts see
/// these.
#[derive(Drop)]
pub struct Engine {
    alloc: Global,
    owned: OwnRegistrar,
    lines: u64,
    hits: bool,
}

impl Model for Engine {
    ghost use Rattle.clip_engine.specs.Engine.{EngineIs, engine_code};

    ghost Value = { EngineIs };

    ghost coded = { engine_code };

    ghost view = { λ e. record { owned = e.owned; lines = e.lines; hits = e.hits } };
}

/// Why a line is not answered.
#[derive(Clone, Copy, Debug, PartialEq, Eq)]
pub enum LineFault {
    /// It has a line feed, so it is not one line.
    Feed,
    /// 18,446,744,073,709,551,615 lines were answered.
    TooMany,
    /// An allocation failed.
    NoMemory,
}

/// Reads an article.
fn read_article(alloc: Global, id: &str, fields: &[(String, String)]) -> Result<Article, Unread>
    ensures read { IfOk result (λ article. article ≡ article_value id.now (pairs_of fields.now)) }
    ensures kept { OnOk result (fault_of id.now (pairs_of fields.now) ≡ None) }
    ensures refused { IfErr result (λ why. (why ≡ unread.NoMemory) ⊎ ((why ≡ unread.Refused Refusal.Limit)
        × (fault_of id.now (pairs_of fields.now) ≡ None → ⊥))) }
{
    match Article::read(alloc, id, fields) {
        Ok(article) => Ok(article),
        Err(ArticleFault::NoMemory) => Err(Unread::NoMemory),
        Err(_) => Err(Unread::Refused(Refusal::Limit)),
    }
}

/// The form of replies, which show hits or don't.
fn form_of(hits: bool) -> Form
    ensures { result ≡ form_of hits }
{
    if hits { Form::WithHits } else { Form::Plain }
}

/// What is due to an article at a view, and how many queries were tried.
fn due_at<'a>(
    alloc: Global,
    view: &'a View,
    article: &'a Article,
    hits: HitsFound,
) -> Result<DueEntries<'a>, NoMemory>
    ensures alerts { IfOk result (λ due. (due_value due).alerts ≡ alerts view.now.history article.now) }
    ensures asked { IfOk result (λ due. IsAsked view.now.history article.now (due_value due).asked) }
    ensures hits { IfOk result (λ due. AreTheirHits due) }
{
    // What it ensures of the view makes the count one of registered queries.
    let _segments = view.segments();
    entries_due(alloc, view, article, hits)
}

impl Engine {
    /// An engine with no query. Takes no memory. Constant time.
    pub fn new(alloc: Global, hits: bool) -> Engine
        ensures { result ≡ fresh hits }
    {
        Engine {
            alloc,
            owned: OwnRegistrar::new(alloc),
            lines: 0,
            hits,
        }
    }

    /// Answers a line of the protocol, without its line feed: the text of the reply, with its line feed, or nothing for
    /// a blank line. It is the engine's next line, and is answered by what the lines and calls before it registered.
    ///
    /// `Feed` where the bytes have a line feed, `TooMany` where the count of lines is at its end, and `NoMemory` where
    /// an allocation failed. After a fault the engine is as it was, and the line is not counted.
    ///
    /// Cost: that of `take_line`, and for a match that of `entries_due` for each article, and of the reply.
    pub fn line(&mut self, line: &[u8]) -> Result<Vec<u8>, LineFault>
        ensures replies { IfOk result (λ text. Replies self.old self.new line.now text.items) }
        ensures one { OnOk result (has_feed line.now ≡ false) }
        ensures feed { result ≡ Err LineFault.Feed → has_feed line.now ≡ true }
        ensures many { result ≡ Err LineFault.TooMany → self.old.lines ≡ 18446744073709551615 }
        ensures unchanged { OnErr result (self.new ≡ self.old) }
    {
        if line.contains(&b'\n') {
            return Err(LineFault::Feed);
        }
        if self.lines == u64::MAX {
            return Err(LineFault::TooMany);
        }
        let number = self.lines + 1;
        let form = form_of(self.hits);
        let Ok(before) = self.owned.copy() else {
            return Err(LineFault::NoMemory);
        };
        match answer(self.alloc, &mut self.owned, form, number, line) {
            Ok(text) => {
                self.lines = number;
                Ok(text)
            }
            Err(NoMemory) => {
                self.owned = before;
                Err(LineFault::NoMemory)
            }
        }
    }

    /// Accepts a command of one query or id, or refuses it with nothing changed. Gives what the command counts.
    fn command(&mut self, command: Command) -> Result<u64, Unread>
        requires { IsTrue (fits (command_of command)) }
        ensures accepted { OnOk result (Accepts self.old self.new (command_of command)) }
        ensures counted { IfOk result (λ count. count ≡ applied (history_of self.old) (command_of command)) }
        ensures room { OnOk result (IsTrue (has_room (history_of self.old) (command_of command))) }
        ensures full { IfErr result (λ why. (why ≡ unread.NoMemory) ⊎ ((why ≡ unread.Refused Refusal.Full)
            × IsFalse (has_room (history_of self.old) (command_of command)))) }
        ensures unchanged { OnErr result (self.new ≡ self.old) }
    {
        match self.owned.commit(command) {
            Ok(Applied::Registered(count) | Applied::Deleted(count) | Applied::Cleared(count)) => {
                Ok(count)
            }
            Err(Refused::Full) => Err(Unread::Refused(Refusal::Full)),
            Err(Refused::NoMemory) => Err(Unread::NoMemory),
        }
    }

    /// Registers a query, which takes the place of the one with its id. The lines and calls after it see it.
    ///
    /// The first refusal that holds, with nothing changed: `Limit` where the id is not 1 to 256 bytes long, `Query`
    /// where the text is no query, `Listener` where the listener is neither `mail` nor `feed`, `Full` where the
    /// registry has no room. `NoMemory` where an allocation failed, with nothing changed.
    ///
    /// Cost: the reading of the text, and that of `Registrar::apply` and of `merge_all`.
    pub fn register(&mut self, listing: Listing) -> Result<(), Unread>
        ensures registers { Registers self.old self.new (listing_view listing) result }
        ensures unchanged { OnErr result (self.new ≡ self.old) }
    {
        if !is_id(listing.id.as_str()) {
            return Err(Unread::Refused(Refusal::Limit));
        }
        let listeners = House::new(self.alloc)?;
        let standing = take_listing(self.alloc, &listeners, listing)?;
        let mut standings = Vec::new(self.alloc);
        standings.push(standing)?;
        self.command(Command::Register(standings))?;
        Ok(())
    }

    /// Registers queries in order, each in the place of the one with its id, in one change: all or none. The lines and
    /// calls after it see them.
    ///
    /// With nothing changed: `Limit` at the first place past `MOST_LISTED`, where there are more; the reason of the
    /// first query that `register` would refuse by itself, at its place; `Full`, at the place behind all, where the
    /// registry has no room for them; and `NoMemory` where an allocation failed. Places count from 0.
    ///
    /// Cost: the reading of the texts, and that of `Registrar::apply` and of `merge_all`, once for all.
    #[tactic(auto, using(crate::proofs::Together::refused_for_one))]
    pub fn register_many(&mut self, listings: Vec<Listing>) -> Result<(), ListFault>
        ensures registers { RegistersMany self.old self.new (map listing_view listings.items) result }
        ensures unchanged { OnErr result (self.new ≡ self.old) }
    {
        let count = listings.len();
        if count > MOST_LISTED {
            return Err(ListFault::Refused(Refusal::Limit, MOST_LISTED as u64));
        }
        let Ok(listeners) = House::new(self.alloc) else {
            return Err(ListFault::NoMemory);
        };
        let standings = take_many(self.alloc, &listeners, listings)?;
        match self.command(Command::Register(standings)) {
            Ok(_) => Ok(()),
            Err(Unread::Refused(reason)) => Err(ListFault::Refused(reason, count as u64)),
            Err(Unread::NoMemory) => Err(ListFault::NoMemory),
        }
    }

    /// Takes the query with this id out: 1, or 0 where none has it.
    ///
    /// With nothing changed: `Limit` where the id is not 1 to 256 bytes long, `Full` where the registry has no room for
    /// one command more, `NoMemory` where an allocation failed.
    ///
    /// Cost: that of `Registrar::apply` and of `merge_all`.
    pub fn delete(&mut self, id: String) -> Result<u64, Unread>
        ensures deleted { OnOk result (Accepts self.old self.new (Delete (string_bytes id ∷ []))) }
        ensures counted { IfOk result (λ count. count ≡ applied (history_of self.old) (Delete (string_bytes id ∷ []))) }
        ensures kept { OnOk result (is_id (string_bytes id) ≡ true) }
        ensures refused { IfErr result (λ why. (why ≡ unread.NoMemory)
            ⊎ ((why ≡ unread.Refused Refusal.Limit) × (is_id (string_bytes id) ≡ false))
            ⊎ ((why ≡ unread.Refused Refusal.Full)
            × IsFalse (has_room (history_of self.old) (Delete (string_bytes id ∷ []))))) }
        ensures unchanged { OnErr result (self.new ≡ self.old) }
    {
        if !is_id(id.as_str()) {
            return Err(Unread::Refused(Refusal::Limit));
        }
        let mut ids = Vec::new(self.alloc);
        ids.push(id)?;
        self.command(Command::Delete(ids))
    }

    /// Takes all queries out. Gives how many there were.
    ///
    /// With nothing changed: `Full` where the registry has no room for one command more, `NoMemory` where an allocation
    /// failed. Cost: the dropping of what no snapshot holds.
    pub fn clear(&mut self) -> Result<u64, Unread>
        ensures cleared { OnOk result (Accepts self.old self.new Clear) }
        ensures counted { IfOk result (λ count. count ≡ finite.len (replay (history_of self.old))) }
        ensures refused { IfErr result (λ why. (why ≡ unread.NoMemory) ⊎ ((why ≡ unread.Refused Refusal.Full)
            × IsFalse (has_room (history_of self.old) Clear))) }
        ensures unchanged { OnErr result (self.new ≡ self.old) }
    {
        self.command(Command::Clear)
    }

    /// Gives back the memory of queries that were replaced or taken out: no dead entry is left. What is registered
    /// stays. `NoMemory` where an allocation failed, with nothing changed. Cost: that of `Registrar::purge`.
    pub fn purge(&mut self) -> Result<(), NoMemory>
        ensures purged { OnOk result (self.new ≡ purged_engine self.old) }
        ensures unchanged { OnErr result (self.new ≡ self.old) }
    {
        self.owned.registrar.purge()
    }

    /// A snapshot: an engine with the same history and the same count of lines. What is changed later in one of the two
    /// shows in nothing that the other answers. `NoMemory` where the count of the registry's holders is at its end.
    /// Constant time.
    pub fn snapshot(&self) -> Result<Engine, NoMemory>
        ensures { IfOk result (λ snapshot. snapshot ≡ self.now) }
    {
        Ok(Engine {
            alloc: self.alloc,
            owned: self.owned.copy()?,
            lines: self.lines,
            hits: self.hits,
        })
    }

    /// A copy of the text of the query that is registered under the id, if one is.
    ///
    /// `Limit` where the id is not 1 to 256 bytes long, `NoMemory` where an allocation failed. Cost: one search among
    /// the ids, and the copy.
    pub fn show(&self, id: &str) -> Result<Option<String>, Unread>
        ensures shown { IfOk result (λ text. option_map string_bytes text
            ≡ option_map (λ r. r.standing.text) (finite.get (replay (history_of self.now)) id.now)) }
        ensures kept { OnOk result (is_id id.now ≡ true) }
        ensures refused { IfErr result (λ why. (why ≡ unread.NoMemory) ⊎ ((why ≡ unread.Refused Refusal.Limit)
            × (is_id id.now ≡ false))) }
    {
        if !is_id(id) {
            return Err(Unread::Refused(Refusal::Limit));
        }
        Ok(self.owned.registrar.view()?.copied_text(self.alloc, id)?)
    }

    /// The ids of the registered queries in their byte order, as bytes: their count, and each after its length; numbers
    /// are eight bytes, the lowest first.
    ///
    /// `NoMemory` where an allocation failed. Cost: a step for each entry of a segment, a sort of those of registered
    /// queries by their ids, and a copy of these.
    pub fn ids(&self) -> Result<Vec<u8>, NoMemory>
        ensures { IfOk result (λ bytes. bytes.items ≡ ids_bytes (finite.keys (replay (history_of self.now)))) }
    {
        bytes_of_ids(self.alloc, &self.owned.registrar.view()?)
    }

    /// The alerts of an article as bytes: of each registered query that holds of it one, in the byte order of their
    /// ids, and of no other. First stands how many queries were tried, then the count of alerts, and then for each the
    /// id of the query and its hits, of which there are none where the replies show none. A text stands after its
    /// length, hits after their count, and a hit is a field's name and a position; numbers are eight bytes, the lowest
    /// first. No listener hears them, and the count of lines stays.
    ///
    /// `Limit` where the id or a field is beyond its limits, the first that `Article::read` refuses; `NoMemory` where
    /// an allocation failed.
    ///
    /// Cost: that of `Article::read` and of `clip_match::entries_due`; and a copy of the ids, and of the hits where
    /// they are shown. No alert is made.
    #[tactic(auto, using(crate::proofs::Asking::found_at))]
    pub fn match_article(&self, id: &str, fields: &[(String, String)]) -> Result<Vec<u8>, Unread>
        ensures found { IfOk result (λ bytes. IsFoundAt self.now id.now (pairs_of fields.now) bytes.items) }
        ensures kept { OnOk result (fault_of id.now (pairs_of fields.now) ≡ None) }
        ensures refused { IfErr result (λ why. (why ≡ unread.NoMemory) ⊎ ((why ≡ unread.Refused Refusal.Limit)
            × (fault_of id.now (pairs_of fields.now) ≡ None → ⊥))) }
    {
        let article = read_article(self.alloc, id, fields)?;
        let view = self.owned.registrar.view()?;
        let hits = hits_found(settings_of(form_of(self.hits)));
        let due = due_at(self.alloc, &view, &article, hits)?;
        Ok(bytes_of_due(self.alloc, &due, self.hits)?)
    }

    /// How many queries are registered. `NoMemory` where the count of the registry's holders is at its end. Constant
    /// time.
    pub fn count(&self) -> Result<u64, NoMemory>
        ensures { IfOk result (λ count. count ≡ finite.len (replay (history_of self.now))) }
    {
        Ok(self.owned.registrar.view()?.count())
    }
}
