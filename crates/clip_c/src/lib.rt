//! The library for C: calls over an engine that lies where C keeps it. `bindings/c/edge.c` stands between these and the
//! calls of `include/pressclip.h`.
#![tactic(auto)]

ghost use Rattle.std.specs.Prelude.{◌≡◌, IsSome, None, length, true};
ghost use Rattle.std.specs.Mem.{type_size};
ghost use Rattle.clip_engine.specs.Engine.{fresh};
ghost use Rattle.clip_engine.specs.Calls.{
  Between,
  Keeps,
  LineTo,
  RegisterTo,
  ManyTo,
  DeleteTo,
  ClearTo,
  PurgeTo,
  CountTo,
  ShowTo,
  IdsTo,
  SnapshotTo,
  TakeTo,
  MatchTo,
  GatherTo,
  ExplainTo,
  WordsTo,
  ExplainLineTo,
};
ghost use Rattle.clip_engine.specs.Near.{NearTo};
ghost use Rattle.clip_engine.specs.Texts.{fields_of};
ghost use Rattle.clip_engine.specs.contracts.kept.Kept.{the_row};

use clip_engine::{Field, Kept, Listed, Pair, Part, Slot, near, snapshot_into};
use std::alloc::Global;

/// How many bytes of memory a slot needs, at an address that 8 divides: the size of what is kept there.
#[unsafe(no_mangle)]
pub extern "C" fn clip_size() -> usize
    ensures { result ≡ type_size the_row }
{
    size_of::<Kept>()
}

/// Makes an engine with no query, whose replies show hits or not.
#[unsafe(no_mangle)]
pub extern "C" fn clip_open(alloc: Global, slot: &mut Slot, hits: bool)
    requires { slot.old.kept ≡ None }
    ensures { Keeps slot.new.kept (λ kept. kept.engine ≡ fresh hits) }
{
    slot.put(Kept::new(alloc, hits));
}

/// Ends an engine, and gives its memory back. The slot's memory stays the caller's.
#[unsafe(no_mangle)]
pub extern "C" fn clip_close(slot: &mut Slot)
    requires { IsSome slot.old.kept }
    ensures { slot.new.kept ≡ None }
{
    slot.clear();
}

/// Takes a snapshot of an engine, which the other slot keeps then, where the answer is 0. It is an engine itself, which
/// nothing that is done to the first changes.
#[unsafe(no_mangle)]
pub extern "C" fn clip_snapshot(alloc: Global, slot: &mut Slot, snapshot: &mut Slot) -> u32
    requires kept { IsSome slot.old.kept }
    requires room { snapshot.old.kept ≡ None }
    ensures engine { Between slot.old.kept slot.new.kept (λ old new. new.engine ≡ old.engine) }
    ensures taken { SnapshotTo result slot.old.kept snapshot.new.kept }
{
    let kept = slot.take();
    let code = snapshot_into(alloc, &kept, snapshot);
    slot.put(kept);
    code
}

/// Answers a line. The reply is kept, to be taken by `clip_take`, and `size` is how many bytes it has.
#[unsafe(no_mangle)]
pub extern "C" fn clip_line(slot: &mut Slot, line: &[u8], size: &mut usize) -> u32
    requires { IsSome slot.old.kept }
    ensures answers { Between slot.old.kept slot.new.kept (LineTo line.now result) }
    ensures size { Keeps slot.new.kept (λ kept. size.new ≡ length kept.text.items) }
{
    let mut kept = slot.take();
    let code = kept.line(line);
    *size = kept.text.len();
    slot.put(kept);
    code
}

/// Registers a query, with a listener where there is one.
#[unsafe(no_mangle)]
pub extern "C" fn clip_register(
    alloc: Global,
    slot: &mut Slot,
    id: &[u8],
    query: &[u8],
    has_listener: bool,
    listener: &[u8],
) -> u32
    requires { IsSome slot.old.kept }
    ensures { Between slot.old.kept slot.new.kept (RegisterTo id.now query.now has_listener listener.now result) }
{
    let mut kept = slot.take();
    let code = kept.register(alloc, id, query, has_listener, listener);
    slot.put(kept);
    code
}

/// Registers queries in one change, all or none; where one is refused, `which` is its place from 0.
#[unsafe(no_mangle)]
pub extern "C" fn clip_register_many(
    alloc: Global,
    slot: &mut Slot,
    listed: &[Listed<'_>],
    which: &mut u64,
) -> u32
    requires { IsSome slot.old.kept }
    ensures { Between slot.old.kept slot.new.kept (ManyTo listed.now result which.new) }
{
    let mut kept = slot.take();
    let code = kept.register_many(alloc, listed, which);
    slot.put(kept);
    code
}

/// Takes the query with this id out; `deleted` is how many there were, 0 or 1.
#[unsafe(no_mangle)]
pub extern "C" fn clip_delete(alloc: Global, slot: &mut Slot, id: &[u8], deleted: &mut u64) -> u32
    requires { IsSome slot.old.kept }
    ensures { Between slot.old.kept slot.new.kept (DeleteTo id.now result deleted.new) }
{
    let mut kept = slot.take();
    let code = kept.delete(alloc, id, deleted);
    slot.put(kept);
    code
}

/// Takes all queries out.
#[unsafe(no_mangle)]
pub extern "C" fn clip_clear(slot: &mut Slot) -> u32
    requires { IsSome slot.old.kept }
    ensures { Between slot.old.kept slot.new.kept (ClearTo result) }
{
    let mut kept = slot.take();
    let code = kept.clear();
    slot.put(kept);
    code
}

/// Gives back the memory of queries that were replaced or taken out.
#[unsafe(no_mangle)]
pub extern "C" fn clip_purge(slot: &mut Slot) -> u32
    requires { IsSome slot.old.kept }
    ensures { Between slot.old.kept slot.new.kept (PurgeTo result) }
{
    let mut kept = slot.take();
    let code = kept.purge();
    slot.put(kept);
    code
}

/// Finds the text of the query with this id, and says whether there is one. It is kept, to be taken by `clip_take`, and
/// `size` is how many bytes it has.
#[unsafe(no_mangle)]
pub extern "C" fn clip_show(
    alloc: Global,
    slot: &mut Slot,
    id: &[u8],
    has: &mut bool,
    size: &mut usize,
) -> u32
    requires { IsSome slot.old.kept }
    ensures shows { Between slot.old.kept slot.new.kept (ShowTo id.now result has.new) }
    ensures size { Keeps slot.new.kept (λ kept. size.new ≡ length kept.text.items) }
{
    let mut kept = slot.take();
    let code = kept.show(alloc, id, has);
    *size = kept.text.len();
    slot.put(kept);
    code
}

/// Lists the ids of the registered queries in their byte order. They are kept as bytes, to be taken by `clip_take`, and
/// `size` is how many there are.
#[unsafe(no_mangle)]
pub extern "C" fn clip_ids(slot: &mut Slot, size: &mut usize) -> u32
    requires { IsSome slot.old.kept }
    ensures lists { Between slot.old.kept slot.new.kept (IdsTo result) }
    ensures size { Keeps slot.new.kept (λ kept. size.new ≡ length kept.text.items) }
{
    let mut kept = slot.take();
    let code = kept.ids();
    *size = kept.text.len();
    slot.put(kept);
    code
}

/// How many queries are registered.
#[unsafe(no_mangle)]
pub extern "C" fn clip_count(slot: &mut Slot, count: &mut u64) -> u32
    requires { IsSome slot.old.kept }
    ensures { Between slot.old.kept slot.new.kept (CountTo result count.new) }
{
    let kept = slot.take();
    let code = kept.count(count);
    slot.put(kept);
    code
}

/// Matches an article. What was found is kept as bytes, to be taken by `clip_take`, and `size` is how many there are.
#[unsafe(no_mangle)]
pub extern "C" fn clip_match(
    alloc: Global,
    slot: &mut Slot,
    id: &[u8],
    fields: &[Field<'_>],
    size: &mut usize,
) -> u32
    requires { IsSome slot.old.kept }
    ensures finds { Between slot.old.kept slot.new.kept (MatchTo id.now (fields_of fields.now) result) }
    ensures size { Keeps slot.new.kept (λ kept. size.new ≡ length kept.text.items) }
{
    let mut kept = slot.take();
    let code = kept.match_article(alloc, id, fields);
    *size = kept.text.len();
    slot.put(kept);
    code
}

/// Gathers what parts of one registry found of an article. It is kept as bytes, to be taken by `clip_take`, and `size`
/// is how many there are. Nothing in the slot's engine is looked at.
#[unsafe(no_mangle)]
pub extern "C" fn clip_gather(
    alloc: Global,
    slot: &mut Slot,
    parts: &[Part<'_>],
    size: &mut usize,
) -> u32
    requires { IsSome slot.old.kept }
    ensures gathers { Between slot.old.kept slot.new.kept (GatherTo parts.now result) }
    ensures size { Keeps slot.new.kept (λ kept. size.new ≡ length kept.text.items) }
{
    let mut kept = slot.take();
    let code = kept.gather(alloc, parts);
    *size = kept.text.len();
    slot.put(kept);
    code
}

/// Explains a query's text. What is told of it is kept as compact JSON, to be taken by `clip_take`, and `size` is how
/// many bytes it has.
#[unsafe(no_mangle)]
pub extern "C" fn clip_explain(
    alloc: Global,
    slot: &mut Slot,
    query: &[u8],
    size: &mut usize,
) -> u32
    requires { IsSome slot.old.kept }
    ensures tells { Between slot.old.kept slot.new.kept (ExplainTo query.now result) }
    ensures size { Keeps slot.new.kept (λ kept. size.new ≡ length kept.text.items) }
{
    let mut kept = slot.take();
    let code = kept.explain(alloc, query);
    *size = kept.text.len();
    slot.put(kept);
    code
}

/// Finds where the words of a text stand: two numbers for each, kept as bytes, to be taken by `clip_take`, and `size`
/// is how many there are.
#[unsafe(no_mangle)]
pub extern "C" fn clip_words(alloc: Global, slot: &mut Slot, text: &[u8], size: &mut usize) -> u32
    requires { IsSome slot.old.kept }
    ensures finds { Between slot.old.kept slot.new.kept (WordsTo text.now result) }
    ensures size { Keeps slot.new.kept (λ kept. size.new ≡ length kept.text.items) }
{
    let mut kept = slot.take();
    let code = kept.words(alloc, text);
    *size = kept.text.len();
    slot.put(kept);
    code
}

/// Finds what a line would be refused for. It is kept as compact JSON, to be taken by `clip_take`, and `size` is how
/// many bytes it has.
#[unsafe(no_mangle)]
pub extern "C" fn clip_explain_line(
    alloc: Global,
    slot: &mut Slot,
    line: &[u8],
    size: &mut usize,
) -> u32
    requires { IsSome slot.old.kept }
    ensures tells { Between slot.old.kept slot.new.kept (ExplainLineTo line.now result) }
    ensures size { Keeps slot.new.kept (λ kept. size.new ≡ length kept.text.items) }
{
    let mut kept = slot.take();
    let code = kept.explain_line(alloc, line);
    *size = kept.text.len();
    slot.put(kept);
    code
}

/// Tells whether two queries are near in an article of these fields, where the answer is 0. It needs no slot.
#[unsafe(no_mangle)]
pub extern "C" fn clip_near(
    alloc: Global,
    fields: &[Field<'_>],
    pair: &Pair<'_>,
    answer: &mut bool,
) -> u32
    ensures { NearTo (fields_of fields.now) pair.now result answer.new }
{
    near(alloc, fields, pair, answer)
}

/// Copies the bytes that are kept into a buffer of just their size, and keeps none then; into a buffer of another size
/// it copies nothing and changes nothing. Whether they were copied.
#[unsafe(no_mangle)]
pub extern "C" fn clip_take(slot: &mut Slot, room: &mut [u8]) -> bool
    requires { IsSome slot.old.kept }
    ensures { Between slot.old.kept slot.new.kept (TakeTo room.old room.new result) }
{
    let mut kept = slot.take();
    let copied = kept.take(room);
    slot.put(kept);
    copied
}
