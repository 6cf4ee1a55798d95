//! The keys of the words of a field, which borrow the texts of its postings.
ghost use Rattle.std.specs.Prelude.{◌≡◌, ◌++◌, [], ◌∷◌, length, IfOk, OnOk};
ghost use Rattle.std.specs.Arc.{arc_str_bytes};
ghost use Rattle.clip_extract.specs.Keys.{Word};
ghost use Rattle.clip_terms.specs.Steps.WordKeys.{keys_in, AreKept};

use clip_extract::short_length;
use clip_meaning::Posting;
use clip_words::NoMemory;
use std::alloc::Global;
use std::sync::ArcStr;

/// The keys of words of one field, with the leads and the short lengths of the words.
#[derive(Drop)]
pub(crate) struct WordKeys<'a> {
    pub(crate) field: &'a ArcStr,
    pub(crate) words: Vec<&'a str>,
    pub(crate) leads: Vec<u64>,
    pub(crate) lengths: Vec<u8>,
}

impl<'a> WordKeys<'a> {
    /// No key of a field yet, with room for so many.
    pub(crate) fn none(
        alloc: Global,
        field: &'a ArcStr,
        room: usize,
    ) -> Result<WordKeys<'a>, NoMemory>
        ensures none { IfOk result (λ keys. keys_in keys ≡ []) }
        ensures field { IfOk result (λ keys. arc_str_bytes keys.field.now ≡ arc_str_bytes field.now) }
        ensures kept { IfOk result AreKept }
    {
        Ok(WordKeys {
            field,
            words: Vec::with_capacity(alloc, room)?,
            leads: Vec::with_capacity(alloc, room)?,
            lengths: Vec::with_capacity(alloc, room)?,
        })
    }

    /// Adds the key of a posting's word.
    pub(crate) fn push(&mut self, posting: &Posting<'a>) -> Result<(), NoMemory>
        requires { AreKept self.old }
        ensures added { OnOk result (keys_in self.new
            ≡ keys_in self.old ++ Word (arc_str_bytes self.old.field.now) posting.now.0 ∷ []) }
        ensures field { OnOk result (self.new.field ≡ self.old.field) }
        ensures kept { OnOk result (AreKept self.new) }
    {
        let word = posting.word();
        self.words.push(word)?;
        self.leads.push(posting.lead())?;
        self.lengths.push(short_length(word))?;
        Ok(())
    }

    /// How many keys there are.
    pub(crate) fn len(&self) -> usize
        ensures { result ≡ length (keys_in self.now) }
    {
        self.words.len()
    }
}
