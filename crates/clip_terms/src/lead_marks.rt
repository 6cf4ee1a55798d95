//! Which leads a table of terms has, as far as a bit for each tells.
ghost use Rattle.std.specs.Prelude.{◌≡◌, IfOk};
ghost use Rattle.clip_terms.specs.Steps.LeadMarks.{bit_of, has_mark, HaveMarks};

use clip_pieces::Marks;
use clip_words::NoMemory;
use std::alloc::Global;

/// An odd number with no pattern in its bits: the highest bits of a product with it spread leads.
pub(crate) const SPREAD: u64 = 0x9E37_79B9_7F4A_7C15;

/// Marks of leads: a bit for each, which other leads may have too.
#[derive(Debug, Drop)]
pub(crate) struct LeadMarks {
    marks: Marks,
    shift: u32,
    last: usize,
}

/// The bit of a lead: what is left of a product behind this shift, and at most the last bit.
fn bit_of(lead: u64, shift: u32, last: usize) -> usize
    ensures { result ≡ bit_of lead shift last }
{
    ((lead.wrapping_mul(SPREAD) >> (shift % 64)) as usize).min(last)
}

impl LeadMarks {
    /// The marks of leads.
    ///
    /// `NoMemory` where an allocation failed. Cost: a step for each lead, of which each takes 16 to 32 bits.
    pub(crate) fn of(alloc: Global, leads: &[u64]) -> Result<LeadMarks, NoMemory>
        ensures { IfOk result (HaveMarks leads.now) }
    {
        let power = (leads.len().max(1).ilog2() + 5).min(32);
        let shift = 64 - power;
        let last = (1usize << power) - 1;
        let mut marks = Marks::new(alloc, last + 1)?;
        for lead in leads {
            marks.mark(bit_of(*lead, shift, last));
        }
        Ok(LeadMarks { marks, shift, last })
    }

    /// Whether the bit of a lead is marked. Where it is not, the lead is none of those that were marked. Takes no
    /// memory. Constant time.
    pub(crate) fn may_have(&self, lead: u64) -> bool
        ensures { result ≡ has_mark self.now lead }
    {
        self.marks.is_marked(bit_of(lead, self.shift, self.last))
    }
}
