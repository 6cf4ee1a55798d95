//! The journal of a run that is written anew while the run goes on.
use crate::live::live_lines;
use clip_ahead::Shortener;
use clip_listen::Audience;
use clip_words::NoMemory;
use std::alloc::Global;

/// Who makes the lines of a journal few: the queries that they leave live where these listeners are here, each as the
/// line that registers it. Standard error is told of it.
#[derive(Drop)]
pub struct Shortening<'r, H: Eprint, B: Audience> {
    /// Who tells.
    pub rt: &'r H,
    /// Who is here.
    pub audience: &'r B,
}

impl<H: Eprint, B: Audience> Shortener for Shortening<'_, H, B> {
    ghost use Rattle.clip_front.specs.Outcome.{OfKept, names_in};
    ghost use Rattle.clip_keeping.specs.Live.{AreLive};

    ghost stand_for = { λ s old new. OfKept (names_in (B.hearers s.audience.now)) old
        (λ begins. AreLive begins new) };

    /// The lines of `live_lines`, at its cost.
    fn shorten(&self, alloc: Global, kept: Vec<Vec<u8>>) -> Result<Vec<Vec<u8>>, NoMemory> {
        live_lines(alloc, self.audience, kept)
    }

    fn tell_begun(&self) {
        let _ = self.rt.eprintln(
            "pressclip-keep: the journal is being written anew, and the next line waits",
        );
    }

    fn tell_undone(&self) {
        let _ = self.rt.eprintln(
            "pressclip-keep: the journal could not be written anew, and goes on as it was",
        );
    }
}
