// A walker keeps the row that it walks and the place where it stands, as the original's `SkippingIterator` does, and nothing else: what a step asks
// (matcher, sign, syllable, sets) is handed to each, as to a walk. It goes by value: a step answers, and `follow` is the walker that went there.
#![tactic(auto)]

ghost use Rattle.std.specs.Prelude.{◌≡◌, []};
ghost use Rattle.verdict.specs.Verdict.{value_of};
ghost use Rattle.walk.specs.Calls.{forward_of, backward_of};
ghost use Rattle.walker.specs.Walker.{standing, place_after, nth_of};

use glyph::IllShaped;
use verdict::{Matcher, Sign};
use walk::Walked;

#[derive(Clone, Copy, Debug, PartialEq, Eq)]
pub struct Walker<'a> {
    pub row: &'a [u32],
    pub place: usize,
}

impl<'a> Walker<'a> {
    // A walker that stands at a place of a row.
    pub fn new(row: &'a [u32], place: usize) -> Self
        ensures { result ≡ standing row.entry place }
    {
        Walker { row, place }
    }

    // The same row, from another place.
    pub fn reset(self, place: usize) -> Self
        ensures { result ≡ standing self.entry.row place }
    {
        Walker::new(self.row, place)
    }

    // Forward from where the walker stands, in a row of which the first len glyphs count.
    pub fn next(
        self,
        len: usize,
        m: Matcher,
        sign: Sign,
        syllable: u8,
        sets: &[u16],
    ) -> Result<Walked, IllShaped>
        ensures { result ≡ forward_of self.entry.row.now len self.entry.place m (value_of sign []) syllable sets.now }
    {
        walk::forward(self.row, len, self.place, m, sign, syllable, sets)
    }

    // Backward from where the walker stands.
    pub fn prev(
        self,
        m: Matcher,
        sign: Sign,
        syllable: u8,
        sets: &[u16],
    ) -> Result<Walked, IllShaped>
        ensures { result ≡ backward_of self.entry.row.now self.entry.place m (value_of sign []) syllable sets.now }
    {
        walk::backward(self.row, self.place, m, sign, syllable, sets)
    }

    // The walker after a step with this answer: at the place found, and else where it stood.
    pub fn follow(self, walked: Result<Walked, IllShaped>) -> Self
        ensures { result ≡ standing self.entry.row (place_after self.entry.place walked) }
    {
        match walked {
            Ok(Walked::Found(q)) => self.reset(q),
            _ => self,
        }
    }
}

// A walker's first step, for a caller that keeps no walker.
pub fn step(
    row: &[u32],
    len: usize,
    place: usize,
    m: Matcher,
    sign: Sign,
    syllable: u8,
    sets: &[u16],
) -> Result<Walked, IllShaped>
    ensures { result ≡ forward_of row.now len place m (value_of sign []) syllable sets.now }
{
    Walker::new(row, place).next(len, m, sign, syllable, sets)
}

// The match after n others (after none: the first), a step each; or the answer of the first step that finds none.
#[tactic(auto, using(crate::proofs::Turns::turns))]
pub fn nth(
    row: &[u32],
    len: usize,
    place: usize,
    n: usize,
    m: Matcher,
    sign: Sign,
    syllable: u8,
    sets: &[u16],
) -> Result<Walked, IllShaped>
    ensures { result ≡ nth_of row.now len place n m (value_of sign []) syllable sets.now }
{
    let mut at = place;
    for _ in 0..n {
        match step(row, len, at, m, sign, syllable, sets)? {
            Walked::Found(q) => at = q,
            walked => return Ok(walked),
        }
    }
    step(row, len, at, m, sign, syllable, sets)
}
