// The walks: forward and backward over a row, to the next glyph that isn't passed over. Matcher, sign, lists, syllable and sets are parameters, each
// one of the definition's; `verdict_match` says why they are no struct.
#![tactic(auto)]

ghost use Rattle.std.specs.Prelude.{◌≡◌, [], ◌-◌, ◌≤◌, max, length};
ghost use Rattle.glyph.specs.Glyph.{glyphs_of};
ghost use Rattle.verdict.specs.Verdict.{value_of, judge_at};
ghost use Rattle.walk.specs.Walk.{walk_from, walk_back};
ghost use Rattle.walk.specs.Calls.{bad_walk, forward_of, backward_of};

use glyph::IllShaped;
use verdict::{Matcher, Sign, Verdict};

#[derive(Clone, Copy, Debug, PartialEq, Eq)]
pub enum Walked {
    // The place of a glyph that matches.
    Found(usize),
    // A glyph that stops the walk, by the walk's extent.
    Stopped(usize),
    // No glyph is left, by the walk's extent.
    RanOut(usize),
}

// From a place of a row, of which the first len glyphs count, to the next glyph that isn't passed over.
#[tactic(auto, using(crate::proofs::Turns::call_ahead), unfolding(crate::specs::Calls::forward_of))]
pub fn forward(
    row: &[u32],
    len: usize,
    place: usize,
    m: Matcher,
    sign: Sign,
    syllable: u8,
    sets: &[u16],
) -> Result<Walked, IllShaped>
    ensures { result ≡ forward_of row.now len place m (value_of sign []) syllable sets.now }
{
    if is_bad_walk(row, len, place, sets) {
        return Err(IllShaped);
    }
    let from = walk_stretch::cross_ahead(row, len, place + 1, m.props, sets);
    let none = [0u16; 0];
    let walked = forward_from(row, len, from, m, sign, &none, syllable, sets);
    Ok(walked)
}

// Back from a place of a row, to the glyph before it that isn't passed over.
#[tactic(auto, using(crate::proofs::Turns::call_back), unfolding(crate::specs::Calls::backward_of))]
pub fn backward(
    row: &[u32],
    place: usize,
    m: Matcher,
    sign: Sign,
    syllable: u8,
    sets: &[u16],
) -> Result<Walked, IllShaped>
    ensures { result ≡ backward_of row.now place m (value_of sign []) syllable sets.now }
{
    if is_bad_walk(row, glyph::count(row), place, sets) {
        return Err(IllShaped);
    }
    let from = walk_stretch::cross_behind(row, place, m.props, sets);
    let none = [0u16; 0];
    Ok(backward_from(row, from, m, sign, &none, syllable, sets))
}

// What a walk is refused for.
#[tactic(auto, unfolding(crate::specs::Calls::bad_walk))]
fn is_bad_walk(row: &[u32], len: usize, place: usize, sets: &[u16]) -> bool
    ensures { result ≡ bad_walk row.now len place sets.now }
{
    glyph::is_ill_shaped(row) | (glyph::count(row) < len) | (len < place) | glyph::is_odd(sets)
}

// The forward walk, given the next place to test, so that it can begin before the first glyph of a part of a row. It stands where it is called: a
// call would cost 2 to 5 ns.
#[inline(always)]
#[tactic(auto, using(crate::proofs::Turns::turns_ahead))]
pub fn forward_from(
    row: &[u32],
    len: usize,
    next: usize,
    m: Matcher,
    sign: Sign,
    lists: &[u16],
    syllable: u8,
    sets: &[u16],
) -> Walked
    requires { len ≤ length (glyphs_of row.now) }
    ensures { result ≡ walk_from (judge_at m (value_of sign lists.now) syllable sets.now
        (glyphs_of row.now)) len next }
{
    if len < next {
        return Walked::RanOut(next);
    }
    for p in next..len {
        match verdict_match::judge(m, sign, lists, syllable, sets, glyph::read(row, p)) {
            Verdict::Match => return Walked::Found(p),
            Verdict::NotMatch => return Walked::Stopped(p + 1),
            Verdict::Skip => {}
        }
    }
    Walked::RanOut(len)
}

// The extent of a backward walk that is stopped at p.
pub fn back_extent(p: usize) -> usize
    ensures { result ≡ max p 1 - 1 }
{
    p.saturating_sub(1)
}

// The backward walk: the next place to test is the one before `place`. A glyph that isn't skip Yes is read anew, so that the compiler loads only the
// props of one that is. The first place is taken by `back_extent`, not by a subtraction like that at the end of a turn, and the row's beginning is
// asked for last: the compiler then keeps one counter for the place and not two, which a range in reverse has. It stands where it is called.
#[inline(always)]
#[tactic(auto, using(crate::proofs::Turns::turns_back))]
pub fn backward_from(
    row: &[u32],
    place: usize,
    m: Matcher,
    sign: Sign,
    lists: &[u16],
    syllable: u8,
    sets: &[u16],
) -> Walked
    requires { place ≤ length (glyphs_of row.now) }
    ensures { result ≡ walk_back (judge_at m (value_of sign lists.now) syllable sets.now (glyphs_of row.now)) place }
{
    let mut p = back_extent(place);
    if place == 0 {
        return Walked::RanOut(p); // which is 0
    }
    loop {
        if !verdict_skip::is_skip_yes(m, sets, glyph::read(row, p)) {
            match verdict_match::on_rest(m, sign, lists, syllable, glyph::read(row, p)) {
                Verdict::Match => return Walked::Found(p),
                Verdict::NotMatch => return Walked::Stopped(back_extent(p)),
                Verdict::Skip => {}
            }
        }
        if p == 0 {
            return Walked::RanOut(0);
        }
        p -= 1;
    }
}
