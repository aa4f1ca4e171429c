// The two questions and the verdict as a user asks them: of a place of a row, answered or refused by 1. The parameters are those of the C calls.
#![tactic(auto)]

ghost use Rattle.std.specs.Prelude.{◌≡◌, [], ◌||◌, get_or};
ghost use Rattle.glyph.specs.Glyph.{glyphs_of, blank};
ghost use Rattle.glyph.specs.Sets.{odd_sets};
ghost use Rattle.verdict.specs.Verdict.{value_of};
ghost use Rattle.verdict_ask.specs.Ask.{bad_place, unless_refused, ask_skip, ask_match, ask_verdict};

use glyph::{Glyph, IllShaped};
use verdict::{Matcher, MayMatch, MaySkip, Sign, Verdict};

// May the glyph at a place of a row be skipped?
#[tactic(auto, unfolding(crate::specs::Ask::ask_skip))]
pub fn ask_skip(row: &[u32], place: usize, m: Matcher, sets: &[u16]) -> Result<MaySkip, IllShaped>
    ensures { result ≡ ask_skip row.now place m sets.now }
{
    Ok(verdict_skip::may_skip(m, sets, glyph_beside(row, place, sets)?))
}

// May the glyph at a place of a row match?
#[tactic(auto, unfolding(crate::specs::Ask::ask_match))]
pub fn ask_match(
    row: &[u32],
    place: usize,
    m: Matcher,
    sign: Sign,
    syllable: u8,
) -> Result<MayMatch, IllShaped>
    ensures { result ≡ ask_match row.now place m (value_of sign []) syllable }
{
    let g = glyph_at(row, place)?;
    let none = [0u16; 0];
    Ok(verdict_match::may_match(m, sign, &none, syllable, g))
}

// What does a walk make of the glyph at a place of a row?
#[tactic(auto, unfolding(crate::specs::Ask::ask_verdict))]
pub fn ask_verdict(
    row: &[u32],
    place: usize,
    m: Matcher,
    sign: Sign,
    syllable: u8,
    sets: &[u16],
) -> Result<Verdict, IllShaped>
    ensures { result ≡ ask_verdict row.now place m (value_of sign []) syllable sets.now }
{
    let g = glyph_beside(row, place, sets)?;
    let none = [0u16; 0];
    Ok(verdict_match::judge(m, sign, &none, syllable, sets, g))
}

// The glyph that a question is about; refusal 1 where there is none.
#[tactic(auto, using(crate::specs::Laws::good_place), unfolding(crate::specs::Ask::bad_place))]
fn glyph_at(row: &[u32], place: usize) -> Result<Glyph, IllShaped>
    ensures { result ≡ unless_refused (bad_place row.now place) (get_or (glyphs_of row.now) place blank) }
{
    if glyph::is_ill_shaped(row) | (glyph::count(row) <= place) {
        return Err(IllShaped);
    }
    Ok(glyph::read(row, place))
}

// The same, where mark sets go with the question: refusal 1 too where they aren't pairs.
fn glyph_beside(row: &[u32], place: usize, sets: &[u16]) -> Result<Glyph, IllShaped>
    ensures { result ≡ unless_refused (bad_place row.now place || odd_sets sets.now) (get_or (glyphs_of row.now) place blank) }
{
    if glyph::is_odd(sets) {
        return Err(IllShaped);
    }
    glyph_at(row, place)
}
