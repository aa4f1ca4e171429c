// May a glyph match, and what does a walk make of it? Matcher, sign, lists, syllable and sets are parameters here, each one of the definition's: as
// a struct they would be put together anew for each value that a match seeks, and be taken apart again in each contract.
#![tactic(auto)]

ghost use Rattle.std.specs.Prelude.{◌≡◌, cond};
ghost use Rattle.verdict.specs.declared.Verdict.{Verdict};
ghost use Rattle.verdict.specs.declared.MaySkip.{MaySkip};
ghost use Rattle.verdict.specs.Verdict.{ruled_out, is_yes, value_of, match_of, verdict, verdict_of};
ghost use Rattle.verdict.specs.Rest.{rest_of};

use glyph::Glyph;
use verdict::{Matcher, MayMatch, Sign, Test, Verdict};

// The mask or the syllable rules the glyph out.
#[tactic(auto, unfolding(verdict::specs::Verdict::ruled_out))]
fn is_ruled_out(m: Matcher, syllable: u8, g: Glyph) -> bool
    ensures { result ≡ ruled_out m syllable g }
{
    (g.mask & m.mask == 0) | (m.syllabic & (syllable != 0) & (syllable != g.syllable))
}

// The value alone.
#[tactic(auto, unfolding(verdict::specs::Verdict::value_by))]
fn on_value(sign: Sign, lists: &[u16], g: Glyph) -> MayMatch
    ensures { result ≡ value_of sign lists.now g }
{
    match sign.test {
        Test::Equal if g.id == sign.value => MayMatch::Yes,
        Test::Equal => MayMatch::No,
        Test::Any => MayMatch::Yes,
        Test::Nothing => MayMatch::Maybe,
    }
}

// Whether the value alone says Yes.
pub fn is_value(sign: Sign, lists: &[u16], g: Glyph) -> bool
    ensures { result ≡ is_yes (value_of sign lists.now g) }
{
    on_value(sign, lists, g) == MayMatch::Yes
}

#[tactic(auto, unfolding(verdict::specs::Verdict::match_of))]
pub fn may_match(m: Matcher, sign: Sign, lists: &[u16], syllable: u8, g: Glyph) -> MayMatch
    ensures { result ≡ match_of m (value_of sign lists.now) syllable g }
{
    if is_ruled_out(m, syllable, g) {
        return MayMatch::No;
    }
    on_value(sign, lists, g)
}

// The verdict where skip is Maybe (an ignorable glyph) or No. The cases' order is for speed: with it no branch that a mark passed over takes in
// `walk::backward` meets a boundary of 32 bytes, wherever it is linked; some processors take half as much longer where one does.
fn weigh(ignorable: bool, m: MayMatch) -> Verdict
    ensures { result ≡ verdict_of (cond ignorable MaySkip.Maybe MaySkip.No) m }
{
    match m {
        MayMatch::No if ignorable => Verdict::Skip,
        MayMatch::No => Verdict::NotMatch,
        MayMatch::Yes => Verdict::Match,
        MayMatch::Maybe if ignorable => Verdict::Skip,
        MayMatch::Maybe => Verdict::Match,
    }
}

// The verdict on a glyph that isn't skip Yes.
#[tactic(auto, unfolding(verdict::specs::Rest::rest_of))]
pub fn on_rest(m: Matcher, sign: Sign, lists: &[u16], syllable: u8, g: Glyph) -> Verdict
    ensures { result ≡ rest_of m (value_of sign lists.now) syllable g }
{
    weigh(
        verdict_skip::is_ignorable(m, g),
        may_match(m, sign, lists, syllable, g),
    )
}

// The verdict on a glyph.
#[tactic(auto, using(verdict::specs::Laws::verdict_yes, verdict::specs::Laws::verdict_rest))]
pub fn judge(m: Matcher, sign: Sign, lists: &[u16], syllable: u8, sets: &[u16], g: Glyph) -> Verdict
    ensures { result ≡ verdict m (value_of sign lists.now) syllable sets.now g }
{
    if verdict_skip::is_skip_yes(m, sets, g) {
        return Verdict::Skip;
    }
    on_rest(m, sign, lists, syllable, g)
}
