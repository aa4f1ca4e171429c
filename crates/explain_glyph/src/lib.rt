// What there is to say of a glyph that input matching meets: what is asked of it, which rule decided, and what came of it.
// Every answer here is equal to a definition over those of `verdict`, `ligature` and `matching`, so that no wrong reason can be given.
#![tactic(auto)]

ghost use Rattle.std.specs.Prelude.{◌≡◌};
ghost use Rattle.glyph.specs.Glyph.{glyphs_of};
ghost use Rattle.explain_glyph.specs.Reason.{yes_reason, no_reason, skip_reason, value_reason, match_reason};
ghost use Rattle.explain_glyph.specs.Told.{seen_of, joined_of, turn_by, told_of};

use glyph::Glyph;
use ligature::Ligbase;
use verdict::{Matcher, MayMatch, MaySkip, Sign, Test, Verdict};

// The rule that decided may skip.
#[derive(Clone, Copy, Debug, PartialEq, Eq)]
pub enum SkipReason {
    // Yes: flags 2, 4 and 8 of the lookup ignore the glyph's class.
    IgnoredBase,
    IgnoredLigature,
    IgnoredMark,
    // Yes: a mark that isn't in the set that flag 0x10 names.
    OutsideSet,
    // Yes: a mark of another attachment class than the one asked.
    OtherClass,
    // Maybe.
    DefaultIgnorable,
    // No: default ignorable, but a ZWNJ, ZWJ or hidden glyph, which is kept here.
    KeptZwnj,
    KeptZwj,
    KeptHidden,
    // No.
    NotIgnorable,
}

// The rule that decided may match.
#[derive(Clone, Copy, Debug, PartialEq, Eq)]
pub enum MatchReason {
    // No: the glyph has no bit of the matcher's mask.
    NoMask,
    // No: another syllable than the cursor glyph's.
    OtherSyllable,
    // No.
    OtherId,
    // Yes.
    EqualId,
    // Yes: any glyph would do.
    AnyId,
    // Maybe.
    NoTest,
}

// May skip, may match and the verdict, with what decided them.
#[derive(Clone, Copy, Debug, PartialEq, Eq)]
pub struct Seen {
    pub skip: MaySkip,
    pub why: SkipReason,
    pub may: MayMatch,
    pub how: MatchReason,
    pub verdict: Verdict,
}

// The ligature rule on a later glyph: what it knows of the base, and whether the glyph may be taken with the first, both in either case.
#[derive(Clone, Copy, Debug, PartialEq, Eq)]
pub struct Joined {
    pub base: Ligbase,
    pub joins: bool,
}

// What a glyph makes of the match.
#[derive(Clone, Copy, Debug, PartialEq, Eq)]
pub enum Turn {
    // The walk goes on to the next glyph, for the same value.
    Passed,
    // The glyph is taken, and the next value is due.
    Taken,
    // The walk stops here: refusal 4.
    Stopped,
    // The ligature rule: refusal 5.
    Unlike,
}

#[derive(Clone, Copy, Debug, PartialEq, Eq)]
pub struct Told {
    pub seen: Seen,
    pub joined: Joined,
    pub turn: Turn,
}

// ---- may skip

// Why a glyph is skip Yes.
#[tactic(auto, using(std::proofs::lemmas::Bool::Decides::nat_tests), unfolding(crate::specs::Reason::yes_reason))]
fn why_yes(asked: u32, props: u32) -> SkipReason
    ensures { result ≡ yes_reason asked props }
{
    if (props / 2 % 2 == 1) & (asked / 2 % 2 == 1) {
        return SkipReason::IgnoredBase;
    }
    if (props / 4 % 2 == 1) & (asked / 4 % 2 == 1) {
        return SkipReason::IgnoredLigature;
    }
    if (props / 8 % 2 == 1) & (asked / 8 % 2 == 1) {
        return SkipReason::IgnoredMark;
    }
    if asked / 16 % 2 == 1 {
        return SkipReason::OutsideSet;
    }
    SkipReason::OtherClass
}

// Why a glyph is skip No.
#[tactic(auto, using(std::proofs::lemmas::Bool::Decides::nat_tests), unfolding(crate::specs::Reason::no_reason))]
fn why_no(m: Matcher, flags: u8) -> SkipReason
    ensures { result ≡ no_reason m flags }
{
    if flags % 2 != 1 {
        return SkipReason::NotIgnorable;
    }
    if (flags / 2 % 2 == 1) & !m.zwnj {
        return SkipReason::KeptZwnj;
    }
    if (flags / 4 % 2 == 1) & !m.zwj {
        return SkipReason::KeptZwj;
    }
    SkipReason::KeptHidden
}

// Which rule decides whether the glyph may be skipped.
#[tactic(auto, unfolding(crate::specs::Reason::skip_reason))]
pub fn why_skip(m: Matcher, sets: &[u16], g: Glyph) -> SkipReason
    ensures { result ≡ skip_reason m sets.now g }
{
    if verdict_skip::is_skip_yes(m, sets, g) {
        return why_yes(m.props, g.props as u32);
    }
    if verdict_skip::is_ignorable(m, g) {
        return SkipReason::DefaultIgnorable;
    }
    why_no(m, g.flags)
}

// ---- may match

fn why_value(sign: Sign, id: u32) -> MatchReason
    ensures { result ≡ value_reason sign.test sign.value id }
{
    match sign.test {
        Test::Equal if id == sign.value => MatchReason::EqualId,
        Test::Equal => MatchReason::OtherId,
        Test::Any => MatchReason::AnyId,
        Test::Nothing => MatchReason::NoTest,
    }
}

// Which rule decides whether the glyph may match.
#[tactic(auto, using(std::proofs::lemmas::Bool::Decides::nat_tests), unfolding(crate::specs::Reason::match_reason))]
fn why_match(m: Matcher, sign: Sign, syllable: u8, g: Glyph) -> MatchReason
    ensures { result ≡ match_reason m sign syllable g }
{
    if g.mask & m.mask == 0 {
        return MatchReason::NoMask;
    }
    if m.syllabic & (syllable != 0) & (syllable != g.syllable) {
        return MatchReason::OtherSyllable;
    }
    why_value(sign, g.id)
}

// ---- a glyph

// What a walk sees of a glyph.
fn see(m: Matcher, sign: Sign, syllable: u8, sets: &[u16], g: Glyph) -> Seen
    ensures { result ≡ seen_of m sign syllable sets.now g }
{
    let none = [0u16; 0];
    Seen {
        skip: verdict_skip::may_skip(m, sets, g),
        why: why_skip(m, sets, g),
        may: verdict_match::may_match(m, sign, &none, syllable, g),
        how: why_match(m, sign, syllable, g),
        verdict: verdict_match::judge(m, sign, &none, syllable, sets, g),
    }
}

// What the ligature rule says of a later glyph. The base is searched for where this glyph needs it.
#[tactic(auto, using(crate::proofs::Joins::searched_serves))]
fn join(first: Glyph, this: Glyph, searched: &[u32], m: Matcher, sets: &[u16]) -> Joined
    ensures { result ≡ joined_of first this (glyphs_of searched.now) m sets.now }
{
    let base = ligature::look_for_base(Ligbase::NotChecked, first, this, searched, m, sets);
    Joined {
        base,
        joins: ligature::may_join(first, this, base),
    }
}

// What a verdict makes of the match, where the ligature rule is asked of glyphs that match.
fn turn_of(verdict: Verdict, joins: bool) -> Turn
    ensures { result ≡ turn_by verdict joins }
{
    match verdict {
        Verdict::Match if joins => Turn::Taken,
        Verdict::Match => Turn::Unlike,
        Verdict::NotMatch => Turn::Stopped,
        Verdict::Skip => Turn::Passed,
    }
}

// Everything there is to say of a later glyph, given the first and the value that is due.
pub fn tell(
    m: Matcher,
    sets: &[u16],
    sign: Sign,
    first: Glyph,
    this: Glyph,
    searched: &[u32],
) -> Told
    ensures { result ≡ told_of m sets.now sign first this (glyphs_of searched.now) }
{
    let seen = see(m, sign, first.syllable, sets, this);
    let joined = join(first, this, searched, m, sets);
    Told {
        seen,
        joined,
        turn: turn_of(seen.verdict, joined.joins),
    }
}
