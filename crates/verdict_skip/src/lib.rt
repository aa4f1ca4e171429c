// May a glyph be skipped?
#![tactic(auto)]

ghost use Rattle.std.specs.Prelude.{◌≡◌};
ghost use Rattle.verdict.specs.Verdict.{ignored_class, other_mark, skip_yes, ignorable, skip_of};
ghost use Rattle.verdict_skip.specs.Care.{care_of};

use glyph::Glyph;
use verdict::{Matcher, MaySkip};

// Props of a class that the lookup ignores.
pub fn is_ignored_class(asked: u32, props: u32) -> bool
    ensures { result ≡ ignored_class asked props }
{
    ((props / 2 % 2 == 1) & (asked / 2 % 2 == 1))
        | ((props / 4 % 2 == 1) & (asked / 4 % 2 == 1))
        | ((props / 8 % 2 == 1) & (asked / 8 % 2 == 1))
}

// A mark outside the set that the lookup names, or not of the class that it asks.
#[tactic(auto, using(std::proofs::lemmas::Bool::Decides::nat_tests))]
fn is_other_mark(asked: u32, sets: &[u16], props: u32, id: u32) -> bool
    ensures { result ≡ other_mark asked sets.now props id }
{
    if props / 8 % 2 != 1 {
        return false;
    }
    if asked / 16 % 2 == 1 {
        return !glyph::in_set(sets, asked / 65536, id);
    }
    let class = asked / 256 % 256;
    (class != 0) & (class != props / 256)
}

// Skip Yes. It is told from two words, and from the sets where the lookup names one.
#[tactic(auto, unfolding(verdict::specs::Verdict::skip_yes))]
pub fn is_skip_yes(m: Matcher, sets: &[u16], g: Glyph) -> bool
    ensures { result ≡ skip_yes m sets.now g }
{
    let props = g.props as u32;
    is_ignored_class(m.props, props) || is_other_mark(m.props, sets, props, g.id)
}

// The flag bits that tell whether a glyph is ignorable: the same for a whole walk.
fn care(m: Matcher) -> u8
    ensures { result ≡ care_of m.zwnj m.zwj m.hidden }
{
    1 + 2 * (!m.zwnj as u8) + 4 * (!m.zwj as u8) + 8 * (!m.hidden as u8)
}

// A default ignorable, and neither a ZWNJ, ZWJ nor hidden glyph that isn't ignored.
#[tactic(auto, using(crate::specs::Care::care_tells), unfolding(verdict::specs::Verdict::ignorable))]
pub fn is_ignorable(m: Matcher, g: Glyph) -> bool
    ensures { result ≡ ignorable m g }
{
    g.flags & care(m) == 1
}

#[tactic(auto, unfolding(verdict::specs::Verdict::skip_of))]
pub fn may_skip(m: Matcher, sets: &[u16], g: Glyph) -> MaySkip
    ensures { result ≡ skip_of m sets.now g }
{
    if is_skip_yes(m, sets, g) {
        return MaySkip::Yes;
    }
    if is_ignorable(m, g) {
        return MaySkip::Maybe;
    }
    MaySkip::No
}
