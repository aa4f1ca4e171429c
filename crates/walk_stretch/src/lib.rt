// Long lines of marks that a walk passes over, crossed quickly. It is there for speed alone: a walk answers the same without it. Each glyph that is
// crossed is skip Yes; where the crossing ends, perhaps early, the walk goes on glyph by glyph. A walk that doesn't look to be long crosses nothing.
#![tactic(auto)]

ghost use Rattle.std.specs.Prelude.{◌≡◌, ◌+◌, ◌*◌, ◌/◌, ◌≤◌, ◌<◌, max, length, get_or};
ghost use Rattle.glyph.specs.Glyph.{glyphs_of};
ghost use Rattle.verdict.specs.Verdict.{is_mark};
ghost use Rattle.walk_stretch.specs.Stretch.{AllYes, Crossed, lowest_of, may_pass_marks, yes_at};
ghost use Rattle.walk_stretch.specs.Blocks.{block, class_by, props_show, flipped_at, shown_at, Common};
ghost use Rattle.walk_stretch.specs.Outside.{outside_at, Admits, Grown};

use digest::SetDigest;

// Glyphs that are looked at together.
const BLOCK: usize = 8;

// What a walk must have left to cross anything: two blocks. It looks at the twelfth glyph first, and then at the ninth, tenth, fourteenth and
// sixteenth. Where every base has the same number of marks, one to nine, one of the five is a base again, so that these short lines aren't taken for
// long ones.
const LONG: usize = 16;

// What is left of a row to cross: forward the last places before len, backward the row's first ones. `back` is a direction, a Bool in the
// definitions.
#[derive(Clone, Copy, Debug, PartialEq, Eq)]
struct Stretch<'a> {
    row: &'a [u32],
    len: usize,
    left: usize,
    back: bool,
    ghost left_fits: { left ≤ len },
    ghost len_fits: { len ≤ length (glyphs_of row.now) },
}

impl<'a> Stretch<'a> {
    // The lowest of the next n places, once only `left` are left.
    fn lowest(self, left: usize, n: usize) -> usize
        requires { (n ≤ left) × (left ≤ self.len) }
        ensures { result ≡ lowest_of self.entry.back self.entry.len left n }
    {
        if self.back { left - n } else { self.len - left }
    }

    // ---- a block at a time, by classes

    // With no class asked nothing is flipped: the compiler makes a loop of its own of that, in which a glyph takes fewer instructions.
    fn past_class(self, asked: u32, class: u16) -> usize
        requires { class < 256 }
        ensures { (result ≤ self.entry.left)
            × Crossed (shown_at asked class (glyphs_of self.entry.row.now)) self.entry.back self.entry.len self.entry.left result }
    {
        if class == 0 {
            return self.past_blocks(asked, 0);
        }
        self.past_blocks(asked, class)
    }

    // How many places are left after the blocks that one look each tells to be skip Yes. It stands where it is called, so that `past_class` has two
    // loops. They are `while`s: what is left falls by a block, and a range that steps down takes a measure and a bound more.
    #[tactic(auto, using(crate::proofs::Crossing::blocks))]
    #[inline(always)]
    fn past_blocks(self, asked: u32, class: u16) -> usize
        requires { class < 256 }
        ensures { (result ≤ self.entry.left)
            × Crossed (shown_at asked class (glyphs_of self.entry.row.now)) self.entry.back self.entry.len self.entry.left result }
    {
        let mut rest = self.left;
        while BLOCK <= rest {
            let p = self.lowest(rest, BLOCK);
            if !is_shown(asked, class, shared(self.row, p, class)) {
                return rest;
            }
            rest -= BLOCK;
        }
        rest
    }

    // ---- a glyph at a time, by a digest of the set that the lookup names

    // Only where the first two blocks are all marks. A digest is made once the marks of one were sought pair by pair: it costs as much as some eight
    // searches, and a mark of the set ends the crossing.
    #[tactic(auto, using(crate::proofs::Crossing::marks))]
    fn past_set(self, set: u32, sets: &[u16]) -> usize
        requires { 2 * block ≤ self.left }
        ensures { (result ≤ self.entry.left)
            × Crossed (outside_at set sets.now (glyphs_of self.entry.row.now)) self.entry.back self.entry.len self.entry.left result }
    {
        let least = self.left - BLOCK;
        let marks = shared(self.row, self.lowest(self.left, BLOCK), 0)
            & shared(self.row, self.lowest(least, BLOCK), 0);
        if !is_mark(marks) {
            return self.left;
        }
        let tried = self.past_outside(least, set, sets, SetDigest::full());
        if least < tried {
            return tried;
        }
        let mut rest = self;
        rest.left = tried;
        rest.past_outside(0, set, sets, digest_of(sets, set))
    }

    // How many places are left after the marks outside the set; it goes no further than `least`.
    #[tactic(auto, using(crate::proofs::Crossing::places))]
    fn past_outside(self, least: usize, set: u32, sets: &[u16], d: SetDigest) -> usize
        requires { (least ≤ self.left) × Admits d sets.now set }
        ensures { (result ≤ self.entry.left)
            × Crossed (outside_at set sets.now (glyphs_of self.entry.row.now)) self.entry.back self.entry.len self.entry.left result }
    {
        for rest in (least..self.left).rev() {
            let p = self.lowest(rest + 1, 1);
            if !is_outside(self.row, p, set, sets, d) {
                return rest + 1;
            }
        }
        least
    }
}

// The place up to which a forward walk passes over every glyph, as far as is seen; `next` is the next place to test. What the crossing is handed, a
// part of the row and the sets, is made where it is called: the short walks, which don't call, then keep their own slices out of memory.
#[tactic(auto, using(crate::proofs::Crossing::rows))]
pub fn cross_ahead(row: &[u32], len: usize, next: usize, asked: u32, sets: &[u16]) -> usize
    requires { (len ≤ length (glyphs_of row.now)) × (next ≤ len + 1) }
    ensures { (next ≤ result) × (result ≤ max len next) × AllYes (yes_at asked sets.now (glyphs_of row.now)) next result }
{
    if len < next + LONG {
        return next;
    }
    if !is_mark(glyph::read(row, next + 11).props) {
        return next;
    }
    if !(is_mark(common(row, next + 8, next + 9, next + 13, next + 15)) & may_pass_marks(asked)) {
        return next;
    }
    len - left_after(
        glyph::first(row, len),
        len,
        len - next,
        false,
        asked,
        anew(sets),
    )
}

// The place down to which a backward walk passes over every glyph, as far as is seen.
#[tactic(auto, using(crate::proofs::Crossing::rows))]
pub fn cross_behind(row: &[u32], place: usize, asked: u32, sets: &[u16]) -> usize
    requires { place ≤ length (glyphs_of row.now) }
    ensures { (result ≤ place) × AllYes (yes_at asked sets.now (glyphs_of row.now)) result place }
{
    if place < LONG {
        return place;
    }
    if !is_mark(glyph::read(row, place - 12).props) {
        return place;
    }
    if !(is_mark(common(row, place - 9, place - 10, place - 14, place - 16))
        & may_pass_marks(asked))
    {
        return place;
    }
    left_after(
        glyph::first(row, place),
        place,
        place,
        true,
        asked,
        anew(sets),
    )
}

// The same sets, as a slice of their own; why is said at `cross_ahead`.
fn anew(sets: &[u16]) -> &[u16]
    ensures { result.now ≡ sets.now }
{
    let n = sets.len();
    &sets[0..n]
}

fn is_mark(props: u16) -> bool
    ensures { result ≡ is_mark props }
{
    props / 8 % 2 == 1
}

// What the props of four glyphs have in common. It decides the way and not the answer, so it promises nothing.
fn common(row: &[u32], a: usize, b: usize, c: usize, d: usize) -> u16
    requires { (a < length (glyphs_of row.now)) × (b < length (glyphs_of row.now)) × (c < length (glyphs_of row.now))
        × (d < length (glyphs_of row.now)) }
{
    glyph::read(row, a).props
        & glyph::read(row, b).props
        & glyph::read(row, c).props
        & glyph::read(row, d).props
}

// Whether the lookup passes over some marks: it ignores them, or names a set, or asks a class.
fn may_pass_marks(asked: u32) -> bool
    ensures { result ≡ may_pass_marks asked }
{
    (asked / 8 % 2 == 1) | (asked / 16 % 2 == 1) | (asked / 256 % 256 != 0)
}

// How many of the places left to test are left after those that are seen to be skip Yes. Forward they are the last places before len, backward the
// first ones of the row. Both directions call it, so the compiler leaves it a function of its own, out of the short walks' way. It takes the stretch
// in parts, for speed: as a struct it would be handed over in memory.
#[tactic(auto, using(crate::proofs::Crossing::ways))]
fn left_after(row: &[u32], len: usize, left: usize, back: bool, asked: u32, sets: &[u16]) -> usize
    requires { (2 * block ≤ left) × (left ≤ len) × (len ≤ length (glyphs_of row.now)) }
    ensures { (result ≤ left) × Crossed (yes_at asked sets.now (glyphs_of row.now)) back len left result }
{
    let s = Stretch {
        row,
        len,
        left,
        back,
    };
    // a set is named, and marks aren't ignored as a class
    if asked / 8 % 4 == 2 {
        return s.past_set(asked / 65536, sets);
    }
    s.past_class(asked, class_asked(asked))
}

// The attachment class that the lookup goes by, 0 if it goes by none.
#[tactic(auto, using(std::proofs::lemmas::Bool::Decides::nat_tests))]
fn class_asked(asked: u32) -> u16
    ensures { (result ≡ class_by asked) × (result < 256) }
{
    if asked / 16 % 2 == 1 {
        0
    } else {
        (asked / 256 % 256) as u16
    }
}

// ---- a block at a time, by classes

// Whether props in which the class asked was flipped tell of a glyph that it is skip Yes.
#[tactic(auto, unfolding(crate::specs::Blocks::props_show))]
fn is_shown(asked: u32, class: u16, flipped: u16) -> bool
    ensures { result ≡ props_show asked class flipped }
{
    verdict_skip::is_ignored_class(asked, flipped as u32)
        | ((class != 0) & is_mark(flipped) & (256 <= flipped))
}

// The bits that a block's props have in common, once those of `class` are flipped.
#[tactic(auto, using(crate::proofs::Crossing::bits_shared))]
fn shared(row: &[u32], p: usize, class: u16) -> u16
    requires { (p + block ≤ length (glyphs_of row.now)) × (class < 256) }
    ensures { Common (flipped_at class (glyphs_of row.now)) result p (p + block) }
{
    let other = class * 256;
    let mut all = 65535;
    for k in 0..BLOCK {
        all &= glyph::read(row, p + k).props ^ other;
    }
    all
}

// ---- a glyph at a time, by a digest of the set that the lookup names

// Whether a glyph is a mark outside the set, where a digest admits each glyph of the set.
#[tactic(auto, using(crate::specs::Outside::not_admitted, std::proofs::lemmas::Bool::Decides::nat_tests))]
fn is_outside(row: &[u32], p: usize, set: u32, sets: &[u16], d: SetDigest) -> bool
    requires { (p < length (glyphs_of row.now)) × Admits d sets.now set }
    ensures { result ≡ outside_at set sets.now (glyphs_of row.now) p }
{
    let g = glyph::read(row, p);
    if !is_mark(g.props) {
        return false;
    }
    if !d.may_have(g.id) {
        return true;
    }
    !glyph::in_set(sets, set, g.id)
}

// A digest that admits each glyph of a set.
#[tactic(auto, using(crate::proofs::Crossing::digests))]
fn digest_of(sets: &[u16], set: u32) -> SetDigest
    ensures { Admits result sets.now set }
{
    let mut d = SetDigest::new();
    for k in 0..sets.len() / 2 {
        d = with_pair(d, sets, k, set);
    }
    d
}

// The digest with the glyph of a pair too, if the pair is of the set.
#[tactic(auto, using(crate::proofs::Crossing::pairs))]
fn with_pair(d: SetDigest, sets: &[u16], k: usize, set: u32) -> SetDigest
    requires { k < length sets.now / 2 }
    ensures { Grown d result set (get_or sets.now (2 * k) 0) (get_or sets.now (2 * k + 1) 0) }
{
    let i = 2 * k;
    if sets[i] as u32 != set {
        return d;
    }
    d.add(sets[i + 1] as u32)
}
