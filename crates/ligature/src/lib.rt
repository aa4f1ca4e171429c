// The ligature rule of input matching: which later glyph may be taken with the first.
// A ligature leaves the marks of its components side by side: of LAM, SHADDA, LAM, FATHA, HEH the letters become one, and SHADDA and FATHA
// are then neighbours that must not become one mark. So glyphs attached to a ligature match together only within one component. Two
// exceptions: a ligature may take in its own marks, and marks of different components may be taken together where the lookup ignores the
// ligature that they belong to.
#![tactic(auto)]

ghost use Rattle.std.specs.Prelude.{◌≡◌, length};
ghost use Rattle.glyph.specs.Glyph.{glyphs_of};
ghost use Rattle.ligature.specs.Ligature.{attached, may_join, base_before, base_skips};
ghost use Rattle.ligature.specs.Search.{base_needed, may_skip, looked};

use glyph::Glyph;
use verdict::Matcher;

// What is known of the base: the search is made at most once a match, and only when it is needed.
#[derive(Clone, Copy, Debug, PartialEq, Eq)]
pub enum Ligbase {
    NotChecked,
    MayNotSkip,
    MaySkip,
}

// Back over glyphs, from the last to the first: the base of the ligature id. The place is counted by hand, where Rust would say
// `for j in (0..count).rev()`, since 01 asks here for a backward loop that yields found or not found by `break`, left from inside a nested test.
#[tactic(auto, using(crate::proofs::Seek::seeking))]
pub fn find_base(row: &[u32], id: u8) -> Option<usize>
    ensures { result ≡ base_before id (glyphs_of row.now) (length (glyphs_of row.now)) }
{
    let mut j = glyph::count(row);
    loop {
        if j == 0 {
            break None;
        }
        j -= 1;
        let g = glyph::read(row, j);
        if g.lig == id {
            if g.comp == 0 {
                break Some(j);
            }
        } else {
            break None;
        }
    }
}

// An ignorable base is found.
#[tactic(auto, using(crate::proofs::Seek::base_inside), unfolding(crate::specs::Ligature::base_skips))]
fn is_base_skipped(row: &[u32], id: u8, m: Matcher, sets: &[u16]) -> bool
    ensures { result ≡ base_skips m sets.now id (glyphs_of row.now) }
{
    match find_base(row, id) {
        Some(j) => verdict_skip::is_skip_yes(m, sets, glyph::read(row, j)),
        None => false,
    }
}

fn is_attached(g: Glyph) -> bool
    ensures { result ≡ attached g }
{
    (g.lig != 0) & (g.comp != 0)
}

// The first is attached, and the later glyph not to the same component: only a base lets it be taken.
#[tactic(auto, unfolding(crate::specs::Search::base_needed))]
fn is_base_needed(first: Glyph, this: Glyph) -> bool
    ensures { result ≡ base_needed first this }
{
    is_attached(first) & !((this.lig == first.lig) & (this.comp == first.comp))
}

// What is known of the base once a later glyph is to be taken.
pub fn look_for_base(
    known: Ligbase,
    first: Glyph,
    this: Glyph,
    row: &[u32],
    m: Matcher,
    sets: &[u16],
) -> Ligbase
    ensures { result ≡ looked known (base_needed first this) (base_skips m sets.now first.lig (glyphs_of row.now)) }
{
    if known != Ligbase::NotChecked || !is_base_needed(first, this) {
        return known;
    }
    if is_base_skipped(row, first.lig, m, sets) {
        return Ligbase::MaySkip;
    }
    Ligbase::MayNotSkip
}

// A later glyph may be taken with the first.
#[tactic(auto, unfolding(crate::specs::Ligature::may_join))]
pub fn may_join(first: Glyph, this: Glyph, base: Ligbase) -> bool
    ensures { result ≡ may_join first this (may_skip base) }
{
    if is_attached(first) {
        return ((this.lig == first.lig) & (this.comp == first.comp)) | (base == Ligbase::MaySkip);
    }
    !is_attached(this) | (this.lig == first.lig)
}
