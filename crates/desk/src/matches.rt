// The three matchers. A text is the first d glyphs of done, and coming, of which len glyphs count, with the cursor idx.
ghost use Rattle.std.specs.Prelude.{◌≡◌, []};
ghost use Rattle.verdict.specs.Verdict.{value_by};
ghost use Rattle.matching_calls.specs.Calls.{input_of, ahead_of, back_of};
ghost use Rattle.verdict.specs.Numbers.{test_of};
ghost use Rattle.desk.specs.Matches.{terms_for, matched_of, placed_of};

use crate::walks::Lookup;
use matching::{ContextMatch, InputMatch, NoContext, NoMatch, Success, Terms};

// 0 with end, total, count and positions; 4 with the extent in `end`; or a refusal's number. Unused slots are 0.
#[repr(C)]
#[derive(Clone, Copy)]
pub struct Matched {
    pub number: u8,
    pub total: u16,
    pub end: usize,
    pub count: usize,
    pub positions: [u16; 64],
}

// 0 with the place, 4 with the extent, or a refusal's number.
#[repr(C)]
#[derive(Clone, Copy)]
pub struct Placed {
    pub number: u8,
    pub place: usize,
}

#[unsafe(no_mangle)]
pub extern "C" fn cb_match_input(
    done: &[u32],
    d: usize,
    coming: &[u32],
    len: usize,
    idx: usize,
    lookup: Lookup,
    sets: &[u16],
    test: u8,
    values: &[u32],
) -> Matched
    ensures { result ≡ matched_of
        (input_of done.now d coming.now len idx (terms_for lookup) sets.now (value_by (test_of test) [])
        values.now) }
{
    Matched::from(matching_calls::match_input(
        done,
        d,
        coming,
        len,
        idx,
        lookup.into(),
        sets,
        test.into(),
        values,
    ))
}

#[unsafe(no_mangle)]
pub extern "C" fn cb_match_lookahead(
    done: &[u32],
    d: usize,
    coming: &[u32],
    len: usize,
    idx: usize,
    start: usize,
    lookup: Lookup,
    sets: &[u16],
    test: u8,
    values: &[u32],
) -> Placed
    ensures { result ≡ placed_of (ahead_of done.now d coming.now len idx start (terms_for lookup) sets.now
        (value_by (test_of test) []) values.now) }
{
    Placed::from(matching_calls::match_lookahead(
        done,
        d,
        coming,
        len,
        idx,
        start,
        lookup.into(),
        sets,
        test.into(),
        values,
    ))
}

#[unsafe(no_mangle)]
pub extern "C" fn cb_match_backtrack<'a>(
    done: &'a [u32],
    d: usize,
    coming: &'a [u32],
    len: usize,
    idx: usize,
    lookup: Lookup,
    sets: &[u16],
    test: u8,
    values: &[u32],
) -> Placed
    ensures { result ≡ placed_of (back_of done.now d coming.now len idx (terms_for lookup) sets.now
        (value_by (test_of test) []) values.now) }
{
    Placed::from(matching_calls::match_backtrack(
        done,
        d,
        coming,
        len,
        idx,
        lookup.into(),
        sets,
        test.into(),
        values,
    ))
}

// ---- C's structs from ours, and ours from C's

impl From<Lookup> for Terms {
    ghost from_gives = { λ lookup terms. terms ≡ terms_for lookup };

    fn from(l: Lookup) -> Terms {
        Terms {
            settings: l.into(),
            mask: l.mask,
            props: l.props,
        }
    }
}

impl From<InputMatch> for Matched {
    ghost from_gives = { λ input matched. matched ≡ matched_of input };

    fn from(m: InputMatch) -> Matched {
        let positions = m.positions;
        let (number, end, total) = match m.answer {
            Ok(Success { end, total }) => (0, end, total),
            Err(NoMatch::Refused(why)) => (u8::from(why), 0, 0),
            Err(NoMatch::Lost(extent)) => (4, extent, 0),
            Err(NoMatch::Ligature) => (5, 0, 0),
        };
        Matched {
            number,
            total,
            end,
            count: m.count,
            positions,
        }
    }
}

impl From<ContextMatch> for Placed {
    ghost from_gives = { λ context placed. placed ≡ placed_of context };

    fn from(c: ContextMatch) -> Placed {
        match c {
            Ok(place) => Placed { number: 0, place },
            Err(NoContext::Refused(why)) => Placed {
                number: why.into(),
                place: 0,
            },
            Err(NoContext::Lost(extent)) => Placed {
                number: 4,
                place: extent,
            },
        }
    }
}
