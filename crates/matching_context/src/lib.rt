// Lookahead and backtrack against a text, and the backward row.
#![tactic(auto)]

ghost use Rattle.std.specs.Prelude.{◌≡◌, ◌≤◌, length};
ghost use Rattle.glyph.specs.Glyph.{glyphs_of};
ghost use Rattle.verdict.specs.Verdict.{value_by};
ghost use Rattle.matching.specs.Take.{ahead, behind};
ghost use Rattle.matching.specs.Matchers.{ahead_on, back_on};
ghost use Rattle.matching.specs.Ready.{first_or_none, backward_row};
ghost use Rattle.matching.specs.Answers.{context_told};

use matching::{ContextMatch, NoContext, Terms};
use verdict::{Sign, Table, Test};
use walk::Walked;

// Lookahead: the walk is handed the glyphs from the start on; what it answers is counted in the whole text.
pub fn lookahead(
    text: &[u32],
    start: usize,
    syllable: u8,
    lookup: Terms,
    sets: &[u16],
    test: Test,
    lists: &[u16],
    values: &[u32],
) -> ContextMatch
    requires { start ≤ length (glyphs_of text.now) }
    ensures { result ≡ context_told (ahead (length (glyphs_of text.now))) start
        (ahead_on lookup sets.now (value_by test lists.now) (glyphs_of text.now) start syllable
        values.now) }
{
    let matcher = verdict::matcher_of(lookup.settings, true, lookup.mask, lookup.props);
    let onward = glyph::onward(text, start);
    let len = glyph::count(onward);
    let mut next = 0;
    for &value in values {
        let sign = Sign { test, value };
        match walk::forward_from(onward, len, next, matcher, sign, lists, syllable, sets) {
            Walked::Found(q) => next = q + 1,
            Walked::Stopped(extent) => return Err(NoContext::Lost(start + extent)),
            Walked::RanOut(extent) => return Err(NoContext::Lost(start + extent)),
        }
    }
    Ok(start + next)
}

// Backtrack, from the end of the backward row.
pub fn backtrack(
    row: &[u32],
    syllable: u8,
    lookup: Terms,
    sets: &[u16],
    test: Test,
    lists: &[u16],
    values: &[u32],
) -> ContextMatch
    ensures { result ≡ context_told behind (length (glyphs_of row.now))
        (back_on lookup sets.now (value_by test lists.now) (glyphs_of row.now) syllable values.now) }
{
    let m = verdict::matcher_of(lookup.settings, true, lookup.mask, lookup.props);
    let mut place = glyph::count(row);
    for &value in values {
        let sign = Sign { test, value };
        match walk::backward_from(row, place, m, sign, lists, syllable, sets) {
            Walked::Found(p) => place = p,
            Walked::Stopped(extent) => return Err(NoContext::Lost(extent)),
            Walked::RanOut(extent) => return Err(NoContext::Lost(extent)),
        }
    }
    Ok(place)
}

// ---- the backward row

// The first k glyphs of a row; none where it has fewer.
fn first_or_none(row: &[u32], k: usize) -> &[u32]
    ensures { glyphs_of result.now ≡ first_or_none k (glyphs_of row.now) }
{
    if glyph::count(row) < k {
        glyph::first(row, 0)
    } else {
        glyph::first(row, k)
    }
}

// The backward row, as a part of the row it stands in.
pub fn backward_row<'d, 'c: 'd>(
    table: Table,
    done: &'d [u32],
    d: usize,
    coming: &'c [u32],
    idx: usize,
) -> &'d [u32]
    ensures { glyphs_of result.now ≡ backward_row table (glyphs_of done.now) d (glyphs_of coming.now) idx }
{
    match table {
        Table::Gsub => first_or_none(done, d),
        Table::Gpos => first_or_none(coming, idx),
    }
}
