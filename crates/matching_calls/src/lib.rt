// The three calls on rows of words that a user makes, refused in 01's order before anything is matched. Their parameters are the C interface's.
#![tactic(auto)]

ghost use Rattle.std.specs.Prelude.{◌≡◌, []};
ghost use Rattle.verdict.specs.Verdict.{value_by};
ghost use Rattle.matching.specs.Answers.{without};
ghost use Rattle.matching_calls.specs.Calls.{input_of, ahead_of, back_of};

use matching::{ContextMatch, InputMatch, NoMatch, Refusal, Terms};
use verdict::Test;

// The values against the glyphs after the cursor.
#[tactic(auto, using(crate::specs::Table::input_fits), unfolding(crate::specs::Calls::input_of))]
pub fn match_input(
    done: &[u32],
    d: usize,
    coming: &[u32],
    len: usize,
    idx: usize,
    lookup: Terms,
    sets: &[u16],
    test: Test,
    values: &[u32],
) -> InputMatch
    ensures { result ≡ input_of done.now d coming.now len idx lookup sets.now (value_by test [])
        values.now }
{
    if let Err(why) = matching_refuse::input_fit(done, d, coming, len, idx, sets, values.len()) {
        return refuse(why);
    }
    let before = glyph::first(done, d);
    let text = glyph::first(coming, len);
    let none = [0u16; 0];
    matching::input(before, text, idx, lookup, sets, test, &none, values)
}

// The values against the glyphs from a start on.
#[tactic(auto, using(crate::proofs::Parts::ahead_laws), unfolding(crate::specs::Calls::ahead_of))]
pub fn match_lookahead(
    done: &[u32],
    d: usize,
    coming: &[u32],
    len: usize,
    idx: usize,
    start: usize,
    lookup: Terms,
    sets: &[u16],
    test: Test,
    values: &[u32],
) -> ContextMatch
    ensures { result ≡ ahead_of done.now d coming.now len idx start lookup sets.now (value_by test [])
        values.now }
{
    matching_refuse::ahead_fit(done, d, coming, len, idx, start, sets, values.len())?;
    let text = glyph::first(coming, len);
    let cursor = glyph::read(text, idx);
    let none = [0u16; 0];
    matching_context::lookahead(
        text,
        start,
        cursor.syllable,
        lookup,
        sets,
        test,
        &none,
        values,
    )
}

// The values against the glyphs of the backward row, from its end.
#[tactic(auto, using(crate::proofs::Parts::back_laws), unfolding(crate::specs::Calls::back_of))]
pub fn match_backtrack<'a>(
    done: &'a [u32],
    d: usize,
    coming: &'a [u32],
    len: usize,
    idx: usize,
    lookup: Terms,
    sets: &[u16],
    test: Test,
    values: &[u32],
) -> ContextMatch
    ensures { result ≡ back_of done.now d coming.now len idx lookup sets.now (value_by test [])
        values.now }
{
    matching_refuse::back_fit(done, d, coming, len, idx, sets, values.len())?;
    let text = glyph::first(coming, len);
    let row = matching_context::backward_row(lookup.settings.table, done, d, text, idx);
    let cursor = glyph::read(text, idx);
    let none = [0u16; 0];
    matching_context::backtrack(row, cursor.syllable, lookup, sets, test, &none, values)
}

// A refused call has no positions.
fn refuse(why: Refusal) -> InputMatch
    ensures { result ≡ without (NoMatch.Refused why) }
{
    InputMatch {
        answer: Err(NoMatch::from(why)),
        count: 0,
        positions: [0u16; 64],
    }
}
