// What the three calls are refused for, told before anything is matched. What is handed in comes one by one, as the calls have it.
#![tactic(auto)]

ghost use Rattle.std.specs.Prelude.{◌≡◌, cond};
ghost use Rattle.matching.specs.declared.Refusal.TheVariants.{Shape, Cursor, Values, Start};
ghost use Rattle.matching_refuse.specs.Fit.{bad_text, input_fit, ahead_fit, back_fit};

use matching::{MAX_CONTEXT_LENGTH, Refusal};

// A text whose rows, lengths or mark sets are ill shaped.
#[tactic(auto, unfolding(crate::specs::Fit::bad_text))]
fn is_bad_text(done: &[u32], d: usize, coming: &[u32], len: usize, sets: &[u16]) -> bool
    ensures { result ≡ bad_text done.now d coming.now len sets.now }
{
    glyph::is_ill_shaped(done)
        | (glyph::count(done) < d)
        | glyph::is_ill_shaped(coming)
        | (glyph::count(coming) < len)
        | glyph::is_odd(sets)
}

// Input: 1, 2, and 3 for over 63 values.
#[tactic(auto, unfolding(crate::specs::Fit::input_fit))]
pub fn input_fit(
    done: &[u32],
    d: usize,
    coming: &[u32],
    len: usize,
    idx: usize,
    sets: &[u16],
    values: usize,
) -> Result<(), Refusal>
    ensures { result ≡ input_fit done.now d coming.now len idx sets.now values }
{
    let bad = is_bad_text(done, d, coming, len, sets);
    first_line(bad, len <= idx, MAX_CONTEXT_LENGTH <= values, false)
}

// Lookahead: 1, for a start past len too, 2, 3 for over 64 values, and 6 for a start of 0, also with no values.
#[tactic(auto, unfolding(crate::specs::Fit::ahead_fit))]
pub fn ahead_fit(
    done: &[u32],
    d: usize,
    coming: &[u32],
    len: usize,
    idx: usize,
    start: usize,
    sets: &[u16],
    values: usize,
) -> Result<(), Refusal>
    ensures { result ≡ ahead_fit done.now d coming.now len idx start sets.now values }
{
    let bad = is_bad_text(done, d, coming, len, sets) | (len < start);
    first_line(bad, len <= idx, MAX_CONTEXT_LENGTH < values, start == 0)
}

// Backtrack: 1, 2, and 3 for over 64 values.
#[tactic(auto, unfolding(crate::specs::Fit::back_fit))]
pub fn back_fit(
    done: &[u32],
    d: usize,
    coming: &[u32],
    len: usize,
    idx: usize,
    sets: &[u16],
    values: usize,
) -> Result<(), Refusal>
    ensures { result ≡ back_fit done.now d coming.now len idx sets.now values }
{
    let bad = is_bad_text(done, d, coming, len, sets);
    first_line(bad, len <= idx, MAX_CONTEXT_LENGTH < values, false)
}

// The first line of 01's table that refuses, in its order: 1, 2, 3, 6.
fn first_line(bad: bool, past: bool, many: bool, unbegun: bool) -> Result<(), Refusal>
    ensures { result ≡ cond bad (Err Shape)
        (cond past (Err Cursor) (cond many (Err Values) (cond unbegun (Err Start) (Ok tt)))) }
{
    if bad {
        return Err(Refusal::Shape);
    }
    if past {
        return Err(Refusal::Cursor);
    }
    if many {
        return Err(Refusal::Values);
    }
    if unbegun {
        return Err(Refusal::Start);
    }
    Ok(())
}
