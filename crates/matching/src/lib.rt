// The matchers' types and definitions, and input against a text. Rows, places, terms, sets, test and values are handed on one by one, as the users'
// calls have them: a struct of them would be no plainer, since each matcher takes others and its definition names each.
#![tactic(auto)]

ghost use Rattle.std.specs.Prelude.{◌≡◌, [], ◌<◌, length};
ghost use Rattle.glyph.specs.Glyph.{glyphs_of};
ghost use Rattle.verdict.specs.Verdict.{value_by};
ghost use Rattle.matching.specs.declared.NoMatch.{NoMatch};
ghost use Rattle.matching.specs.declared.NoContext.{NoContext};
ghost use Rattle.matching.specs.Take.{slots};
ghost use Rattle.matching.specs.Matchers.{input_by, input_on, searched_glyphs};
ghost use Rattle.matching.specs.Ready.{InputReady};
ghost use Rattle.matching.specs.Answers.{slotted, input_told, refusal_number, answer_from};
ghost use Rattle.matching.specs.Cases.{count_of, made_of};

use ligature::Ligbase;
use verdict::{Matcher, Settings, Sign, Table, Test};
use walk::Walked;

// Positions of a match, at most.
pub const MAX_CONTEXT_LENGTH: usize = 64;

// What a lookup asks of a text, the same for every glyph.
#[derive(Clone, Copy, Debug, PartialEq, Eq)]
pub struct Terms {
    pub settings: Settings,
    pub mask: u32,
    pub props: u32,
}

// What a call is refused for before anything is matched, by 01's number.
#[derive(Clone, Copy, Debug, PartialEq, Eq)]
pub enum Refusal {
    Shape = 1,
    Cursor = 2,
    Values = 3,
    Start = 6,
}

impl From<Refusal> for u8 {
    ghost from_gives = { λ why number. number ≡ refusal_number why };

    fn from(why: Refusal) -> u8 {
        why as u8
    }
}

#[derive(Clone, Copy, Debug, PartialEq, Eq)]
pub struct Success {
    // The last position and one more.
    pub end: usize,
    // The total of component counts.
    pub total: u16,
}

#[derive(Clone, Copy, Debug, PartialEq, Eq)]
pub enum NoMatch {
    Refused(Refusal),
    // A walk stopped or ran out, by its extent: refusal 4.
    Lost(usize),
    // The ligature rule: refusal 5.
    Ligature,
}

impl From<Refusal> for NoMatch {
    ghost from_gives = { λ why no. no ≡ NoMatch.Refused why };

    fn from(why: Refusal) -> NoMatch {
        NoMatch::Refused(why)
    }
}

pub type InputAnswer = Result<Success, NoMatch>;

// The answer, and beside it, as 01 has them, the positions that it counts; the other slots are 0.
#[derive(Clone, Copy, Debug, PartialEq, Eq)]
pub struct InputMatch {
    pub answer: InputAnswer,
    pub count: usize,
    pub positions: [u16; 64],
}

#[derive(Clone, Copy, Debug, PartialEq, Eq)]
pub enum NoContext {
    Refused(Refusal),
    // A walk stopped or ran out, by its extent: refusal 4.
    Lost(usize),
}

impl From<Refusal> for NoContext {
    ghost from_gives = { λ why no. no ≡ NoContext.Refused why };

    fn from(why: Refusal) -> NoContext {
        NoContext::Refused(why)
    }
}

// Lookahead: the last place and one more, or the start. Backtrack: the last place, or the backward row's length.
pub type ContextMatch = Result<usize, NoContext>;

// ---- the matchers over glyphs, every one of which counts

// Input. The search for a base goes back over `before`, under GPOS over nothing. It stands where it is called: an answer has 152 bytes.
#[inline(always)]
#[tactic(auto, unfolding(crate::specs::Matchers::input_on))]
pub fn input(
    before: &[u32],
    text: &[u32],
    idx: usize,
    lookup: Terms,
    sets: &[u16],
    test: Test,
    lists: &[u16],
    values: &[u32],
) -> InputMatch
    requires { InputReady (glyphs_of text.now) idx values.now }
    ensures { result ≡ input_told (glyphs_of text.now) idx
        (input_on lookup sets.now (value_by test lists.now) (glyphs_of before.now) (glyphs_of text.now) idx
        values.now) }
{
    let m = verdict::matcher_of(lookup.settings, false, lookup.mask, lookup.props);
    let searched = searched_row(lookup.settings.table, before);
    let mut positions = [0u16; 64];
    let answer = take_input(
        searched,
        text,
        idx,
        m,
        sets,
        test,
        lists,
        values,
        &mut positions,
    );
    InputMatch {
        answer,
        count: count_of(answer, values.len()),
        positions,
    }
}

// How many positions an answer has: the cursor and one for each value.
pub fn count_of(answer: InputAnswer, values: usize) -> usize
    requires { values < slots }
    ensures { result ≡ count_of answer values }
{
    if answer.is_ok() { values + 1 } else { 0 }
}

// Under GPOS nothing is searched for a base.
pub fn searched_row(table: Table, before: &[u32]) -> &[u32]
    ensures { glyphs_of result.now ≡ searched_glyphs table (glyphs_of before.now) }
{
    match table {
        Table::Gsub => before,
        Table::Gpos => glyph::first(before, 0),
    }
}

// Input with a matcher. The positions are written to slots that are lent, so that they are handed on only once.
#[tactic(auto, unfolding(glyph::specs::Glyph::limit))]
pub fn take_input(
    searched: &[u32],
    text: &[u32],
    idx: usize,
    m: Matcher,
    sets: &[u16],
    test: Test,
    lists: &[u16],
    values: &[u32],
    positions: &mut [u16; 64],
) -> InputAnswer
    requires { InputReady (glyphs_of text.now) idx values.now × (positions.old ≡ slotted []) }
    ensures { made_of result (length values.now) positions.new
        ≡ input_told (glyphs_of text.now) idx
        (input_by m sets.now (value_by test lists.now) (glyphs_of searched.now) (glyphs_of text.now) idx
        values.now) }
{
    let len = glyph::count(text);
    let first = glyph::read(text, idx);
    positions[0] = idx as u16;
    let mut total = first.count as u16;
    let mut base = Ligbase::NotChecked;
    let mut next = idx + 1;
    for (i, &value) in values.iter().enumerate() {
        let sign = Sign { test, value };
        match walk::forward_from(text, len, next, m, sign, lists, first.syllable, sets) {
            Walked::Found(q) => {
                let this = glyph::read(text, q);
                base = ligature::look_for_base(base, first, this, searched, m, sets);
                if !ligature::may_join(first, this, base) {
                    return lose(NoMatch::Ligature, positions);
                }
                positions[i + 1] = q as u16;
                total += this.ligated as u16;
                next = q + 1;
            }
            Walked::Stopped(extent) => return lose(NoMatch::Lost(extent), positions),
            Walked::RanOut(extent) => return lose(NoMatch::Lost(extent), positions),
        }
    }
    Ok(Success { end: next, total })
}

// What had been taken is no match: no slot stays filled.
fn lose(why: NoMatch, positions: &mut [u16; 64]) -> InputAnswer
    ensures { (result ≡ Err why) × (positions.new ≡ slotted []) }
{
    *positions = [0u16; 64];
    Err(why)
}

// ---- an answer by its number, as C hands it in

pub fn answer_from(number: u8, end: usize, total: u16) -> InputAnswer
    ensures { result ≡ answer_from number end total }
{
    if number == 0 {
        Ok(Success { end, total })
    } else {
        Err(NoMatch::Ligature)
    }
}
