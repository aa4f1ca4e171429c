// The steps of a run over a text in two rows: a record judged and reached, a level closed.
#![tactic(auto)]

ghost use Rattle.std.specs.Prelude.{◌≡◌, ◌+◌, ◌-◌, ◌≤◌, ◌<◌, length};
ghost use Rattle.glyph.specs.Glyph.{limit};
ghost use Rattle.text.specs.Text.{text_of, size_of, Fits};
ghost use Rattle.run_positions.specs.Slots.{level_of, Neat};
ghost use Rattle.run_step.specs.State.{run_of, stage_of, Ran, Able, at, is_due_at, begun_at, parted_at, ended_as};
ghost use Rattle.run_step.specs.State.{spent_as, stopped_as, judged_at, readied, Prepared, closed_at};
ghost use Rattle.run.specs.Run.{most_allowance};

use run::Ending;
use run_positions::Slots;
use text::Place;

// A run under way: where the text is parted, and its tally: the allowance that is left, the lookups tried so far, and how it would end now. States
// are made by `begin`, `parted`, `ended` and `spend`. The tally's fields stand in it, and not in a struct of their own, which would be copied with
// its padding.
#[derive(Clone, Copy, Debug, PartialEq, Eq)]
pub struct State {
    pub place: Place,
    pub left: u32,
    pub spent: u32,
    pub ending: Ending,
}

// A record before its lookup is tried: whether it is, and what the run and the level are then.
// No Option or Result: both values are there in both cases. State and level stay two parameters: lookups and a level's end take the state alone.
#[derive(Clone, Copy, Debug, PartialEq, Eq)]
pub struct Ready {
    pub go: bool,
    pub state: State,
    pub level: Slots,
}

// Whether a record is due: its level goes on in a run that isn't over, its sequence index is below the count, its position is in the text.
#[tactic(auto, using(crate::specs::Steps::due))]
fn is_due(s: State, lv: Slots, seq: usize) -> bool
    requires { Neat lv × (lv.count ≤ 64) × (s.place.idx ≤ limit) × (s.place.d ≤ s.place.idx) }
    ensures { result ≡ is_due_at (level_of lv) s.ending (size_of s.place) seq }
{
    lv.live
        && !run::is_over(s.ending)
        && seq < lv.count
        && (lv.at[seq] as usize) < text::size(s.place)
}

// A run that begins.
pub fn begin(place: Place, allowance: u32) -> State
    ensures { result ≡ begun_at place allowance }
{
    State {
        place,
        left: allowance,
        spent: 0,
        ending: Ending::Finished,
    }
}

// The run with its text parted elsewhere.
pub fn parted(s: State, place: Place) -> State
    ensures { result ≡ parted_at place s }
{
    State { place, ..s }
}

// The run with another ending.
pub fn ended(s: State, ending: Ending) -> State
    ensures { result ≡ ended_as ending s }
{
    State { ending, ..s }
}

// The run with one try more.
fn spend(s: State) -> State
    requires { (1 ≤ s.left) × (s.left + s.spent ≤ most_allowance) }
    ensures { result ≡ spent_as (s.left - 1) s }
{
    State {
        left: s.left - 1,
        spent: s.spent + 1,
        ..s
    }
}

// A due record, reached: allowance 0 is Short, depth 0 is Deep, else one is spent.
#[tactic(auto, unfolding(crate::specs::State::judged_at))]
fn judge(s: State, lv: Slots, depth: usize) -> Ready
    requires { s.left + s.spent ≤ most_allowance }
    ensures { result ≡ judged_at depth s.left s lv }
{
    if s.left == 0 {
        return stop(s, lv, Ending::Short);
    }
    if depth == 0 {
        return stop(s, lv, Ending::Deep);
    }
    Ready {
        go: true,
        state: spend(s),
        level: lv,
    }
}

// The level stops, and the record's lookup isn't tried.
fn stop(s: State, lv: Slots, ending: Ending) -> Ready
    ensures { result ≡ stopped_as ending s lv }
{
    Ready {
        go: false,
        state: ended(s, ending),
        level: Slots { live: false, ..lv },
    }
}

// A record before its lookup is tried: where it is due, the cursor goes to its position.
#[tactic(auto, using(crate::specs::Steps::readies))]
pub fn prepare(
    done: &mut [u32],
    coming: &mut [u32],
    s: State,
    lv: Slots,
    seq: usize,
    depth: usize,
) -> Ready
    requires { Able done.old coming.old s lv }
    ensures { Prepared (readied depth (at seq) (stage_of done.old coming.old s lv)) done.new
        coming.new result }
{
    if !is_due(s, lv, seq) {
        return Ready {
            go: false,
            state: s,
            level: lv,
        };
    }
    let p = lv.at[seq] as usize;
    let place = text::move_to(done, coming, s.place, p);
    judge(parted(s, place), lv, depth)
}

// A level ends by moving to its end, except after Deep or Full.
#[tactic(auto, using(crate::specs::Steps::closings))]
pub fn finish(done: &mut [u32], coming: &mut [u32], s: State, end: usize) -> State
    requires { Fits done.old coming.old s.place × (end ≤ length (text_of done.old coming.old s.place).glyphs) }
    ensures { Ran done.new coming.new result (closed_at end (run_of done.old coming.old s)) }
{
    if run::is_over(s.ending) {
        return s;
    }
    let place = text::move_to(done, coming, s.place, end);
    parted(s, place)
}
