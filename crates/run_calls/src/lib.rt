// Nested lookups: a run of records over a text in two rows.
#![tactic(auto)]

ghost use Rattle.std.specs.Prelude.{◌≤◌, ◌<◌, length};
ghost use Rattle.glyph.specs.Glyph.{limit};
ghost use Rattle.text.specs.Text.{text_of, Fits};
ghost use Rattle.book.specs.Book.{records_of, lookups_of};
ghost use Rattle.run.specs.Run.{begun, chain_run, most_allowance};
ghost use Rattle.run.specs.Deeds.{ruled};
ghost use Rattle.run_positions.specs.Slots.{level_of, Neat};
ghost use Rattle.run_refuse.specs.Refuse.{checked_match};
ghost use Rattle.run_calls.specs.Calls.{RunLeaves, run_says, SaidBy, Said};
ghost use Rattle.run.specs.Repair.{Sound};

use matching::{InputMatch, Success};
use run::{Ending, Given, RunRefusal};
use run_cycle::Shared;
use run_positions::Slots;
use text::Place;

// How the run ended, the lookups tried, where the text is parted, and the first level's positions. A refused run has no answer, only why.
// The positions stand in an array with a count, since the library has no heap.
#[derive(Clone, Copy, Debug, PartialEq, Eq)]
pub struct RunAnswer {
    pub ending: Ending,
    pub spent: u32,
    pub d: usize,
    pub idx: usize,
    pub count: usize,
    pub positions: [u16; 64],
}

// A run of records over a text: `done` holds its first d glyphs, `coming` ends with the others, from glyph idx on. The match handed in counts places
// in `coming`. What is handed in comes one by one, in 01's order, as C has it.
#[tactic(auto, using(crate::specs::CallLaws::index_is, crate::specs::CallLaws::index_none), unfolding(crate::specs::Calls::checked_all))]
pub fn run(
    done: &mut [u32],
    coming: &mut [u32],
    d: usize,
    idx: usize,
    sets: &[u16],
    book: &[u16],
    records: &[u16],
    matched: InputMatch,
    given: Given,
    allowance: u32,
    depth: usize,
) -> Result<RunAnswer, RunRefusal>
    ensures { Said (record {
      done = done.old;
      coming = coming.old;
      place = record { d = d; idx = idx };
      sets = sets.now;
      book = book.now;
      records = records.now;
      match = matched;
      given = given;
    }) allowance depth done.new coming.new result }
{
    let place = Place { d, idx };
    run_refuse::check(done, coming, place, sets, records, allowance, depth)?;
    let Some(index) = book_index::index_of(book) else {
        return Err(RunRefusal::Book);
    };
    let shared = Shared {
        book,
        index: &index,
        sets,
        given,
    };
    apply(
        done, coming, place, &shared, records, matched, allowance, depth,
    )
}

// The match is taken apart; refusal 7 unless it is a success whose places can be the first level's.
#[tactic(auto, using(crate::specs::CallLaws::places_show, crate::specs::CallLaws::open_asks))]
fn apply(
    done: &mut [u32],
    coming: &mut [u32],
    place: Place,
    shared: &Shared<'_>,
    records: &[u16],
    matched: InputMatch,
    allowance: u32,
    depth: usize,
) -> Result<RunAnswer, RunRefusal>
    requires { Fits done.old coming.old place × (place.idx < limit) × (allowance ≤ most_allowance) }
    ensures { SaidBy (checked_match place.idx matched) (run_says (record {
      done = done.old;
      coming = coming.old;
      place = place;
      sets = shared.now.sets.now;
      book = shared.now.book.now;
      records = records.now;
      match = matched;
      given = shared.now.given;
    }) allowance depth)
        done.old coming.old done.new coming.new result }
{
    let Ok(Success { end, total }) = matched.answer else {
        return Err(RunRefusal::Match);
    };
    let places = matched.positions;
    if !run_refuse::is_level(&places, matched.count, end, place.idx) {
        return Err(RunRefusal::Match);
    }
    let m = run_positions::open(&places, matched.count, end, place.idx, place.d);
    Ok(go(done, coming, place, shared, records, m, allowance, depth))
}

// The first level and all below it; then the cells in neither part are cleared, once.
fn go(
    done: &mut [u32],
    coming: &mut [u32],
    place: Place,
    shared: &Shared<'_>,
    records: &[u16],
    m: Slots,
    allowance: u32,
    depth: usize,
) -> RunAnswer
    requires { Fits done.old coming.old place × (allowance ≤ most_allowance) × Neat m
        × Sound 0 (length (text_of done.old coming.old place).glyphs) (level_of m) }
    ensures { RunLeaves (chain_run (ruled shared.now.given shared.now.sets.now) (lookups_of shared.now.book.now) depth (records_of records.now)
        (record { level = level_of m; run = begun allowance (text_of done.old coming.old place) })) done.new
        coming.new result }
{
    let s = run_step::begin(place, allowance);
    let r = run_cycle::chain(done, coming, shared, records, m, s, depth);
    let last = r.state;
    let here = last.place;
    text::clear_outside(done, coming, here);
    let positions = r.level.at;
    RunAnswer {
        ending: last.ending,
        spent: last.spent,
        d: here.d,
        idx: here.idx,
        count: r.level.count,
        positions,
    }
}
