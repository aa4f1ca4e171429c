// What a run is refused for before it begins, its book aside: rows, mark sets and records by 1, the cursor by 2, allowance and depth by 12, the match
// handed in by 7.
#![tactic(auto)]

ghost use Rattle.std.specs.Prelude.{◌≡◌};
ghost use Rattle.run_refuse.specs.Refuse.{bad_records, checked_first, rises_to, good_places};

use run::RunRefusal;
use text::Place;

// Allowance and depth of a run, at most.
pub const MOST_ALLOWANCE: u32 = 2147483647;

pub const MAX_NESTING_LEVEL: usize = 64;

// Refusals 1, 2 and 12.
#[tactic(auto, unfolding(crate::specs::Refuse::checked_first))]
pub fn check(
    done: &[u32],
    coming: &[u32],
    place: Place,
    sets: &[u16],
    records: &[u16],
    allowance: u32,
    depth: usize,
) -> Result<(), RunRefusal>
    ensures { result ≡ checked_first done.now coming.now place sets.now records.now allowance depth }
{
    if text::is_unfit(done, coming, place) | (glyph::is_odd(sets) | is_bad_list(records)) {
        return Err(RunRefusal::Shape);
    }
    if text::is_past_end(place) {
        return Err(RunRefusal::Cursor);
    }
    if (MOST_ALLOWANCE < allowance) | (MAX_NESTING_LEVEL < depth) {
        return Err(RunRefusal::Limits);
    }
    Ok(())
}

// Records that aren't pairs, or too many.
fn is_bad_list(records: &[u16]) -> bool
    ensures { result ≡ bad_records records.now }
{
    (records.len() % 2 != 0) | (2 * book::RECORDS < records.len())
}

// Whether places can be a level's: some and at most 64, from the cursor on, rising, below an end that is in the row.
#[tactic(auto, unfolding(glyph::specs::Glyph::limit))]
pub fn is_level(places: &[u16; 64], count: usize, end: usize, idx: usize) -> bool
    ensures { result ≡ good_places idx end count places.now }
{
    count != 0
        && count <= run_positions::SLOTS
        && end <= glyph::LIMIT
        && places[0] as usize == idx
        && is_rising(&places[..count], end, idx)
}

// Whether places rise from `from` on, all below the end.
fn is_rising(places: &[u16], end: usize, from: usize) -> bool
    ensures { result ≡ rises_to from end places.now }
{
    let mut low = from;
    for place in places {
        let p = *place as usize;
        if p < low || end <= p {
            return false;
        }
        low = p + 1;
    }
    true
}
