// A lookup of kind 1 or 2 at the cursor of a text in two rows: what it does to the glyph there.
#![tactic(auto)]

ghost use Rattle.std.specs.Prelude.{◌≤◌, ◌<◌, length};
ghost use Rattle.glyph.specs.Glyph.{limit};
ghost use Rattle.text.specs.Text.{Fits};
ghost use Rattle.book.specs.Inside.{FoundInside};
ghost use Rattle.run_step.specs.State.{run_of, Ran};
ghost use Rattle.run_act.specs.Acts.{one_on, many_on, acted_by};

use book::Entry;
use run::Ending;
use run_step::State;

// That the rows fit the place and a glyph is at the cursor is a clause of each: a struct that keeps it would hold both lent rows beside the state,
// and be taken apart by every step of a run, which hands its state back by value.

// Kind 1 at the cursor.
#[tactic(auto, using(crate::specs::Laws::inside))]
fn act_one(done: &mut [u32], coming: &[u32], s: State, from: u32, to: u32) -> State
    requires { Fits done.old coming.now s.place × (s.place.idx < limit) }
    ensures { Ran done.new coming.now result (one_on from to (run_of done.old coming.now s)) }
{
    let g = glyph::read(coming, s.place.idx);
    if g.id != from {
        return s;
    }
    let place = text::replace_one(done, coming, s.place, to);
    run_step::parted(s, place)
}

// Kind 2 at the cursor. A result that would pass the limit writes nothing, and the run is Full.
#[tactic(auto, using(crate::specs::Laws::rooms))]
fn act_many(done: &mut [u32], coming: &[u32], s: State, from: u32, ids: &[u16]) -> State
    requires { Fits done.old coming.now s.place × (s.place.idx < limit) × (length ids.now ≤ limit) }
    ensures { Ran done.new coming.now result
        (many_on from ids.now (run_of done.old coming.now s)) }
{
    let g = glyph::read(coming, s.place.idx);
    if g.id != from {
        return s;
    }
    if text::is_full(s.place, ids.len()) {
        return run_step::ended(s, Ending::Full);
    }
    let place = text::replace_many(done, coming, s.place, ids);
    run_step::parted(s, place)
}

// Kinds 1 and 2; any other entry does nothing here. Nor does a lookup that the book doesn't have.
// `coming` is lent as the cycle has it, to write to; these two only read it.
#[tactic(auto, using(crate::specs::Laws::limit_most))]
pub fn act(done: &mut [u32], coming: &mut [u32], book: &[u16], e: Option<Entry>, s: State) -> State
    requires { Fits done.old coming.old s.place × (s.place.idx < limit) × FoundInside (length book.now) e }
    ensures { Ran done.new coming.new result
        (acted_by book.now e (run_of done.old coming.old s)) }
{
    match e {
        Some(Entry::One { from, to, .. }) => act_one(done, coming, s, from, to),
        Some(Entry::Many { from, ids, .. }) => {
            act_many(done, coming, s, from, &book[ids.from..ids.to])
        }
        Some(Entry::Chain { .. }) => s,
        None => s,
    }
}
