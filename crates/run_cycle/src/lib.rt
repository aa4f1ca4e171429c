// A level of a run, its records in order, and the lookups that they name: two functions in a cycle, over a text in two rows.
#![tactic(auto)]

ghost use Rattle.std.specs.Prelude.{◌+◌, ◌≤◌, ◌<◌, length};
ghost use Rattle.glyph.specs.Glyph.{limit};
ghost use Rattle.text.specs.Text.{Fits};
ghost use Rattle.book.specs.Book.{records_of, lookups_of};
ghost use Rattle.book.specs.Places.{meant};
ghost use Rattle.book.specs.Inside.{FoundInside};
ghost use Rattle.run.specs.Run.{chain_run, done_by, most_allowance};
ghost use Rattle.run.specs.Deeds.{ruled};
ghost use Rattle.run_step.specs.State.{run_of, stage_of, Ran, Able};
ghost use Rattle.run_cycle.specs.Levels.{Indexed, Chained};

use book::{Entry, Index};
use run::Given;
use run_positions::Slots;
use run_step::State;

// What is the same at every level of a run: its book, which reads, with where its lookups begin, the mark sets, and what is given.
#[derive(Clone, Copy, Debug, PartialEq, Eq)]
pub struct Shared<'a> {
    pub book: &'a [u16],
    pub index: &'a Index,
    pub sets: &'a [u16],
    pub given: Given,
    pub ghost indexed: { Indexed book.now index.now.starts index.now.count },
}

// A level that is done: the run, and the level with its repaired positions.
#[derive(Clone, Copy, Debug, PartialEq, Eq)]
pub struct Closed {
    pub state: State,
    pub level: Slots,
}

// The records of a level, pairs of words, in order, and then its end. The depth that is left falls from a chain to the lookups of its records.
#[cycle(chain_lookup)]
pub fn chain(
    done: &mut [u32],
    coming: &mut [u32],
    shared: &Shared<'_>,
    recs: &[u16],
    m: Slots,
    s: State,
    depth: usize,
) -> Closed
    requires { Able done.old coming.old s m }
    ensures { Chained done.new coming.new result
        (chain_run (ruled shared.now.given shared.now.sets.now) (lookups_of shared.now.book.now) depth (records_of recs.now)
        (stage_of done.old coming.old s m)) }
{
    let mut st = s;
    let mut lv = m;
    for pair in recs.chunks_exact(2) {
        let seq = pair[0] as usize;
        let k = pair[1] as usize;
        let ready = run_step::prepare(done, coming, st, lv, seq, depth);
        st = ready.state;
        lv = ready.level;
        if ready.go {
            let old = text::size(st.place);
            let e = book::find_in(shared.book, &shared.index.starts, shared.index.count, k);
            st = lookup(done, coming, shared, &e, st, depth - 1);
            let new = text::size(st.place);
            lv = run_positions::repair(lv, seq, old, new);
        }
    }
    Closed {
        state: run_step::finish(done, coming, st, lv.end),
        level: lv,
    }
}

// A lookup at the cursor, as the book has it: it acts by itself, or it is a chain, whose records are done where it matches. Its entry is lent, since
// each record would pay for a copy more.
#[cycle(chain_lookup)]
fn lookup(
    done: &mut [u32],
    coming: &mut [u32],
    shared: &Shared<'_>,
    e: &Option<Entry>,
    s: State,
    depth: usize,
) -> State
    requires { FoundInside (length shared.now.book.now) e.now
        × Fits done.old coming.old s.place × (s.place.idx < limit) × (s.left + s.spent ≤ most_allowance) }
    ensures { Ran done.new coming.new result
        (done_by (chain_run (ruled shared.now.given shared.now.sets.now) (lookups_of shared.now.book.now) depth)
        ((ruled shared.now.given shared.now.sets.now).deed (meant shared.now.book.now e.now))
        (run_of done.old coming.old s)) }
{
    if !book::is_chain(*e) {
        return run_act::act(done, coming, shared.book, *e, s);
    }
    let Some(aim) = run_chain_match::take_aim(
        done,
        coming,
        shared.book,
        shared.sets,
        *e,
        s.place,
        shared.given,
    ) else {
        return s;
    };
    let records = &shared.book[aim.records.from..aim.records.to];
    chain(done, coming, shared, records, aim.level, s, depth).state
}
