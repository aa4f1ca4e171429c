// Records as structs: a run over a lent slice of them answers as the run on the same pairs in words.
#![tactic(auto)]

ghost use Rattle.std.specs.Prelude.{◌≡◌, ◌*◌, ◌<◌, ◌≤◌, length, get_or, take};
ghost use Rattle.run_calls.specs.Calls.{Said};
ghost use Rattle.run_record_structs.specs.Records.{record_words};
ghost use Rattle.run_record_structs.specs.Array.{most_pairs, pairs_kept, no_record, with_pair, Filled};

use matching::InputMatch;
use run::{Given, RunRefusal};
use run_calls::RunAnswer;

// Which position of the match, and which lookup of the book.
#[derive(Clone, Copy, Debug, PartialEq, Eq)]
pub struct Record {
    pub sequence: u16,
    pub lookup: u16,
}

// Records that are kept, at most: one more than a run takes, so that too many stay too many.
const KEPT: usize = book::RECORDS + 1;

// A run of records over a text, as `run_calls::run` has it on the words of the same pairs.
pub fn run(
    done: &mut [u32],
    coming: &mut [u32],
    d: usize,
    idx: usize,
    sets: &[u16],
    book: &[u16],
    records: &[Record],
    matched: InputMatch,
    given: Given,
    allowance: u32,
    depth: usize,
) -> Result<RunAnswer, RunRefusal>
    ensures { Said (record {
      done = done.old;
      coming = coming.old;
      place = record { d = d; idx = idx };
      sets = sets.now;
      book = book.now;
      records = record_words records.now;
      match = matched;
      given = given;
    }) allowance depth done.new coming.new result }
{
    let pairs = Pairs::of(records);
    // What is refused is `run_calls::run`'s to say: 17 records are 34 words, which are too many there.
    run_calls::run(
        done,
        coming,
        d,
        idx,
        sets,
        book,
        pairs.as_words(),
        matched,
        given,
        allowance,
        depth,
    )
}

// The thin reader: the record at a place.
fn record_at(records: &[Record], i: usize) -> Record
    requires { i < length records.now }
    ensures { result ≡ get_or records.now i no_record }
{
    records[i]
}

// The first records as pairs of words, and how many there are. An array with its length beside it, since the library has no heap.
#[derive(Clone, Copy, Debug, PartialEq, Eq)]
struct Pairs {
    n: usize,
    words: [u16; 2 * KEPT],
}

impl Pairs {
    // As many records as are kept, read one by one.
    fn of(records: &[Record]) -> Pairs
        ensures { Filled (take (pairs_kept (length records.now)) records.now) result }
    {
        let kept = records.len().min(KEPT);
        let mut pairs = Pairs {
            n: 0,
            words: [0; 2 * KEPT],
        };
        for i in 0..kept {
            pairs.push(record_at(records, i));
        }
        pairs
    }

    // One more pair.
    fn push(&mut self, r: Record)
        requires { self.old.n < most_pairs }
        ensures { self.new ≡ with_pair self.old r }
    {
        self.words[2 * self.n] = r.sequence;
        self.words[2 * self.n + 1] = r.lookup;
        self.n += 1;
    }

    // The words of the pairs.
    fn as_words(&self) -> &[u16]
        requires { self.now.n ≤ most_pairs }
        ensures { result.now ≡ take (2 * self.now.n) self.now.words }
    {
        &self.words[..2 * self.n]
    }
}
