// A run of records over a text, and whether a book reads.
ghost use Rattle.std.specs.Prelude.{◌≡◌, Result};
ghost use Rattle.book.specs.Book.{read_book, is_read};
ghost use Rattle.run.specs.declared.RunRefusal.{RunRefusal as Refusal};
ghost use Rattle.run_calls.specs.declared.RunAnswer.{RunAnswer as Answer};
ghost use Rattle.run_calls.specs.Calls.{Said};
ghost use Rattle.desk.specs.Runs.{match_from, given_from, ran_of};

use crate::matches::Matched;
use matching::InputMatch;
use run::{Given, RunRefusal};
use run_calls::RunAnswer;

// The three switches and the lookup mask. A run is GSUB.
#[repr(C)]
#[derive(Clone, Copy)]
pub struct Switches {
    pub zwnj: bool,
    pub zwj: bool,
    pub syllables: bool,
    pub mask: u32,
}

// 0 Finished, 8 Short, 9 Deep or 10 Full with what the run answers; or a refusal's number, and 0 everywhere else.
#[repr(C)]
#[derive(Clone, Copy)]
pub struct Ran {
    pub number: u8,
    pub spent: u32,
    pub d: usize,
    pub idx: usize,
    pub count: usize,
    pub positions: [u16; 64],
}

#[unsafe(no_mangle)]
pub extern "C" fn cb_book_reads(book: &[u16]) -> bool
    ensures { result ≡ is_read (read_book book.now) }
{
    book_index::reads(book)
}

#[unsafe(no_mangle)]
pub extern "C" fn cb_run(
    done: &mut [u32],
    coming: &mut [u32],
    d: usize,
    idx: usize,
    sets: &[u16],
    book: &[u16],
    records: &[u16],
    matched: Matched,
    switches: Switches,
    allowance: u32,
    depth: usize,
) -> Ran
    ensures { (a : Result Answer Refusal) × (Said (record {
      done = done.old;
      coming = coming.old;
      place = record { d = d; idx = idx };
      sets = sets.now;
      book = book.now;
      records = records.now;
      match = match_from matched;
      given = given_from switches;
    }) allowance depth done.new coming.new a × (result ≡ ran_of a)) }
{
    Ran::from(run_calls::run(
        done,
        coming,
        d,
        idx,
        sets,
        book,
        records,
        matched.into(),
        switches.into(),
        allowance,
        depth,
    ))
}

// ---- C's structs from ours, and ours from C's

impl From<Matched> for InputMatch {
    ghost from_gives = { λ matched input. input ≡ match_from matched };

    fn from(m: Matched) -> InputMatch {
        let positions = m.positions;
        InputMatch {
            answer: matching::answer_from(m.number, m.end, m.total),
            count: m.count,
            positions,
        }
    }
}

impl From<Switches> for Given {
    ghost from_gives = { λ switches given. given ≡ given_from switches };

    fn from(s: Switches) -> Given {
        Given {
            zwnj: s.zwnj,
            zwj: s.zwj,
            syllables: s.syllables,
            mask: s.mask,
        }
    }
}

impl From<Result<RunAnswer, RunRefusal>> for Ran {
    ghost from_gives = { λ answer ran. ran ≡ ran_of answer };

    fn from(answer: Result<RunAnswer, RunRefusal>) -> Ran {
        match answer {
            Ok(a) => {
                let positions = a.positions;
                Ran {
                    number: run::number_of(Ok(a.ending)),
                    spent: a.spent,
                    d: a.d,
                    idx: a.idx,
                    count: a.count,
                    positions,
                }
            }
            Err(why) => Ran {
                number: run::number_of(Err(why)),
                spent: 0,
                d: 0,
                idx: 0,
                count: 0,
                positions: [0; 64],
            },
        }
    }
}
