// Replays a stored list of answers on runs of records (standard input; compare/README.md says how it was made) and prints how many there were
// by their ending or refusal and how many came out otherwise, in the answer or in any word of either row. A line's words: 50, auto-ZWNJ,
// auto-ZWJ, syllables, mask, allowance, depth, idx, end, total; then six lists, each after its number: the match's positions, mark sets, the book,
// the records, the words of done's glyphs, the words of coming's from idx on; then the answer: its number, spent, d, idx, the count and the
// positions; then two lists, the words of done's glyphs and of coming's from idx on. Every other cell holds 0.
// A line may open with 51, or with 251 where the run is refused, and six words more: d, the words of done's row and of coming's, what every cell
// holds that the lists leave out, before the run and after it, and the match's number. Done's list stands at its row's front, coming's at its end.
// An operation of 100 to 199 is the same question where ours and the original's answers differ (docs/DIFFERENCES.md), with ours.
#![tactic(auto)]

use matching::{InputAnswer, InputMatch, NoMatch, Refusal, Success};
use run::{Ending, Given, RunRefusal};
use run_calls::RunAnswer;
use stored::{Replayed, Span, add_one, after, list, listed, more, size, slots_are, word};

// The words of a run's row, and room for one that has a glyph more.
const ROW: usize = glyph::WORDS * glyph::LIMIT;

const ROOM: usize = ROW + glyph::WORDS;

// Nothing compares it, and it is printed a count at a time.
#[derive(Clone, Copy, Default)]
struct Tally {
    finished: u64,
    short: u64,
    deep: u64,
    full: u64,
    refused: Refusals,
    // Lines whose other cells held something, and such as differ from the original.
    filled: u64,
    differences: u64,
    wrong: u64,
}

// Nothing compares it, and it is printed a count at a time.
#[derive(Clone, Copy, Default)]
struct Refusals {
    by_1: u64,
    by_2: u64,
    by_12: u64,
    by_11: u64,
    by_7: u64,
}

// What a line's number says: whether six words more follow it (51 and 251), and whether its answer is ours where the original's is another.
#[derive(Clone, Copy, Debug, PartialEq, Eq)]
struct Operation {
    opens: bool,
    differs: bool,
}

impl From<u32> for Operation {
    fn from(number: u32) -> Operation {
        Operation {
            opens: number % 100 == 51,
            differs: matches!(number, 100..=199),
        }
    }
}

// A line that was replayed, and how the run ended, or what it was refused for. Nothing compares or prints it.
#[derive(Clone, Copy)]
struct Answered {
    line: Replayed,
    ended: Result<Ending, RunRefusal>,
}

// What a line says of the rows, how the match was answered, and where the line goes on as one of 50. Nothing compares or prints it.
#[derive(Clone, Copy)]
struct Opening {
    d: usize,
    done: usize,
    coming: usize,
    before: u32,
    after: u32,
    matched: InputAnswer,
    at: usize,
}

// The lists that a line asks with. Nothing compares or prints it.
#[derive(Clone, Copy)]
struct Lists {
    positions: Span,
    marks: Span,
    book: Span,
    records: Span,
    done: Span,
    coming: Span,
}

fn main(rt: HostRuntime) {
    let mut words = stored::word_room();
    let count = stored::read_list(&mut words);
    report(&rt, stored::replay(&words, count));
}

// What standard output doesn't take is lost, and the rest is tried all the same: the status stays 0, and standard error says nothing.
fn report(rt: &impl Print, tally: Tally) {
    let _ = print!(rt;
        "finished {}, short {}, deep {}, full {}",
        tally.finished, tally.short, tally.deep, tally.full
    );
    report_refused(rt, tally.refused);
    let _ = println!(rt;
        "; other cells not 0 {}, differences {}; answered otherwise {}",
        tally.filled, tally.differences, tally.wrong
    );
}

fn report_refused(rt: &impl Print, refused: Refusals) {
    let _ = print!(rt;
        "; refused by 1: {}, by 2: {}, by 12: {}, by 11: {}, by 7: {}",
        refused.by_1, refused.by_2, refused.by_12, refused.by_11, refused.by_7
    );
}

impl stored::Tally for Tally {
    fn replay_line(&mut self, words: &[u32], at: usize) -> usize {
        let operation = Operation::from(word(words, at));
        let opening = opening_at(words, operation, at);
        let answered = one(words, opening);
        self.count(operation, opening.before, answered);
        answered.line.next
    }
}

impl Tally {
    // One line more: its operation, what the other cells held, and what we answered.
    fn count(&mut self, operation: Operation, filler: u32, answered: Answered) {
        match answered.ended {
            Ok(Ending::Finished) => add_one(&mut self.finished),
            Ok(Ending::Short) => add_one(&mut self.short),
            Ok(Ending::Deep) => add_one(&mut self.deep),
            Ok(Ending::Full) => add_one(&mut self.full),
            Err(why) => self.refused.count(why),
        }
        self.filled = more(self.filled, filler != 0);
        self.differences = more(self.differences, operation.differs);
        self.wrong = more(self.wrong, !answered.line.right);
    }
}

impl Refusals {
    fn count(&mut self, why: RunRefusal) {
        match why {
            RunRefusal::Shape => add_one(&mut self.by_1),
            RunRefusal::Cursor => add_one(&mut self.by_2),
            RunRefusal::Limits => add_one(&mut self.by_12),
            RunRefusal::Book => add_one(&mut self.by_11),
            RunRefusal::Match => add_one(&mut self.by_7),
        }
    }
}

fn opening_at(words: &[u32], operation: Operation, at: usize) -> Opening {
    if operation.opens {
        let rest = after(at, 7);
        Opening {
            d: size(words, after(at, 1)),
            done: size(words, after(at, 2)),
            coming: size(words, after(at, 3)),
            before: word(words, after(at, 4)),
            after: word(words, after(at, 5)),
            matched: match_answer(words, word(words, after(at, 6)), rest),
            at: rest,
        }
    } else {
        Opening {
            d: glyphs_done(words, at),
            done: ROW,
            coming: ROW,
            before: 0,
            after: 0,
            matched: match_answer(words, 0, at),
            at,
        }
    }
}

fn glyphs_done(words: &[u32], at: usize) -> usize {
    listed(words, lists_of(words, at).done).len() / glyph::WORDS
}

fn lists_of(words: &[u32], at: usize) -> Lists {
    let positions = list(words, after(at, 10));
    let marks = list(words, positions.to);
    let book = list(words, marks.to);
    let records = list(words, book.to);
    let done = list(words, records.to);
    let coming = list(words, done.to);
    Lists {
        positions,
        marks,
        book,
        records,
        done,
        coming,
    }
}

fn row_room(filler: u32) -> [u32; ROOM] {
    [filler; ROOM]
}

// Room for the 16-bit words of a list.
fn list_room() -> [u16; 4200] {
    [0; 4200]
}

fn one(words: &[u32], opening: Opening) -> Answered {
    let lists = lists_of(words, opening.at);
    let mut sets = list_room();
    let of_sets = stored::narrow(listed(words, lists.marks), &mut sets);
    let mut book = list_room();
    let of_book = stored::narrow(listed(words, lists.book), &mut book);
    let mut records = list_room();
    let of_records = stored::narrow(listed(words, lists.records), &mut records);
    asked(
        words,
        opening,
        lists,
        &sets[..of_sets],
        &book[..of_book],
        &records[..of_records],
    )
}

fn asked(
    words: &[u32],
    opening: Opening,
    lists: Lists,
    sets: &[u16],
    book: &[u16],
    records: &[u16],
) -> Answered {
    let mut done = row_room(opening.before);
    put(&mut done, 0, listed(words, lists.done));
    let done_len = opening.done.min(ROOM);
    let mut coming = row_room(opening.before);
    let ahead = listed(words, lists.coming);
    let coming_len = opening.coming.min(ROOM);
    put(&mut coming, coming_len.saturating_sub(ahead.len()), ahead);
    ran(
        words,
        opening,
        lists,
        &mut done[..done_len],
        &mut coming[..coming_len],
        sets,
        book,
        records,
    )
}

fn ran(
    words: &[u32],
    opening: Opening,
    lists: Lists,
    done: &mut [u32],
    coming: &mut [u32],
    sets: &[u16],
    book: &[u16],
    records: &[u16],
) -> Answered {
    let at = opening.at;
    let answer = run_calls::run(
        done,
        coming,
        opening.d,
        size(words, after(at, 7)),
        sets,
        book,
        records,
        matched(words, opening.matched, lists.positions),
        given(words, at),
        word(words, after(at, 5)),
        size(words, after(at, 6)),
    );
    told(words, answer, done, coming, opening.after, lists.coming.to)
}

fn given(words: &[u32], at: usize) -> Given {
    Given {
        zwnj: word(words, after(at, 1)) == 1,
        zwj: word(words, after(at, 2)) == 1,
        syllables: word(words, after(at, 3)) == 1,
        mask: word(words, after(at, 4)),
    }
}

fn matched(words: &[u32], answer: InputAnswer, places: Span) -> InputMatch {
    let mut positions = [0u16; 64];
    stored::narrow(listed(words, places), &mut positions);
    InputMatch {
        answer,
        count: places.to.saturating_sub(places.from),
        positions,
    }
}

// What a matcher says by each of 01's numbers, with a line's end and total; of 4 the extent stands for the end.
fn match_answer(words: &[u32], number: u32, at: usize) -> InputAnswer {
    let end = size(words, after(at, 8));
    let total = (word(words, after(at, 9)) % 65536) as u16;
    match number {
        0 => Ok(Success { end, total }),
        1 => Err(NoMatch::Refused(Refusal::Shape)),
        2 => Err(NoMatch::Refused(Refusal::Cursor)),
        3 => Err(NoMatch::Refused(Refusal::Values)),
        4 => Err(NoMatch::Lost(end)),
        6 => Err(NoMatch::Refused(Refusal::Start)),
        _ => Err(NoMatch::Ligature),
    }
}

// The words from a place of the row on become these, as far as there is room.
fn put(row: &mut [u32], from: usize, words: &[u32]) {
    for (k, &word) in words.iter().enumerate() {
        if let Some(cell) = row.get_mut(after(from, k)) {
            *cell = word;
        }
    }
}

// The answer, from a word on, then both rows: a list has 01's number of it, so it is compared by that. Of a refusal all but the number is 0.
fn told(
    words: &[u32],
    answer: Result<RunAnswer, RunRefusal>,
    done: &[u32],
    coming: &[u32],
    filler: u32,
    at: usize,
) -> Answered {
    let ended = answer.map(|said| said.ending);
    let count = size(words, after(at, 4));
    let before = list(words, after(after(at, 5), count));
    let ahead = list(words, before.to);
    let line = Replayed {
        right: word(words, at) == run::number_of(ended) as u32
            && is_said(words, answer, at)
            && rows_are(
                listed(words, before),
                listed(words, ahead),
                done,
                coming,
                filler,
            ),
        next: ahead.to,
    };
    Answered { line, ended }
}

// Spent, d, idx, the count and the positions are the stored ones.
fn is_said(words: &[u32], answer: Result<RunAnswer, RunRefusal>, at: usize) -> bool {
    let count = size(words, after(at, 4));
    match answer {
        Ok(said) => word(words, after(at, 1)) == said.spent
            && size(words, after(at, 2)) == said.d
            && size(words, after(at, 3)) == said.idx
            && count == said.count
            && slots_are(words, &said.positions, after(at, 5), count),
        Err(_) => word(words, after(at, 1)) == 0
            && size(words, after(at, 2)) == 0
            && size(words, after(at, 3)) == 0
            && count == 0,
    }
}

fn rows_are(before: &[u32], ahead: &[u32], done: &[u32], coming: &[u32], filler: u32) -> bool {
    holds(done, 0, before, filler)
        && holds(
            coming,
            coming.len().saturating_sub(ahead.len()),
            ahead,
            filler,
        )
}

// The row has these words from a place on, and the filler everywhere else.
fn holds(row: &[u32], from: usize, words: &[u32], filler: u32) -> bool {
    row.iter()
        .enumerate()
        .all(|(k, &held)| held == cell(words, from, k, filler))
}

fn cell(words: &[u32], from: usize, k: usize, filler: u32) -> u32 {
    k.checked_sub(from)
        .and_then(|i| words.get(i))
        .copied()
        .unwrap_or(filler)
}
