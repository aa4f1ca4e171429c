// Replays a stored list of the original's answers on the three matchers (standard input; compare/README.md says how it was made) and
// prints how many were asked of each kind and how many came out otherwise. A line's words: the operation (40 input, 41 lookahead,
// 42 backtrack), GPOS, auto-ZWNJ, auto-ZWJ, syllables, mask, props, test, d, len, idx, start; then four lists, each after its number:
// mark sets, values, the words of done, the words of coming; then the answer. Of input it is the number, the end or the extent, the total
// (FFFFFFFF where the original can't hold it), the count and the positions; of the others the number and the place.
// An operation of 100 and more is the same question where ours and the original's answers differ (docs/DIFFERENCES.md), with ours.
#![tactic(auto)]

use matching::{ContextMatch, InputAnswer, InputMatch, NoContext, NoMatch, Success, Terms};
use matching_calls::{match_backtrack, match_input, match_lookahead};
use stored::{Replayed, add_one, after, list, listed, more, size, slots_are, word};
use verdict::Test;

// Nothing compares it, and it is printed a count at a time.
#[derive(Clone, Copy, Default)]
struct Tally {
    input: u64,
    lookahead: u64,
    backtrack: u64,
    differences: u64,
    wrong: u64,
}

// What a line asks.
#[derive(Clone, Copy, Debug, PartialEq, Eq)]
enum Operation {
    Input,
    Lookahead,
    Backtrack,
    // A damaged list's: asked as backtrack, and counted as none of these.
    Unknown,
}

// Whose a line's answer is: the original's, or ours, where the original's is another.
#[derive(Clone, Copy, Debug, PartialEq, Eq)]
enum Origin {
    Original,
    Difference,
}

// Both are read off a line's number: its hundreds say the origin, and what is left of it the operation.
impl From<u32> for Operation {
    fn from(number: u32) -> Operation {
        match number % 100 {
            40 => Operation::Input,
            41 => Operation::Lookahead,
            42 => Operation::Backtrack,
            _ => Operation::Unknown,
        }
    }
}

impl From<u32> for Origin {
    fn from(number: u32) -> Origin {
        match number {
            0..=99 => Origin::Original,
            _ => Origin::Difference,
        }
    }
}

fn main(rt: HostRuntime) {
    let mut words = stored::word_room();
    let count = stored::read_list(&mut words);
    let tally: Tally = stored::replay(&words, count);
    // What standard output doesn't take is lost: the status stays 0, and standard error says nothing.
    let _ = println!(rt;
        "input {}, lookahead {}, backtrack {}, differences {}; answered otherwise {}",
        tally.input, tally.lookahead, tally.backtrack, tally.differences, tally.wrong
    );
}

impl stored::Tally for Tally {
    fn replay_line(&mut self, words: &[u32], at: usize) -> usize {
        let number = word(words, at);
        let operation = Operation::from(number);
        let line = one(words, operation, at);
        self.count(operation, Origin::from(number), line.right);
        line.next
    }
}

impl Tally {
    // One line more.
    fn count(&mut self, operation: Operation, origin: Origin, right: bool) {
        match origin {
            Origin::Original => self.count_original(operation),
            Origin::Difference => add_one(&mut self.differences),
        }
        self.wrong = more(self.wrong, !right);
    }

    fn count_original(&mut self, operation: Operation) {
        match operation {
            Operation::Input => add_one(&mut self.input),
            Operation::Lookahead => add_one(&mut self.lookahead),
            Operation::Backtrack => add_one(&mut self.backtrack),
            Operation::Unknown => {}
        }
    }
}

fn one(words: &[u32], operation: Operation, at: usize) -> Replayed {
    let marks = list(words, after(at, 12));
    let values = list(words, marks.to);
    let done = list(words, values.to);
    let coming = list(words, done.to);
    let mut sets = [0u16; 512];
    let count = stored::narrow(listed(words, marks), &mut sets);
    asked(
        words,
        operation,
        at,
        &sets[..count],
        listed(words, values),
        listed(words, done),
        listed(words, coming),
        coming.to,
    )
}

// What we answer of the line from word `at` on, and whether it is the answer that stands from word `answer` on.
fn asked<'a>(
    words: &[u32],
    operation: Operation,
    at: usize,
    sets: &[u16],
    values: &[u32],
    done: &'a [u32],
    coming: &'a [u32],
    answer: usize,
) -> Replayed {
    let terms = terms_at(words, at);
    let test = Test::from((word(words, after(at, 7)) % 256) as u8);
    let d = size(words, after(at, 8));
    let len = size(words, after(at, 9));
    let idx = size(words, after(at, 10));
    let start = size(words, after(at, 11));
    match operation {
        Operation::Input => input_is(
            words,
            match_input(done, d, coming, len, idx, terms, sets, test, values),
            answer,
        ),
        Operation::Lookahead => context_is(
            words,
            match_lookahead(done, d, coming, len, idx, start, terms, sets, test, values),
            answer,
        ),
        Operation::Backtrack | Operation::Unknown => context_is(
            words,
            match_backtrack(done, d, coming, len, idx, terms, sets, test, values),
            answer,
        ),
    }
}

fn terms_at(words: &[u32], at: usize) -> Terms {
    Terms {
        settings: stored::settings_at(words, after(at, 1)),
        mask: word(words, after(at, 5)),
        props: word(words, after(at, 6)),
    }
}

fn context_is(words: &[u32], context: ContextMatch, at: usize) -> Replayed {
    match context {
        Ok(place) => place_is(words, 0, place, at),
        Err(NoContext::Refused(why)) => place_is(words, u8::from(why) as u32, 0, at),
        Err(NoContext::Lost(extent)) => place_is(words, 4, extent, at),
    }
}

// An answer is compared by 01's number, since a list has no more than that and the place.
fn place_is(words: &[u32], number: u32, place: usize, at: usize) -> Replayed {
    Replayed {
        right: word(words, at) == number && size(words, after(at, 1)) == place,
        next: after(at, 2),
    }
}

fn input_is(words: &[u32], input: InputMatch, at: usize) -> Replayed {
    let count = size(words, after(at, 3));
    let same = slots_are(words, &input.positions, after(at, 4), count) && input.count == count;
    Replayed {
        right: answer_is(words, input.answer, at) && same,
        next: after(after(at, 4), count),
    }
}

fn answer_is(words: &[u32], answer: InputAnswer, at: usize) -> bool {
    match answer {
        Ok(Success { end, total }) => place_is(words, 0, end, at).right
            && total_is(word(words, after(at, 2)), total),
        Err(NoMatch::Refused(why)) => place_is(words, u8::from(why) as u32, 0, at).right,
        Err(NoMatch::Lost(extent)) => place_is(words, 4, extent, at).right,
        Err(NoMatch::Ligature) => place_is(words, 5, 0, at).right,
    }
}

fn total_is(stored: u32, total: u16) -> bool {
    stored == u32::MAX || stored == total as u32
}
