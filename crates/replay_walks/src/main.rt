// Replays a stored list of the original's answers on the questions may skip and may match, the verdict and both walks (standard input;
// compare/README.md says how it was made) and prints how many were asked of each kind and how many came out otherwise.
// A line's words: the operation (30 may skip, 31 verdict, 32 forward, 33 backward, 34 may match), GPOS, auto-ZWNJ, auto-ZWJ, syllables, mask, props,
// context, test, value, syllable, place, len, how many words of mark sets and these, how many words of the row and these, and the answer.
// An operation from 100 on is the same question where ours and the original's answers differ (docs/DIFFERENCES.md), with ours; from 200 on it is
// one that is refused by 1, with 9 as its answer.
#![tactic(auto)]

use glyph::IllShaped;
use stored::{Replayed, add_one, after, list, listed, more, size, word};
use verdict::{Matcher, Sign, Test};
use walk::Walked;

// Nothing compares it, and it is printed a count at a time.
#[derive(Clone, Copy, Default)]
struct Tally {
    differences: u64,
    refused: u64,
    skips: u64,
    matches: u64,
    verdicts: u64,
    forward: u64,
    backward: u64,
    wrong: u64,
}

// What a line asks.
#[derive(Clone, Copy, Debug, PartialEq, Eq)]
enum Operation {
    MaySkip,
    Verdict,
    Forward,
    Backward,
    MayMatch,
    // A damaged list's: asked as a walk backward, and counted as none of these.
    Unknown,
}

// Whose a line's answer is: the original's; ours, where the original's is another; a second reading of 01's, that the question is refused.
#[derive(Clone, Copy, Debug, PartialEq, Eq)]
enum Origin {
    Original,
    Difference,
    Refusal,
}

// Both are read off a line's number: its hundreds say the origin, and what is left of it the operation.
impl From<u32> for Operation {
    fn from(number: u32) -> Operation {
        match number % 100 {
            30 => Operation::MaySkip,
            31 => Operation::Verdict,
            32 => Operation::Forward,
            33 => Operation::Backward,
            34 => Operation::MayMatch,
            _ => Operation::Unknown,
        }
    }
}

impl From<u32> for Origin {
    fn from(number: u32) -> Origin {
        match number {
            0..=99 => Origin::Original,
            100..=199 => Origin::Difference,
            _ => Origin::Refusal,
        }
    }
}

// What a line asks beside its rows. Nothing compares or prints it.
#[derive(Clone, Copy)]
struct Question {
    operation: Operation,
    matcher: Matcher,
    sign: Sign,
    syllable: u8,
    place: usize,
    len: usize,
}

fn main(rt: HostRuntime) {
    let mut words = stored::word_room();
    let count = stored::read_list(&mut words);
    report(&rt, stored::replay(&words, count));
}

// What standard output doesn't take is lost, and the rest is tried all the same: the status stays 0, and standard error says nothing.
fn report(rt: &impl Print, tally: Tally) {
    let _ = print!(rt;
        "may skip {}, may match {}, verdicts {}, walks forward {}, backward {}, ",
        tally.skips, tally.matches, tally.verdicts, tally.forward, tally.backward
    );
    let _ = println!(rt;
        "refused {}, differences {}; answered otherwise {}",
        tally.refused, tally.differences, tally.wrong
    );
}

impl stored::Tally for Tally {
    fn replay_line(&mut self, words: &[u32], at: usize) -> usize {
        let number = word(words, at);
        let operation = Operation::from(number);
        let line = one(words, operation, at);
        self.count(operation, Origin::from(number), line.right);
        line.next
    }
}

impl Tally {
    // One line more.
    fn count(&mut self, operation: Operation, origin: Origin, right: bool) {
        match origin {
            Origin::Original => self.count_original(operation),
            Origin::Difference => add_one(&mut self.differences),
            Origin::Refusal => add_one(&mut self.refused),
        }
        self.wrong = more(self.wrong, !right);
    }

    fn count_original(&mut self, operation: Operation) {
        match operation {
            Operation::MaySkip => add_one(&mut self.skips),
            Operation::Verdict => add_one(&mut self.verdicts),
            Operation::Forward => add_one(&mut self.forward),
            Operation::Backward => add_one(&mut self.backward),
            Operation::MayMatch => add_one(&mut self.matches),
            Operation::Unknown => {}
        }
    }
}

fn one(words: &[u32], operation: Operation, at: usize) -> Replayed {
    let question = asked(words, operation, at);
    let marks = list(words, after(at, 13));
    let row = list(words, marks.to);
    let mut sets = [0u16; 512];
    let count = stored::narrow(listed(words, marks), &mut sets);
    answered(question, listed(words, row), &sets[..count], words, row.to)
}

fn asked(words: &[u32], operation: Operation, at: usize) -> Question {
    Question {
        operation,
        matcher: matcher(words, at),
        sign: Sign {
            test: Test::from((word(words, after(at, 8)) % 256) as u8),
            value: word(words, after(at, 9)),
        },
        syllable: (word(words, after(at, 10)) % 256) as u8,
        place: size(words, after(at, 11)),
        len: size(words, after(at, 12)),
    }
}

fn matcher(words: &[u32], at: usize) -> Matcher {
    verdict::matcher_of(
        stored::settings_at(words, after(at, 1)),
        word(words, after(at, 7)) == 1,
        word(words, after(at, 5)),
        word(words, after(at, 6)),
    )
}

// What we answer, and whether it is the answer that stands from word `at` on.
fn answered(question: Question, row: &[u32], sets: &[u16], words: &[u32], at: usize) -> Replayed {
    let Question {
        operation,
        matcher,
        sign,
        syllable,
        place,
        len,
    } = question;
    match operation {
        Operation::MaySkip => said_is(
            words,
            verdict_ask::ask_skip(row, place, matcher, sets).map(|said| said as u32),
            at,
        ),
        Operation::Verdict => said_is(
            words,
            verdict_ask::ask_verdict(row, place, matcher, sign, syllable, sets).map(
                |said| said as u32,
            ),
            at,
        ),
        Operation::Forward => walk_is(
            words,
            walk::forward(row, len, place, matcher, sign, syllable, sets),
            at,
        ),
        Operation::MayMatch => said_is(
            words,
            verdict_ask::ask_match(row, place, matcher, sign, syllable).map(|said| said as u32),
            at,
        ),
        Operation::Backward | Operation::Unknown => walk_is(
            words,
            walk::backward(row, place, matcher, sign, syllable, sets),
            at,
        ),
    }
}

// An answer by its place in its list. A refusal is no answer of the original's.
fn said_is(words: &[u32], said: Result<u32, IllShaped>, at: usize) -> Replayed {
    Replayed {
        right: word(words, at) == said.unwrap_or(9),
        next: after(at, 1),
    }
}

// A walk stays numbers here, since a list has it so: 01's number, whether it ran out, the place.
fn walk_is(words: &[u32], walked: Result<Walked, IllShaped>, at: usize) -> Replayed {
    match walked {
        Ok(Walked::Found(place)) => three_are(words, 0, 0, place, at),
        Ok(Walked::Stopped(end)) => three_are(words, 4, 0, end, at),
        Ok(Walked::RanOut(end)) => three_are(words, 4, 1, end, at),
        Err(IllShaped) => three_are(words, 1, 0, 0, at),
    }
}

fn three_are(words: &[u32], number: u32, ran_out: u32, place: usize, at: usize) -> Replayed {
    Replayed {
        right: word(words, at) == number
            && word(words, after(at, 1)) == ran_out
            && size(words, after(at, 2)) == place,
        next: after(at, 3),
    }
}
