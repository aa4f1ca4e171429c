// The answer, in words, and as the tape has it.
use crate::words::Line;
use matching::{InputMatch, NoMatch, Refusal, Success};

fn positions(line: &mut Line, count: usize, places: &[u16]) {
    for &place in places.iter().take(count) {
        line.room();
        line.say(b" ");
        line.number(place as u64);
    }
}

fn matched(line: &mut Line, m: InputMatch, success: Success) {
    line.say(b"matched, end ");
    line.number(success.end as u64);
    line.say(b", total ");
    line.number(success.total as u64);
    line.say(b", positions");
    positions(line, m.count, &m.positions);
}

fn refused(line: &mut Line, why: Refusal) {
    match why {
        Refusal::Shape => line.say(b"refusal 1: a row or a length"),
        Refusal::Cursor => line.say(b"refusal 2: the cursor is at or past the end of coming"),
        Refusal::Values => line.say(b"refusal 3: over 63 values"),
        Refusal::Start => line.say(b"refusal 6: a lookahead's start"),
    }
}

fn lost(line: &mut Line, extent: usize) {
    line.say(b"refusal 4: a walk stopped or ran out, extent ");
    line.number(extent as u64);
}

pub(crate) fn in_words(line: &mut Line, m: InputMatch) {
    line.say(b"answer: ");
    match m.answer {
        Ok(success) => matched(line, m, success),
        Err(NoMatch::Refused(why)) => refused(line, why),
        Err(NoMatch::Lost(extent)) => lost(line, extent),
        Err(NoMatch::Ligature) => line.say(b"refusal 5: the ligature rule"),
    }
    line.end();
}

// The answer's digits, as many as fit a line, and the others in the next.
fn digits(line: &mut Line, answer: &[u8]) {
    for &digit in answer.iter().take_while(|b| **b != tape_answer::NEWLINE) {
        line.room();
        line.say(&[digit]);
    }
}

pub(crate) fn on_tape(line: &mut Line, answer: &[u8]) {
    line.say(b"tape: ");
    digits(line, answer);
    line.end();
}
