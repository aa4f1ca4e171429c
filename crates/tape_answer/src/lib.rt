// The bench tape: its types and definitions, and an answer's digits.
#![tactic(auto)]

ghost use Rattle.std.specs.Prelude.{◌≡◌, [], ◌∷◌, ◌+◌, ◌*◌, ◌≤◌, ◌<◌, length};
ghost use Rattle.matching.specs.Answers.{input_reply, without};
ghost use Rattle.tape_frame.specs.Frame.{most_glyphs};
ghost use Rattle.tape_frame.specs.Line.{capital, digits_of, half};
ghost use Rattle.tape_frame.specs.Put.{put, Puts};
ghost use Rattle.tape_answer.specs.Line.{most_answer, newline, halves, matched_bytes, answer_bytes, with_newline};

use matching::{InputMatch, NoMatch, Success};

// The longest answer: 00, end, total and count, a position for each record of a row, and 0A.
pub const MOST_ANSWER: usize = 13 + 4 * tape_frame::MOST_GLYPHS;

// The bytes of a line that are kept: one more than the longest frame has tells that a line is longer.
pub const MOST_KEPT: usize = tape_frame::MOST_DIGITS + 1;

// Slots for the positions of a match.
const SLOTS: usize = matching::MAX_CONTEXT_LENGTH;

// What ends a line.
pub const NEWLINE: u8 = 10;

// How far a tape is read: the place in the piece at hand, the bytes kept of the line so far, and the bytes of answers so far.
#[derive(Clone, Copy, Debug, PartialEq, Eq)]
pub struct Fed {
    pub at: usize,
    pub kept: usize,
    pub written: usize,
}

// The same of one byte.
#[derive(Clone, Copy, Debug, PartialEq, Eq)]
pub struct Taken {
    pub kept: usize,
    pub written: usize,
}

// ---- an answer

fn capital(n: u8) -> u8
    requires { n < 16 }
    ensures { result ≡ capital n }
{
    if n < 10 { b'0' + n } else { b'A' + (n - 10) }
}

#[tactic(auto, using(tape_frame::specs::Put::put_two), unfolding(tape_frame::specs::Line::digits_of))]
fn put_byte(out: &mut [u8], at: usize, x: u8)
    requires { at + 2 ≤ length out.old }
    ensures { out.new ≡ put out.old at (digits_of (x ∷ [])) }
{
    out[at] = capital(x / 16 % 16);
    out[at + 1] = capital(x % 16);
}

fn put_half(out: &mut [u8], at: usize, x: usize)
    requires { at + 4 ≤ length out.old }
    ensures { out.new ≡ put out.old at (digits_of (half x)) }
{
    put_byte(out, at, (x / 256 % 256) as u8);
    put_byte(out, at + 2, (x % 256) as u8);
}

#[tactic(auto, using(tape_frame::specs::Put::put_one))]
fn put_newline(out: &mut [u8], at: usize) -> usize
    requires { at < length out.old }
    ensures { Puts out.old at (newline ∷ []) out.new result }
{
    out[at] = NEWLINE;
    at + 1
}

// A number alone.
pub fn put_number(out: &mut [u8], at: usize, x: u8) -> usize
    requires { at + 3 ≤ length out.old }
    ensures { Puts out.old at (with_newline (x ∷ [])) out.new result }
{
    put_byte(out, at, x);
    put_newline(out, at + 2)
}

// 04 and the extent.
fn put_extent(out: &mut [u8], at: usize, extent: usize) -> usize
    requires { at + 7 ≤ length out.old }
    ensures { Puts out.old at (with_newline (4 ∷ half extent)) out.new result }
{
    put_byte(out, at, 4);
    put_half(out, at + 2, extent);
    put_newline(out, at + 6)
}

fn put_positions(out: &mut [u8], at: usize, positions: &[u16])
    requires { at + 4 * length positions.now ≤ length out.old }
    ensures { out.new ≡ put out.old at (digits_of (halves positions.now)) }
{
    for (i, position) in positions.iter().enumerate() {
        put_half(out, at + 4 * i, *position as usize);
    }
}

// 00, end, total, the number of positions, and the positions.
fn put_matched(out: &mut [u8], at: usize, found: Success, positions: &[u16]) -> usize
    requires { (length positions.now ≤ most_glyphs) × (at + most_answer ≤ length out.old) }
    ensures puts { Puts out.old at
        (with_newline (0 ∷ matched_bytes (found.end ∷ found.total ∷ length positions.now ∷ positions.now))) out.new result }
    ensures upper_bound { result ≤ at + most_answer }
{
    put_byte(out, at, 0);
    put_half(out, at + 2, found.end);
    put_half(out, at + 6, found.total as usize);
    put_byte(out, at + 10, positions.len() as u8);
    put_positions(out, at + 12, positions);
    put_newline(out, at + 12 + 4 * positions.len())
}

// The number of what is no match, and behind 04 the extent.
fn put_no_match(out: &mut [u8], at: usize, no: NoMatch) -> usize
    requires { at + most_answer ≤ length out.old }
    ensures puts { Puts out.old at (with_newline (answer_bytes (input_reply (without no)))) out.new result }
    ensures upper_bound { result ≤ at + most_answer }
{
    match no {
        NoMatch::Refused(why) => put_number(out, at, why.into()),
        NoMatch::Lost(extent) => put_extent(out, at, extent),
        NoMatch::Ligature => put_number(out, at, 5),
    }
}

// What a match answers, and where it ends: as many positions as are counted and have a slot.
pub fn put_answer(out: &mut [u8], at: usize, m: InputMatch) -> usize
    requires { at + most_answer ≤ length out.old }
    ensures puts { Puts out.old at (with_newline (answer_bytes (input_reply m))) out.new result }
    ensures upper_bound { result ≤ at + most_answer }
{
    match m.answer {
        Ok(found) => put_matched(out, at, found, &m.positions[..m.count.min(SLOTS)]),
        Err(no) => put_no_match(out, at, no),
    }
}
