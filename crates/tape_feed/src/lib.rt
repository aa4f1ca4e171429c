// What a line of the bench tape is answered, and a tape in pieces.
#![tactic(auto)]

mod kept;

ghost use Rattle.std.specs.Prelude.{◌≡◌, ◌+◌, ◌-◌, ◌*◌, ◌≤◌, ◌<◌, length, take, drop};
ghost use Rattle.glyph.specs.Glyph.{words};
ghost use Rattle.tape_frame.specs.Decoding.{Bounded};
ghost use Rattle.tape_frame.specs.Put.{Puts};
ghost use Rattle.tape_answer.specs.Answer.{answer_line};
ghost use Rattle.tape_answer.specs.Asking.{asked};
ghost use Rattle.tape_answer.specs.Line.{most_answer};
ghost use Rattle.tape_answer.specs.Feeding.{most_kept, longer, line_after, answer_at, bytes_taken, Feeds};

pub use kept::KeptLine;
use matching::{InputMatch, Terms};
use tape_answer::{Fed, MOST_ANSWER, MOST_KEPT, NEWLINE, Taken};
use tape_frame::{Head, Lists, MOST_VALUES, ROW};
use verdict::Test;

// What a line that isn't a frame is answered.
const NO_FRAME: u8 = 255;

// What input matching says of a frame, whose lists stand at the front of the slices. There are no mark sets.
fn ask(h: Head, lists: &Lists) -> InputMatch
    requires { Bounded h }
    ensures { result ≡ asked h (take h.values lists.now.values) (take (words * h.done) lists.now.done)
        (take (words * h.coming) lists.now.coming) }
{
    let lookup = Terms {
        settings: h.settings,
        mask: h.mask,
        props: h.props,
    };
    matching_calls::match_input(
        &lists.done[..glyph::WORDS * h.done],
        h.done,
        &lists.coming[..glyph::WORDS * h.coming],
        h.coming,
        h.cursor,
        lookup,
        &[],
        Test::Equal,
        &lists.values[..h.values],
    )
}

// The answer to a line, which is given without its 0A, and where it ends.
pub fn answer_line(line: &[u8], out: &mut [u8], at: usize) -> usize
    requires { at + most_answer ≤ length out.old }
    ensures puts { Puts out.old at (answer_line line.now) out.new result }
    ensures upper_bound { result ≤ at + most_answer }
{
    let mut lists = Lists {
        values: [0; MOST_VALUES],
        done: [0; ROW],
        coming: [0; ROW],
    };
    match tape_decode::decode(line, &mut lists) {
        Some(h) => tape_answer::put_answer(out, at, ask(h, &lists)),
        None => tape_answer::put_number(out, at, NO_FRAME),
    }
}

// A byte more of a line, where there is room. How many bytes are kept then.
fn keep(kept: &mut [u8], n: usize, b: u8) -> usize
    requires { (n ≤ most_kept) × (length kept.old ≡ most_kept) }
    ensures kept_after { take result kept.new ≡ longer (take n kept.old) b }
    ensures kept_le_most_kept { result ≤ most_kept }
{
    if n < MOST_KEPT {
        kept[n] = b;
        return n + 1;
    }
    n
}

// One byte of the tape: it ends the line, which is answered, or is kept, or only makes a long line longer.
fn take_byte(kept: &mut [u8], n: usize, out: &mut [u8], m: usize, b: u8) -> Taken
    requires { (n ≤ most_kept) × (length kept.old ≡ most_kept) × (m + most_answer ≤ length out.old) }
    ensures kept_after { take result.kept kept.new ≡ line_after (take n kept.old) b }
    ensures puts { Puts out.old m (answer_at (take n kept.old) b) out.new result.written }
    ensures kept_le_most_kept { (result.kept ≤ most_kept) × (result.written ≤ length out.old) }
{
    if b == NEWLINE {
        let end = answer_line(&kept[..n], out, m);
        return Taken {
            kept: 0,
            written: end,
        };
    }
    Taken {
        kept: keep(kept, n, b),
        written: m,
    }
}

// A piece of the tape from a place on, until it ends or `out` has no room for one more answer. What is kept of the line are the first
// bytes of the caller's own slice, and their number; whoever has no slice for it takes a `KeptLine`, which feeds itself.
pub fn feed(piece: &[u8], from: usize, kept: &mut [u8], n: usize, out: &mut [u8], m: usize) -> Fed
    requires { (from < length piece.now) × (n ≤ most_kept) × (length kept.old ≡ most_kept) × (m + most_answer ≤ length out.old) }
    ensures feeds { Feeds (bytes_taken (length out.old - m) (take n kept.old) (drop from piece.now)) from
        (take n kept.old) out.old m result.at (take result.kept kept.new) out.new result.written }
    ensures from_lt_at { (from < result.at) × (result.at ≤ length piece.now) × (result.kept ≤ most_kept) × (result.written ≤ length out.old) }
    ensures out_len_bound { result.at < length piece.now → length out.old < result.written + most_answer }
{
    let mut held = n;
    let mut written = m;
    for at in from..piece.len() {
        if out.len() - written < MOST_ANSWER {
            return Fed {
                at,
                kept: held,
                written,
            };
        }
        let taken = take_byte(kept, held, out, written, piece[at]);
        held = taken.kept;
        written = taken.written;
    }
    Fed {
        at: piece.len(),
        kept: held,
        written,
    }
}
