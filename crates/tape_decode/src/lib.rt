// A line of the bench tape as a frame or none: its digits spell bytes, and the bytes are a frame.
#![tactic(auto)]

ghost use Rattle.std.specs.Prelude.{◌≡◌, true, false, ◌*◌, ◌≤◌, length, MatchOption};
ghost use Rattle.tape_frame.specs.Digits.{spells, bytes_of};
ghost use Rattle.tape_frame.specs.Frame.{whole_frame, read_bytes, frame_of};
ghost use Rattle.tape_frame.specs.Decoding.{Decodes};
ghost use Rattle.tape_frame.specs.Put.{put};

use tape_frame::{Head, Lists, MOST_BYTES, MOST_DIGITS};
use verdict::Table;

// The bytes that a line spells, from the front of `out`; None where it spells none.
fn unhex(line: &[u8], out: &mut [u8]) -> Option<()>
    requires { length line.now ≤ 2 * length out.old }
    ensures { MatchOption result (spells line.now ≡ false)
        (λ _. (spells line.now ≡ true) × (out.new ≡ put out.old 0 (bytes_of line.now))) }
{
    if line.len() % 2 != 0 {
        return None;
    }
    for i in 0..line.len() / 2 {
        let high = (line[2 * i] as char).to_digit(16)?;
        let low = (line[2 * i + 1] as char).to_digit(16)?;
        out[i] = (high * 16 + low) as u8;
    }
    Some(())
}

// The frame of a table that bytes are, its rows from the front of the lists; what stands past them stays.
fn read_whole(table: Table, b: &[u8], lists: &mut Lists) -> Option<Head>
    ensures { Decodes (whole_frame table b.now) result lists.old lists.new }
{
    if !tape_frame::is_whole(b) {
        return None;
    }
    let head = tape_frame::head_of(table, b);
    let d = glyph::WORDS * head.done;
    let c = glyph::WORDS * head.coming;
    tape_frame::fill(b, tape_frame::VALUES_AT, head.values, &mut lists.values);
    tape_frame::fill(b, tape_frame::done_at(b), d, &mut lists.done);
    tape_frame::fill(b, tape_frame::coming_at(b), c, &mut lists.coming);
    Some(head)
}

fn read_bytes(b: &[u8], lists: &mut Lists) -> Option<Head>
    ensures { Decodes (read_bytes b.now) result lists.old lists.new }
{
    let table = tape_frame::kind_of(b)?;
    read_whole(table, b, lists)
}

// The frame that a line is, given without its 0A, or none. Its lists are stored from the front of `lists`, and what stands past them
// stays; for no frame all stays.
pub fn decode(line: &[u8], lists: &mut Lists) -> Option<Head>
    ensures { Decodes (frame_of line.now) result lists.old lists.new }
{
    if MOST_DIGITS < line.len() {
        return None;
    }
    let mut bytes = [0u8; MOST_BYTES];
    unhex(line, &mut bytes)?;
    read_bytes(&bytes[..line.len() / 2], lists)
}
