// The bench tape's program: frames on standard input, a line each; answers on standard output. Both go in large pieces, and what
// is answered in a piece is written before the next is read. What a line is answered is the library's, `tape_feed`. No contract can
// say what is read; what is written is said of any writer whose bytes are known, and what is kept of a line, and what is handed to a
// write, whatever the write came to.
//
// Where answers can't be written, the program says so on standard error, once, and then writes no more and reads no more: an answer
// is told from others by its place alone, and behind a gap each would be taken for another line's.
#![tactic(auto)]

ghost use Rattle.std.specs.Prelude.{◌≡◌, ◌≤◌, ◌<◌, length, take, OnOk, OnErr, IsErr};
ghost use Rattle.std.specs.Io.KnownBytes.{Appends};
ghost use Rattle.tape_frame.specs.Put.{Puts};
ghost use Rattle.tape_answer.specs.Tape.{last_answer};
ghost use Rattle.tape_answer.specs.Feeding.{line_left};
ghost use Rattle.bench_tape.specs.Taking.{space, PartTaken, PieceTaken, LineOf, Answered, TapeOf};

use std::io::{Read, Result, Write};
use tape_feed::KeptLine;

// Bytes of a read, and of answers that are written at once.
const SPACE: usize = 65536;

// How far a piece is taken: the place in it, the bytes of answers that were handed to a write, and whether all answers were written.
// Nothing compares or prints it.
#[derive(Drop)]
pub struct Part {
    pub at: usize,
    pub written: usize,
    pub sent: Result<()>,
}

// What a read brings: the bytes that were read, 0 where there are no more, and whether all answers were written. Nothing compares or
// prints it either.
#[derive(Drop)]
pub struct Turn {
    pub read: usize,
    pub sent: Result<()>,
}

// Writes answers, where all answers before them were written, or says that they can't be written.
fn send<W: Write, E: Write>(
    answers: &[u8],
    sent: Result<()>,
    stdout: &mut W,
    stderr: &mut E,
) -> Result<()>
    ensures written { OnOk result (Appends (W.contents stdout.old) (W.contents stdout.new) answers.now) }
    ensures lost { OnErr sent (IsErr result × (W.contents stdout.new ≡ W.contents stdout.old)) }
{
    sent?;
    if let Err(why) = stdout.write_all(answers) {
        let _ = stderr.write_all(b"bench_tape: answers could not be written\n");
        return Err(why);
    }
    Ok(())
}

// A piece from a place on, as far as its answers have room. They are written, where all before them were.
fn take_part<W: Write, E: Write>(
    piece: &[u8],
    from: usize,
    kept: &mut KeptLine,
    out: &mut [u8; SPACE],
    sent: Result<()>,
    stdout: &mut W,
    stderr: &mut E,
) -> Part
    requires { from < length piece.now }
    ensures part_taken { PartTaken piece.now from kept.old result kept.new out.new }
    ensures written { OnOk result.sent (Appends (W.contents stdout.old) (W.contents stdout.new) (take result.written out.new)) }
    ensures lost { OnErr sent (IsErr result.sent × (W.contents stdout.new ≡ W.contents stdout.old)) }
{
    let fed = kept.feed(piece, from, out, 0);
    let sent = send(&out[..fed.written], sent, stdout, stderr);
    Part {
        at: fed.at,
        written: fed.written,
        sent,
    }
}

// A whole piece, a part at a time. Behind answers that could not be written its rest is taken too, so that what is kept of the line is known.
fn take_piece<W: Write, E: Write>(
    piece: &[u8],
    kept: &mut KeptLine,
    out: &mut [u8; SPACE],
    stdout: &mut W,
    stderr: &mut E,
) -> Result<()>
    ensures kept_after { kept.new ≡ line_left kept.old piece.now }
    ensures written { OnOk result (PieceTaken piece.now kept.old kept.new (W.contents stdout.old) (W.contents stdout.new)) }
{
    let mut at = 0;
    let mut sent = Ok(());
    while at < piece.len() {
        let part = take_part(piece, at, kept, out, sent, stdout, stderr);
        at = part.at;
        sent = part.sent;
    }
    sent
}

// One read, and the answers to the lines that it ends. A read that fails counts as the end of the input.
fn one_read<R: Read, W: Write, E: Write>(
    stdin: &mut R,
    input: &mut [u8; SPACE],
    kept: &mut KeptLine,
    out: &mut [u8; SPACE],
    stdout: &mut W,
    stderr: &mut E,
) -> Turn
    ensures kept_after { kept.new ≡ line_left kept.old (take result.read input.new) }
    ensures read_le_space { result.read ≤ space }
    ensures written { OnOk result.sent
        (PieceTaken (take result.read input.new) kept.old kept.new (W.contents stdout.old) (W.contents stdout.new)) }
{
    let read = stdin.read(input).unwrap_or(0);
    let sent = take_piece(&input[..read], kept, out, stdout, stderr);
    Turn { read, sent }
}

// Reads to the end, or until answers can't be written, and answers all lines but a last one that lacks its 0A, which is left.
fn read_all<R: Read, W: Write, E: Write>(
    stdin: &mut R,
    input: &mut [u8; SPACE],
    kept: &mut KeptLine,
    out: &mut [u8; SPACE],
    stdout: &mut W,
    stderr: &mut E,
) -> Result<()>
    ensures line_of { LineOf kept.new }
    ensures written { OnOk result (Answered kept.new (W.contents stdout.old) (W.contents stdout.new)) }
{
    kept.clear();
    for _ in 0..u64::MAX {
        let turn = one_read(stdin, input, kept, out, stdout, stderr);
        turn.sent?;
        if turn.read == 0 {
            break;
        }
    }
    Ok(())
}

// The answer to a last line that lacks its 0A, and where it ends: no line, no answer.
#[tactic(auto, using(crate::specs::TakingLaws::last_none))]
fn answer_last(line: &[u8], out: &mut [u8; SPACE]) -> usize
    ensures puts { Puts out.old 0 (last_answer line.now) out.new result }
    ensures upper_bound { result ≤ space }
{
    if line.is_empty() {
        return 0;
    }
    tape_feed::answer_line(line, out, 0)
}

// The whole tape.
fn run<R: Read, W: Write, E: Write>(
    stdin: &mut R,
    input: &mut [u8; SPACE],
    out: &mut [u8; SPACE],
    stdout: &mut W,
    stderr: &mut E,
) -> Result<()>
    ensures { OnOk result (TapeOf (W.contents stdout.old) (W.contents stdout.new)) }
{
    let mut kept = KeptLine::new();
    let sent = read_all(stdin, input, &mut kept, out, stdout, stderr);
    let end = answer_last(kept.bytes(), out);
    send(&out[..end], sent, stdout, stderr)
}

fn main(rt: HostRuntime) {
    let mut input = [0; SPACE];
    let mut out = [0; SPACE];
    // That answers can't be written was said; the program's status stays 0.
    let _ = run(
        &mut rt.stdin(),
        &mut input,
        &mut out,
        &mut rt.stdout(),
        &mut rt.stderr(),
    );
}
