// What a frame of the bench tape was answered, and why: on standard input frames, a line each; on standard output what the
// matcher saw of each glyph, in words, and the tape's answer. What is said comes from proved functions: `explain_glyph` and `explain_line` for the
// reasons, `tape_frame`, `matching_calls` and `tape_answer` for the answer. Where standard output takes no more, standard error says so, and no more
// frames are read.
#![tactic(auto)]

mod answer;
mod head;
mod rows;
mod words;

ghost use Rattle.std.specs.Prelude.{◌+◌, ◌<◌, ◌≤◌, length};
ghost use Rattle.glyph.specs.Glyph.{glyphs_of};
ghost use Rattle.tape_frame.specs.Decoding.{Bounded};

use crate::words::Line;
use explain_glyph::{Joined, Turn};
use glyph::Glyph;
use ligature::Ligbase;
use matching::{NoMatch, Terms};
use std::io::{Read, Stdin, Stdout, Write};
use tape_feed::KeptLine;
use tape_frame::{Head, Lists};
use verdict::{Matcher, Sign, Test};

// Bytes of a read.
const SPACE: usize = 65536;

// ---- a frame

// The base that was searched for.
fn tell_base(line: &mut Line, searched: &[u32], id: u8, m: Matcher) {
    let Some(j) = ligature::find_base(searched, id) else {
        rows::no_base(line);
        return;
    };
    let g = glyph::read(searched, j);
    let s = verdict_skip::may_skip(m, &[], g);
    let why = explain_glyph::why_skip(m, &[], g);
    rows::base(line, j, g, s, why, m.props);
}

// What the ligature rule looked at, where it searched for a base or refused the glyph.
fn tell_joined(
    line: &mut Line,
    searched: &[u32],
    first: Glyph,
    this: Glyph,
    m: Matcher,
    j: Joined,
) {
    if j.base != Ligbase::NotChecked {
        rows::compared(line, first, this);
        tell_base(line, searched, first.lig, m);
    } else if !j.joins {
        rows::compared(line, first, this);
        rows::unlike(line);
    }
}

// The glyph at a place, for the value that is due.
fn tell_place(
    line: &mut Line,
    searched: &[u32],
    text: &[u32],
    first: Glyph,
    p: usize,
    m: Matcher,
    due: u32,
) -> Turn
    requires { p < length (glyphs_of text.now) }
{
    let sign = Sign {
        test: Test::Equal,
        value: due,
    };
    let this = glyph::read(text, p);
    let told = explain_glyph::tell(m, &[], sign, first, this, searched);
    rows::tested(line, p, this, due, told.seen, told.turn, m.props);
    // The ligature rule is asked of glyphs that match.
    if matches!(told.turn, Turn::Taken | Turn::Unlike) {
        tell_joined(line, searched, first, this, m, told.joined);
    }
    told.turn
}

// Each glyph after the cursor, until every value is taken, a walk stops or runs out, or the ligature rule refuses.
fn tell_rows(
    line: &mut Line,
    searched: &[u32],
    text: &[u32],
    idx: usize,
    m: Matcher,
    values: &[u32],
) {
    let len = glyph::count(text);
    if len <= idx {
        return;
    }
    let first = glyph::read(text, idx);
    rows::titles(line);
    rows::cursor(line, idx, first);
    let mut values = values.iter();
    let mut due = values.next();
    for p in idx + 1..len {
        let Some(&value) = due else {
            rows::rest(line, p, len);
            return;
        };
        match tell_place(line, searched, text, first, p, m, value) {
            Turn::Passed => {}
            // The next value is due once a glyph is taken.
            Turn::Taken => due = values.next(),
            Turn::Stopped | Turn::Unlike => {
                rows::rest(line, p + 1, len);
                return;
            }
        }
    }
    if let Some(&value) = due {
        rows::ran_out(line, value);
    }
}

fn tell_rows_of(
    line: &mut Line,
    before: &[u32],
    text: &[u32],
    idx: usize,
    lookup: Terms,
    values: &[u32],
) {
    let table = lookup.settings.table;
    let m = verdict::matcher_of(lookup.settings, false, lookup.mask, lookup.props);
    let searched = matching::searched_row(table, before);
    tell_rows(line, searched, text, idx, m, values);
}

// The rows of a frame that isn't refused, and its answer.
fn tell_match(
    line: &mut Line,
    before: &[u32],
    text: &[u32],
    idx: usize,
    lookup: Terms,
    values: &[u32],
) {
    let d = glyph::count(before);
    let len = glyph::count(text);
    let found = matching_calls::match_input(
        before,
        d,
        text,
        len,
        idx,
        lookup,
        &[],
        Test::Equal,
        values,
    );
    if !matches!(found.answer, Err(NoMatch::Refused(_))) {
        tell_rows_of(line, before, text, idx, lookup, values);
    }
    answer::in_words(line, found);
}

fn tell_frame(line: &mut Line, number: u64, h: Head, lists: &Lists)
    requires { Bounded h }
{
    let lookup = Terms {
        settings: h.settings,
        mask: h.mask,
        props: h.props,
    };
    let asked = &lists.values[..h.values];
    let before = &lists.done[..glyph::WORDS * h.done];
    let text = &lists.coming[..glyph::WORDS * h.coming];
    head::tell(line, number, h);
    head::values(line, asked);
    tell_match(line, before, text, h.cursor, lookup, asked);
}

// ---- a line

// Answers could not be written.
#[derive(Clone, Copy, Debug)]
struct Lost;

// The tape's own answer, without its 0A, and an empty line.
fn tell_answer(frame: &[u8], line: &mut Line) {
    let mut out = [0u8; tape_answer::MOST_ANSWER];
    let end = tape_feed::answer_line(frame, &mut out, 0);
    answer::on_tape(line, &out[..end]);
    line.end();
}

fn tell_line(out: Stdout, frame: &[u8], number: u64) -> Result<(), Lost> {
    let mut line = Line::new(out);
    let mut lists = Lists {
        values: [0; tape_frame::MOST_VALUES],
        done: [0; tape_frame::ROW],
        coming: [0; tape_frame::ROW],
    };
    match tape_decode::decode(frame, &mut lists) {
        None => head::no_frame(&mut line, number, explain_line::why_none(frame)),
        Some(h) => tell_frame(&mut line, number, h, &lists),
    }
    tell_answer(frame, &mut line);
    if line.is_lost() {
        return Err(Lost);
    }
    Ok(())
}

// ---- the input

// What is kept of the line at hand, and how many lines came before it. Nothing compares or prints it.
#[derive(Drop)]
struct Lines {
    kept: KeptLine,
    told: u64,
}

impl Lines {
    // A byte ends the line, which is told, or is kept, or only makes a long line longer.
    fn take(&mut self, out: Stdout, b: u8) -> Result<(), Lost> {
        if b == tape_answer::NEWLINE {
            return self.tell(out);
        }
        self.kept.push(b);
        Ok(())
    }

    fn tell(&mut self, out: Stdout) -> Result<(), Lost> {
        self.told = self.told.wrapping_add(1);
        let told = tell_line(out, self.kept.bytes(), self.told);
        self.kept.clear();
        told
    }

    fn take_piece(&mut self, out: Stdout, piece: &[u8]) -> Result<(), Lost> {
        for &b in piece {
            self.take(out, b)?;
        }
        Ok(())
    }
}

// Reads to the end, or until answers are lost. A read that fails counts as the end of the input.
fn read_all(stdin: &mut Stdin, out: Stdout, lines: &mut Lines) -> Result<(), Lost> {
    for _ in 0..u64::MAX {
        let mut space = [0u8; SPACE];
        let size = stdin.read(&mut space).unwrap_or(0);
        if size == 0 {
            break;
        }
        lines.take_piece(out, &space[..size])?;
    }
    Ok(())
}

// Every line of the input, and a last one that lacks its 0A.
fn tell_all(stdin: &mut Stdin, out: Stdout) -> Result<(), Lost> {
    let mut lines = Lines {
        kept: KeptLine::new(),
        told: 0,
    };
    read_all(stdin, out, &mut lines)?;
    if !lines.kept.bytes().is_empty() {
        return lines.tell(out);
    }
    Ok(())
}

// The program gives no exit status of its own: who starts it learns from this line that answers are missing.
fn main(rt: HostRuntime) {
    if tell_all(&mut rt.stdin(), rt.stdout()).is_err() {
        let _ = rt
            .stderr()
            .write_all(b"explain: answers could not be written\n");
    }
}
