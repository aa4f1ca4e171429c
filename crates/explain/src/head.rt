// The head of a frame: what is asked, in words.
ghost use Rattle.std.specs.Prelude.{◌≤◌, length};

use crate::words::Line;
use explain_line::LineFault;
use tape_frame::Head;
use verdict::{Settings, Table};

fn table(line: &mut Line, t: Table) {
    match t {
        Table::Gsub => line.say(b"GSUB"),
        Table::Gpos => line.say(b"GPOS"),
    }
}

fn settings(line: &mut Line, s: Settings) {
    line.say_if(s.zwnj, b" auto-ZWNJ");
    line.say_if(s.zwj, b" auto-ZWJ");
    line.say_if(s.syllables, b" syllables");
    line.say_if(!(s.zwnj | s.zwj | s.syllables), b" none");
}

fn line_of(line: &mut Line, number: u64) {
    line.say(b"line ");
    line.number(number % 4294967296);
}

fn opening(line: &mut Line, number: u64, s: Settings) {
    line_of(line, number);
    line.say(b": a frame of ");
    table(line, s.table);
    line.say(b", settings:");
    settings(line, s);
    line.end();
}

// The set that the lookup names, else the attachment class that it asks.
fn marks(line: &mut Line, props: u32) {
    if props / 16 % 2 == 1 {
        line.say(b" uses mark set ");
        line.number((props / 65536) as u64);
        return;
    }
    if props / 256 % 256 != 0 {
        line.say(b" asks attachment class ");
        line.number((props / 256 % 256) as u64);
        return;
    }
    if props / 2 % 8 == 0 {
        line.say(b" ignores nothing");
        return;
    }
    line.say(b" and nothing else");
}

fn classes(line: &mut Line, props: u32) {
    line.say_if(props / 2 % 2 == 1, b" ignores bases,");
    line.say_if(props / 4 % 2 == 1, b" ignores ligatures,");
    line.say_if(props / 8 % 2 == 1, b" ignores marks,");
}

fn lookup(line: &mut Line, props: u32) {
    line.say(b"props ");
    line.word(props);
    line.say(b":");
    classes(line, props);
    marks(line, props);
    line.end();
}

fn counted(line: &mut Line, name: &[u8], n: usize)
    requires { length name.now ≤ 96 }
{
    line.say(name);
    line.number(n as u64);
}

fn sizes(line: &mut Line, mask: u32, done: usize, coming: usize, cursor: usize) {
    line.say(b"mask ");
    line.word(mask);
    counted(line, b", done ", done);
    counted(line, b", coming ", coming);
    counted(line, b", cursor ", cursor);
    line.end();
}

pub(crate) fn tell(line: &mut Line, number: u64, h: Head) {
    opening(line, number, h.settings);
    lookup(line, h.props);
    sizes(line, h.mask, h.done, h.coming, h.cursor);
}

fn list(line: &mut Line, values: &[u32]) {
    for &value in values {
        line.room();
        line.say(b" ");
        line.number(value as u64);
    }
}

pub(crate) fn values(line: &mut Line, asked: &[u32]) {
    line.say(b"values:");
    line.say_if(asked.is_empty(), b" none");
    list(line, asked);
    line.end();
}

fn fault(line: &mut Line, why: LineFault) {
    match why {
        LineFault::TooLong => line.say(b"more digits than the longest frame has"),
        LineFault::NotDigit(i) => counted(line, b"no digit stands at place ", i),
        LineFault::Odd => line.say(b"an odd number of digits"),
        LineFault::OtherFault => line.say(b"by its opening, settings, counts or length"),
    }
}

pub(crate) fn no_frame(line: &mut Line, number: u64, why: LineFault) {
    line_of(line, number);
    line.say(b": not a frame: ");
    fault(line, why);
    line.end();
}
