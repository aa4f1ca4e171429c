// A row for each glyph from the cursor on: what the matcher saw of it, and why.
use crate::words::Line;
use explain_glyph::{MatchReason, Seen, SkipReason, Turn};
use glyph::Glyph;
use verdict::{MayMatch, MaySkip};

// The columns: the numbers end before theirs, the words begin at theirs.
const PLACE: usize = 5;

const ID: usize = 16;

const CLASS: usize = 17;

const DUE: usize = 37;

const SKIP: usize = 39;

const MATCH: usize = 46;

const VERDICT: usize = 54;

pub(crate) fn titles(line: &mut Line) {
    line.say(b"place         id class            due  skip?  match?  verdict");
    line.end();
}

fn class(line: &mut Line, props: u16) {
    match props / 2 % 8 {
        0 => line.say(b"none"),
        1 => line.say(b"base"),
        2 => line.say(b"ligature"),
        3 => line.say(b"base+lig"),
        4 => line.say(b"mark"),
        5 => line.say(b"base+mark"),
        6 => line.say(b"lig+mark"),
        _ => line.say(b"all three"),
    }
}

// Place, id and class.
fn opening(line: &mut Line, place: usize, g: Glyph) {
    line.right(PLACE, place as u64);
    line.right(ID, g.id as u64);
    line.pad(CLASS);
    class(line, g.props);
}

pub(crate) fn cursor(line: &mut Line, place: usize, g: Glyph) {
    opening(line, place, g);
    line.pad(VERDICT);
    line.say(b"the cursor: never tested");
    line.end();
}

// Each of the two answers has a type of its own, and so has its words. No Display: a line takes bytes of which its contract knows how many they are.
fn skip(line: &mut Line, s: MaySkip) {
    match s {
        MaySkip::No => line.say(b"No"),
        MaySkip::Yes => line.say(b"Yes"),
        MaySkip::Maybe => line.say(b"Maybe"),
    }
}

fn may(line: &mut Line, m: MayMatch) {
    match m {
        MayMatch::No => line.say(b"No"),
        MayMatch::Yes => line.say(b"Yes"),
        MayMatch::Maybe => line.say(b"Maybe"),
    }
}

// Each part of a reason begins with a blank, so that it may begin a line too.
fn outside(line: &mut Line, asked: u32) {
    line.reason(b" not in mark set ");
    line.number((asked / 65536) as u64);
}

fn other_class(line: &mut Line, asked: u32, props: u16) {
    line.reason(b" class ");
    line.number(props as u64 / 256);
    line.reason(b", asked ");
    line.number((asked / 256 % 256) as u64);
}

fn why_skip(line: &mut Line, why: SkipReason, asked: u32, props: u16) {
    match why {
        SkipReason::IgnoredBase => line.reason(b" flag 2 ignores bases"),
        SkipReason::IgnoredLigature => line.reason(b" flag 4 ignores ligatures"),
        SkipReason::IgnoredMark => line.reason(b" flag 8 ignores marks"),
        SkipReason::OutsideSet => outside(line, asked),
        SkipReason::OtherClass => other_class(line, asked, props),
        SkipReason::DefaultIgnorable => line.reason(b" default ignorable"),
        SkipReason::KeptZwnj => line.reason(b" a ZWNJ isn't ignored"),
        SkipReason::KeptZwj => line.reason(b" a ZWJ isn't ignored"),
        SkipReason::KeptHidden => line.reason(b" a hidden glyph isn't ignored"),
        SkipReason::NotIgnorable => line.reason(b" not ignorable"),
    }
}

fn why_match(line: &mut Line, how: MatchReason) {
    match how {
        MatchReason::NoMask => line.reason(b" no mask bit"),
        MatchReason::OtherSyllable => line.reason(b" other syllable"),
        MatchReason::OtherId => line.reason(b" other id"),
        MatchReason::EqualId => line.reason(b" equal id"),
        MatchReason::AnyId => line.reason(b" any glyph"),
        MatchReason::NoTest => line.reason(b" no test"),
    }
}

// A glyph that could be skipped or not is passed over because it doesn't match.
fn unless_yes(line: &mut Line, s: MaySkip, how: MatchReason) {
    match s {
        MaySkip::Yes => {}
        MaySkip::No | MaySkip::Maybe => {
            line.reason(b",");
            why_match(line, how);
        }
    }
}

// The verdict, and what decided it.
fn verdict(line: &mut Line, turn: Turn, seen: Seen, asked: u32, props: u16) {
    match turn {
        Turn::Passed => {
            line.reason(b"passed over:");
            why_skip(line, seen.why, asked, props);
            unless_yes(line, seen.skip, seen.how);
        }
        Turn::Taken => {
            line.reason(b"matches:");
            why_match(line, seen.how);
        }
        Turn::Stopped => {
            line.reason(b"stops:");
            why_skip(line, seen.why, asked, props);
            line.reason(b",");
            why_match(line, seen.how);
        }
        Turn::Unlike => line.reason(b"matches, but the ligature rule refuses it"),
    }
}

// What was asked of a glyph for a value, and what was answered.
fn asked(line: &mut Line, due: u32, seen: Seen) {
    line.right(DUE, due as u64);
    line.pad(SKIP);
    skip(line, seen.skip);
    line.pad(MATCH);
    may(line, seen.may);
    line.pad(VERDICT);
}

// The row of a glyph that was tested for a value.
pub(crate) fn tested(
    line: &mut Line,
    place: usize,
    g: Glyph,
    due: u32,
    seen: Seen,
    turn: Turn,
    props: u32,
) {
    opening(line, place, g);
    asked(line, due, seen);
    verdict(line, turn, seen, props, g.props);
    line.end();
}

// Ligature id and component.
fn of_ligature(line: &mut Line, g: Glyph) {
    line.number(g.lig as u64);
    line.say(b"/");
    line.number(g.comp as u64);
}

// The two glyphs that the ligature rule compares.
pub(crate) fn compared(line: &mut Line, first: Glyph, this: Glyph) {
    line.pad(CLASS);
    line.say(b"ligature/component: cursor glyph ");
    of_ligature(line, first);
    line.say(b", this glyph ");
    of_ligature(line, this);
    line.end();
}

pub(crate) fn unlike(line: &mut Line) {
    line.pad(CLASS);
    line.say(b"the cursor glyph isn't of that ligature");
    line.end();
}

pub(crate) fn no_base(line: &mut Line) {
    line.pad(CLASS);
    line.say(b"no base is found in done; under GPOS it isn't searched");
    line.end();
}

// The base that the ligature rule found in `done`, and whether it may be skipped.
pub(crate) fn base(
    line: &mut Line,
    place: usize,
    g: Glyph,
    s: MaySkip,
    why: SkipReason,
    asked: u32,
) {
    line.pad(CLASS);
    line.say(b"base at place ");
    line.number(place as u64);
    line.say(b" of done: skip ");
    skip(line, s);
    line.say(b",");
    why_skip(line, why, asked, g.props);
    line.end();
}

pub(crate) fn ran_out(line: &mut Line, due: u32) {
    line.say(b"no glyph is left for the value ");
    line.number(due as u64);
    line.say(b": the walk ran out");
    line.end();
}

pub(crate) fn rest(line: &mut Line, from: usize, len: usize) {
    if len <= from {
        return;
    }
    line.say(b"from place ");
    line.number(from as u64);
    line.say(b" on: not looked at");
    line.end();
}
