// A frame of the bench tape: its types and definitions, and its parts as they stand in its bytes.
#![tactic(auto)]

ghost use Rattle.std.specs.Prelude.{◌≡◌, ◌+◌, ◌*◌, ◌≤◌, length, get_or};
ghost use Rattle.glyph.specs.Glyph.{words};
ghost use Rattle.tape_frame.specs.Frame.{half_at, word_at, words_at, table_kind, settings_of, value_count};
ghost use Rattle.tape_frame.specs.Frame.{counts_at, done_count, coming_count, done_at, coming_at, is_whole, frame_in};
ghost use Rattle.tape_frame.specs.Decoding.{head_of};
ghost use Rattle.tape_frame.specs.Put.{put};

use verdict::{Settings, Table};

// Values, and glyphs in each row, at most: a record is a glyph.
pub const MOST_VALUES: usize = 64;

pub const MOST_GLYPHS: usize = 64;

// Where the values begin. After them stand the two counts, then the records.
pub const VALUES_AT: usize = 16;

// The longest frame's bytes and digits: everything but values and records is 20 bytes.
pub const MOST_BYTES: usize = 20 + 4 * MOST_VALUES + 4 * glyph::WORDS * (2 * MOST_GLYPHS);

pub const MOST_DIGITS: usize = 2 * MOST_BYTES;

// The words of a frame's row, at most.
pub const ROW: usize = glyph::WORDS * MOST_GLYPHS;

// A frame's numbers: what a lookup asks, the cursor, how many values it has, and how many glyphs each row.
#[derive(Clone, Copy, Debug, PartialEq, Eq)]
pub struct Head {
    pub settings: Settings,
    pub mask: u32,
    pub props: u32,
    pub cursor: usize,
    pub values: usize,
    pub done: usize,
    pub coming: usize,
}

// A frame's lists, each from the front, and behind it what stood there: how long they are says the head.
#[derive(Clone, Copy)]
pub struct Lists {
    pub values: [u32; MOST_VALUES],
    pub done: [u32; ROW],
    pub coming: [u32; ROW],
}

// ---- numbers, big-endian; what stands past the end counts as 0. Places are far below the largest number, so that no sum wraps.

fn byte_at(b: &[u8], at: usize) -> u8
    ensures { result ≡ get_or b.now at 0 }
{
    b.get(at).copied().unwrap_or(0)
}

fn half_at(b: &[u8], at: usize) -> u16
    requires { at ≤ 65536 }
    ensures { result ≡ half_at b.now at }
{
    u16::from_be_bytes([byte_at(b, at), byte_at(b, at + 1)])
}

fn word_at(b: &[u8], at: usize) -> u32
    requires { at ≤ 65000 }
    ensures { result ≡ word_at b.now at }
{
    let high = half_at(b, at) as u32;
    let low = half_at(b, at + 2) as u32;
    high * 65536 + low
}

// The n words of b from `at` on, from the front of `out`.
pub fn fill(b: &[u8], at: usize, n: usize, out: &mut [u32])
    requires { (at + 4 * n ≤ 65000) × (n ≤ length out.old) }
    ensures { out.new ≡ put out.old 0 (words_at n at b.now) }
{
    for i in 0..n {
        out[i] = word_at(b, at + 4 * i);
    }
}

// ---- the frame's parts

// The table that the opening chooses.
#[tactic(auto, using(crate::proofs::Opening::opens_gsub, crate::proofs::Opening::opens_gpos), unfolding(crate::specs::Frame::table_kind))]
pub fn kind_of(b: &[u8]) -> Option<Table>
    ensures { result ≡ table_kind b.now }
{
    if b.starts_with(b"GSUB") {
        return Some(Table::Gsub);
    }
    if b.starts_with(b"GPOS") {
        return Some(Table::Gpos);
    }
    None
}

#[tactic(auto, unfolding(crate::specs::Frame::settings_of))]
fn settings_of(table: Table, s: u8) -> Settings
    ensures { result ≡ settings_of table s }
{
    Settings {
        table,
        zwnj: s % 2 == 1,
        zwj: s / 2 % 2 == 1,
        syllables: s / 4 % 2 == 1,
    }
}

fn value_count(b: &[u8]) -> u8
    ensures { result ≡ value_count b.now }
{
    byte_at(b, 15)
}

fn counts_at(b: &[u8]) -> usize
    ensures { (result ≡ counts_at b.now) × (result ≤ 1036) }
{
    VALUES_AT + 4 * value_count(b) as usize
}

#[tactic(auto, unfolding(crate::specs::Frame::done_count))]
fn done_count(b: &[u8]) -> u16
    ensures { result ≡ done_count b.now }
{
    half_at(b, counts_at(b))
}

#[tactic(auto, unfolding(crate::specs::Frame::coming_count))]
fn coming_count(b: &[u8]) -> u16
    ensures { result ≡ coming_count b.now }
{
    half_at(b, counts_at(b) + 2)
}

// Where done's records begin, and coming's.
pub fn done_at(b: &[u8]) -> usize
    ensures { (result ≡ done_at b.now) × (result ≤ 1040) }
{
    counts_at(b) + 4
}

pub fn coming_at(b: &[u8]) -> usize
    ensures { (result ≡ coming_at b.now) × (result ≤ 1040 + 4 * (words * 65535)) }
{
    done_at(b) + 4 * (glyph::WORDS * done_count(b) as usize)
}

// No other settings bits, the limits, and no byte too few or too many.
#[tactic(auto, unfolding(crate::specs::Frame::is_whole))]
pub fn is_whole(b: &[u8]) -> bool
    ensures { result ≡ is_whole b.now }
{
    let v = value_count(b) as usize;
    let d = done_count(b) as usize;
    let c = coming_count(b) as usize;
    let end = coming_at(b) + 4 * (glyph::WORDS * c);
    byte_at(b, 4) < 8 && v <= MOST_VALUES && d <= MOST_GLYPHS && c <= MOST_GLYPHS && b.len() == end
}

pub fn head_of(table: Table, b: &[u8]) -> Head
    ensures { result ≡ head_of (frame_in table b.now) }
{
    Head {
        settings: settings_of(table, byte_at(b, 4)),
        mask: word_at(b, 5),
        props: word_at(b, 9),
        cursor: half_at(b, 13) as usize,
        values: value_count(b) as usize,
        done: done_count(b) as usize,
        coming: coming_count(b) as usize,
    }
}
