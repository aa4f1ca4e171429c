// Reads a stored list of questions and answers: words of eight hexadecimal digits, each with one byte after it; and what the programs that replay a
// list share.
#![tactic(auto)]

ghost use Rattle.std.specs.Prelude.{◌≡◌, ⊤, ℕ, ◌+◌, ◌*◌, ◌/◌, ◌%◌, ◌^◌, ◌<◌, ◌≤◌, min, Bool, length, if◌then◌else◌, nat_lt, slice_index, List};
ghost use Rattle.io.specs.Counts.{IsPrefixLen};
ghost use Rattle.stored.specs.Stored.{hex_digit, byte_at, word_from, stored_word, number_at, part_between, span_from, settings_from, slot_is};
ghost use Rattle.stored.specs.Replay.{ReplayedTo};
ghost use Rattle.bits.specs.Bits.{every, zeros};

use verdict::{Settings, Table};

// Room for the bytes of a whole list, and for its words.
pub const TEXT: usize = 2097152;

pub const WORDS_OF_A_LIST: usize = TEXT / 9;

// A list of a line: its first word and the word after it. A damaged list's may lie past the words; no part stands there (`part`).
#[derive(Clone, Copy, Debug, PartialEq, Eq)]
pub struct Span {
    pub from: usize,
    pub to: usize,
}

// A line that was replayed: whether our answer was the stored one, and where the next line begins, right or not.
#[derive(Clone, Copy, Debug, PartialEq, Eq)]
pub struct Replayed {
    pub right: bool,
    pub next: usize,
}

// The list on standard input, its words from the front of `words`, and how many there are.
pub fn read_list(words: &mut [u32]) -> usize
    ensures { result ≤ length words.old }
{
    let mut text = text_room();
    let n = io::read_full(0, &mut text);
    decode(&text[..n], words)
}

fn text_room() -> [u8; TEXT] {
    [0; TEXT]
}

pub fn word_room() -> [u32; WORDS_OF_A_LIST]
    ensures { result ≡ zeros (length result) }
{
    [0; WORDS_OF_A_LIST]
}

// What a list's lines come to: each is replayed at its first word, is counted, and says where the next begins.
pub trait Tally: Default {
    // What replaying a line does: the tally before, the words, the line's place, the place of the next, the tally after.
    ghost line_gives: { Self → List ℕ → ℕ → ℕ → Self → Type 0 } = { λ _ _ _ _ _. ⊤ };

    fn replay_line(&mut self, words: &[u32], at: usize) -> usize
        ensures { line_gives self.old words.now at result self.new };
}

// The lines of the first `count` words, from word 0 on. A line takes no less than a word, so there are no more lines than words.
#[tactic(auto, using(crate::proofs::Turns::none_left, crate::proofs::Turns::one_more))]
pub fn replay<T: Tally>(words: &[u32], count: usize) -> T
    ensures { (first : T) × T.is_default first × ReplayedTo T.line_gives words.now count count first 0 result }
{
    let mut tally = T::default();
    let mut at = 0;
    for _ in 0..count {
        if count <= at {
            break;
        }
        at = tally.replay_line(words, at);
    }
    tally
}

// The words of a text, as far as they fit, and how many there are. What stands past them stays.
pub fn decode(text: &[u8], words: &mut [u32]) -> usize
    ensures { (result ≡ min (length text.now / 9) (length words.old))
        × ((k : ℕ) → slice_index words.new k ≡ (if nat_lt k result then stored_word text.now k else slice_index words.old k)) }
{
    let n = words.len().min(text.len() / 9);
    for (k, word) in words[..n].iter_mut().enumerate() {
        *word = eight(text, k * 9);
    }
    n
}

// Word k, and 0 past the end.
pub fn word(words: &[u32], k: usize) -> u32
    ensures { result ≡ slice_index words.now k }
{
    words.get(k).copied().unwrap_or(0)
}

// The number of 64 bits in words k and k + 1, the high one first.
pub fn number(words: &[u32], k: usize) -> u64
    ensures { result ≡ number_at words.now k }
{
    if k < words.len() {
        word(words, k) as u64 * 4294967296 + word(words, k + 1) as u64
    } else {
        0
    }
}

// The words from one place up to another, and none where there is no such part.
pub fn part(words: &[u32], from: usize, to: usize) -> &[u32]
    ensures { result.now ≡ part_between from to words.now }
{
    words.get(from..to).unwrap_or(&[])
}

// A count with one more. It wraps nowhere that a list of this size reaches, nor does a place.
pub fn add_one(n: &mut u64)
    ensures { n.new ≡ (n.old + 1) % 2 ^ 64 }
{
    *n = n.wrapping_add(1);
}

// A count with one more, where it is so.
pub fn more(n: u64, so: bool) -> u64
    ensures { result ≡ (if so then (n + 1) % 2 ^ 64 else n) }
{
    if so { n.wrapping_add(1) } else { n }
}

pub fn after(at: usize, n: usize) -> usize
    ensures { result ≡ (at + n) % 2 ^ 64 }
{
    at.wrapping_add(n)
}

// Word k, as a place or a number of things.
pub fn size(words: &[u32], k: usize) -> usize
    ensures { result ≡ slice_index words.now k }
{
    word(words, k) as usize
}

// The list whose number stands in word k.
pub fn list(words: &[u32], k: usize) -> Span
    ensures { result ≡ span_from words.now k }
{
    let from = after(k, 1);
    Span {
        from,
        to: after(from, size(words, k)),
    }
}

pub fn listed(words: &[u32], s: Span) -> &[u32]
    ensures { result.now ≡ part_between s.from s.to words.now }
{
    part(words, s.from, s.to)
}

// GPOS, auto-ZWNJ, auto-ZWJ and syllables, a word each from word k on.
pub fn settings_at(words: &[u32], k: usize) -> Settings
    ensures { result ≡ settings_from words.now k }
{
    Settings {
        table: Table::from(word(words, k) == 1),
        zwnj: word(words, after(k, 1)) == 1,
        zwj: word(words, after(k, 2)) == 1,
        syllables: word(words, after(k, 3)) == 1,
    }
}

// The positions are the stored ones, and every slot past them is 0.
pub fn slots_are(words: &[u32], positions: &[u16; 64], from: usize, count: usize) -> bool
    ensures { result ≡ every 64 (slot_is words.now positions.now from count) }
{
    positions.iter().enumerate().all(|(k, &position)| wanted(words, from, k, count)
        == position as u32)
}

fn wanted(words: &[u32], from: usize, k: usize, count: usize) -> u32
    ensures { result ≡ (if nat_lt k count then slice_index words.now ((from + k) % 2 ^ 64) else 0) }
{
    if k < count {
        word(words, after(from, k))
    } else {
        0
    }
}

// The words as 16-bit ones, as far as there is room, and how many. What stands past them stays.
pub fn narrow(words: &[u32], out: &mut [u16]) -> usize
    ensures prefix_len { IsPrefixLen result out.new }
    ensures value { result ≡ min (length words.now) (length out.old) }
    ensures by_index { (k : ℕ) → slice_index out.new k ≡ (if nat_lt k result then slice_index words.now k % 65536 else slice_index out.old k) }
{
    let n = words.len().min(out.len());
    // `out` by index: nothing is proved of what a `zip` over `iter_mut` leaves.
    for (k, &word) in words[..n].iter().enumerate() {
        out[k] = (word % 65536) as u16;
    }
    n
}

// The eight digits from byte i on.
fn eight(text: &[u8], i: usize) -> u32
    requires { i + 8 ≤ length text.now }
    ensures { result ≡ word_from text.now i }
{
    ((byte(text, i) * 256 + byte(text, i + 2)) * 256 + byte(text, i + 4)) * 256 + byte(text, i + 6)
}

// The two digits from byte i on.
fn byte(text: &[u8], i: usize) -> u32
    requires { i + 2 ≤ length text.now }
    ensures { (result ≡ byte_at text.now i) × (result < 256) }
{
    hex(text[i]) * 16 + hex(text[i + 1])
}

// What a digit stands for.
fn hex(b: u8) -> u32
    ensures { (result ≡ hex_digit b) × (result < 16) }
{
    if b.is_ascii_digit() {
        (b - b'0') as u32
    } else if b.is_ascii_uppercase() & (b <= b'F') {
        (b - 55) as u32
    } else {
        0
    }
}
