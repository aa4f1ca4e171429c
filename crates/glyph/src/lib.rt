// A row is a lent slice of words, WORDS of them a glyph. Only this crate knows where a glyph's words stand.
#![tactic(auto, using(crate::proofs::Rows::row_lengths))]

ghost use Rattle.std.specs.Prelude.{◌≡◌, ◌+◌, ◌≤◌, ◌<◌, length, get_or, set, take, drop, replicate};
ghost use Rattle.std.proofs.Math.Seq.{paste};
ghost use Rattle.glyph.specs.Glyph.{glyphs_of, blank, ill_shaped};
ghost use Rattle.glyph.specs.Sets.{in_set, odd_sets};

pub const WORDS: usize = 4;

pub const LIMIT: usize = 2048;

// Refusal 1 of a call on rows: a row, a place or mark sets that no call takes.
#[derive(Clone, Copy, Debug, PartialEq, Eq)]
pub struct IllShaped;

#[derive(Clone, Copy, Debug, PartialEq, Eq)]
pub struct Glyph {
    pub id: u32,
    pub mask: u32,
    pub flags: u8,
    pub syllable: u8,
    pub props: u16,
    pub lig: u8,
    pub comp: u8,
    pub count: u8,
    pub ligated: u8,
}

// How many glyphs a row has.
pub fn count(row: &[u32]) -> usize
    ensures { result ≡ length (glyphs_of row.now) }
{
    row.len() / WORDS
}

// A row that isn't whole glyphs, or has too many: refusal 1.
#[tactic(auto, unfolding(crate::specs::Glyph::limit, crate::specs::Glyph::ill_shaped))]
pub fn is_ill_shaped(row: &[u32]) -> bool
    ensures { result ≡ ill_shaped row.now }
{
    (row.len() % WORDS != 0) | (LIMIT < count(row))
}

// Glyph i of a row that has it, with no test.
pub fn read(row: &[u32], i: usize) -> Glyph
    requires { i < length (glyphs_of row.now) }
    ensures { result ≡ get_or (glyphs_of row.now) i blank }
{
    let k = WORDS * i;
    let info = row[k + 2];
    let lig = row[k + 3];
    Glyph {
        id: row[k],
        mask: row[k + 1],
        flags: (info / 16777216 % 256) as u8,
        syllable: (info / 65536 % 256) as u8,
        props: (info % 65536) as u16,
        lig: (lig / 16777216 % 256) as u8,
        comp: (lig / 65536 % 256) as u8,
        count: (lig / 256 % 256) as u8,
        ligated: (lig % 256) as u8,
    }
}

// Glyph i of the row becomes g: its words are stored, as `read` takes them apart.
pub fn write(row: &mut [u32], i: usize, g: Glyph)
    requires { i < length (glyphs_of row.old) }
    ensures { glyphs_of row.new ≡ set (glyphs_of row.old) i g }
{
    let x = WORDS * i;
    row[x] = g.id;
    row[x + 1] = g.mask;
    row[x + 2] = g.flags as u32 * 16777216 + g.syllable as u32 * 65536 + g.props as u32;
    row[x + 3] = g.lig as u32 * 16777216
        + g.comp as u32 * 65536
        + g.count as u32 * 256
        + g.ligated as u32;
}

// The first k glyphs of a row, as a part of it.
pub fn first(row: &[u32], k: usize) -> &[u32]
    requires { k ≤ length (glyphs_of row.now) }
    ensures { glyphs_of result.now ≡ take k (glyphs_of row.now) }
{
    let x = WORDS * k;
    &row[0..x]
}

// The glyphs of a row from glyph k on, as a part of it.
pub fn onward(row: &[u32], k: usize) -> &[u32]
    requires { k ≤ length (glyphs_of row.now) }
    ensures { glyphs_of result.now ≡ drop k (glyphs_of row.now) }
{
    let x = WORDS * k;
    &row[x..]
}

// Mark sets with a lone last word: refusal 1.
pub fn is_odd(sets: &[u16]) -> bool
    ensures { result ≡ odd_sets sets.now }
{
    sets.len() % 2 != 0
}

// Whether the mark sets have the pair (set, id). With no way out of the loop, the compiler tests eight pairs at once.
pub fn in_set(sets: &[u16], set: u32, id: u32) -> bool
    ensures { result ≡ in_set sets.now set id }
{
    let pairs = sets.len() / 2;
    let mut hit = false;
    for k in 0..pairs {
        let i = 2 * k;
        hit |= (sets[i] as u32 == set) & (sets[i + 1] as u32 == id);
    }
    hit
}

// n glyphs of `from`, from glyph i on, are copied to the row `to`, from glyph j on.
pub fn copy(to: &mut [u32], j: usize, from: &[u32], i: usize, n: usize)
    requires { (j + n ≤ length (glyphs_of to.old)) × (i + n ≤ length (glyphs_of from.now)) }
    ensures { glyphs_of to.new ≡ paste (glyphs_of to.old) j (drop i (glyphs_of from.now)) n }
{
    let x = WORDS * j;
    let y = WORDS * i;
    let end = WORDS * n;
    // By words: of the slice's own method the compiler makes a call of memmove, which the library's users would have to link.
    for k in 0..end {
        to[x + k] = from[y + k];
    }
}

// n glyphs of the row, from glyph j on, become blank.
pub fn clear(row: &mut [u32], j: usize, n: usize)
    requires { j + n ≤ length (glyphs_of row.old) }
    ensures { glyphs_of row.new ≡ paste (glyphs_of row.old) j (replicate n blank) n }
{
    let x = WORDS * j;
    let end = WORDS * n;
    row[x..x + end].fill(0);
}
