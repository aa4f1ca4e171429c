// A text in two rows: `done` holds its first d glyphs, `coming` ends with the others, from glyph idx on. The cursor stands between them.
// The rows and the place are parameters, and that they fit (`Fits`) is a clause: a struct would hold both rows as they are lent to write, and each
// step of a run, whose state goes by value, would take it apart.
#![tactic(auto, using(std::proofs::lemmas::Bool::Decides::nat_tests, crate::proofs::Rows::row_sizes), unfolding(glyph::specs::Glyph::limit))]

ghost use Rattle.std.specs.Prelude.{◌≡◌, [], ◌∷◌, ◌+◌, ◌≤◌, ◌<◌, length, get_or, set};
ghost use Rattle.glyph.specs.Glyph.{limit, glyphs_of, blank};
ghost use Rattle.text.specs.Text.{text_of, size_of, Fits, Holds, Clear, moved_to, written, replaced, is_full, unfit, past_end};

use glyph::Glyph;

#[derive(Clone, Copy, Debug, PartialEq, Eq)]
pub struct Place {
    pub d: usize,
    pub idx: usize,
}

// Rows and a place that can't hold a run's text: refusal 1.
pub fn is_unfit(done: &[u32], coming: &[u32], s: Place) -> bool
    ensures { result ≡ unfit done.now coming.now s }
{
    let words = glyph::WORDS * glyph::LIMIT;
    done.len() != words || coming.len() != words || glyph::LIMIT < s.d || s.idx < s.d
}

// A cursor at or past the end of `coming`: refusal 2.
pub fn is_past_end(s: Place) -> bool
    ensures { result ≡ past_end s }
{
    glyph::LIMIT <= s.idx
}

// How many glyphs the text has.
pub fn size(s: Place) -> usize
    requires { (s.idx ≤ limit) × (s.d ≤ s.idx) }
    ensures { result ≡ size_of s }
{
    s.d + (glyph::LIMIT - s.idx)
}

// Whether one glyph made n would pass the limit.
pub fn is_full(s: Place, n: usize) -> bool
    requires { (s.idx ≤ limit) × (s.d ≤ s.idx) × (n ≤ limit) }
    ensures { result ≡ is_full (size_of s) n }
{
    glyph::LIMIT + 1 < size(s) + n
}

// The cursor goes to glyph p of the text. Only the glyphs between the two places are copied.
pub fn move_to(done: &mut [u32], coming: &mut [u32], s: Place, p: usize) -> Place
    requires { Fits done.old coming.old s × (p ≤ length (text_of done.old coming.old s).glyphs) }
    ensures { Holds done.new coming.new result (moved_to p (text_of done.old coming.old s)) }
{
    let d = s.d;
    let idx = s.idx;
    if d <= p {
        let n = p - d;
        glyph::copy(done, d, coming, idx, n);
        return Place { d: p, idx: idx + n };
    }
    let n = d - p;
    let to = idx - n;
    glyph::copy(coming, to, done, p, n);
    Place { d: p, idx: to }
}

// The glyph at the cursor gets the id, and the cursor goes past it.
pub fn replace_one(done: &mut [u32], coming: &[u32], s: Place, id: u32) -> Place
    requires { Fits done.old coming.now s
        × (s.d < length (text_of done.old coming.now s).glyphs) }
    ensures { Holds done.new coming.now result (replaced (id ∷ []) (text_of done.old coming.now s)) }
{
    write(done, s.d, coming, s.idx, id);
    Place {
        d: s.d + 1,
        idx: s.idx + 1,
    }
}

// The glyph at the cursor becomes one for each id, and the cursor goes past them. No id deletes it.
pub fn replace_many(done: &mut [u32], coming: &[u32], s: Place, ids: &[u16]) -> Place
    requires { Fits done.old coming.now s
        × (s.d < length (text_of done.old coming.now s).glyphs)
        × (length (text_of done.old coming.now s).glyphs + length ids.now ≤ limit + 1) }
    ensures { Holds done.new coming.now result
        (replaced ids.now (text_of done.old coming.now s)) }
{
    let d = s.d;
    let idx = s.idx;
    for (k, id) in ids.iter().enumerate() {
        write(done, d + k, coming, idx, *id as u32);
    }
    Place {
        d: d + ids.len(),
        idx: idx + 1,
    }
}

// Glyph j of the row `to` becomes what is written in place of glyph i of `from`.
fn write(to: &mut [u32], j: usize, from: &[u32], i: usize, id: u32)
    requires { (j < length (glyphs_of to.old)) × (i < length (glyphs_of from.now)) }
    ensures { glyphs_of to.new ≡ set (glyphs_of to.old) j (written id (get_or (glyphs_of from.now) i blank)) }
{
    glyph::write(to, j, written(id, glyph::read(from, i)));
}

// What is written in place of the glyph g: it keeps everything but the id.
#[tactic(auto, unfolding(glyph::specs::Write::with_id))]
fn written(id: u32, g: Glyph) -> Glyph
    ensures { result ≡ written id g }
{
    Glyph { id, ..g }
}

// The words in neither part become 0. This alone costs the rows' length; it is called once a run.
pub fn clear_outside(done: &mut [u32], coming: &mut [u32], s: Place)
    requires { Fits done.old coming.old s }
    ensures { Holds done.new coming.new s (text_of done.old coming.old s)
        × Clear done.new coming.new s }
{
    let d = s.d;
    let idx = s.idx;
    let n = glyph::LIMIT - d;
    glyph::clear(done, d, n);
    glyph::clear(coming, 0, idx);
}
