// A level of a run in 64 slots: its opening from a match, and the repair of its positions.
#![tactic(auto)]

ghost use Rattle.std.specs.Prelude.{◌≡◌, ℕ, ◌+◌, ◌-◌, ◌≤◌, ◌<◌, get_or, length, take};
ghost use Rattle.glyph.specs.Glyph.{limit};
ghost use Rattle.run.specs.Repair.{with_gain, with_loss, grown_by, shrunk_by, repaired, Sound};
ghost use Rattle.run_positions.specs.Slots.{Placed, level_of, shown, Neat};
ghost use Rattle.run.specs.Run.{from_done, moved_level};

pub const SLOTS: usize = 64;

// Whether its records go on, its end, and its positions from the text's first glyph on; unused slots are 0. A level that is stopped has its end and
// positions too, so `live` is a value beside them.
// An array with a count, since the library has no heap. That unused slots are 0 (`Neat`) is said in clauses and is no ghost field: the definitions
// make slots of levels (`shown`), and each record of slots in the laws of the rooms above would then carry its proof, which is no plainer.
#[derive(Clone, Copy, Debug, PartialEq, Eq)]
pub struct Slots {
    pub live: bool,
    pub end: usize,
    pub count: usize,
    pub at: [u16; 64],
}

// The level after the lookup at position i found `old` glyphs in the text and left `new`.
#[tactic(auto, using(crate::specs::Laws::placed), unfolding(run::specs::Repair::repaired))]
pub fn repair(lv: Slots, i: usize, old: usize, new: usize) -> Slots
    requires { Neat lv × Sound 0 old (level_of lv) × (i < lv.count) × (old ≤ limit) × (new ≤ limit) }
    ensures { result ≡ shown (repaired i old new (level_of lv)) }
{
    if old < new {
        return Own { lv: &lv, i }.grown(new - old);
    }
    if new < old {
        return Own { lv: &lv, i }.shrunk(old - new);
    }
    lv
}

// As many slots as are asked for, each with what it is to hold; the others are 0.
fn filled<F: Fn(usize) -> u16>(count: usize, slot: F) -> [u16; SLOTS]
    requires few { count ≤ 64 }
    requires callable { (j : ℕ) → j < count → F.pre slot j }
    ensures long { length result ≡ 64 }
    ensures held { (j : ℕ) → j < count → F.post slot j (get_or result j 0) }
    ensures rest { (j : ℕ) → count ≤ j → get_or result j 0 ≡ 0 }
{
    let mut out = [0u16; SLOTS];
    for j in 0..count {
        out[j] = slot(j);
    }
    out
}

// A record's own position: it is number i of a level, whose positions are places of a text.
#[derive(Clone, Copy)]
struct Own<'a> {
    lv: &'a Slots,
    i: usize,
    ghost placed: { Placed lv.now.at lv.now.count },
    ghost inside: { i < lv.now.count },
}

impl Own<'_> {
    #[tactic(auto, unfolding(glyph::specs::Glyph::limit))]
    fn grown(&self, n: usize) -> Slots
        requires { (self.now.lv.now.end + n ≤ limit) × Neat self.now.lv.now }
        ensures { result ≡ shown (grown_by self.now.i n (level_of self.now.lv.now)) }
    {
        let end = self.lv.end + n;
        if self.lv.count + n <= SLOTS {
            let at = filled(self.lv.count + n, |j| self.gained(n, j));
            return Slots {
                end,
                count: self.lv.count + n,
                at,
                ..*self.lv
            };
        }
        Slots {
            live: false,
            end,
            ..*self.lv
        }
    }

    fn shrunk(&self, n: usize) -> Slots
        requires { get_or self.now.lv.now.at self.now.i 0 ≤ self.now.lv.now.end }
        ensures { result ≡ shown (shrunk_by self.now.i n (level_of self.now.lv.now)) }
    {
        let own = self.lv.at[self.i] as usize;
        let back = n.min(self.lv.end - own);
        let gone = back.min(self.lv.count - (self.i + 1));
        let at = filled(self.lv.count - gone, |j| self.lost(gone, j));
        Slots {
            end: self.lv.end - back,
            count: self.lv.count - gone,
            at,
            ..*self.lv
        }
    }

    // Position j after a gain of n here.
    #[tactic(auto, using(crate::specs::Laws::gains), unfolding(glyph::specs::Glyph::limit))]
    fn gained(&self, n: usize, j: usize) -> u16
        requires { (self.now.lv.now.count + n ≤ 64) × (j < self.now.lv.now.count + n) }
        ensures { result ≡ get_or (with_gain self.now.i n (take self.now.lv.now.count self.now.lv.now.at)) j 0 }
    {
        let at = &self.lv.at;
        if j <= self.i {
            return at[j];
        }
        if j <= self.i + n {
            return at[self.i] + ((j - self.i) as u16);
        }
        at[j - n] + (n as u16)
    }

    // Position j after a loss of n after this one.
    #[tactic(auto, using(crate::specs::Laws::losses))]
    fn lost(&self, n: usize, j: usize) -> u16
        requires { (n ≤ self.now.lv.now.count - (self.now.i + 1)) × (j < self.now.lv.now.count - n) }
        ensures { result ≡ get_or (with_loss self.now.i n (take self.now.lv.now.count self.now.lv.now.at)) j 0 }
    {
        let at = &self.lv.at;
        if self.i < j {
            return at[j + n] - (n as u16);
        }
        at[j]
    }
}

// The level of a match whose places count in the coming row: glyph idx of the row is glyph d of the text.
pub fn open(places: &[u16; 64], count: usize, end: usize, idx: usize, d: usize) -> Slots
    requires { (count ≤ 64) × (idx ≤ end) × (end ≤ limit) × (d ≤ idx) }
    ensures { result ≡ shown (moved_level idx d (take count places.now) end) }
{
    let at = filled(count, |j| from_done(places[j], idx, d));
    Slots {
        live: true,
        end: d + (end - idx),
        count,
        at,
    }
}

// A place of the coming row, from the text's first glyph on.
#[tactic(auto, unfolding(glyph::specs::Glyph::limit))]
fn from_done(p: u16, idx: usize, d: usize) -> u16
    requires { (d ≤ idx) × (idx ≤ limit) }
    ensures { result ≡ from_done idx d p }
{
    let place = p as usize;
    if idx <= place {
        return (d + (place - idx)) as u16;
    }
    d as u16
}
