// Digests of sets of glyphs: small sums that say "not in it" for certain, or "maybe".
#![tactic(auto)]

ghost use Rattle.std.specs.Prelude.{◌≡◌, ℕ, ◌+◌, ◌-◌, ◌/◌, ◌%◌, ◌^◌, ◌<◌, ◌||◌, nat_le};
ghost use Rattle.bits.specs.Bits.{bit};
ghost use Rattle.mask.specs.Mask.{round};
ghost use Rattle.digest.specs.Digest.{Says, bits_of, shift, none_set, all_set, united};
ghost use Rattle.digest.specs.Digest.{added, added_all, ranged, every_bit, range_yes, may_have, may_intersect};

const SHIFTS: [u32; 3] = [4, 0, 6];

#[derive(Clone, Copy, Debug, PartialEq, Eq)]
pub struct SetDigest {
    pub masks: [u64; 3],
}

// A digest to which a range was added, and what adding it answers. A struct, since both are there whatever the answer.
#[derive(Clone, Copy, Debug, PartialEq, Eq)]
pub struct Ranged {
    pub digest: SetDigest,
    pub yes: bool,
}

impl SetDigest {
    #[tactic(auto, using(bits::proofs::Laws::zero_bit))]
    pub fn new() -> Self
        ensures { Says result none_set }
    {
        SetDigest { masks: [0; 3] }
    }

    pub fn full() -> Self
        ensures { Says result all_set }
    {
        SetDigest {
            masks: [mask::ALL; 3],
        }
    }

    pub fn clear(self) -> Self
        ensures { Says result none_set }
    {
        SetDigest::new()
    }

    pub fn union(self, other: SetDigest) -> Self
        ensures { Says result (united (bits_of self) (bits_of other)) }
    {
        let old = self.masks;
        let others = other.masks;
        let mut masks = [0; 3];
        for i in 0..3 {
            masks[i] = old[i] | others[i];
        }
        SetDigest { masks }
    }

    pub fn add(self, g: u32) -> Self
        ensures { Says result (added g (bits_of self)) }
    {
        let old = self.masks;
        let mut masks = [0; 3];
        for i in 0..3 {
            masks[i] = mask::with(old[i], shifted(i, g));
        }
        SetDigest { masks }
    }

    pub fn add_array(self, array: &[u32]) -> Self
        ensures { Says result (added_all array.now (bits_of self)) }
    {
        let mut digest = self;
        for &g in array {
            digest = digest.add(g);
        }
        digest
    }

    pub fn add_range(self, a: u32, b: u32) -> Ranged
        ensures { Says result.digest (ranged a b (bits_of self)) × (result.yes ≡ range_yes a b (bits_of self)) }
    {
        if self.is_full() {
            return Ranged {
                digest: self,
                yes: false,
            };
        }
        let old = self.masks;
        let mut masks = [0; 3];
        let mut yes = false;
        for i in 0..3 {
            let from = shifted(i, a);
            let to = shifted(i, b);
            masks[i] = old[i] | range_of(from, to);
            yes |= !is_wide(from, to);
        }
        Ranged {
            digest: SetDigest { masks },
            yes,
        }
    }

    pub fn may_have(self, g: u32) -> bool
        ensures { result ≡ may_have (bits_of self) g }
    {
        let masks = self.masks;
        if !mask::has(masks[0], shifted(0, g)) {
            return false;
        }
        // Together: a branch between the two costs more than the one question that it spares.
        mask::has(masks[1], shifted(1, g)) & mask::has(masks[2], shifted(2, g))
    }

    pub fn may_intersect(self, other: SetDigest) -> bool
        ensures { result ≡ may_intersect (bits_of self) (bits_of other) }
    {
        let masks = self.masks;
        let others = other.masks;
        for i in 0..3 {
            if !mask::meet(masks[i], others[i]) {
                return false;
            }
        }
        true
    }

    // Whether all three masks are full.
    fn is_full(self) -> bool
        ensures { result ≡ every_bit (bits_of self) }
    {
        for i in 0..3 {
            if !mask::is_full(self.masks[i]) {
                return false;
            }
        }
        true
    }
}

// The glyph at the shift of mask i.
fn shifted(i: usize, g: u32) -> u32
    requires { i < 3 }
    ensures { result ≡ g / 2 ^ shift i }
{
    g >> SHIFTS[i]
}

// Whether a range of shifted glyphs takes all 64 bits of a mask.
fn is_wide(a: u32, b: u32) -> bool
    ensures { result ≡ nat_le 63 ((b + 2 ^ 64 - a) % 2 ^ 64) }
{
    (b as u64).wrapping_sub(a as u64) >= 63
}

// The bits that a range of shifted glyphs sets in a mask.
fn range_of(a: u32, b: u32) -> u64
    ensures { (k : ℕ) → k < 64 → bit k result ≡ (nat_le 63 ((b + 2 ^ 64 - a) % 2 ^ 64) || round (a % 64) (b % 64) k) }
{
    if is_wide(a, b) {
        return mask::ALL;
    }
    mask::arc(a, b)
}
