// One mask of 64 bits: what both digests are made of. A number stands for the bit at its rest mod 64.
#![tactic(auto)]

ghost use Rattle.std.specs.Prelude.{◌&&◌, ◌||◌, ◌≡◌, ℕ, ◌%◌, ◌≤◌, ◌<◌, eqb, leb};
ghost use Rattle.bits.specs.Bits.{bit, every, some};
ghost use Rattle.mask.specs.Mask.{round};

pub const ALL: u64 = u64::MAX;

// The mask with a number's bit set too.
#[tactic(auto, using(bits::proofs::Laws::or_bit, bits::proofs::Laws::power_bit, bits::proofs::Laws::shifted))]
pub fn with(mask: u64, n: u32) -> u64
    ensures { (k : ℕ) → bit k result ≡ (bit k mask || eqb k (n % 64)) }
{
    mask | (1u64 << (n % 64))
}

// Whether a number's bit is set.
pub fn has(mask: u64, n: u32) -> bool
    ensures { result ≡ bit (n % 64) mask }
{
    (mask >> (n % 64)) % 2 == 1
}

pub fn is_full(mask: u64) -> bool
    ensures { result ≡ every 64 (λ k. bit k mask) }
{
    mask == ALL
}

// Whether some bit is set in both.
pub fn meet(a: u64, b: u64) -> bool
    ensures { result ≡ some 64 (λ k. bit k a && bit k b) }
{
    a & b != 0
}

// The bits from a number's on to another's, round past bit 63 where that is below.
pub fn arc(a: u32, b: u32) -> u64
    ensures { (k : ℕ) → k < 64 → bit k result ≡ round (a % 64) (b % 64) k }
{
    let from = a % 64;
    let to = b % 64;
    if from <= to {
        return span(from, to);
    }
    span(from, 63) | span(0, to)
}

// The bits from a up to b.
fn span(a: u32, b: u32) -> u64
    requires { (a ≤ b) × (b < 64) }
    ensures { (k : ℕ) → bit k result ≡ (leb a k && leb k b) }
{
    let ma = 1u64 << a;
    let mb = 1u64 << b;
    mb + (mb - ma)
}
