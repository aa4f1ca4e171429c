// A font's allowance for preparing its lookups: how much work may be done, and how many bytes may be asked for.
#![tactic(auto)]

ghost use Rattle.std.specs.Prelude.{◌≡◌};
ghost use Rattle.allowance.specs.Allowance.{opening, budget_with, charge_exhausted, worked, allocated};

#[derive(Clone, Copy, Debug, PartialEq, Eq)]
pub struct Budget {
    pub work: u64,
    pub bytes: u64,
}

// A charge of more than is left.
#[derive(Clone, Copy, Debug, PartialEq, Eq)]
pub struct Exhausted;

// What a charge answers, and what is left after it. A struct, since something is left whatever the answer.
#[derive(Clone, Copy, Debug, PartialEq, Eq)]
pub struct Charged {
    pub charge: Result<(), Exhausted>,
    pub left: Budget,
}

const LEAST: u64 = 4_194_304;

const MOST: u64 = 134_217_728;

impl Budget {
    // The allowance of a table of so many bytes: bytes × 256, held between the least and the most.
    pub fn for_table_bytes(bytes: u64) -> Self
        ensures { result ≡ budget_with (opening bytes) (opening bytes) }
    {
        let size = bytes.saturating_mul(256).clamp(LEAST, MOST);
        Budget::new(size, size)
    }

    pub fn new(work: u64, bytes: u64) -> Self
        ensures { result ≡ budget_with work bytes }
    {
        Budget { work, bytes }
    }

    #[tactic(auto, using(std::proofs::lemmas::Bool::Decides::nat_tests), unfolding(crate::specs::Allowance::worked))]
    pub fn work(self, visits: u64) -> Charged
        ensures { result ≡ worked visits self }
    {
        if self.work < visits {
            return nothing_taken(self);
        }
        Charged {
            charge: Ok(()),
            left: Budget {
                work: self.work - visits,
                ..self
            },
        }
    }

    // A charge for count things of size bytes each. The product may pass 64 bits.
    #[tactic(auto, using(std::proofs::lemmas::Bool::Decides::nat_tests), unfolding(crate::specs::Allowance::allocated))]
    pub fn alloc(self, count: u64, size: u64) -> Charged
        ensures { result ≡ allocated count size self }
    {
        match count.checked_mul(size) {
            Some(asked) if asked <= self.bytes => Charged {
                charge: Ok(()),
                left: Budget {
                    bytes: self.bytes - asked,
                    ..self
                },
            },
            _ => nothing_taken(self),
        }
    }
}

// Exhausted takes nothing.
fn nothing_taken(left: Budget) -> Charged
    ensures { result ≡ charge_exhausted left }
{
    Charged {
        charge: Err(Exhausted),
        left,
    }
}
