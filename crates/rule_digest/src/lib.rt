// A digest of the values that a set of rules can start with: one mask on the value mod 64.
#![tactic(auto)]

ghost use Rattle.std.specs.Prelude.{◌≡◌, true, false, ◌%◌};
ghost use Rattle.rule_digest.specs.Rule.{rule_bits, RuleSays, rule_added, rule_full, rule_may_have};

#[derive(Clone, Copy, Debug, PartialEq, Eq)]
pub struct RuleSetDigest {
    pub mask: u64,
}

impl RuleSetDigest {
    #[tactic(auto, using(bits::proofs::Laws::zero_bit))]
    pub fn new() -> Self
        ensures { RuleSays result (λ k. false) }
    {
        RuleSetDigest { mask: 0 }
    }

    pub fn full() -> Self
        ensures { RuleSays result (λ k. true) }
    {
        RuleSetDigest { mask: mask::ALL }
    }

    pub fn add(self, value: u32) -> Self
        ensures { RuleSays result (rule_added value (rule_bits self)) }
    {
        RuleSetDigest {
            mask: mask::with(self.mask, value),
        }
    }

    pub fn is_full(self) -> bool
        ensures { result ≡ rule_full (rule_bits self) }
    {
        mask::is_full(self.mask)
    }

    pub fn may_have(self, value: u32) -> bool
        ensures { result ≡ rule_may_have (rule_bits self) value }
    {
        mask::has(self.mask, value)
    }
}
