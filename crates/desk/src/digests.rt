// Digests. A set's digest is three masks that the caller keeps; a rule set's is one number. A digest's masks are stored by a variable, since the
// toolchain's walk over the code doesn't cover a field that is an array and is stored straight.
ghost use Rattle.std.specs.Prelude.{◌≡◌, true, false};
ghost use Rattle.digest.specs.Digest.{Says, bits_of, none_set, all_set, united, added, added_all, ranged, range_yes, may_have, may_intersect};
ghost use Rattle.rule_digest.specs.Rule.{RuleSays, rule_bits, rule_added, rule_full, rule_may_have};
ghost use Rattle.desk.specs.Digests.{digest_of, rule_of};

use digest::SetDigest;
use rule_digest::RuleSetDigest;

#[unsafe(no_mangle)]
pub extern "C" fn cb_digest_new(masks: &mut [u64; 3])
    ensures { Says (digest_of masks.new) none_set }
{
    let m = SetDigest::new().masks;
    *masks = m;
}

#[unsafe(no_mangle)]
pub extern "C" fn cb_digest_full(masks: &mut [u64; 3])
    ensures { Says (digest_of masks.new) all_set }
{
    let m = SetDigest::full().masks;
    *masks = m;
}

#[unsafe(no_mangle)]
pub extern "C" fn cb_digest_clear(masks: &mut [u64; 3])
    ensures { Says (digest_of masks.new) none_set }
{
    let m = SetDigest { masks: *masks }.clear().masks;
    *masks = m;
}

#[unsafe(no_mangle)]
pub extern "C" fn cb_digest_union(masks: &mut [u64; 3], other: &[u64; 3])
    ensures { Says (digest_of masks.new)
        (united (bits_of (digest_of masks.old)) (bits_of (digest_of other.now))) }
{
    let m = *masks;
    let o = *other;
    let joined = SetDigest { masks: m }.union(SetDigest { masks: o }).masks;
    *masks = joined;
}

#[unsafe(no_mangle)]
pub extern "C" fn cb_digest_add(masks: &mut [u64; 3], g: u32)
    ensures { Says (digest_of masks.new) (added g (bits_of (digest_of masks.old))) }
{
    let m = SetDigest { masks: *masks }.add(g).masks;
    *masks = m;
}

#[unsafe(no_mangle)]
pub extern "C" fn cb_digest_add_array(masks: &mut [u64; 3], glyphs: &[u32])
    ensures { Says (digest_of masks.new) (added_all glyphs.now (bits_of (digest_of masks.old))) }
{
    let m = SetDigest { masks: *masks }.add_array(glyphs).masks;
    *masks = m;
}

#[unsafe(no_mangle)]
pub extern "C" fn cb_digest_add_range(masks: &mut [u64; 3], a: u32, b: u32) -> bool
    ensures { Says (digest_of masks.new) (ranged a b (bits_of (digest_of masks.old)))
        × (result ≡ range_yes a b (bits_of (digest_of masks.old))) }
{
    let d = SetDigest { masks: *masks }.add_range(a, b);
    let m = d.digest.masks;
    *masks = m;
    d.yes
}

#[unsafe(no_mangle)]
pub extern "C" fn cb_digest_may_have(masks: &[u64; 3], g: u32) -> bool
    ensures { result ≡ may_have (bits_of (digest_of masks.now)) g }
{
    SetDigest { masks: *masks }.may_have(g)
}

#[unsafe(no_mangle)]
pub extern "C" fn cb_digest_may_intersect(masks: &[u64; 3], other: &[u64; 3]) -> bool
    ensures { result ≡ may_intersect (bits_of (digest_of masks.now)) (bits_of (digest_of other.now)) }
{
    SetDigest { masks: *masks }.may_intersect(SetDigest { masks: *other })
}

#[unsafe(no_mangle)]
pub extern "C" fn cb_rule_set_digest_new() -> u64
    ensures { RuleSays (rule_of result) (λ k. false) }
{
    RuleSetDigest::new().mask
}

#[unsafe(no_mangle)]
pub extern "C" fn cb_rule_set_digest_full() -> u64
    ensures { RuleSays (rule_of result) (λ k. true) }
{
    RuleSetDigest::full().mask
}

#[unsafe(no_mangle)]
pub extern "C" fn cb_rule_set_digest_add(mask: u64, value: u32) -> u64
    ensures { RuleSays (rule_of result) (rule_added value (rule_bits (rule_of mask))) }
{
    RuleSetDigest { mask }.add(value).mask
}

#[unsafe(no_mangle)]
pub extern "C" fn cb_rule_set_digest_is_full(mask: u64) -> bool
    ensures { result ≡ rule_full (rule_bits (rule_of mask)) }
{
    RuleSetDigest { mask }.is_full()
}

#[unsafe(no_mangle)]
pub extern "C" fn cb_rule_set_digest_may_have(mask: u64, value: u32) -> bool
    ensures { result ≡ rule_may_have (rule_bits (rule_of mask)) value }
{
    RuleSetDigest { mask }.may_have(value)
}
