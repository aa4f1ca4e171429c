// Allowances. The caller keeps two numbers: what is left of the work, and of the bytes.
ghost use Rattle.std.specs.Prelude.{◌≡◌};
ghost use Rattle.allowance.specs.Allowance.{opening, budget_with, worked, allocated};
ghost use Rattle.allowance.specs.Allowance.{was_taken};
ghost use Rattle.desk.specs.Allowances.{budget_of, budget_words};

use allowance::Budget;

#[unsafe(no_mangle)]
pub extern "C" fn cb_budget_for_table_bytes(left: &mut [u64; 2], bytes: u64)
    ensures { left.new ≡ budget_words (budget_with (opening bytes) (opening bytes)) }
{
    let b = Budget::for_table_bytes(bytes);
    *left = [b.work, b.bytes];
}

#[unsafe(no_mangle)]
pub extern "C" fn cb_budget_new(left: &mut [u64; 2], work: u64, bytes: u64)
    ensures { left.new ≡ budget_words (budget_with work bytes) }
{
    let b = Budget::new(work, bytes);
    *left = [b.work, b.bytes];
}

#[unsafe(no_mangle)]
pub extern "C" fn cb_budget_work(left: &mut [u64; 2], visits: u64) -> bool
    ensures { (result ≡ was_taken (worked visits (budget_of left.old)).charge)
        × (left.new ≡ budget_words (worked visits (budget_of left.old)).left) }
{
    let c = Budget::new(left[0], left[1]).work(visits);
    *left = [c.left.work, c.left.bytes];
    c.charge.is_ok()
}

#[unsafe(no_mangle)]
pub extern "C" fn cb_budget_alloc(left: &mut [u64; 2], count: u64, size: u64) -> bool
    ensures { (result ≡ was_taken (allocated count size (budget_of left.old)).charge)
        × (left.new ≡ budget_words (allocated count size (budget_of left.old)).left) }
{
    let c = Budget::new(left[0], left[1]).alloc(count, size);
    *left = [c.left.work, c.left.bytes];
    c.charge.is_ok()
}
