// The pages that a plan of takes needs (document 02, A.1, by sizes since A.6): worked out beside the heap, no book is lent.
#![tactic(auto)]

mod faults;
mod pages;
mod sums;

ghost use Rattle.std.specs.Prelude.{◌≡◌};
ghost use Rattle.plan.specs.way.Outcome.{plan_outcome};

use classes::LookupTables;
use words::refusal::Refusal;

// The total of a plan, or number 14.
pub fn plan(sizes: &[u32], takes: &[u32]) -> Result<u64, Refusal>
    ensures { result ≡ plan_outcome sizes.now takes.now }
{
    if faults::bad_plan(sizes, takes) {
        return Err(Refusal::Plan);
    }
    let mut sums: [u64; 76] = [0; 76];
    sums::add_takes(sizes, takes, &LookupTables::new(), &mut sums);
    Ok(pages::sum_pages(&sums))
}
