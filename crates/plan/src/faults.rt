// Number 14.
ghost use Rattle.std.specs.Prelude.{◌≡◌, leb};
ghost use Rattle.facts.specs.Lists.{every};
ghost use Rattle.plan.specs.Plan.{bad_plan};
ghost use Rattle.plan.specs.way.Outcome.{bad_lengths};

use classes::MAX_MEDIUM_SIZE;

const ENTRIES_MAX: usize = 4_096;

const TAKES_MAX: u32 = 1_000_000;

fn all_within(list: &[u32], limit: u32) -> bool
    ensures { result ≡ every (λ k. leb k limit) list.now }
{
    list.iter().all(|x| *x <= limit)
}

// The plan is empty, its lists differ in length, or it is too long.
fn bad_lengths(sizes: usize, takes: usize) -> bool
    ensures { result ≡ bad_lengths sizes takes }
{
    sizes == 0 || sizes != takes || sizes > ENTRIES_MAX
}

pub fn bad_plan(sizes: &[u32], takes: &[u32]) -> bool
    ensures { result ≡ bad_plan sizes.now takes.now }
{
    bad_lengths(sizes.len(), takes.len())
        || !all_within(sizes, MAX_MEDIUM_SIZE)
        || !all_within(takes, TAKES_MAX)
}
