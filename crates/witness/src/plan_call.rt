// The plan.
ghost use Rattle.witness.specs.Observed.{PlanObserved};

pub fn plan(sizes: &[u32], takes: &[u32], total: &mut u64) -> u32
    ensures { PlanObserved sizes.now takes.now result total.old total.new }
{
    vigbuso::plan_call::vigbuso_plan(sizes, takes, total)
}
