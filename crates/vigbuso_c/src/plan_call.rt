// The pages of a plan of takes, for C.
ghost use Rattle.plan.specs.Code.{PlanEnds};

#[unsafe(no_mangle)]
pub extern "C" fn vigbuso_plan(sizes: &[u32], takes: &[u32], total: &mut u64) -> u32
    ensures { PlanEnds sizes.now takes.now result total.old total.new }
{
    vigbuso::plan_call::vigbuso_plan(sizes, takes, total)
}
