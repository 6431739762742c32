// The pages of a plan of takes. No book is lent.
ghost use Rattle.plan.specs.Code.{PlanEnds};

#[unsafe(no_mangle)]
pub extern "C" fn vigbuso_plan(sizes: &[u32], takes: &[u32], total: &mut u64) -> u32
    ensures { PlanEnds sizes.now takes.now result total.old total.new }
{
    match plan::plan(sizes, takes) {
        Ok(pages) => {
            *total = pages;
            0
        }
        Err(refusal) => refusal.number(),
    }
}
