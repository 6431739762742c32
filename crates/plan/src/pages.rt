// The pages for so many takes, of one class and of all.
ghost use Rattle.std.specs.Prelude.{◌≡◌, ◌<◌, ◌≤◌, ◌*◌, get_or};
ghost use Rattle.plan.specs.Plan.{class_count, pages_for, pages_of};
ghost use Rattle.plan.specs.Code.{sum_max, Low};

use classes::CLASS_COUNT;

// The most blocks that a take gives of a small class.
const BATCH: u64 = 64;

// A run has at most 8 pages, so no sum over the classes wraps.
fn pages_for(class: u32, takes: u64) -> u64
    requires class_lt_class_count { class < class_count }
    requires takes_le_sum_max { takes ≤ sum_max }
    ensures { (result ≡ pages_for class takes) × (result ≤ takes * 8) }
{
    let shape = classes::shape_of(class);
    if class < classes::NUM_CLASSES {
        let per = u64::from(shape.capacity).div_ceil(BATCH);
        takes.div_ceil(per)
    } else {
        takes * u64::from(shape.pages)
    }
}

pub fn sum_pages(sums: &[u64; 76]) -> u64
    requires { Low sums.now }
    ensures { result ≡ pages_of (λ c. get_or sums.now c 0) }
{
    let mut pages: u64 = 0;
    for class in 0..CLASS_COUNT {
        pages += pages_for(class, sums[class as usize]);
    }
    pages
}
