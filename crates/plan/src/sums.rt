// The takes of each class: "A class named twice has its takes added first."
ghost use Rattle.std.specs.Prelude.{◌≡◌};
ghost use Rattle.plan.specs.Plan.{class_of};
ghost use Rattle.plan.specs.Code.{Fine, Zeros, AddPre, Added, Summed};

use classes::{LookupTables, Sized};

// The class of a size, 0 to 63 small, 64 to 75 medium.
fn class_of(tables: &LookupTables, size: u32) -> u32
    ensures { result ≡ class_of size }
{
    match tables.class_of(size) {
        Sized::Small(c) => c,
        Sized::Medium(c) => classes::NUM_CLASSES + c,
        Sized::TooLarge => classes::NUM_CLASSES + classes::NUM_MEDIUM,
    }
}

fn add_entry(sums: &mut [u64; 76], class: u32, takes: u32)
    requires { AddPre sums.old class takes }
    ensures { Added sums.old class takes sums.new }
{
    sums[class as usize] += u64::from(takes);
}

// The lookup tables are lent, so that they are made once.
pub fn add_takes(sizes: &[u32], takes: &[u32], tables: &LookupTables, sums: &mut [u64; 76])
    requires fine { Fine sizes.now takes.now }
    requires zeros { Zeros sums.old }
    ensures { Summed sizes.now takes.now sums.new }
{
    for (size, many) in sizes.iter().zip(takes) {
        add_entry(sums, class_of(tables, *size), *many);
    }
}
