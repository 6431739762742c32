// Class tables from a growth rate.
ghost use Rattle.demands.specs.ClassTables.{SmallTable};
ghost use Rattle.witness.specs.Observed.{TableObserved};

pub fn class_table(a: u64, b: u64, top: u64, slots: u64, list: &mut [u32]) -> u32
    ensures { TableObserved a b top slots result list.old list.new }
{
    vigbuso::class_table::vigbuso_class_table(a, b, top, slots, list)
}

pub fn small_class_table(list: &mut [u32]) -> u32
    ensures { SmallTable result list.old list.new }
{
    vigbuso::class_table::vigbuso_class_table(9, 8, 16384, 64, list)
}
