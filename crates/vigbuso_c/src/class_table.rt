// A class table from a growth rate, for C.
ghost use Rattle.tables.specs.Table.{class_table, TableEnds};

#[unsafe(no_mangle)]
pub extern "C" fn vigbuso_class_table(a: u64, b: u64, top: u64, slots: u64, list: &mut [u32]) -> u32
    ensures { TableEnds (class_table a b top slots list.old) result list.new }
{
    vigbuso::class_table::vigbuso_class_table(a, b, top, slots, list)
}
