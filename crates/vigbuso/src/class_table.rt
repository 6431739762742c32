// A class table from a growth rate. No book is lent.
ghost use Rattle.tables.specs.Table.{class_table, TableEnds};

use words::refusal::code_of;

#[unsafe(no_mangle)]
pub extern "C" fn vigbuso_class_table(a: u64, b: u64, top: u64, slots: u64, list: &mut [u32]) -> u32
    ensures { TableEnds (class_table a b top slots list.old) result list.new }
{
    code_of(tables::class_table(a, b, top, slots, list))
}
