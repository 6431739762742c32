// Class tables from a growth rate (document 02, A.13).
#![tactic(auto)]

mod rate;

ghost use Rattle.words.specs.Refusal.{code_of};
ghost use Rattle.tables.specs.Table.{class_table, TableEnds};

use rate::Rate;
use words::refusal::Refusal;

// Fills a lent list with a class table. All bounds are tested before a size grows, and the slots against the list before the loop over
// them.
pub fn class_table(a: u64, b: u64, top: u64, slots: u64, list: &mut [u32]) -> Result<(), Refusal>
    ensures { TableEnds (class_table a b top slots list.old) (code_of result) list.new }
{
    let rate = Rate::of(a, b, top)?;
    if rate.bad_slots(slots, list.len() as u64) {
        return Err(Refusal::Slots);
    }
    rate.fill(&mut list[..slots as usize]);
    Ok(())
}
