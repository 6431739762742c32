// The takes. Any number, any list and any book is taken: numbers 1 to 4 stand before each call.
ghost use Rattle.std.specs.Prelude.{◌+◌, ◌≤◌};
ghost use Rattle.classes.specs.Shape.{class_count};
ghost use Rattle.words.specs.Refusal.{code_of};
ghost use Rattle.vigbuso.specs.Blocks.{take_on, TakeEnds};

use crate::faults::check_class;
use words::refusal::{Refusal, code_of};

// A take of a class among those of ids `low` to `low + many - 1`.
fn take_on(
    meta: &mut [u32],
    low: u32,
    many: u32,
    class: u32,
    host: u32,
    list: &mut [u64],
    count: &mut u32,
    virgin: &mut u32,
) -> Result<(), Refusal>
    requires { low + many ≤ class_count }
    ensures { TakeEnds (take_on low many meta.old class host list.old) (code_of result) meta.new list.new count.old count.new virgin.old virgin.new }
{
    let size = check_class(meta, host, many, class)?;
    take::call::take_into(meta, size, low + class, host, list, count, virgin)
}

#[unsafe(no_mangle)]
pub extern "C" fn vigbuso_take_blocks(
    meta: &mut [u32],
    class: u32,
    host: u32,
    list: &mut [u64],
    count: &mut u32,
    virgin: &mut u32,
) -> u32
    ensures { TakeEnds (take_on 0 64 meta.old class host list.old) result meta.new list.new count.old count.new virgin.old virgin.new }
{
    code_of(take_on(meta, 0, 64, class, host, list, count, virgin))
}

#[unsafe(no_mangle)]
pub extern "C" fn vigbuso_medium_take_blocks(
    meta: &mut [u32],
    class: u32,
    host: u32,
    list: &mut [u64],
    count: &mut u32,
    virgin: &mut u32,
) -> u32
    ensures { TakeEnds (take_on 64 12 meta.old class host list.old) result meta.new list.new count.old count.new virgin.old virgin.new }
{
    code_of(take_on(meta, 64, 12, class, host, list, count, virgin))
}
