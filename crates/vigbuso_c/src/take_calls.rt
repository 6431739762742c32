// The takes, for C.
ghost use Rattle.vigbuso.specs.Blocks.{take_on, TakeEnds};

#[unsafe(no_mangle)]
pub extern "C" fn vigbuso_take_blocks(
    meta: &mut [u32],
    class: u32,
    host: u32,
    list: &mut [u64],
    count: &mut u32,
    virgin: &mut u32,
) -> u32
    ensures { TakeEnds (take_on 0 64 meta.old class host list.old) result meta.new list.new count.old count.new virgin.old virgin.new }
{
    vigbuso::take_calls::vigbuso_take_blocks(meta, class, host, list, count, virgin)
}

#[unsafe(no_mangle)]
pub extern "C" fn vigbuso_medium_take_blocks(
    meta: &mut [u32],
    class: u32,
    host: u32,
    list: &mut [u64],
    count: &mut u32,
    virgin: &mut u32,
) -> u32
    ensures { TakeEnds (take_on 64 12 meta.old class host list.old) result meta.new list.new count.old count.new virgin.old virgin.new }
{
    vigbuso::take_calls::vigbuso_medium_take_blocks(meta, class, host, list, count, virgin)
}
