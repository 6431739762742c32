// The takes.
ghost use Rattle.model.specs.Calls as Calls;
ghost use Rattle.witness.specs.Observed.{TakeObserved};

pub fn take_blocks(
    meta: &mut [u32],
    class: u32,
    host: u32,
    list: &mut [u64],
    count: &mut u32,
    virgin: &mut u32,
) -> u32
    ensures { TakeObserved (Calls.take_blocks class host) result meta.old meta.new list.old list.new count.old count.new virgin.old virgin.new }
{
    vigbuso::take_calls::vigbuso_take_blocks(meta, class, host, list, count, virgin)
}

pub fn medium_take_blocks(
    meta: &mut [u32],
    class: u32,
    host: u32,
    list: &mut [u64],
    count: &mut u32,
    virgin: &mut u32,
) -> u32
    ensures { TakeObserved (Calls.medium_take_blocks class host) result meta.old meta.new list.old list.new count.old count.new virgin.old virgin.new }
{
    vigbuso::take_calls::vigbuso_medium_take_blocks(meta, class, host, list, count, virgin)
}
