// The releases by list.
ghost use Rattle.model.specs.Calls as Calls;
ghost use Rattle.witness.specs.Observed.{ListObserved};

pub fn release_blocks(meta: &mut [u32], class: u32, host: u32, list: &[u64], fate: &mut u32) -> u32
    ensures { ListObserved (Calls.release_blocks class host list.now) result meta.old meta.new fate.old fate.new }
{
    vigbuso::release_calls::vigbuso_release_blocks(meta, class, host, list, fate)
}

pub fn medium_release_blocks(
    meta: &mut [u32],
    class: u32,
    host: u32,
    list: &[u64],
    fate: &mut u32,
) -> u32
    ensures { ListObserved (Calls.medium_release_blocks class host list.now) result meta.old meta.new fate.old fate.new }
{
    vigbuso::release_calls::vigbuso_medium_release_blocks(meta, class, host, list, fate)
}
