// One block out and back, and what what the pool has of a class has.
ghost use Rattle.witness.specs.Observed.{AllocObserved, FreeObserved, TrimObserved, GrantedObserved, StockedObserved, ClassObserved};

pub fn alloc(meta: &mut [u32], class: u32, host: u32, block: &mut u64) -> u32
    ensures { AllocObserved class host result meta.old meta.new block.old block.new }
{
    vigbuso::pool_calls::vigbuso_alloc(meta, class, host, block)
}

pub fn free(meta: &mut [u32], class: u32, host: u32, block: u64) -> u32
    ensures { FreeObserved class host block result meta.old meta.new }
{
    vigbuso::pool_calls::vigbuso_free(meta, class, host, block)
}

pub fn trim(meta: &mut [u32], class: u32, host: u32, block: &mut u64) -> u32
    ensures { TrimObserved class host result meta.old meta.new block.old block.new }
{
    vigbuso::pool_calls::vigbuso_trim(meta, class, host, block)
}

pub fn class_of(meta: &[u32], block: u64) -> u32
    ensures { ClassObserved meta.now block result }
{
    vigbuso::pool_calls::vigbuso_class_of(meta, block)
}

pub fn granted(meta: &[u32], class: u32, block: u64) -> u32
    ensures { GrantedObserved meta.now class block result }
{
    vigbuso::pool_calls::vigbuso_granted(meta, class, block)
}

pub fn stocked(meta: &[u32], class: u32) -> u32
    ensures { StockedObserved meta.now class result }
{
    vigbuso::pool_calls::vigbuso_stocked(meta, class)
}
