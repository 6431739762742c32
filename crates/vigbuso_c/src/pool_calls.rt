// One block out, one block back, and a stocked block back to the heap, for C.
ghost use Rattle.std.specs.Prelude.{◌≡◌};
ghost use Rattle.pool.specs.Pool.{alloc, free, trim};
ghost use Rattle.words.specs.Host.{digit};
ghost use Rattle.vigbuso.specs.Pool.{pool_on, class_on, granted_on, stocked_on, BlockEnds, FreeEnds};

#[unsafe(no_mangle)]
pub extern "C" fn vigbuso_alloc(meta: &mut [u32], class: u32, host: u32, block: &mut u64) -> u32
    ensures { BlockEnds (pool_on meta.old class (alloc host)) result meta.new block.old block.new }
{
    vigbuso::pool_calls::vigbuso_alloc(meta, class, host, block)
}

#[unsafe(no_mangle)]
pub extern "C" fn vigbuso_free(meta: &mut [u32], class: u32, host: u32, block: u64) -> u32
    ensures { FreeEnds (pool_on meta.old class (free host block)) result meta.new }
{
    vigbuso::pool_calls::vigbuso_free(meta, class, host, block)
}

#[unsafe(no_mangle)]
pub extern "C" fn vigbuso_trim(meta: &mut [u32], class: u32, host: u32, block: &mut u64) -> u32
    ensures { BlockEnds (pool_on meta.old class (trim host)) result meta.new block.old block.new }
{
    vigbuso::pool_calls::vigbuso_trim(meta, class, host, block)
}

#[unsafe(no_mangle)]
pub extern "C" fn vigbuso_class_of(meta: &[u32], block: u64) -> u32
    ensures { result ≡ class_on meta.now block }
{
    vigbuso::pool_calls::vigbuso_class_of(meta, block)
}

#[unsafe(no_mangle)]
pub extern "C" fn vigbuso_granted(meta: &[u32], class: u32, block: u64) -> u32
    ensures { result ≡ digit (granted_on meta.now class block) }
{
    vigbuso::pool_calls::vigbuso_granted(meta, class, block)
}

#[unsafe(no_mangle)]
pub extern "C" fn vigbuso_stocked(meta: &[u32], class: u32) -> u32
    ensures { result ≡ stocked_on meta.now class }
{
    vigbuso::pool_calls::vigbuso_stocked(meta, class)
}
