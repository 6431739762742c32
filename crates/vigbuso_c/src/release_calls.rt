// The releases by list, for C.
ghost use Rattle.vigbuso.specs.Blocks.{release_on, ReleaseEnds};

#[unsafe(no_mangle)]
pub extern "C" fn vigbuso_release_blocks(
    meta: &mut [u32],
    class: u32,
    host: u32,
    list: &[u64],
    fate: &mut u32,
) -> u32
    ensures { ReleaseEnds (release_on 0 64 meta.old class host list.now) result meta.new fate.old fate.new }
{
    vigbuso::release_calls::vigbuso_release_blocks(meta, class, host, list, fate)
}

#[unsafe(no_mangle)]
pub extern "C" fn vigbuso_medium_release_blocks(
    meta: &mut [u32],
    class: u32,
    host: u32,
    list: &[u64],
    fate: &mut u32,
) -> u32
    ensures { ReleaseEnds (release_on 64 12 meta.old class host list.now) result meta.new fate.old fate.new }
{
    vigbuso::release_calls::vigbuso_medium_release_blocks(meta, class, host, list, fate)
}
