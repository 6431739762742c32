// The group release, for C.
ghost use Rattle.vigbuso.specs.Blocks.{chunks_on, ChunksEnds};

#[unsafe(no_mangle)]
pub extern "C" fn vigbuso_release_bin_chunks(
    meta: &mut [u32],
    class: u32,
    host: u32,
    list: &[u64],
    chunks: &[u64],
    fates: &mut [u32],
) -> u32
    ensures { ChunksEnds (chunks_on meta.old class host list.now chunks.now fates.old) result meta.new fates.new }
{
    vigbuso::chunk_calls::vigbuso_release_bin_chunks(meta, class, host, list, chunks, fates)
}
