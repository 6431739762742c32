// The group release.
ghost use Rattle.model.specs.Calls as Calls;
ghost use Rattle.witness.specs.Observed.{ChunksObserved};

pub fn release_bin_chunks(
    meta: &mut [u32],
    class: u32,
    host: u32,
    list: &[u64],
    chunks: &[u64],
    fates: &mut [u32],
) -> u32
    ensures { ChunksObserved (Calls.release_bin_chunks class host list.now chunks.now) result meta.old meta.new fates.old fates.new }
{
    vigbuso::chunk_calls::vigbuso_release_bin_chunks(meta, class, host, list, chunks, fates)
}
