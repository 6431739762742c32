// The group release. Any number, any lists and any book is taken: numbers 1 to 4 stand before the call.
ghost use Rattle.vigbuso.specs.Blocks.{chunks_on, ChunksEnds};

use crate::faults::check_class;
use classes::NUM_CLASSES;
use words::refusal::code_of;

#[unsafe(no_mangle)]
pub extern "C" fn vigbuso_release_bin_chunks(
    meta: &mut [u32],
    class: u32,
    host: u32,
    list: &[u64],
    chunks: &[u64],
    fates: &mut [u32],
) -> u32
    ensures { ChunksEnds (chunks_on meta.old class host list.now chunks.now fates.old) result meta.new fates.new }
{
    let size = match check_class(meta, host, NUM_CLASSES, class) {
        Ok(size) => size,
        Err(refusal) => return refusal.number(),
    };
    let shape = classes::shape_of(class);
    code_of(chunks::release_chunks(meta, size, class, shape, host, list, chunks, fates))
}
