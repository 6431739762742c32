// A trace, from its opening on, for C.
ghost use Rattle.trace.specs.Words.{trace_on};
ghost use Rattle.vigbuso.specs.Trace.{TraceEnds};

use vigbuso::trace_call::COUNTS;

#[unsafe(no_mangle)]
pub extern "C" fn vigbuso_trace(
    meta: &mut [u32],
    pages: u64,
    words: &[u32],
    blocks: &mut [u64],
    figures: &mut [u64],
    done: &mut [u64; COUNTS],
) -> u32
    ensures { TraceEnds (trace_on meta.old pages words.now blocks.old figures.old done.old) result meta.new blocks.new figures.new done.new }
{
    vigbuso::trace_call::vigbuso_trace(meta, pages, words, blocks, figures, done)
}
