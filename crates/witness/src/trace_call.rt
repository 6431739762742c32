// A trace.
ghost use Rattle.witness.specs.Observed.{TraceObserved};

use vigbuso::trace_call::COUNTS;

pub fn trace(
    meta: &mut [u32],
    pages: u64,
    words: &[u32],
    blocks: &mut [u64],
    figures: &mut [u64],
    done: &mut [u64; COUNTS],
) -> u32
    ensures { TraceObserved pages meta.old words.now blocks.old figures.old done.old result meta.new blocks.new figures.new done.new }
{
    vigbuso::trace_call::vigbuso_trace(meta, pages, words, blocks, figures, done)
}
