// A trace, from its opening on. Any words, any lists and any book are taken: numbers 1 and 2 stand before it.
ghost use Rattle.words.specs.Refusal.{code_of};
ghost use Rattle.trace.specs.Words.{trace_on};
ghost use Rattle.vigbuso.specs.Trace.{TraceEnds};

use words::refusal::{Refusal, code_of};

// How many counts a trace answers.
pub const COUNTS: usize = 3;

fn traced(
    meta: &mut [u32],
    pages: u64,
    words: &[u32],
    blocks: &mut [u64],
    figures: &mut [u64],
    done: &mut [u64; COUNTS],
) -> Result<(), Refusal>
    ensures { TraceEnds (trace_on meta.old pages words.now blocks.old figures.old done.old) (code_of result) meta.new blocks.new figures.new done.new }
{
    fields::fault::check_length(pages, meta.len())?;
    let course = trace::course::run(meta, pages as u32, words, blocks, figures);
    *done = [
        course.carried as u64,
        course.tally.at as u64,
        course.tally.written as u64,
    ];
    if course.carried == words.len() {
        Ok(())
    } else {
        Err(Refusal::Stopped)
    }
}

#[unsafe(no_mangle)]
pub extern "C" fn vigbuso_trace(
    meta: &mut [u32],
    pages: u64,
    words: &[u32],
    blocks: &mut [u64],
    figures: &mut [u64],
    done: &mut [u64; COUNTS],
) -> u32
    ensures { TraceEnds (trace_on meta.old pages words.now blocks.old figures.old done.old) result meta.new blocks.new figures.new done.new }
{
    code_of(traced(meta, pages, words, blocks, figures, done))
}
