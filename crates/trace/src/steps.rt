// One word of a trace.
ghost use Rattle.std.specs.Prelude.{◌≡◌, length, ◌<◌, ◌≤◌};
ghost use Rattle.classes.specs.Shape.{class_count};
ghost use Rattle.trace.specs.Trace as Trace;
ghost use Rattle.trace.specs.Trace.{say_of};
ghost use Rattle.trace.specs.Words.{size_of};
ghost use Rattle.trace.specs.way.Pre.{BookPre};
ghost use Rattle.trace.specs.way.Steps.{lent, BlocksPre, TallyPre, Carried, CarriedBlocks, CarriedReport};

use crate::acts::{back_now, class_at, take_now};
use crate::say::Say;
use crate::tally::Tally;
use crate::word_lists::{flip_kind, is_block};

// More bytes out than any arena has, and few enough to be added to.
const BYTES_MAX: u64 = 1_099_511_627_776;

// The bytes of a class's block.
fn size_of(c: u32) -> u64
    ensures { result ≡ size_of c }
{
    u64::from(classes::shape_of(c).block) * 16
}

// "release of the block whose place in order of handing out (from 0) is in the low 30 bits".
pub fn back_word(meta: &mut [u32], n: u32, blocks: &mut [u64], t: Tally, p: usize) -> Option<Tally>
    requires { BlocksPre n meta.old blocks.old t }
    ensures { CarriedBlocks result n (Trace.back p) meta.old blocks.old t meta.new blocks.new }
{
    if t.at <= p {
        return None;
    }
    let w = blocks[p];
    if !is_block(w) {
        return None;
    }
    let c = class_at(meta, n, w)?;
    match back_now(meta, n, w) {
        Err(_) => None,
        Ok(_) => {
            blocks[p] = flip_kind(w);
            Some(t.without(size_of(c)))
        }
    }
}

// "take from the class in the low 30 bits": its blocks come to the list behind those before them, if there is room for them.
pub fn take_word(meta: &mut [u32], n: u32, blocks: &mut [u64], t: Tally, c: u32) -> Option<Tally>
    requires blocks_pre { BlocksPre n meta.old blocks.old t }
    requires c_lt_class_count { c < class_count }
    ensures { CarriedBlocks result n (Trace.take c) meta.old blocks.old t meta.new blocks.new }
{
    if BYTES_MAX < t.bytes {
        return None;
    }
    match take_now(meta, n, c, blocks, t.at) {
        Err(_) => None,
        Ok(taken) => Some(t.with(taken.count, size_of(c))),
    }
}

// "At each report five numbers are written".
pub fn report_word(meta: &[u32], n: u32, figures: &mut [u64], t: Tally) -> Option<Tally>
    requires { BookPre n meta.now × (t.written ≤ length figures.old) }
    ensures { CarriedReport result n meta.now figures.old t figures.new }
{
    if figures.len() - t.written < 5 {
        return None;
    }
    match direct::figures::report(meta, n) {
        Err(_) => None,
        Ok(f) => {
            figures[t.written..t.written + 5].copy_from_slice(&[
                t.out, t.bytes, f.held, f.idle, t.highest,
            ]);
            Some(t.reported())
        }
    }
}

// One word.
pub fn word(
    meta: &mut [u32],
    n: u32,
    w: u32,
    blocks: &mut [u64],
    figures: &mut [u64],
    t: Tally,
) -> Option<Tally>
    requires { TallyPre n (lent meta.old blocks.old figures.old) t }
    ensures { Carried result n (say_of w) (lent meta.old blocks.old figures.old) t (lent meta.new blocks.new figures.new) }
{
    match Say::of(w)? {
        Say::Take(c) => take_word(meta, n, blocks, t, c),
        Say::Back(p) => back_word(meta, n, blocks, t, p as usize),
        Say::Report => report_word(meta, n, figures, t),
    }
}
