// Carving a run, and a run that the arena gave.
ghost use Rattle.std.specs.Prelude.{◌≡◌};
ghost use Rattle.pages.specs.Stack.{descending, push};
ghost use Rattle.pages.specs.Carve.{carved_at_once, carve_anew, bare_bits, new_run};
ghost use Rattle.pages.specs.way.Pre.{PushRangePre, CarvePre, ClearPre, NewPre};

use crate::runs::name_run;
use classes::Shape;
use fields::page::PageField;
use words::Word;

// Blocks 0 to k - 1 lie on the page's stack, the highest on top: two a turn, which are one word.
fn push_range(meta: &mut [u32], q: u32, k: u32)
    requires { PushRangePre meta.old q k }
    ensures { meta.new ≡ push meta.old q 0 (descending 0 k) }
{
    for x in 0..k / 2 {
        fields::slot::set_pair(meta, q, x, 2 * x, 2 * x + 1);
    }
    if k % 2 == 1 {
        fields::slot::set_entry(meta, q, k - 1, k - 1);
    }
}

fn carved_at_once(shape: Shape) -> u32
    ensures { result ≡ carved_at_once shape }
{
    if shape.kind == Word::MEDIUM {
        shape.capacity
    } else {
        0
    }
}

// A small page's blocks will be carved as they are wanted; a span's are all free.
pub fn carve_anew(meta: &mut [u32], shape: Shape, q: u32, virgin: bool)
    requires { CarvePre meta.old shape q }
    ensures { meta.new ≡ carve_anew meta.old shape q virgin }
{
    let k = carved_at_once(shape);
    push_range(meta, q, k);
    PageField::Virgin.set(meta, q, virgin as u32);
    PageField::Carved.set(meta, q, k);
    PageField::Free.set(meta, q, k);
}

// The blocks of the first k words of out bits are not out, and not marked.
pub fn clear_bits(meta: &mut [u32], q: u32, k: u32)
    requires { ClearPre meta.old q k }
    ensures { meta.new ≡ bare_bits meta.old q k }
{
    for j in 0..k {
        fields::out::clear_word(meta, q, j);
        fields::marks::set_word(meta, q, j, 0);
    }
}

pub fn new_run(meta: &mut [u32], shape: Shape, q: u32)
    requires { NewPre meta.old shape q }
    ensures { meta.new ≡ new_run meta.old shape q }
{
    name_run(meta, q, shape.pages);
    clear_bits(meta, q, (shape.capacity + 31) / 32);
    PageField::Listed.set(meta, q, 0);
    carve_anew(meta, shape, q, true);
}
