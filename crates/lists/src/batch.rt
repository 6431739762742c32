// Blocks that follow one another, new or from the stack, given at once: their words one after another, their out bits word by word.
ghost use Rattle.std.specs.Prelude.{map, reverse, ◌≡◌, ◌-◌};
ghost use Rattle.model.specs.Page.{word_of};
ghost use Rattle.pages.specs.Stack.{descending, set_outs, spliced, HandedOut};
ghost use Rattle.pages.specs.way.Pre.{NamePre, SetOutRunPre, FreshPre};

use crate::blocks::word_of;
use classes::Shape;

// The words of k blocks from block `from` on, to the list's places below `at`.
fn name_blocks(shape: Shape, q: u32, list: &mut [u64], at: u32, from: u32, k: u32)
    requires { NamePre shape q list.old at from k }
    ensures { list.new ≡ spliced list.old (at - k) (map (word_of shape q) (descending from k)) }
{
    for j in 0..k {
        list[(at - 1 - j) as usize] = word_of(shape, q, from + j);
    }
}

// The same with the lowest block's word first.
fn raise_names(shape: Shape, q: u32, list: &mut [u64], at: u32, from: u32, k: u32)
    requires { NamePre shape q list.old at from k }
    ensures { list.new ≡ spliced list.old (at - k) (map (word_of shape q) (reverse (descending from k))) }
{
    for j in 0..k {
        list[(at - 1 - j) as usize] = word_of(shape, q, from + (k - 1 - j));
    }
}

// k blocks from block `from` on are out. No `for`: the first and the last word may take fewer than 32 of them.
fn set_out_run(meta: &mut [u32], q: u32, from: u32, k: u32)
    requires { SetOutRunPre meta.old q from k }
    ensures { meta.new ≡ set_outs meta.old q 1 (descending from k) }
{
    let mut i = from;
    let mut left = k;
    while left != 0 {
        let bit = i % 32;
        let n = (32 - bit).min(left);
        fields::out::set_in_word(meta, q, i / 32, bit, n);
        i += n;
        left -= n;
    }
}

// k blocks from block `from` on: new ones, or on the stack, the lowest on top.
pub fn carve_blocks(
    meta: &mut [u32],
    shape: Shape,
    q: u32,
    list: &mut [u64],
    at: u32,
    from: u32,
    k: u32,
)
    requires { FreshPre meta.old shape q list.old at from k }
    ensures { HandedOut meta.old shape q list.old at (descending from k) meta.new list.new }
{
    name_blocks(shape, q, list, at, from, k);
    set_out_run(meta, q, from, k);
}

// k blocks from block `from` on that lie on the stack, the highest on top.
pub fn raise_blocks(
    meta: &mut [u32],
    shape: Shape,
    q: u32,
    list: &mut [u64],
    at: u32,
    from: u32,
    k: u32,
)
    requires { FreshPre meta.old shape q list.old at from k }
    ensures { HandedOut meta.old shape q list.old at (reverse (descending from k)) meta.new list.new }
{
    raise_names(shape, q, list, at, from, k);
    set_out_run(meta, q, from, k);
}
