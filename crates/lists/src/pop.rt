// Blocks given from a page's stack, the top first: two a turn, which are one word of the stack, and one at either end where it is half a word.
// Where the blocks follow one another they are given at once.
ghost use Rattle.std.specs.Prelude.{◌&&◌, true, [], ◌∷◌, reverse, ◌≡◌, ◌+◌, ◌-◌, ◌*◌, ◌≤◌, eqb, length};
ghost use Rattle.fields.specs.Field.{slot, words, get};
ghost use Rattle.pages.specs.Stack.{top_entries, descending, page_slots, HandedOut};
ghost use Rattle.pages.specs.way.Pre.{GivePre, PopPre};
ghost use Rattle.lists.specs.way.Stretch.{StretchPre};

use crate::batch::{carve_blocks, raise_blocks};
use crate::blocks::word_of;
use classes::Shape;

// Block i is out, and its word stands in the list below `at`.
fn give_block(meta: &mut [u32], shape: Shape, q: u32, list: &mut [u64], at: u32, i: u32)
    requires { GivePre meta.old shape q list.old at i }
    ensures { HandedOut meta.old shape q list.old at (i ∷ []) meta.new list.new }
{
    list[(at - 1) as usize] = word_of(shape, q, i);
    fields::out::set_out(meta, q, i);
}

// No block from a stack of `top`, or one.
fn pop_end(meta: &mut [u32], shape: Shape, q: u32, list: &mut [u64], at: u32, top: u32, k: u32)
    requires pop_pre { PopPre meta.old shape q list.old at top k }
    requires k_bound { k ≤ 1 }
    ensures { HandedOut meta.old shape q list.old at (reverse (top_entries meta.old q k top)) meta.new list.new }
{
    if k != 0 {
        let i = fields::slot::entry(meta, q, top - 1);
        give_block(meta, shape, q, list, at, i);
    }
}

// Two from a stack of 2 x + 2: the entries of its word x.
fn pop_pair(meta: &mut [u32], shape: Shape, q: u32, list: &mut [u64], at: u32, x: u32)
    requires { PopPre meta.old shape q list.old at (2 * x + 2) 2 }
    ensures { HandedOut meta.old shape q list.old at (reverse (top_entries meta.old q 2 (2 * x + 2))) meta.new list.new }
{
    let high = fields::slot::entry(meta, q, 2 * x + 1);
    let low = fields::slot::entry(meta, q, 2 * x);
    give_block(meta, shape, q, list, at, high);
    give_block(meta, shape, q, list, at - 1, low);
}

// The entries of word x of the stack are these two, and those before them were as they should be.
fn pair_is(meta: &[u32], q: u32, x: u32, low: u32, high: u32, before: bool) -> bool
    requires { (words (q + 1) ≤ length meta.now) × (2 * x + 2 ≤ page_slots) }
    ensures { result ≡ ((eqb (get meta.now (slot q (2 * x + 1))) high && eqb (get meta.now (slot q (2 * x))) low) && before) }
{
    let l = fields::slot::entry(meta, q, 2 * x) == low;
    let h = fields::slot::entry(meta, q, 2 * x + 1) == high;
    h & l & before
}

// Whether the entries of words x to y - 1 are a and those after it, the highest on top. The loop has no other way out (docs/BACKEND.md, "Tests").
fn rises(meta: &[u32], q: u32, x: u32, y: u32, a: u32) -> bool
    requires { StretchPre meta.now q x y a }
    ensures { result ≡ true → top_entries meta.now q (2 * y - 2 * x) (2 * y) ≡ descending a (2 * y - 2 * x) }
{
    let mut so = true;
    for j in 0..y - x {
        let i = a + 2 * j;
        so = pair_is(meta, q, x + j, i, i + 1, so);
    }
    so
}

// The same with the lowest on top.
fn falls(meta: &[u32], q: u32, x: u32, y: u32, a: u32) -> bool
    requires { StretchPre meta.now q x y a }
    ensures { result ≡ true → reverse (top_entries meta.now q (2 * y - 2 * x) (2 * y)) ≡ descending a (2 * y - 2 * x) }
{
    let mut so = true;
    for j in 0..y - x {
        let i = a + 2 * j;
        so = pair_is(meta, q, y - 1 - j, i + 1, i, so);
    }
    so
}

// The blocks of the k upper words of a stack of x words, pair by pair.
fn pop_mixed(meta: &mut [u32], shape: Shape, q: u32, list: &mut [u64], at: u32, x: u32, k: u32)
    requires { PopPre meta.old shape q list.old at (2 * x) (2 * k) }
    ensures { HandedOut meta.old shape q list.old at (reverse (top_entries meta.old q (2 * k) (2 * x))) meta.new list.new }
{
    for j in 0..k {
        pop_pair(meta, shape, q, list, at - 2 * j, x - 1 - j);
    }
}

// The same; blocks that follow one another, as they mostly come back, are given at once.
fn pop_pairs(meta: &mut [u32], shape: Shape, q: u32, list: &mut [u64], at: u32, x: u32, k: u32)
    requires { PopPre meta.old shape q list.old at (2 * x) (2 * k) }
    ensures { HandedOut meta.old shape q list.old at (reverse (top_entries meta.old q (2 * k) (2 * x))) meta.new list.new }
{
    if k == 0 {
        return;
    }
    let top = fields::slot::entry(meta, q, 2 * x - 1);
    let low = fields::slot::entry(meta, q, 2 * (x - k));
    if low + 2 * k == top + 1 && rises(meta, q, x - k, x, low) {
        raise_blocks(meta, shape, q, list, at, low, 2 * k);
        return;
    }
    if top + 2 * k == low + 1 && falls(meta, q, x - k, x, top) {
        carve_blocks(meta, shape, q, list, at, top, 2 * k);
        return;
    }
    pop_mixed(meta, shape, q, list, at, x, k);
}

// k blocks from a stack of `top`.
pub fn pop_blocks(
    meta: &mut [u32],
    shape: Shape,
    q: u32,
    list: &mut [u64],
    at: u32,
    top: u32,
    k: u32,
)
    requires { PopPre meta.old shape q list.old at top k }
    ensures { HandedOut meta.old shape q list.old at (reverse (top_entries meta.old q k top)) meta.new list.new }
{
    if k == 0 {
        return;
    }
    let odd = top % 2;
    let pairs = (k - odd) / 2;
    let many = odd + 2 * pairs;
    pop_end(meta, shape, q, list, at, top, odd);
    pop_pairs(meta, shape, q, list, at - odd, top / 2, pairs);
    pop_end(meta, shape, q, list, at - many, top - many, k - many);
}
