// Blocks that a page gives: free ones first, the top of the stack first, then new ones, lowest first.
// A list is filled from a place downwards, so that the latest stands first.
ghost use Rattle.std.specs.Prelude.{◌++◌, reverse};
ghost use Rattle.pages.specs.Stack.{top_entries, descending, HandedOut, Drawn};
ghost use Rattle.pages.specs.way.Pre.{BothPre, DrawPre};

use crate::batch::carve_blocks;
use crate::pop::pop_blocks;
use classes::Shape;
use fields::page::PageField;

// `popped` blocks from a stack of `top`, then `fresh` new ones from block `from` on.
fn give_blocks(
    meta: &mut [u32],
    shape: Shape,
    q: u32,
    list: &mut [u64],
    at: u32,
    top: u32,
    popped: u32,
    from: u32,
    fresh: u32,
)
    requires { BothPre meta.old shape q list.old at top popped from fresh }
    ensures { HandedOut meta.old shape q list.old at (descending from fresh ++ reverse (top_entries meta.old q popped top)) meta.new list.new }
{
    pop_blocks(meta, shape, q, list, at, top, popped);
    carve_blocks(meta, shape, q, list, at - popped, from, fresh);
}

// Up to m blocks, to the list's places below `at`; how many.
pub fn draw_blocks(meta: &mut [u32], shape: Shape, q: u32, list: &mut [u64], at: u32, m: u32) -> u32
    requires { DrawPre meta.old shape q list.old at m }
    ensures { Drawn result meta.new list.new meta.old shape q list.old at m }
{
    let free = PageField::Free.get(meta, q);
    let carved = PageField::Carved.get(meta, q);
    let popped = m.min(free);
    let fresh = (m - popped).min(shape.capacity - carved);
    give_blocks(meta, shape, q, list, at, free, popped, carved, fresh);
    PageField::Free.set(meta, q, free - popped);
    PageField::Carved.set(meta, q, carved + fresh);
    popped + fresh
}
