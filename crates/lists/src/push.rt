// Blocks that come back to a page's stack.
ghost use Rattle.std.specs.Prelude.{◌≡◌, true, map, ◌∷◌, [], ◌*◌, ◌+◌, ◌<◌, ◌≤◌, take, length};
ghost use Rattle.facts.specs.Lists.{every};
ghost use Rattle.pages.specs.Stack.{index_of, is_block, push, pushed, page_slots};
ghost use Rattle.pages.specs.way.Pre.{PushEntriesPre, PushPre};
ghost use Rattle.lists.specs.way.Push.{PairsPre};
ghost use Rattle.fields.specs.Field.{page, free, get, words};

use crate::blocks::index_of;
use classes::Shape;
use fields::page::PageField;

// The list's first n blocks on a stack of 2 x entries, two at a time: entries 2 x and 2 x + 1 are one word.
fn push_pairs(meta: &mut [u32], shape: Shape, q: u32, x: u32, list: &[u64], n: usize)
    requires pairs_pre { PairsPre meta.old shape q x list.now n }
    requires list_value { every (is_block shape q) list.now ≡ true }
    ensures { meta.new ≡ push meta.old q (2 * x) (map (index_of shape q) (take n list.now)) }
{
    let pairs = n / 2;
    for j in 0..pairs {
        let i = n - 2 * j - 2;
        fields::slot::set_pair(
            meta,
            q,
            x + j as u32,
            index_of(shape, q, list[i + 1]),
            index_of(shape, q, list[i]),
        );
    }
    if n % 2 == 1 {
        let last = index_of(shape, q, list[0]);
        fields::slot::set_entry(meta, q, 2 * (x + pairs as u32), last);
    }
}

// The list's blocks on a stack of `top`, the list's first on top.
pub fn push_entries(meta: &mut [u32], shape: Shape, q: u32, top: u32, list: &[u64])
    requires push_entries_pre { PushEntriesPre meta.old shape q top list.now }
    requires list_value { every (is_block shape q) list.now ≡ true }
    ensures { meta.new ≡ push meta.old q top (map (index_of shape q) list.now) }
{
    let n = list.len();
    if n == 0 {
        return;
    }
    if n == 1 {
        fields::slot::set_entry(meta, q, top, index_of(shape, q, list[0]));
        return;
    }
    if top % 2 == 0 {
        push_pairs(meta, shape, q, top / 2, list, n);
        return;
    }
    fields::slot::set_entry(meta, q, top, index_of(shape, q, list[n - 1]));
    push_pairs(meta, shape, q, top / 2 + 1, list, n - 1);
}

// The list's blocks before the page's free ones. Their out bits are the caller's.
pub fn push_list(meta: &mut [u32], shape: Shape, q: u32, list: &[u64])
    requires push_pre { PushPre meta.old shape q list.now }
    requires list_value { every (is_block shape q) list.now ≡ true }
    ensures { meta.new ≡ pushed meta.old q (map (index_of shape q) list.now) }
{
    let top = PageField::Free.get(meta, q);
    push_entries(meta, shape, q, top, list);
    PageField::Virgin.set(meta, q, 0);
    PageField::Free.set(meta, q, top + list.len() as u32);
}

// As `push_list` of the block alone.
pub fn push_one(meta: &mut [u32], q: u32, i: u32)
    requires q_in_bounds { words (q + 1) ≤ length meta.old }
    requires q_bound { get meta.old (page free q) < page_slots }
    ensures { meta.new ≡ pushed meta.old q (i ∷ []) }
{
    let top = PageField::Free.get(meta, q);
    fields::slot::set_entry(meta, q, top, i);
    PageField::Virgin.set(meta, q, 0);
    PageField::Free.set(meta, q, top + 1);
}
