// The listed blocks, back on their pages' stacks: first they are out no longer.
ghost use Rattle.std.specs.Prelude.{◌≡◌, true, [], ◌∷◌, get_or};
ghost use Rattle.facts.specs.Lists.{every};
ghost use Rattle.fields.specs.Field.{out, put};
ghost use Rattle.pages.specs.Stack.{index_of, page_at};
ghost use Rattle.chunks.specs.way.Pass.{cleared, push_all};
ghost use Rattle.chunks.specs.way.PushPre.{own_block, on_page, in_reach, PushAllPre, EntryPre, TailPre, TailOn, LastPre, PushedFrom};
ghost use Rattle.chunks.specs.way.CallPre.{BitsPre};

use classes::Shape;
use fields::page::PageField;
use lists::{index_of, push_entries};
use pages::page_within;

// A word's block is out no longer.
fn take_block(meta: &mut [u32], n: u32, shape: Shape, w: u64)
    requires { BitsPre n meta.old shape (w ∷ []) }
    ensures { meta.new ≡ put meta.old (out (page_at w) (index_of shape (page_at w) w)) 0 }
{
    let q = page_within(w);
    fields::out::set_bit(meta, q, index_of(shape, q, w), 0);
}

pub fn take_blocks(meta: &mut [u32], n: u32, shape: Shape, list: &[u64])
    requires { BitsPre n meta.old shape list.now }
    ensures { meta.new ≡ cleared meta.old shape list.now }
{
    for w in list {
        take_block(meta, n, shape, *w);
    }
}

// Whether the word at a place lies on page q.
fn on_page(list: &[u64], i: usize, q: u32) -> bool
    requires { EntryPre list.now i }
    ensures { result ≡ on_page q (get_or list.now i 0) }
{
    page_within(list[i]) == q
}

// Where the list's last words begin that all lie on page q.
fn tail_on(list: &[u64], q: u32) -> usize
    requires { every in_reach list.now ≡ true }
    ensures { TailOn result q list.now }
{
    for i in (0..list.len()).rev() {
        if !on_page(list, i, q) {
            return i + 1;
        }
    }
    0
}

// The blocks of one page, with FREE written once: one by one, each push would wait for the one before.
fn push_tail(meta: &mut [u32], shape: Shape, q: u32, list: &[u64])
    requires { TailPre meta.old shape q list.now }
    ensures { meta.new ≡ push_all meta.old shape list.now }
{
    let top = PageField::Free.get(meta, q);
    push_entries(meta, shape, q, top, list);
    PageField::Free.set(meta, q, top + list.len() as u32);
}

// One block: pushed as a list of one it would take a tenth longer where the blocks of many pages are mixed.
fn push_block(meta: &mut [u32], shape: Shape, q: u32, w: u64)
    requires { TailPre meta.old shape q (w ∷ []) }
    ensures { meta.new ≡ push_all meta.old shape (w ∷ []) }
{
    let top = PageField::Free.get(meta, q);
    fields::slot::set_entry(meta, q, top, index_of(shape, q, w));
    PageField::Free.set(meta, q, top + 1);
}

// The list's last word, and those on its page before it: how many are left.
fn push_last(meta: &mut [u32], shape: Shape, list: &[u64]) -> usize
    requires { LastPre meta.old shape list.now }
    ensures { PushedFrom result meta.new meta.old shape list.now }
{
    let last = list.len() - 1;
    let q = page_within(list[last]);
    let k = tail_on(list, q);
    if k == last {
        push_block(meta, shape, q, list[last]);
        return k;
    }
    push_tail(meta, shape, q, &list[k..]);
    k
}

// The list's last block first, so that of a page's blocks the list's first is on top. No `for`: the place moves by a page's blocks at a time.
pub fn push_blocks(meta: &mut [u32], shape: Shape, list: &[u64])
    requires push_all_pre { PushAllPre meta.old shape list.now }
    requires list_value { every (own_block shape) list.now ≡ true }
    ensures { meta.new ≡ push_all meta.old shape list.now }
{
    let mut i = list.len();
    while i != 0 {
        i = push_last(meta, shape, &list[..i]);
    }
}
