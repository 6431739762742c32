// Whether a word is a block out in the class, by the heap's own words.
ghost use Rattle.std.specs.Prelude.{◌≡◌, ◌*◌, ◌<◌};
ghost use Rattle.words.specs.Word.{granule_of};
ghost use Rattle.classes.specs.Shape.{shape_of, pool_id};
ghost use Rattle.pages.specs.Runs.{whole};
ghost use Rattle.pages.specs.Stack.{page_at};
ghost use Rattle.calls.specs.Out.{out_at};
ghost use Rattle.release.specs.way.Blocks.{block_at};
ghost use Rattle.stock.specs.way.Pre.{PagePre, SmallPre, PoolPre};

use classes::{pool_id, shape_of};
use fields::arena::ArenaField;
use fields::page::PageField;
use pages::page_within;
use release::find_out;

// For any class.
pub fn out_at(meta: &[u32], n: u32, c: u32, w: u64) -> bool
    requires { PoolPre n meta.now c }
    ensures { result ≡ out_at n meta.now (pool_id c) (shape_of (pool_id c)) w }
{
    let id = pool_id(c);
    let shape = shape_of(id);
    find_out(meta, n, id, shape, w).is_some()
}

// Page p is a run of the small class.
fn is_run(meta: &[u32], n: u32, c: u32, p: u32) -> bool
    requires { PagePre n meta.now c p }
    ensures { result ≡ whole n meta.now (shape_of (pool_id c)) (pool_id c) p }
{
    if p >= ArenaField::Frontier.get(meta) {
        return false;
    }
    let id = pool_id(c);
    PageField::Owner.get(meta, p) == id + 1 && PageField::First.get(meta, p) == p
}

// Granules of a small page behind its header.
const ROOM: u32 = 4093;

// The index of the small block that the word names, were its page a run of the class. The header is 3 granules; what lies in it wraps to behind the
// blocks.
fn small_at(c: u32, w: u64) -> Option<u32>
    requires { c < 64 }
    ensures { result ≡ block_at (shape_of (pool_id c)) (page_at w) w }
{
    let shape = shape_of(c);
    let y = (std::num::wrapping_sub_u64(w, 3) % 4096) as u32;
    if y + shape.block > ROOM {
        return None;
    }
    if y % shape.block != 0 {
        return None;
    }
    Some(y / shape.block)
}

// A small class has a way of its own, since its runs are one page: a fifth less than by `out_at`.
fn small_out(meta: &[u32], n: u32, c: u32, w: u64) -> bool
    requires { SmallPre n meta.now c w }
    ensures { result ≡ out_at n meta.now (pool_id c) (shape_of (pool_id c)) w }
{
    let p = page_within(w);
    if !is_run(meta, n, c, p) {
        return false;
    }
    match small_at(c, w) {
        Some(i) => fields::out::bit(meta, p, i) == 1,
        None => false,
    }
}

// Of a word whose granule is in the arena.
pub fn is_out(meta: &[u32], n: u32, c: u32, w: u64) -> bool
    requires pool_pre { PoolPre n meta.now c }
    requires w_bound { granule_of w < 4096 * n }
    ensures { result ≡ out_at n meta.now (pool_id c) (shape_of (pool_id c)) w }
{
    if c < 64 {
        return small_out(meta, n, c, w);
    }
    out_at(meta, n, c, w)
}
