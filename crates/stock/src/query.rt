// What the pool has of a class: a block that is granted, the blocks in stock.
ghost use Rattle.std.specs.Prelude.{◌≡◌, ◌+◌, ◌%◌, ◌^◌, ◌&&◌};
ghost use Rattle.words.specs.Word.{block_word};
ghost use Rattle.classes.specs.Shape.{shape_of, pool_id};
ghost use Rattle.fields.specs.Ranges.{format_valid};
ghost use Rattle.model.specs.Release.{of_kind};
ghost use Rattle.poolcalls.specs.Calls.{granted_in, stocked_in};
ghost use Rattle.stock.specs.way.Pre.{StockPre, PoolPre};

use crate::cells::count;
use crate::out::out_at;
use crate::places::is_stocked;
use crate::room::COUNT_MAX;
use crate::top::block_word;

// How far a word lies behind its class's first: one number tells its kind and its granule.
pub fn behind(c: u32, w: u64) -> u64
    ensures { (result + block_word (shape_of (pool_id c)).kind 0) % 2 ^ 64 ≡ w }
{
    std::num::wrapping_sub_u64(w, block_word(c, 0))
}

// A block that the pool granted in the class: it is not in stock, and the heap has it out. For any word; none on a book of another layout.
pub fn granted(meta: &[u32], n: u32, c: u32, w: u64) -> bool
    requires { PoolPre n meta.now c }
    ensures { result ≡ (format_valid meta.now && (of_kind (shape_of (pool_id c)).kind w && granted_in n meta.now c w)) }
{
    let x = behind(c, w);
    if x >= 4096 * u64::from(n) {
        return false;
    }
    if !fields::fault::format_valid(meta) {
        return false;
    }
    !is_stocked(meta, n, c, x as u32) && out_at(meta, n, c, w)
}

// COUNT; 0 where it or FORMAT is out of its range.
pub fn stocked(meta: &[u32], c: u32) -> u32
    requires { StockPre meta.now c }
    ensures { result ≡ stocked_in meta.now c }
{
    let k = count(meta, c);
    if k > COUNT_MAX {
        return 0;
    }
    if fields::fault::format_valid(meta) {
        k
    } else {
        0
    }
}
