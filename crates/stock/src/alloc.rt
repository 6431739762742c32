// An alloc: the stock's top, or a take that fills the stock.
ghost use Rattle.std.specs.Prelude.{length};
ghost use Rattle.classes.specs.Shape.{shape_of, pool_id};
ghost use Rattle.calls.specs.Take.{take_call};
ghost use Rattle.pool.specs.Stock.{blank};
ghost use Rattle.poolcalls.specs.Calls.{bring_on, took_on, alloc_on};
ghost use Rattle.stock.specs.way.Pre.{ListPre, PoolPre};
ghost use Rattle.stock.specs.way.Ends.{Brings, Granted};

use crate::cells::{count, entry, set_count};
use crate::places::put_all;
use crate::top::{block_word, top_valid};
use classes::pool_id;
use words::refusal::Refusal;

// Of a take's blocks the last, or 0 for none; the others are the stock.
fn bring(meta: &mut [u32], n: u32, c: u32, list: &[u64]) -> u64
    requires pool_pre { PoolPre n meta.old c }
    requires list_pre { ListPre n list.now }
    ensures { Brings result meta.new (bring_on meta.old c (length list.now) list.now) }
{
    let Some((last, others)) = list.split_last() else {
        return 0;
    };
    put_all(meta, n, c, others);
    set_count(meta, c, others.len() as u32);
    *last
}

// A take into a list of the pool's own: its last block, or 0 for none, and the others are the stock.
fn refill(meta: &mut [u32], n: u32, c: u32, host: u32) -> Result<u64, Refusal>
    requires { PoolPre n meta.old c }
    ensures { Granted (took_on c (take_call n meta.old (pool_id c) (shape_of (pool_id c)) host blank)) result meta.new }
{
    let mut list = [0; 64];
    let taken = take::call::take_call(meta, n, pool_id(c), host, &mut list, true)?;
    Ok(bring(meta, n, c, &list[..taken.count as usize]))
}

// The block's word, or 0 where the arena has no run.
pub fn alloc(meta: &mut [u32], n: u32, c: u32, host: u32) -> Result<u64, Refusal>
    requires { PoolPre n meta.old c }
    ensures { Granted (alloc_on n meta.old c host) result meta.new }
{
    let k = count(meta, c);
    if k == 0 {
        return refill(meta, n, c, host);
    }
    if !top_valid(meta, n, c, k) {
        return Err(Refusal::BookWord);
    }
    let w = block_word(c, entry(meta, c, k - 1));
    set_count(meta, c, k - 1);
    Ok(w)
}
