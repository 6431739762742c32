// A trim: the stock's top goes back to the heap.
ghost use Rattle.poolcalls.specs.Calls.{trim_on};
ghost use Rattle.stock.specs.way.Ends.{Granted};
ghost use Rattle.stock.specs.way.Pre.{PoolPre};

use crate::cells::{count, entry, set_count};
use crate::give::give;
use crate::top::{block_word, top_valid};
use words::refusal::Refusal;

// The block's word, or 0 where the stock is empty.
pub fn trim(meta: &mut [u32], n: u32, c: u32, host: u32) -> Result<u64, Refusal>
    requires { PoolPre n meta.old c }
    ensures { Granted (trim_on n meta.old c host) result meta.new }
{
    let k = count(meta, c);
    if k == 0 {
        return if fields::fault::format_valid(meta) {
            Ok(0)
        } else {
            Err(Refusal::BookWord)
        };
    }
    if !top_valid(meta, n, c, k) {
        return Err(Refusal::BookWord);
    }
    let w = block_word(c, entry(meta, c, k - 1));
    give(meta, n, c, host, w)?;
    set_count(meta, c, k - 1);
    Ok(w)
}
