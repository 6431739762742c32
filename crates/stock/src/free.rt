// A free: the tests in their order, then the stock, or the heap where the stock holds enough.
ghost use Rattle.std.specs.Prelude.{◌≡◌, false};
ghost use Rattle.words.specs.Refusal.{number_of, code_of};
ghost use Rattle.poolcalls.specs.Stock.{count_in};
ghost use Rattle.poolcalls.specs.Calls.{free_on, FreeEnds};
ghost use Rattle.stock.specs.way.Pre.{NearPre, FreePre, PoolPre};
ghost use Rattle.stock.specs.way.Ends.{Kept, far_fault, is_full};

use crate::cells::count;
use crate::give::give;
use crate::out::is_out;
use crate::places::{is_stocked, push};
use crate::query::behind;
use crate::room::{COUNT_MAX, is_full};
use words::refusal::Refusal;

// 2^62: words of one kind.
const KIND: u64 = 4_611_686_018_427_387_904;

// Of a word that lies x behind its class's first, and not in the arena.
fn far_fault(x: u64) -> Refusal
    ensures { number_of result ≡ far_fault x }
{
    if x >= KIND {
        Refusal::WrongKind
    } else {
        Refusal::NotOut
    }
}

// A stock of k blocks with room for the block at granule g, or a COUNT out of its range.
fn keep(meta: &mut [u32], n: u32, c: u32, k: u32, g: u32, w: u64) -> Result<(), Refusal>
    requires free_pre { FreePre n meta.old c g w }
    requires k_value { k ≡ count_in meta.old c }
    requires k_value_2 { is_full c k ≡ false }
    ensures { Kept (code_of result) meta.new n meta.old c w }
{
    if !is_out(meta, n, c, w) {
        return Err(Refusal::NotOut);
    }
    if k > COUNT_MAX {
        return Err(Refusal::BookWord);
    }
    let made = fields::fault::format_valid(meta);
    if !made {
        return Err(Refusal::BookWord);
    }
    push(meta, n, c, k, g);
    Ok(())
}

// The block at granule g of the arena.
fn take_back(meta: &mut [u32], n: u32, c: u32, host: u32, g: u32, w: u64) -> Result<(), Refusal>
    requires { NearPre n meta.old c g w }
    ensures { FreeEnds (free_on n meta.old c host w) (code_of result) meta.new }
{
    if is_stocked(meta, n, c, g) {
        return Err(Refusal::NotOut);
    }
    let k = count(meta, c);
    // A full stock takes none: the heap tests the block itself.
    if is_full(c, k) {
        return give(meta, n, c, host, w);
    }
    keep(meta, n, c, k, g, w)
}

pub fn free(meta: &mut [u32], n: u32, c: u32, host: u32, w: u64) -> Result<(), Refusal>
    requires { PoolPre n meta.old c }
    ensures { FreeEnds (free_on n meta.old c host w) (code_of result) meta.new }
{
    let x = behind(c, w);
    if x >= 4096 * u64::from(n) {
        return Err(far_fault(x));
    }
    take_back(meta, n, c, host, x as u32, w)
}
