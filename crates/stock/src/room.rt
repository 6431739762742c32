// Whether a free puts its block into the stock.
ghost use Rattle.std.specs.Prelude.{◌≡◌, nat_lt};
ghost use Rattle.pool.specs.Stock.{stock_most};
ghost use Rattle.stock.specs.way.Ends.{is_full};

use classes::shape_of;

// As crate pool's Stock.antt has them: the fewest and the most blocks, and the granules of 256 KiB.
const STOCK_LEAST: u32 = 8;

const STOCK_LIMIT: u32 = 255;

const STOCK_GRANULES: u32 = 16_384;

// Classes below this have blocks of up to 912 bytes: STOCK_LIMIT of them fit 256 KiB.
const LIMITED: u32 = 22;

// The most that COUNT says: a place in the stock is 8 bits.
pub const COUNT_MAX: u32 = 255;

// A stock of k blocks holds fewer than the class's most. No division: k is below a quotient if k + 1 times the divisor is at most the dividend. The class's
// numbers are not looked at where the class alone tells.
fn has_room(c: u32, k: u32) -> bool
    ensures { result ≡ nat_lt k (stock_most c) }
{
    if c < LIMITED {
        return k < STOCK_LIMIT;
    }
    if k < STOCK_LEAST {
        return true;
    }
    if k >= STOCK_LIMIT {
        return false;
    }
    let shape = shape_of(c);
    (k + 1) * shape.block <= STOCK_GRANULES
}

// A stock of k blocks that holds the class's most. A COUNT beyond every stock's is no full one.
pub fn is_full(c: u32, k: u32) -> bool
    ensures { result ≡ is_full c k }
{
    k <= COUNT_MAX && !has_room(c, k)
}
