// The block on top of a stock.
ghost use Rattle.std.specs.Prelude.{◌≡◌, ◌+◌, ◌*◌, nat_le};
ghost use Rattle.words.specs.Word.{block_word};
ghost use Rattle.classes.specs.Shape.{shape_of, pool_id};
ghost use Rattle.poolcalls.specs.Calls.{top_valid};
ghost use Rattle.stock.specs.way.Pre.{TopPre};

use crate::cells::entry;
use crate::room::COUNT_MAX;
use classes::block_bytes;
use words::Word;

// Granules of the class's block: its bytes alone are looked up.
fn block_granules(c: u32) -> u32
    ensures { result ≡ (shape_of (pool_id c)).block }
{
    block_bytes(c) / 16
}

// Granules of a page.
const PAGE: u64 = 4096;

// A block at granule g lies in the arena whole. None is longer than a page: its length is looked up only where the arena ends less than a page behind g.
fn ends_within(n: u32, c: u32, g: u32) -> bool
    ensures { result ≡ nat_le (g + (shape_of (pool_id c)).block) (4096 * n) }
{
    let start = u64::from(g);
    let end = 4096 * u64::from(n);
    start + PAGE <= end || start + u64::from(block_granules(c)) <= end
}

// Number 13 does not apply to a stock of k blocks: COUNT, the ENTRY on top, whose block lies in the arena whole, and FORMAT are in their ranges.
pub fn top_valid(meta: &[u32], n: u32, c: u32, k: u32) -> bool
    requires { TopPre meta.now c k }
    ensures { result ≡ top_valid n meta.now c }
{
    if k > COUNT_MAX {
        return false;
    }
    ends_within(n, c, entry(meta, c, k - 1)) && fields::fault::format_valid(meta)
}

// The class's kind: small below 64.
pub fn kind_of(c: u32) -> u32
    ensures { result ≡ (shape_of (pool_id c)).kind }
{
    if c < 64 { Word::SMALL } else { Word::MEDIUM }
}

// The word of the class's block at granule g.
pub fn block_word(c: u32, g: u32) -> u64
    ensures { result ≡ block_word (shape_of (pool_id c)).kind g }
{
    Word::block(kind_of(c), u64::from(g)).bits
}
