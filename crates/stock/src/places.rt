// Blocks in a stock, by their granules.
ghost use Rattle.std.specs.Prelude.{◌≡◌, ◌*◌, ◌<◌};
ghost use Rattle.words.specs.Word.{granule_of};
ghost use Rattle.poolcalls.specs.Stock.{count_in, stocked, put, pushed, put_all};
ghost use Rattle.stock.specs.way.Pre.{GranulePre, ListPre, PoolPre};

use crate::cells::{count, entry, place, set_count, set_entry, set_place};
use words::Word;

// Whether granule g is in the class's stock.
pub fn is_stocked(meta: &[u32], n: u32, c: u32, g: u32) -> bool
    requires { GranulePre n meta.now c g }
    ensures { result ≡ stocked meta.now c g }
{
    let k = place(meta, g);
    k < count(meta, c) && entry(meta, c, k) == g
}

// Granule g comes into place k; COUNT stays.
fn put(meta: &mut [u32], n: u32, c: u32, k: u32, g: u32)
    requires granule_pre { GranulePre n meta.old c g }
    requires k_bound { k < 256 }
    ensures { meta.new ≡ put meta.old c k g }
{
    set_entry(meta, c, k, g);
    set_place(meta, g, k);
}

// Granule g comes on top of the k that are there.
pub fn push(meta: &mut [u32], n: u32, c: u32, k: u32, g: u32)
    requires granule_pre { GranulePre n meta.old c g }
    requires k_value { k ≡ count_in meta.old c }
    requires k_bound { k < 256 }
    ensures { meta.new ≡ pushed meta.old c g }
{
    put(meta, n, c, k, g);
    set_count(meta, c, k + 1);
}

// The block comes into place k.
fn put_block(meta: &mut [u32], n: u32, c: u32, k: u32, w: u64)
    requires pool_pre { PoolPre n meta.old c }
    requires w_bound { granule_of w < 4096 * n }
    requires k_bound { k < 256 }
    ensures { meta.new ≡ put meta.old c k (granule_of w) }
{
    put(meta, n, c, k, Word::of(w).granule() as u32);
}

// The blocks of the list come into the first places.
pub fn put_all(meta: &mut [u32], n: u32, c: u32, list: &[u64])
    requires pool_pre { PoolPre n meta.old c }
    requires list_pre { ListPre n list.now }
    ensures { meta.new ≡ put_all meta.old c 0 list.now }
{
    for (k, w) in list.iter().enumerate() {
        put_block(meta, n, c, k as u32, *w);
    }
}
