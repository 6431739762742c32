// The pool's words: COUNT of a class, ENTRY of a place in its stock, PLACE of a granule.
ghost use Rattle.std.specs.Prelude.{◌≡◌, ◌+◌, ◌*◌, ◌/◌, ◌%◌, ◌<◌, length};
ghost use Rattle.poolcalls.specs.Stock.{count_at, entry_at, place_at, count_in, entry_in, place_in, put_count, put_entry, put_place};
ghost use Rattle.stock.specs.way.Pre.{StockPre};

use fields::bits::{place_bits, read_bits};

fn count_word(c: u32) -> usize
    ensures { result ≡ count_at c }
{
    775 + 8 * (c as usize)
}

fn entry_word(c: u32, k: u32) -> usize
    ensures { result ≡ entry_at c k }
{
    10240 + 256 * (c as usize) + k as usize
}

fn place_word(g: u32) -> usize
    ensures { result ≡ place_at g }
{
    42320 + 4112 * ((g / 4096) as usize) + (g % 4096 / 4) as usize
}

pub fn count(meta: &[u32], c: u32) -> u32
    requires { StockPre meta.now c }
    ensures { result ≡ count_in meta.now c }
{
    meta[count_word(c)]
}

pub fn set_count(meta: &mut [u32], c: u32, v: u32)
    requires { StockPre meta.old c }
    ensures { meta.new ≡ put_count meta.old c v }
{
    meta[count_word(c)] = v;
}

pub fn entry(meta: &[u32], c: u32, k: u32) -> u32
    requires stock_pre { StockPre meta.now c }
    requires k_bound { k < 256 }
    ensures { result ≡ entry_in meta.now c k }
{
    meta[entry_word(c, k)]
}

pub fn set_entry(meta: &mut [u32], c: u32, k: u32, g: u32)
    requires stock_pre { StockPre meta.old c }
    requires k_bound { k < 256 }
    ensures { meta.new ≡ put_entry meta.old c k g }
{
    meta[entry_word(c, k)] = g;
}

pub fn place(meta: &[u32], g: u32) -> u32
    requires { place_at g < length meta.now }
    ensures { result ≡ place_in meta.now g }
{
    read_bits(meta[place_word(g)], 8 * (g % 4), 8)
}

pub fn set_place(meta: &mut [u32], g: u32, k: u32)
    requires { place_at g < length meta.old }
    ensures { meta.new ≡ put_place meta.old g k }
{
    let at = place_word(g);
    meta[at] = place_bits(meta[at], 8 * (g % 4), 8, k);
}
