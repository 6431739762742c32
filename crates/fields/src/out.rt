// Whether a block of a page is out: bit i of the page's out words.
#![tactic(auto, unfolding(crate::specs::Field::get, crate::specs::Field::put))]

ghost use Rattle.std.specs.Prelude.{◌≡◌, ◌+◌, ◌*◌, ◌≤◌, ◌<◌};
ghost use Rattle.fields.specs.Clear.{clear_out};
ghost use Rattle.fields.specs.Field.{mark, out, word, Has, get, put};
ghost use Rattle.fields.specs.way.OutBits.{set_out_run, outs_at, flip_word};

use crate::bits::{place_bits, read_bits, set_ones};
use crate::page::page_word;

fn out_word(p: u32, i: u32) -> usize
    ensures { result ≡ word (out p i) }
{
    page_word(p, 16 + (i / 32) as usize)
}

// The out bits of blocks 32 j to 32 j + 31.
pub fn bits(meta: &[u32], p: u32, j: u32) -> u32
    requires { Has meta.now (mark p j) }
    ensures { result ≡ outs_at meta.now p j }
{
    meta[page_word(p, 16 + j as usize)]
}

// Those at which x has a 1 change.
pub fn flip(meta: &mut [u32], p: u32, j: u32, x: u32)
    requires { Has meta.old (mark p j) }
    ensures { meta.new ≡ flip_word meta.old p j x }
{
    let at = page_word(p, 16 + j as usize);
    meta[at] ^= x;
}

pub fn bit(meta: &[u32], p: u32, i: u32) -> u32
    requires { Has meta.now (out p i) }
    ensures { result ≡ get meta.now (out p i) }
{
    read_bits(meta[out_word(p, i)], i % 32, 1)
}

pub fn set_bit(meta: &mut [u32], p: u32, i: u32, v: u32)
    requires { Has meta.old (out p i) }
    ensures { meta.new ≡ put meta.old (out p i) v }
{
    let at = out_word(p, i);
    meta[at] = place_bits(meta[at], i % 32, 1, v);
}

// Blocks 32 j to 32 j + 31 are not out.
pub fn clear_word(meta: &mut [u32], p: u32, j: u32)
    requires { Has meta.old (out p (32 * j)) }
    ensures { meta.new ≡ clear_out meta.old p (32 * j) 32 }
{
    meta[page_word(p, 16 + j as usize)] = 0;
}

// Block i is out.
pub fn set_out(meta: &mut [u32], p: u32, i: u32)
    requires { Has meta.old (out p i) }
    ensures { meta.new ≡ put meta.old (out p i) 1 }
{
    let at = out_word(p, i);
    meta[at] = set_ones(meta[at], i % 32, 1);
}

// Block i, which is out, no longer is.
pub fn clear_out(meta: &mut [u32], p: u32, i: u32)
    requires has { Has meta.old (out p i) }
    requires i_value { get meta.old (out p i) ≡ 1 }
    ensures { meta.new ≡ put meta.old (out p i) 0 }
{
    let at = out_word(p, i);
    meta[at] -= 1u32 << (i % 32);
}

// The n blocks from 32 j + s on, whose bits are in one word, are out.
pub fn set_in_word(meta: &mut [u32], p: u32, j: u32, s: u32, n: u32)
    requires has { Has meta.old (out p (32 * j)) }
    requires s_bound { (s < 32) × (s + n ≤ 32) }
    ensures { meta.new ≡ set_out_run meta.old p (32 * j + s) n }
{
    let at = page_word(p, 16 + j as usize);
    meta[at] = set_ones(meta[at], s, n);
}
