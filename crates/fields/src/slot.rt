// A page's stack of free blocks: entries of 16 bits, two to a word.
#![tactic(auto, unfolding(crate::specs::Field::get, crate::specs::Field::put))]

ghost use Rattle.std.specs.Prelude.{◌≡◌, ◌+◌, ◌*◌};
ghost use Rattle.fields.specs.Field.{slot, word, Has, get, put};

use crate::bits::{low_bits, place_bits, read_bits};
use crate::page::page_word;

fn slot_word(p: u32, i: u32) -> usize
    ensures { result ≡ word (slot p i) }
{
    page_word(p, 272 + (i / 2) as usize)
}

pub fn entry(meta: &[u32], p: u32, i: u32) -> u32
    requires { Has meta.now (slot p i) }
    ensures { result ≡ get meta.now (slot p i) }
{
    read_bits(meta[slot_word(p, i)], 16 * (i % 2), 16)
}

pub fn set_entry(meta: &mut [u32], p: u32, i: u32, v: u32)
    requires { Has meta.old (slot p i) }
    ensures { meta.new ≡ put meta.old (slot p i) v }
{
    let at = slot_word(p, i);
    meta[at] = place_bits(meta[at], 16 * (i % 2), 16, v);
}

// Entries 2 x and 2 x + 1, which are one word.
pub fn set_pair(meta: &mut [u32], p: u32, x: u32, low: u32, high: u32)
    requires { Has meta.old (slot p (2 * x)) }
    ensures { meta.new ≡ put (put meta.old (slot p (2 * x)) low) (slot p (2 * x + 1)) high }
{
    meta[page_word(p, 272 + x as usize)] = low_bits(low, 16) + (low_bits(high, 16) << 16);
}
