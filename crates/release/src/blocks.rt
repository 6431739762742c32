// Where a listed word's block is: its run, and its index there.
ghost use Rattle.std.specs.Prelude.{◌≡◌, ◌+◌, ◌%◌, ◌^◌, ◌<◌};
ghost use Rattle.classes.specs.way.Sound.{Sound};
ghost use Rattle.fields.specs.Ranges.{max_pages};
ghost use Rattle.words.specs.Word.{word_bits};
ghost use Rattle.release.specs.way.Blocks.{block_at, block_in, run_at, find_out};
ghost use Rattle.release.specs.way.Pre.{ClassPre};
ghost use Rattle.release.specs.way.MarkPre.{Near};

use super::Place;
use classes::Shape;
use fields::arena::ArenaField;
use fields::page::PageField;
use lists::whole;
use pages::page_at;
use words::Word;

// How far a word lies behind another, wrapped.
pub fn behind(w: u64, first: u64) -> u64
    ensures { (result + first) % 2 ^ word_bits ≡ w }
{
    Word::of(w).behind(Word::of(first))
}

// The index of the block of the run at q that the word is.
// A granule below the blocks wraps to one above them. What does not fill a block stands behind the point of the product.
fn block_at(shape: Shape, q: u32, w: u64) -> Option<u32>
    requires sound { Sound shape }
    requires q_lt_max_pages { q < max_pages }
    ensures { result ≡ block_at shape q w }
{
    let granule = Word::of(w).granule();
    let x = std::num::wrapping_sub_u64(granule, q as u64 * 4096 + shape.header as u64);
    if x >= (shape.capacity * shape.block) as u64 {
        return None;
    }
    let product = x * shape.inverse;
    if product % 4294967296 >= shape.inverse {
        return None;
    }
    Some((product >> 32) as u32)
}

// The same of a word of the class's kind: one subtraction from the word of block 0 tells its kind and its granule.
pub fn block_in(shape: Shape, q: u32, base: u64, span: u32, w: u64) -> Option<u32>
    requires { Near shape q base span }
    ensures { result ≡ block_in shape q w }
{
    let x = behind(w, base);
    if x >= span as u64 {
        return None;
    }
    let product = x * shape.inverse;
    if product % 4294967296 >= shape.inverse {
        return None;
    }
    Some((product >> 32) as u32)
}

// The first page of the class's run that has the word's granule.
pub fn run_of(meta: &[u32], n: u32, c: u32, shape: Shape, w: u64) -> Option<u32>
    requires { ClassPre n meta.now c shape }
    ensures { result ≡ run_at n meta.now shape c w }
{
    let page = page_at(w);
    if page >= n as u64 {
        return None;
    }
    let p = page as u32;
    if p >= ArenaField::Frontier.get(meta) {
        return None;
    }
    let q = PageField::First.get(meta, p);
    if q > p {
        return None;
    }
    if p - q >= shape.pages {
        return None;
    }
    if whole(meta, n, c, shape, q) {
        Some(q)
    } else {
        None
    }
}

// The block that a word is, if it is out in the class.
pub fn find_out(meta: &[u32], n: u32, c: u32, shape: Shape, w: u64) -> Option<Place>
    requires { ClassPre n meta.now c shape }
    ensures { result ≡ find_out n meta.now c shape w }
{
    let run = run_of(meta, n, c, shape, w)?;
    let index = block_at(shape, run, w)?;
    if fields::out::bit(meta, run, index) != 1 {
        return None;
    }
    Some(Place { run, index })
}
