// A block's word and index, and whether a page has one to give.
ghost use Rattle.std.specs.Prelude.{◌≡◌, ◌+◌, ◌≤◌, length, true};
ghost use Rattle.fields.specs.Field.{words};
ghost use Rattle.model.specs.Page.{word_of};
ghost use Rattle.pages.specs.Stack.{has_more, index_of, is_block};
ghost use Rattle.pages.specs.way.Pre.{WordPre, IndexPre};

use classes::Shape;
use fields::page::PageField;
use words::Word;

// Granules of a page.
const PAGE_GRANULES: u64 = 4096;

// The word of block i of the run at q.
pub fn word_of(shape: Shape, q: u32, i: u32) -> u64
    requires { WordPre shape q i }
    ensures { result ≡ word_of shape q i }
{
    let word = Word::block(
        shape.kind,
        q as u64 * PAGE_GRANULES + (shape.header + i * shape.block) as u64,
    );
    word.bits
}

// The index of a word that is a block of the run at q: a run is less than 2^16 granules long, so that a product divides.
pub fn index_of(shape: Shape, q: u32, w: u64) -> u32
    requires index_pre { IndexPre shape q w }
    requires w_value { is_block shape q w ≡ true }
    ensures { result ≡ index_of shape q w }
{
    let start = q as u64 * PAGE_GRANULES + shape.header as u64;
    let word = Word::of(w);
    let x = word.granule() - start;
    ((x * shape.inverse) >> 32) as u32
}

pub fn has_more(meta: &[u32], shape: Shape, q: u32) -> bool
    requires { words (q + 1) ≤ length meta.now }
    ensures { result ≡ has_more meta.now shape q }
{
    PageField::Free.get(meta, q) != 0 || PageField::Carved.get(meta, q) < shape.capacity
}
