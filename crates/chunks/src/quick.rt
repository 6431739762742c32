// The taking of a group release's blocks in as few passes as there can be. Where there is a doubt the book is as it was.
ghost use Rattle.chunks.specs.way.MarkPre.{TryPre, SetPre, Tried};

use super::marks::{clear_pages, mark_words, pages_clean, take_pages};
use super::matching::chunks_match;
use super::valid::chunks_valid;
use classes::Shape;
use release::marks_of;

// The chunks' pages have no mark set. The listed blocks are marked; then they are taken, or else the marks are cleared.
fn mark_and_take(
    meta: &mut [u32],
    n: u32,
    c: u32,
    shape: Shape,
    m: u32,
    list: &[u64],
    chunks: &[u64],
) -> bool
    requires { SetPre n meta.old c shape m list.now chunks.now }
    ensures { Tried result meta.new n meta.old c shape list.now chunks.now }
{
    let count = mark_words(meta, n, shape, list);
    let passed = count == list.len() && chunks_valid(meta, n, c, shape, chunks);
    if passed {
        take_pages(meta, n, m, chunks);
    } else {
        clear_pages(meta, n, m, chunks);
    }
    passed
}

// The chunks are to be the list's, and each one's page a run of the class with no mark set.
pub fn try_take(
    meta: &mut [u32],
    n: u32,
    c: u32,
    shape: Shape,
    list: &[u64],
    chunks: &[u64],
) -> bool
    requires { TryPre n meta.old c shape chunks.now }
    ensures { Tried result meta.new n meta.old c shape list.now chunks.now }
{
    if !chunks_match(meta, n, list, chunks) {
        return false;
    }
    let m = marks_of(shape);
    pages_clean(meta, n, c, shape, m, chunks) && mark_and_take(meta, n, c, shape, m, list, chunks)
}
