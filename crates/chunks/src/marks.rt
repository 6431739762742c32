// The listed blocks marked, each on the page that has its granule, and the marks of the chunks' pages taken or cleared.
ghost use Rattle.std.specs.Prelude.{true, ◌≡◌};
ghost use Rattle.facts.specs.Lists.{every};
ghost use Rattle.chunks.specs.way.Match.{is_page};
ghost use Rattle.chunks.specs.way.Marks.{page_clean, take_pages, clear_pages};
ghost use Rattle.chunks.specs.way.MarkPre.{OwnPre, OwnMarked, SweepPre, CleanPre};

use classes::Shape;
use pages::{chunk_page, page_within};
use release::{clear_marks, mark_run, no_marks, take_marks};

// Whether a chunk's page is a run of the class, and its first m words of marks are 0.
fn page_clean(meta: &[u32], n: u32, c: u32, shape: Shape, m: u32, chunk: u64) -> bool
    requires clean_pre { CleanPre n meta.now c shape m }
    requires chunk_value { is_page n chunk ≡ true }
    ensures { result ≡ page_clean n meta.now c shape m chunk }
{
    let q = chunk_page(chunk);
    lists::whole(meta, n, c, shape, q) && no_marks(meta, q, m)
}

pub fn pages_clean(meta: &[u32], n: u32, c: u32, shape: Shape, m: u32, chunks: &[u64]) -> bool
    requires clean_pre { CleanPre n meta.now c shape m }
    requires chunks_value { every (is_page n) chunks.now ≡ true }
    ensures { result ≡ every (page_clean n meta.now c shape m) chunks.now }
{
    chunks
        .iter()
        .all(|chunk| page_clean(meta, n, c, shape, m, *chunk))
}

// The listed words are marked, up to the first that is not out on its page or is marked: its place. Neighbours on one page go together,
// so that the place moves by many words at a time.
pub fn mark_words(meta: &mut [u32], n: u32, shape: Shape, list: &[u64]) -> usize
    requires { OwnPre n meta.old shape list.now }
    ensures { OwnMarked result meta.new meta.old shape list.now }
{
    let mut i = 0;
    while i < list.len() {
        let next = mark_run(meta, shape, page_within(list[i]), list, i);
        if next == i {
            return i;
        }
        i = next;
    }
    i
}

// On every chunk's page the marked blocks are out no longer, and the marks become 0.
pub fn take_pages(meta: &mut [u32], n: u32, m: u32, chunks: &[u64])
    requires { SweepPre n meta.old m chunks.now }
    ensures { meta.new ≡ take_pages meta.old m chunks.now }
{
    for chunk in chunks {
        take_marks(meta, chunk_page(*chunk), m);
    }
}

// The marks become 0. One loop for both, with the step as a closure, would say what each call asks and leaves: longer than the two.
pub fn clear_pages(meta: &mut [u32], n: u32, m: u32, chunks: &[u64])
    requires { SweepPre n meta.old m chunks.now }
    ensures { meta.new ≡ clear_pages meta.old m chunks.now }
{
    for chunk in chunks {
        clear_marks(meta, chunk_page(*chunk), m);
    }
}
