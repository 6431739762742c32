// The listed blocks counted by chunk, and the counts held against the chunks'. A chunk is found by TALLY of its page.
ghost use Rattle.std.specs.Prelude.{◌≡◌, ◌≤◌, true, false, length, MatchOption};
ghost use Rattle.facts.specs.Lists.{every, below};
ghost use Rattle.fields.specs.Field.{words};
ghost use Rattle.model.specs.Chunks.{chunks_max};
ghost use Rattle.chunks.specs.way.Tally.{named_by, of_chunk, run_on, fits, tallied};
ghost use Rattle.chunks.specs.way.TallyPre.{CountPre, Counted, OnePre, FitPre};

use fields::page::PageField;
use pages::{chunk_page, page_at};
use words::Word;

// The place of the chunk that has page p: the one that the page names, if it has the page. A page past the arena names none.
fn chunk_of(meta: &[u32], n: u32, chunks: &[u64], p: u64) -> Option<usize>
    requires long { words n ≤ length meta.now }
    requires few { length chunks.now ≤ chunks_max }
    ensures { MatchOption result (of_chunk chunks.now (named_by n meta.now p) p ≡ false) (λ i. (i ≡ named_by n meta.now p) × (of_chunk chunks.now i p ≡ true)) }
{
    if p >= u64::from(n) {
        return None;
    }
    let i = PageField::Tally.get(meta, p as u32) as usize;
    if i < chunks.len() && Word::of(chunks[i]).page() == p {
        Some(i)
    } else {
        None
    }
}

// How many words at the list's head lie on page p.
fn run_on(list: &[u64], p: u64) -> usize
    ensures run { result ≡ run_on p list.now }
    ensures within { result ≤ length list.now }
{
    list.iter().take_while(|w| page_at(**w) == p).count()
}

// How many listed blocks each chunk's page has; false if a block's page has no chunk. Blocks of one page mostly stand together, and
// are looked up once.
pub fn count_blocks(
    meta: &[u32],
    n: u32,
    list: &[u64],
    chunks: &[u64],
    counts: &mut [usize],
) -> bool
    requires { CountPre n meta.now chunks.now counts.old }
    ensures { Counted result counts.new n meta.now list.now chunks.now }
{
    let mut rest = list;
    while let Some((w, later)) = rest.split_first() {
        let p = page_at(*w);
        let Some(i) = chunk_of(meta, n, chunks, p) else {
            return false;
        };
        let run = run_on(later, p);
        counts[i] += 1 + run;
        rest = &later[run..];
    }
    true
}

// Whether chunk i's count is not 0 and is the list's, and its page names it.
fn chunk_fits(meta: &[u32], chunks: &[u64], counts: &[usize], i: usize) -> bool
    requires { OnePre meta.now chunks.now counts.now i }
    ensures { result ≡ fits meta.now chunks.now counts.now i }
{
    let chunk = chunks[i];
    let count = Word::of(chunk).count() as usize;
    count != 0 && count == counts[i] && PageField::Tally.get(meta, chunk_page(chunk)) as usize == i
}

pub fn counts_fit(meta: &[u32], chunks: &[u64], counts: &[usize]) -> bool
    requires { FitPre meta.now chunks.now counts.now }
    ensures { result ≡ every (fits meta.now chunks.now counts.now) (below (length chunks.now)) }
{
    for i in 0..chunks.len() {
        if !chunk_fits(meta, chunks, counts, i) {
            return false;
        }
    }
    true
}

// Both, once the chunks are named.
pub fn tallies_agree(
    meta: &[u32],
    n: u32,
    list: &[u64],
    chunks: &[u64],
    counts: &mut [usize],
) -> bool
    requires count_pre { CountPre n meta.now chunks.now counts.old }
    requires fit_pre { FitPre meta.now chunks.now counts.old }
    ensures { result ≡ tallied n meta.now list.now chunks.now }
{
    count_blocks(meta, n, list, chunks, counts) && counts_fit(meta, chunks, counts)
}
