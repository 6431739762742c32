// Number 13 for a group release: the chunks' pages, the row, and the arena where runs go to it.
ghost use Rattle.std.specs.Prelude.{◌≡◌, ◌^◌, ◌<◌};
ghost use Rattle.facts.specs.Lists.{every};
ghost use Rattle.calls.specs.Chunks.{returns_all, runs_given, pages_given, chunks_valid};
ghost use Rattle.pages.specs.way.Pre.{PagePre};
ghost use Rattle.words.specs.Word.{page_of};
ghost use Rattle.chunks.specs.way.GivePre.{gives_valid};
ghost use Rattle.chunks.specs.way.ValidPre.{chunk_valid, with_destination, counted, PagesPre, ReturnsPre, WithDestinationPre, CountPre, RunsPre, PagesGivenPre, ChunksValidPre};

use classes::Shape;
use fields::class::ClassField;
use fields::page::PageField;
use model::Destination;
use pages::chunk_page;
use rules::Limits;
use words::Word;

// The counts of the two stores, and of the runs for the arena, as the chunks are gone through.
#[derive(Clone, Copy)]
pub struct Stores {
    pub empties: u32,
    pub colds: u32,
    pub runs: u32,
}

fn chunk_valid(meta: &[u32], shape: Shape, chunk: u64) -> bool
    requires page_pre { PagePre meta.now (page_of chunk) }
    requires chunk_bound { page_of chunk < 2 ^ 32 }
    ensures { result ≡ chunk_valid meta.now shape chunk }
{
    let count = Word::of(chunk).count();
    release::page_valid(meta, shape, count as usize, chunk_page(chunk))
}

fn pages_valid(meta: &[u32], n: u32, shape: Shape, chunks: &[u64]) -> bool
    requires { PagesPre n meta.now chunks.now }
    ensures { result ≡ every (chunk_valid meta.now shape) chunks.now }
{
    chunks.iter().all(|chunk| chunk_valid(meta, shape, *chunk))
}

// The chunk returns all blocks that its page has out.
fn returns_all(meta: &[u32], chunk: u64) -> bool
    requires { ReturnsPre meta.now chunk }
    ensures { result ≡ returns_all meta.now chunk }
{
    let q = chunk_page(chunk);
    let out = PageField::Carved.get(meta, q) - PageField::Free.get(meta, q);
    out == Word::of(chunk).count()
}

impl Stores {
    // One page more at a destination.
    fn with(mut self, destination: Destination) -> Stores
        requires { WithDestinationPre self }
        ensures { result ≡ with_destination self destination }
    {
        match destination {
            Destination::ToEmpty => self.empties += 1,
            Destination::ToCold => self.colds += 1,
            Destination::ToArena => self.runs += 1,
        }
        self
    }
}

fn count_chunk(meta: &[u32], shape: Shape, limits: Limits, chunk: u64, s: Stores) -> Stores
    requires { CountPre meta.now shape chunk s }
    ensures { result ≡ counted meta.now shape limits chunk s }
{
    if returns_all(meta, chunk) {
        return s.with(release::destination_of(shape, limits, s.empties, s.colds));
    }
    s
}

// How many runs go to the arena, with so many empty and cold pages before.
fn runs_given(
    meta: &[u32],
    n: u32,
    shape: Shape,
    limits: Limits,
    chunks: &[u64],
    empties: u32,
    colds: u32,
) -> u32
    requires { RunsPre n meta.now shape limits chunks.now empties colds }
    ensures { result ≡ runs_given meta.now shape limits chunks.now empties colds }
{
    let mut s = Stores {
        empties,
        colds,
        runs: 0,
    };
    for chunk in chunks {
        s = count_chunk(meta, shape, limits, *chunk, s);
    }
    s.runs
}

// The words that giving those runs reads, if there are any.
fn gives_valid(meta: &[u32], n: u32, c: u32, shape: Shape, chunks: &[u64]) -> bool
    requires { PagesGivenPre n meta.now c shape chunks.now }
    ensures { result ≡ gives_valid n meta.now (pages_given meta.now c shape chunks.now) }
{
    let empties = ClassField::EmptyCount.get(meta, c);
    let colds = ClassField::ColdCount.get(meta, c);
    let limits = release::limits_at(meta, c);
    let given = runs_given(meta, n, shape, limits, chunks, empties, colds) * shape.pages;
    given == 0 || runs::give::give_valid(meta, n, given)
}

pub fn chunks_valid(meta: &[u32], n: u32, c: u32, shape: Shape, chunks: &[u64]) -> bool
    requires { ChunksValidPre n meta.now c shape chunks.now }
    ensures { result ≡ chunks_valid n meta.now c shape chunks.now }
{
    fields::fault::head_valid(meta, n)
        && pages_valid(meta, n, shape, chunks)
        && release::row_valid(meta, c)
        && gives_valid(meta, n, c, shape, chunks)
}
