// TALLY of each chunk's page names the chunk by its index; what stood there is kept, and written back.
ghost use Rattle.std.specs.Prelude.{◌≡◌, length};
ghost use Rattle.facts.specs.Lists.{every};
ghost use Rattle.chunks.specs.way.Match.{is_page};
ghost use Rattle.chunks.specs.way.Tally.{unnamed};
ghost use Rattle.chunks.specs.way.TallyPre.{NamePre, Named};

use fields::page::PageField;
use pages::chunk_page;
use words::Word;

fn is_page(n: u32, g: u64) -> bool
    ensures { result ≡ is_page n g }
{
    Word::of(g).page() < u64::from(n)
}

// Whether every chunk's page is in the arena.
pub fn all_pages(n: u32, chunks: &[u64]) -> bool
    ensures { result ≡ every (is_page n) chunks.now }
{
    chunks.iter().all(|chunk| is_page(n, *chunk))
}

pub fn name_chunks(meta: &mut [u32], chunks: &[u64], saved: &mut [u32])
    requires { NamePre meta.old chunks.now saved.old }
    ensures { Named meta.new saved.new meta.old chunks.now }
{
    for (i, chunk) in chunks.iter().enumerate() {
        let p = chunk_page(*chunk);
        saved[i] = PageField::Tally.get(meta, p);
        PageField::Tally.set(meta, p, i as u32);
    }
}

// The last named first: a page that stands twice gets back what it had before the first.
pub fn unname_chunks(meta: &mut [u32], chunks: &[u64], saved: &[u32])
    requires { NamePre meta.old chunks.now saved.now }
    ensures { meta.new ≡ unnamed meta.old chunks.now saved.now (length chunks.now) }
{
    for i in (0..chunks.len()).rev() {
        PageField::Tally.set(meta, chunk_page(chunks[i]), saved[i]);
    }
}
