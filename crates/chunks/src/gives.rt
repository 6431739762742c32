// The runs that leave the class go to the arena.
ghost use Rattle.std.specs.Prelude.{◌≡◌};
ghost use Rattle.words.specs.Word.{page_of};
ghost use Rattle.calls.specs.Chunks.{gives_of, give_runs};
ghost use Rattle.chunks.specs.way.Pass.{gives_in};
ghost use Rattle.chunks.specs.way.GivePre.{GiveChunkPre, GiveChunksPre};

use classes::Shape;
use pages::chunk_page;
use release::Fate;

// The chunk's page, if its fate is the arena.
fn give_chunk(meta: &mut [u32], n: u32, pages: u32, chunk: u64, fate: u32)
    requires { GiveChunkPre n meta.old pages chunk fate }
    ensures { meta.new ≡ give_runs meta.old pages (gives_of (page_of chunk) fate) }
{
    if fate == Fate::Arena.retired() {
        runs::give::give(meta, n, chunk_page(chunk), pages);
    }
}

pub fn give_chunks(meta: &mut [u32], n: u32, shape: Shape, chunks: &[u64], fates: &[u32])
    requires { GiveChunksPre n meta.old shape chunks.now fates.now }
    ensures { meta.new ≡ give_runs meta.old shape.pages (gives_in chunks.now fates.now) }
{
    for (chunk, fate) in chunks.iter().zip(fates) {
        give_chunk(meta, n, shape.pages, *chunk, *fate);
    }
}
