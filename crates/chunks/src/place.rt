// Where the chunks' pages go once their blocks are back, in the chunks' order.
ghost use Rattle.std.specs.Prelude.{◌≡◌};
ghost use Rattle.calls.specs.Release.{emptied};
ghost use Rattle.pages.specs.way.Pre.{PagePre};
ghost use Rattle.release.specs.way.Act.{ParkingPre, Parked};
ghost use Rattle.chunks.specs.way.Pass.{place_at};
ghost use Rattle.chunks.specs.way.PlacePre.{PlacePre, Placed};

use classes::Shape;
use fields::page::PageField;
use pages::chunk_page;
use release::{Fate, park_empty_page, relist};

// A retired page is carved anew when it is used again.
fn retire(meta: &mut [u32], q: u32)
    requires { PagePre meta.old q }
    ensures { meta.new ≡ emptied meta.old q }
{
    PageField::Carved.set(meta, q, 0);
    PageField::Free.set(meta, q, 0);
}

// A page with none out is retired and parked, which its fate tells; one with some out is a partial page.
pub fn place_chunk(meta: &mut [u32], c: u32, shape: Shape, host: u32, q: u32) -> u32
    requires { ParkingPre meta.old c shape q }
    ensures { Parked result meta.new (place_at meta.old c shape host q) }
{
    PageField::Virgin.set(meta, q, 0);
    if PageField::Carved.get(meta, q) == PageField::Free.get(meta, q) {
        retire(meta, q);
        return park_empty_page(meta, c, shape, host, q).retired();
    }
    relist(meta, c, q);
    Fate::Kept.number()
}

// The chunks' pages in their order; each one's fate stands at its chunk's place.
pub fn place_chunks(
    meta: &mut [u32],
    c: u32,
    shape: Shape,
    host: u32,
    chunks: &[u64],
    fates: &mut [u32],
)
    requires { PlacePre meta.old c shape chunks.now fates.old }
    ensures { Placed meta.new fates.new meta.old c shape host chunks.now fates.old }
{
    for (i, chunk) in chunks.iter().enumerate() {
        fates[i] = place_chunk(meta, c, shape, host, chunk_page(*chunk));
    }
}
