// Number 13 on a page's words and on a class's stores: each is in its range.
ghost use Rattle.std.specs.Prelude.{◌≡◌};
ghost use Rattle.pages.specs.Valid.{header_valid, links_valid, store_valid};
ghost use Rattle.pages.specs.way.Pre.{PagePre, RowPre};

use crate::stores::{store_count, store_top};
use classes::Shape;
use fields::arena::ArenaField;
use fields::page::PageField;
use pages::Park;
use words::limits::MAX_PARKED;

// The own words of a page that has m blocks or more out.
pub fn header_valid(meta: &[u32], shape: Shape, m: usize, q: u32) -> bool
    requires { PagePre meta.now q }
    ensures { result ≡ header_valid meta.now shape m q }
{
    let carved = PageField::Carved.get(meta, q);
    let free = PageField::Free.get(meta, q);
    carved <= shape.capacity
        && free <= carved
        && m <= (carved - free) as usize
        && PageField::Virgin.get(meta, q) <= 1
}

// A page's links are read only where it is listed.
pub fn links_valid(meta: &[u32], q: u32) -> bool
    requires { PagePre meta.now q }
    ensures { result ≡ links_valid meta.now q }
{
    let frontier = ArenaField::Frontier.get(meta);
    PageField::Listed.get(meta, q) != 1
        || (PageField::Next.get(meta, q) <= frontier && PageField::Prev.get(meta, q) <= frontier)
}

pub fn store_valid(meta: &[u32], c: u32, park: Park) -> bool
    requires { RowPre meta.now c }
    ensures { result ≡ store_valid meta.now c park }
{
    store_top(meta, c, park) <= ArenaField::Frontier.get(meta)
        && store_count(meta, c, park) <= MAX_PARKED
}
