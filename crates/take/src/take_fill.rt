// The fill of a take: blocks from the partial list's head on, written from the last place down, so that the latest stands first.
ghost use Rattle.std.specs.Prelude.{◌≡◌};
ghost use Rattle.pages.specs.way.Pre.{UnlinkPre};
ghost use Rattle.calls.specs.Take.{unlist_spent};
ghost use Rattle.take.specs.way.TakePlan.{fills, TurnPre, GaveTurn, FillPre, Filling};

use classes::Shape;
use fields::class::ClassField;

// A page that gave its last block leaves the list.
fn unlist_spent(meta: &mut [u32], c: u32, shape: Shape, q: u32)
    requires { UnlinkPre meta.old c q }
    ensures { meta.new ≡ unlist_spent meta.old c shape q }
{
    if !lists::has_more(meta, shape, q) {
        lists::unlink_partial(meta, c, q);
    }
}

// Up to m blocks of the head page, to the list's places below `at`; how many.
fn fill_page(meta: &mut [u32], c: u32, shape: Shape, list: &mut [u64], at: u32, m: u32) -> u32
    requires { TurnPre meta.old c shape list.old at m }
    ensures { GaveTurn result meta.new list.new meta.old c shape list.old at m }
{
    let q = ClassField::Partial.get(meta, c) - 1;
    let j = lists::draw_blocks(meta, shape, q, list, at, m);
    unlist_spent(meta, c, shape, q);
    j
}

// The list's first `count` places, where the partial list gives just that many. No `for`: each page gives as many as it has.
pub fn fill_from_list(meta: &mut [u32], c: u32, shape: Shape, list: &mut [u64], count: u32)
    requires { FillPre meta.old c shape list.old count }
    ensures { Filling meta.new list.new (fills meta.old c shape) list.old }
{
    let mut at = count;
    let mut m = shape.batch;
    while at != 0 {
        let j = fill_page(meta, c, shape, list, at, m);
        at -= j;
        m -= j;
    }
}
