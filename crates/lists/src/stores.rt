// A class's stores of pages with no block out: stacks of pages, linked by NEXT.
ghost use Rattle.std.specs.Prelude.{◌≡◌};
ghost use Rattle.fields.specs.Field.{class, get, put};
ghost use Rattle.fields.specs.way.Names.{class_name};
ghost use Rattle.pages.specs.Links.{top, stored, park_run, unpark_run};
ghost use Rattle.pages.specs.way.Pre.{RowPre, ParkPre, UnparkRunPre};

use crate::links::link_partial;
use fields::class::ClassField;
use fields::page::PageField;
use pages::Park;

// The word of a class's row that has the code of the newest page.
fn top_of(park: Park) -> ClassField
    ensures { class_name result ≡ top park }
{
    match park {
        Park::Empty => ClassField::Empty,
        Park::Cold => ClassField::Cold,
    }
}

// The word that has how many pages the store has.
fn count_of(park: Park) -> ClassField
    ensures { class_name result ≡ stored park }
{
    match park {
        Park::Empty => ClassField::EmptyCount,
        Park::Cold => ClassField::ColdCount,
    }
}

// The code of the newest page.
pub fn store_top(meta: &[u32], c: u32, park: Park) -> u32
    requires { RowPre meta.now c }
    ensures { result ≡ get meta.now (class (top park) c) }
{
    top_of(park).get(meta, c)
}

// How many pages it has.
pub fn store_count(meta: &[u32], c: u32, park: Park) -> u32
    requires { RowPre meta.now c }
    ensures { result ≡ get meta.now (class (stored park) c) }
{
    count_of(park).get(meta, c)
}

fn set_store_top(meta: &mut [u32], c: u32, park: Park, v: u32)
    requires { RowPre meta.old c }
    ensures { meta.new ≡ put meta.old (class (top park) c) v }
{
    top_of(park).set(meta, c, v);
}

fn set_store_count(meta: &mut [u32], c: u32, park: Park, v: u32)
    requires { RowPre meta.old c }
    ensures { meta.new ≡ put meta.old (class (stored park) c) v }
{
    count_of(park).set(meta, c, v);
}

pub fn park_run(meta: &mut [u32], c: u32, park: Park, q: u32)
    requires { ParkPre meta.old c park q }
    ensures { meta.new ≡ park_run meta.old c park q }
{
    let head = store_top(meta, c, park);
    let count = store_count(meta, c, park);
    PageField::Next.set(meta, q, head);
    set_store_top(meta, c, park, q + 1);
    set_store_count(meta, c, park, count + 1);
}

// The newest page, q, leaves its store, and heads the partial list.
pub fn unpark_run(meta: &mut [u32], c: u32, park: Park, q: u32)
    requires { UnparkRunPre meta.old c park q }
    ensures { meta.new ≡ unpark_run meta.old c park q }
{
    let next = PageField::Next.get(meta, q);
    let count = store_count(meta, c, park);
    set_store_top(meta, c, park, next);
    set_store_count(meta, c, park, count - 1);
    link_partial(meta, c, q);
}
