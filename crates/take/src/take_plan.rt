// The plan of a take: every test of number 13 over what the fill will read, and what the fill will give.
ghost use Rattle.std.specs.Prelude.{◌&&◌, ◌≡◌, ◌+◌, ◌<◌, ◌≤◌, eqb, length};
ghost use Rattle.fields.specs.Field.{page, virgin, words, get};
ghost use Rattle.pages.specs.Stack.{latest};
ghost use Rattle.pages.specs.way.Pre.{RowPre, PagePre};
ghost use Rattle.calls.specs.Take.{page_ready, sound, park_valid};
ghost use Rattle.take.specs.way.TakePlan.{TakePre, SupplyPre, share, walks_from, fills, Foretold, ParkedPre, first_store, unparked, SourcePre};
ghost use Rattle.take.specs.way.TakeAnswer.{Plans};

use crate::call::Taken;
use crate::top_entries::top_entries_below;
use classes::Shape;
use fields::arena::ArenaField;
use fields::class::ClassField;
use fields::page::PageField;
use pages::Park;
use words::refusal::Refusal;

// How many blocks a page gives when m are wanted.
fn supply(meta: &[u32], shape: Shape, q: u32, m: u32) -> u32
    requires { SupplyPre meta.now shape q }
    ensures { result ≡ length (latest meta.now shape q m) }
{
    let most = PageField::Free.get(meta, q) + (shape.capacity - PageField::Carved.get(meta, q));
    most.min(m)
}

// A page's own words are in their ranges, LISTED is l, and the page gives a block.
fn page_ready(meta: &[u32], shape: Shape, l: u32, q: u32) -> bool
    requires { PagePre meta.now q }
    ensures { result ≡ page_ready meta.now shape l q }
{
    lists::header_valid(meta, shape, 0, q)
        && PageField::Listed.get(meta, q) == l
        && lists::has_more(meta, shape, q)
}

// The run at q is the class's, in its ranges, and the m blocks wanted are on its stack or new.
fn page_sound(meta: &[u32], n: u32, c: u32, shape: Shape, l: u32, m: u32, q: u32) -> bool
    requires { TakePre n meta.now c shape }
    ensures { result ≡ sound n meta.now c shape l m q }
{
    lists::whole(meta, n, c, shape, q)
        && page_ready(meta, shape, l, q)
        && top_entries_below(
            meta,
            q,
            m,
            PageField::Free.get(meta, q),
            PageField::Carved.get(meta, q),
        )
}

// The blocks that the walk finds on the page with a code, after the one with code `prev`, where no test fails.
fn share(
    meta: &[u32],
    n: u32,
    c: u32,
    shape: Shape,
    m: u32,
    code: u32,
    prev: u32,
) -> Result<u32, Refusal>
    requires take_pre { TakePre n meta.now c shape }
    requires code_nonzero { 0 < code }
    ensures { result ≡ share n meta.now c shape m code prev }
{
    if code <= ArenaField::Frontier.get(meta)
        && PageField::Prev.get(meta, code - 1) == prev
        && page_sound(meta, n, c, shape, 1, m, code - 1)
    {
        return Ok(supply(meta, shape, code - 1, m));
    }
    Err(Refusal::BookWord)
}

fn still_virgin(meta: &[u32], q: u32, v: bool) -> bool
    requires { words (q + 1) ≤ length meta.now }
    ensures { result ≡ (v && eqb (get meta.now (page virgin q)) 1) }
{
    v && PageField::Virgin.get(meta, q) == 1
}

// What the partial list gives, from its head on, as far as the take goes. No `for`: the pages are a chain of codes in the book.
pub fn plan_partial(meta: &[u32], n: u32, c: u32, shape: Shape) -> Result<Taken, Refusal>
    requires { TakePre n meta.now c shape }
    ensures { Foretold result (walks_from n meta.now c shape) (fills meta.now c shape) }
{
    let mut code = ClassField::Partial.get(meta, c);
    let mut prev = 0;
    let mut left = shape.batch;
    let mut virgin = true;
    while left != 0 {
        if code == 0 {
            return Ok(Taken {
                count: shape.batch - left,
                virgin,
            });
        }
        left -= share(meta, n, c, shape, left, code, prev)?;
        virgin = still_virgin(meta, code - 1, virgin);
        prev = code;
        code = PageField::Next.get(meta, code - 1);
    }
    if code > ArenaField::Frontier.get(meta) {
        return Err(Refusal::BookWord);
    }
    Ok(Taken {
        count: shape.batch,
        virgin,
    })
}

// The newest page of a store is one that a take can use.
fn park_valid(meta: &[u32], n: u32, c: u32, shape: Shape, park: Park) -> bool
    requires { ParkedPre n meta.now c shape park }
    ensures { result ≡ park_valid n meta.now c shape park }
{
    let code = lists::store_top(meta, c, park);
    lists::store_valid(meta, c, park)
        && lists::store_count(meta, c, park) != 0
        && page_sound(meta, n, c, shape, 0, shape.batch, code - 1)
        && PageField::Next.get(meta, code - 1) <= ArenaField::Frontier.get(meta)
}

// What the newest page of a store gives, as the partial list's only one.
pub fn plan_parked(meta: &[u32], n: u32, c: u32, shape: Shape, park: Park) -> Result<Taken, Refusal>
    requires { ParkedPre n meta.now c shape park }
    ensures { Foretold result (park_valid n meta.now c shape park) (fills (unparked meta.now c park) c shape) }
{
    if !park_valid(meta, n, c, shape, park) {
        return Err(Refusal::BookWord);
    }
    let q = lists::store_top(meta, c, park) - 1;
    Ok(Taken {
        count: supply(meta, shape, q, shape.batch),
        virgin: PageField::Virgin.get(meta, q) == 1,
    })
}

// The store that a take turns to first.
pub fn first_store(meta: &[u32], c: u32) -> Park
    requires { RowPre meta.now c }
    ensures { result ≡ first_store meta.now c }
{
    if ClassField::Empty.get(meta, c) != 0 {
        return Park::Empty;
    }
    Park::Cold
}

// What the first source that has a page gives; with none the arena is to be asked.
pub fn plan_take(meta: &[u32], n: u32, c: u32, shape: Shape) -> Result<Option<Taken>, Refusal>
    requires { SourcePre n meta.now c shape }
    ensures { Plans result n meta.now c shape }
{
    if !fields::fault::head_valid(meta, n) {
        return Err(Refusal::BookWord);
    }
    if ClassField::Partial.get(meta, c) != 0 {
        return plan_partial(meta, n, c, shape).map(Some);
    }
    let park = first_store(meta, c);
    if lists::store_top(meta, c, park) == 0 {
        return Ok(None);
    }
    plan_parked(meta, n, c, shape, park).map(Some)
}
