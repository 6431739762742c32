// The numbers of a list's blocks that are out in the class, or not, in any of its runs: 13 for a mark, 15 and 10, each over the whole list.
ghost use Rattle.std.specs.Prelude.{◌≡◌};
ghost use Rattle.facts.specs.Lists.{every};
ghost use Rattle.words.specs.Refusal.{code_of};
ghost use Rattle.calls.specs.Out.{out_at, unmarked};
ghost use Rattle.release.specs.way.Pre.{ClassPre};
ghost use Rattle.release.specs.way.Marks.{clean_at, clear_book};
ghost use Rattle.release.specs.way.MarkPre.{MarkedList, FaultPre, TestPre, Tested, Faulted};

use super::blocks::find_out;
use super::marks::mark_block;
use classes::Shape;
use words::refusal::Refusal;

// The word of marks of a block that is out is 0.
fn is_clean(meta: &[u32], n: u32, c: u32, shape: Shape, w: u64) -> bool
    requires { ClassPre n meta.now c shape }
    ensures { result ≡ clean_at n meta.now c shape w }
{
    match find_out(meta, n, c, shape, w) {
        Some(place) => fields::marks::word(meta, place.run, place.index / 32) == 0,
        None => true,
    }
}

// Number 13: so it is with every listed block that is out.
fn list_clean(meta: &[u32], n: u32, c: u32, shape: Shape, list: &[u64]) -> bool
    requires { ClassPre n meta.now c shape }
    ensures { result ≡ unmarked n meta.now c shape list.now }
{
    list.iter().all(|w| is_clean(meta, n, c, shape, *w))
}

// The blocks that are out are marked, up to the first that is marked already: its place.
fn mark_list(meta: &mut [u32], n: u32, c: u32, shape: Shape, list: &[u64]) -> usize
    requires { ClassPre n meta.old c shape }
    ensures { MarkedList result meta.new n meta.old c shape list.now }
{
    for (i, w) in list.iter().enumerate() {
        let Some(place) = find_out(meta, n, c, shape, *w) else {
            continue;
        };
        if !mark_block(meta, place.run, place.index) {
            return i;
        }
    }
    list.len()
}

// And back: the word of marks of each listed block that is out becomes 0.
fn clear_list(meta: &mut [u32], n: u32, c: u32, shape: Shape, list: &[u64])
    requires { ClassPre n meta.old c shape }
    ensures { meta.new ≡ clear_book n meta.old c shape list.now }
{
    for w in list {
        let Some(place) = find_out(meta, n, c, shape, *w) else {
            continue;
        };
        fields::marks::set_word(meta, place.run, place.index / 32, 0);
    }
}

// Number 15, where the words of marks of the listed blocks that are out are 0: one of these blocks stands twice. The book is as it was.
fn list_repeats(meta: &mut [u32], n: u32, c: u32, shape: Shape, list: &[u64]) -> bool
    requires { TestPre n meta.old c shape list.now }
    ensures { Tested result meta.new n meta.old c shape list.now }
{
    let count = mark_list(meta, n, c, shape, list);
    clear_list(meta, n, c, shape, &list[..count]);
    count != list.len()
}

// Number 10: every listed block is out in the class.
fn list_out(meta: &[u32], n: u32, c: u32, shape: Shape, list: &[u64]) -> bool
    requires { ClassPre n meta.now c shape }
    ensures { result ≡ every (out_at n meta.now c shape) list.now }
{
    list.iter()
        .all(|w| find_out(meta, n, c, shape, *w).is_some())
}

// The three in their order. The book is as it was.
pub fn out_fault(
    meta: &mut [u32],
    n: u32,
    c: u32,
    shape: Shape,
    list: &[u64],
) -> Result<(), Refusal>
    requires { FaultPre n meta.old c shape list.now }
    ensures { Faulted (code_of result) meta.new n meta.old c shape list.now }
{
    if !list_clean(meta, n, c, shape, list) {
        return Err(Refusal::BookWord);
    }
    if list_repeats(meta, n, c, shape, list) {
        return Err(Refusal::Repeated);
    }
    if !list_out(meta, n, c, shape, list) {
        return Err(Refusal::NotOut);
    }
    Ok(())
}
