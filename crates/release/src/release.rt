// A release by list: the numbers in their order, and then the act. A refusal leaves every word as it was.
ghost use Rattle.std.specs.Prelude.{◌≡◌, ◌≤◌, true, map, length, ◌==◌, nat_eq, nat_lt};
ghost use Rattle.facts.specs.Lists.{every};
ghost use Rattle.classes.specs.Shape.{shape_of};
ghost use Rattle.fields.specs.Field.{words};
ghost use Rattle.pages.specs.Stack.{set_outs, index_of, page_at};
ghost use Rattle.calls.specs.Out.{start_of};
ghost use Rattle.calls.specs.Release.{release_blocks};
ghost use Rattle.release.specs.way.Pre.{ClassPre, StartPre, TakePre};
ghost use Rattle.release.specs.way.MarkPre.{FieldPre, MarkedAll};
ghost use Rattle.release.specs.way.Told.{told};
ghost use Rattle.release.specs.way.Act.{taken_by, MarkedPre, PassedPre, ListPre, Answered, Attempted, Prepared, Finished};

use super::blocks::run_of;
use super::kinds::all_of_kind;
use super::marks::{clear_marks, mark_here, marks_of, no_marks, take_marks};
use super::one::release_one;
use super::park::settle;
use super::tests::out_fault;
use super::valid::release_valid;
use super::{Fate, Marked};
use classes::{Shape, shape_of};
use fields::page::PageField;
use lists::index_of;
use pages::page_within;
use words::refusal::Refusal;

// Whether a word's run begins at q; every listed word's.
fn starts_at(meta: &[u32], n: u32, q: u32, w: u64) -> bool
    requires n_in_bounds { words n ≤ length meta.now }
    requires n_value { nat_lt (page_at w) n ≡ true }
    ensures { result ≡ (start_of meta.now w == q) }
{
    PageField::First.get(meta, page_within(w)) == q
}

fn of_one_run(meta: &[u32], n: u32, q: u32, list: &[u64]) -> bool
    requires { StartPre n meta.now list.now }
    ensures { result ≡ every (λ w. nat_eq (start_of meta.now w) q) list.now }
{
    for w in list {
        if !starts_at(meta, n, q, *w) {
            return false;
        }
    }
    true
}

// The listed blocks of the run at q are out no longer.
fn take_list(meta: &mut [u32], shape: Shape, q: u32, list: &[u64])
    requires { TakePre meta.old shape q list.now }
    ensures { meta.new ≡ set_outs meta.old q 0 (map (index_of shape q) list.now) }
{
    for w in list.iter().rev() {
        fields::out::set_bit(meta, q, index_of(shape, q, *w), 0);
    }
}

// They are, by m words of marks, or by the list where they are not marked: a mark of another block of the run is to stay.
fn take_all(meta: &mut [u32], shape: Shape, q: u32, m: u32, list: &[u64])
    requires take_pre { TakePre meta.old shape q list.now }
    requires m_bound { m ≤ 128 }
    ensures { meta.new ≡ taken_by meta.old shape q m list.now }
{
    if m == 0 {
        take_list(meta, shape, q, list);
        return;
    }
    take_marks(meta, q, m);
}

// 13's last test, and the act; else the marks are cleared.
fn finish(
    meta: &mut [u32],
    n: u32,
    c: u32,
    shape: Shape,
    host: u32,
    marked: Marked,
    list: &[u64],
) -> Result<Fate, Refusal>
    requires { MarkedPre n meta.old c shape marked.run marked.marks list.now }
    ensures { Finished (told result) meta.new n meta.old c shape host marked.run marked.marks list.now }
{
    let q = marked.run;
    if !release_valid(meta, n, c, shape, list.len(), q) {
        clear_marks(meta, q, marked.marks);
        return Err(Refusal::BookWord);
    }
    take_all(meta, shape, q, marked.marks, list);
    Ok(settle(meta, n, c, shape, host, q, list))
}

// Number 11, of words that are out.
fn one_run(meta: &[u32], n: u32, c: u32, shape: Shape, list: &[u64]) -> Result<Marked, Refusal>
    requires { PassedPre n meta.now c shape list.now }
    ensures { Prepared result meta.now n meta.now c shape list.now }
{
    let q = PageField::First.get(meta, page_within(list[0]));
    if !of_one_run(meta, n, q, list) {
        return Err(Refusal::OtherPage);
    }
    Ok(Marked { run: q, marks: 0 })
}

// Each number over the whole list, from number 9 on.
fn test_list(
    meta: &mut [u32],
    n: u32,
    c: u32,
    shape: Shape,
    list: &[u64],
) -> Result<Marked, Refusal>
    requires { ListPre n meta.old c shape list.now }
    ensures { Prepared result meta.new n meta.old c shape list.now }
{
    if !all_of_kind(list, shape.kind) {
        return Err(Refusal::WrongKind);
    }
    out_fault(meta, n, c, shape, list)?;
    one_run(meta, n, c, shape, list)
}

// A list whose words are all blocks out in the run at q, which has no mark: they are marked. Else the book is as it was.
fn mark_all(meta: &mut [u32], shape: Shape, q: u32, list: &[u64]) -> bool
    requires { FieldPre meta.old shape q }
    ensures { MarkedAll result meta.new meta.old shape q list.now }
{
    let m = marks_of(shape);
    if !no_marks(meta, q, m) {
        return false;
    }
    if mark_here(meta, shape, q, list) == list.len() {
        return true;
    }
    clear_marks(meta, q, m);
    false
}

// In as few passes as there can be: the run of the first word, if all words are marked as its blocks. Else the book is as it was.
fn try_list(meta: &mut [u32], n: u32, c: u32, shape: Shape, list: &[u64]) -> Option<u32>
    requires { ListPre n meta.old c shape list.now }
    ensures { Attempted result meta.new n meta.old c shape list.now }
{
    let q = run_of(meta, n, c, shape, list[0])?;
    if mark_all(meta, shape, q, list) {
        Some(q)
    } else {
        None
    }
}

fn prepare(meta: &mut [u32], n: u32, c: u32, shape: Shape, list: &[u64]) -> Result<Marked, Refusal>
    requires { ListPre n meta.old c shape list.now }
    ensures { Prepared result meta.new n meta.old c shape list.now }
{
    match try_list(meta, n, c, shape, list) {
        Some(run) => Ok(Marked {
            run,
            marks: marks_of(shape),
        }),
        None => test_list(meta, n, c, shape, list),
    }
}

// From number 7 on.
fn release_shaped(
    meta: &mut [u32],
    n: u32,
    c: u32,
    shape: Shape,
    host: u32,
    list: &[u64],
) -> Result<Fate, Refusal>
    requires { ClassPre n meta.old c shape }
    ensures { Answered (told result) meta.new (release_blocks n meta.old c shape host list.now) }
{
    if list.is_empty() {
        return Err(Refusal::EmptyList);
    }
    let marked = prepare(meta, n, c, shape, list)?;
    finish(meta, n, c, shape, host, marked, list)
}

// The shape is made here: handed over it would go through memory (docs/BACKEND.md).
pub fn release_list(
    meta: &mut [u32],
    n: u32,
    c: u32,
    host: u32,
    list: &[u64],
) -> Result<Fate, Refusal>
    requires { ClassPre n meta.old c (shape_of c) }
    ensures { Answered (told result) meta.new (release_blocks n meta.old c (shape_of c) host list.now) }
{
    release_shaped(meta, n, c, shape_of(c), host, list)
}

// The same, at once where one block is listed and others of its run stay out.
pub fn release_blocks(
    meta: &mut [u32],
    n: u32,
    c: u32,
    host: u32,
    list: &[u64],
) -> Result<Fate, Refusal>
    requires { ClassPre n meta.old c (shape_of c) }
    ensures { Answered (told result) meta.new (release_blocks n meta.old c (shape_of c) host list.now) }
{
    if list.len() != 1 {
        return release_list(meta, n, c, host, list);
    }
    if release_one(meta, n, c, list[0]) {
        return Ok(Fate::Kept);
    }
    release_list(meta, n, c, host, list)
}
