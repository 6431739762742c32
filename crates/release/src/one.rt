// A release of one block that leaves others of its run out, which is most releases of one: without marks and without a list. Where there is a doubt the
// book is as it was.
ghost use Rattle.std.specs.Prelude.{◌≡◌, ◌/◌, [], ◌∷◌};
ghost use Rattle.classes.specs.Shape.{shape_of};
ghost use Rattle.fields.specs.Field.{mark, Has};
ghost use Rattle.pages.specs.Stack.{back};
ghost use Rattle.calls.specs.Release.{relisted};
ghost use Rattle.release.specs.way.Act.{RunPre};
ghost use Rattle.release.specs.way.Pre.{ClassPre};
ghost use Rattle.release.specs.way.Valid.{ValidPre};
ghost use Rattle.release.specs.way.One.{ready_at, stays_valid, PutPre, BackPre, BackOne, OneIn, OneBack};

use super::blocks::{block_in, run_of};
use super::park::relist;
use super::valid::{page_valid, row_valid};
use classes::{Shape, shape_of};
use fields::page::PageField;
use lists::{push_one, word_of};

// Block i of the run at q is out, and its word of marks is 0.
fn is_ready(meta: &[u32], q: u32, i: u32) -> bool
    requires { Has meta.now (mark q (i / 32)) }
    ensures { result ≡ ready_at meta.now q i }
{
    if fields::out::bit(meta, q, i) != 1 {
        return false;
    }
    fields::marks::word(meta, q, i / 32) == 0
}

// Number 13's last test passes for one block of the run at q, and others stay out.
fn stays_valid(meta: &[u32], n: u32, c: u32, shape: Shape, q: u32) -> bool
    requires { ValidPre meta.now c shape q }
    ensures { result ≡ stays_valid n meta.now c shape q }
{
    if !fields::fault::head_valid(meta, n) {
        return false;
    }
    if page_valid(meta, shape, 1, q) {
        if row_valid(meta, c) {
            return PageField::Carved.get(meta, q) - PageField::Free.get(meta, q) != 1;
        }
    }
    false
}

// Block i is out no longer and lies on its page's stack, and the page is in the partial list.
fn put_back(meta: &mut [u32], c: u32, q: u32, i: u32)
    requires { PutPre meta.old c q i }
    ensures { meta.new ≡ relisted (back meta.old q (i ∷ [])) c q }
{
    fields::out::clear_out(meta, q, i);
    push_one(meta, q, i);
    relist(meta, c, q);
}

fn back_one(meta: &mut [u32], n: u32, c: u32, shape: Shape, q: u32, i: u32) -> bool
    requires { BackPre n meta.old c shape q i }
    ensures { BackOne result meta.new n meta.old c shape q i }
{
    if is_ready(meta, q, i) {
        if stays_valid(meta, n, c, shape, q) {
            put_back(meta, c, q, i);
            return true;
        }
    }
    false
}

// Of a word whose granule is in the run at q.
fn one_in(meta: &mut [u32], n: u32, c: u32, shape: Shape, q: u32, w: u64) -> bool
    requires { RunPre n meta.old c shape q (w ∷ []) }
    ensures { OneIn result meta.new n meta.old c shape q w }
{
    let base = word_of(shape, q, 0);
    let span = shape.capacity * shape.block;
    let Some(i) = block_in(shape, q, base, span, w) else {
        return false;
    };
    back_one(meta, n, c, shape, q, i)
}

// True: the release is carried out, and its fate is Kept. False: the book is as it was.
pub fn release_one(meta: &mut [u32], n: u32, c: u32, w: u64) -> bool
    requires { ClassPre n meta.old c (shape_of c) }
    ensures { OneBack result meta.new n meta.old c (shape_of c) w }
{
    let shape = shape_of(c);
    let Some(q) = run_of(meta, n, c, shape, w) else {
        return false;
    };
    one_in(meta, n, c, shape, q, w)
}
