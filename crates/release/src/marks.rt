// The words of marks of one run (document 02, A.3). A list's blocks are marked until one is not out in the run or is marked already: up to 32 at once
// where they follow one another, as in a list that a take gave, else one by one. The marks are taken away 32 at once.
ghost use Rattle.std.specs.Prelude.{◌≡◌, ◌+◌, ◌-◌, ◌/◌, ◌<◌, ◌≤◌, min, false, length};
ghost use Rattle.classes.specs.way.Sound.{Sound};
ghost use Rattle.fields.specs.Field.{mark, Has};
ghost use Rattle.fields.specs.Clear.{clear_marks};
ghost use Rattle.pages.specs.Carve.{out_words};
ghost use Rattle.pages.specs.way.Pre.{ClearPre};
ghost use Rattle.release.specs.way.Marks.{no_marks, take_word, take_marks};
ghost use Rattle.release.specs.way.MarkPre.{step_of, room_of, lowest_of, FieldPre, Near, MarkedBits, MarkedBlock, MarkedOne, MarkedIn, MarkedTo, Stretched, Reaches, Alone};

use super::blocks::{behind, block_in};
use classes::Shape;
use lists::word_of;

// Whether the n blocks from 32 j + s on, whose bits are in one word, are out and not marked; they then are marked.
fn mark_bits(meta: &mut [u32], q: u32, j: u32, s: u32, n: u32) -> bool
    requires has { Has meta.old (mark q j) }
    requires s_bound { (s < 32) × (s + n ≤ 32) }
    ensures { MarkedBits result meta.new meta.old q j s n }
{
    let mask = fields::bits::set_ones(0, s, n);
    let outs = fields::out::bits(meta, q, j);
    if outs & mask != mask {
        return false;
    }
    let marks = fields::marks::word(meta, q, j);
    if marks & mask != 0 {
        return false;
    }
    fields::marks::set_word(meta, q, j, fields::bits::set_ones(marks, s, n));
    true
}

// The same of block i.
pub fn mark_block(meta: &mut [u32], q: u32, i: u32) -> bool
    requires { Has meta.old (mark q (i / 32)) }
    ensures { MarkedBlock result meta.new meta.old q i }
{
    mark_bits(meta, q, i / 32, i % 32, 1)
}

// And of a word's block in the run at q.
fn mark_one(meta: &mut [u32], shape: Shape, q: u32, base: u64, span: u32, w: u64) -> bool
    requires field_pre { FieldPre meta.old shape q }
    requires near { Near shape q base span }
    ensures { MarkedOne result meta.new meta.old shape q w }
{
    let Some(i) = block_in(shape, q, base, span, w) else {
        return false;
    };
    mark_block(meta, q, i)
}

// How many words are left from place i on, at most `most`.
fn words_left(list: &[u64], i: usize, most: usize) -> usize
    requires { i ≤ length list.now }
    ensures { result ≡ min most (length list.now - i) }
{
    most.min(list.len() - i)
}

// How many listed words from place i on, at most `room`, are each one step behind the one before.
fn stretch(list: &[u64], step: u64, i: usize, room: usize) -> usize
    requires i_in_bounds { i < length list.now }
    requires le_room { 1 ≤ room }
    ensures { Stretched result list.now step i room }
{
    let most = words_left(list, i, room);
    let mut want = std::num::wrapping_add_u64(list[i], step);
    let mut n = 1;
    while n < most {
        if list[i + n] != want {
            return n;
        }
        want = std::num::wrapping_add_u64(want, step);
        n += 1;
    }
    n
}

// How many of the run's blocks from block t on, upwards or downwards, have their bits in its word of marks.
fn room(shape: Shape, t: u32, up: bool) -> u32
    requires { t < shape.capacity }
    ensures { result ≡ room_of shape t up }
{
    if up {
        (32 - t % 32).min(shape.capacity - t)
    } else {
        t % 32 + 1
    }
}

// The lowest of n bits that follow one another, the first of which is bit s.
fn lowest(s: u32, n: u32, up: bool) -> u32
    requires s_bound { s < 32 }
    requires n_bound { up ≡ false → n ≤ s + 1 }
    ensures { result ≡ lowest_of s n up }
{
    if up { s } else { s + 1 - n }
}

// The blocks from place i on that follow one another by a step and lie in one word of marks are marked at once: the place behind them. Where one
// of them would stop the marking, none is marked: i.
fn mark_along(
    meta: &mut [u32],
    shape: Shape,
    q: u32,
    base: u64,
    span: u32,
    list: &[u64],
    i: usize,
    step: u64,
    up: bool,
) -> usize
    requires field_pre { FieldPre meta.old shape q }
    requires near { Near shape q base span }
    requires i_in_bounds { i < length list.now }
    requires step_value { step ≡ step_of shape up }
    ensures { Reaches result meta.new meta.old shape q list.now i }
{
    let Some(t) = block_in(shape, q, base, span, list[i]) else {
        return i;
    };
    let n = stretch(list, step, i, room(shape, t, up) as usize);
    if mark_bits(meta, q, t / 32, lowest(t % 32, n as u32, up), n as u32) {
        return i + n;
    }
    i
}

// The same upwards or downwards, as the next word tells; i where it is a neighbour in neither.
fn mark_stretch(
    meta: &mut [u32],
    shape: Shape,
    q: u32,
    base: u64,
    span: u32,
    list: &[u64],
    i: usize,
) -> usize
    requires field_pre { FieldPre meta.old shape q }
    requires near { Near shape q base span }
    requires i_in_bounds { i < length list.now }
    ensures { Reaches result meta.new meta.old shape q list.now i }
{
    if i + 1 < list.len() {
        let step = std::num::wrapping_sub_u64(list[i + 1], list[i]);
        let up = step == shape.block as u64;
        let down = std::num::wrapping_add_u64(step, shape.block as u64) == 0;
        if up | down {
            return mark_along(meta, shape, q, base, span, list, i, step, up);
        }
    }
    i
}

// The words from place `from` on, below `end`, are marked one by one, up to the first that stops the marking: its place.
fn mark_few(
    meta: &mut [u32],
    shape: Shape,
    q: u32,
    base: u64,
    span: u32,
    list: &[u64],
    from: usize,
    end: usize,
) -> usize
    requires field_pre { FieldPre meta.old shape q }
    requires near { Near shape q base span }
    requires from_le_end { (from ≤ end) × (end ≤ length list.now) }
    ensures { MarkedTo result meta.new meta.old shape q list.now from end }
{
    let mut i = from;
    while i < end {
        if mark_one(meta, shape, q, base, span, list[i]) {
            i += 1;
        } else {
            return i;
        }
    }
    i
}

// So many words go one by one before a stretch is looked for again: the look costs most of what it costs to mark a block.
const FEW: usize = 16;

// The words from place `from` on: stretches at once, others FEW at a time; the place of the first that stops the marking.
fn mark_by(
    meta: &mut [u32],
    shape: Shape,
    q: u32,
    base: u64,
    span: u32,
    list: &[u64],
    from: usize,
) -> usize
    requires field_pre { FieldPre meta.old shape q }
    requires near { Near shape q base span }
    requires from_in_bounds { from ≤ length list.now }
    ensures { MarkedIn result meta.new meta.old shape q list.now from }
{
    let mut i = from;
    while i < list.len() {
        let next = mark_stretch(meta, shape, q, base, span, list, i);
        if next == i {
            let end = i + words_left(list, i, FEW);
            let stop = mark_few(meta, shape, q, base, span, list, i, end);
            if stop != end {
                return stop;
            }
            i = end;
        } else {
            i = next;
        }
    }
    i
}

// Whether the word behind place i lies outside the run's blocks, or there is none: so it is with most words of a mixed list of many runs.
fn alone(shape: Shape, q: u32, base: u64, span: u32, list: &[u64], i: usize) -> bool
    requires near { Near shape q base span }
    requires i_in_bounds { i < length list.now }
    ensures { Alone result shape q list.now i }
{
    if i + 1 < list.len() {
        return behind(list[i + 1], base) >= span as u64;
    }
    true
}

// The listed words from place `from` on are marked, up to the first that is not out in the run at q or is marked: its place.
pub fn mark_run(meta: &mut [u32], shape: Shape, q: u32, list: &[u64], from: usize) -> usize
    requires field_pre { FieldPre meta.old shape q }
    requires from_in_bounds { from ≤ length list.now }
    ensures { MarkedIn result meta.new meta.old shape q list.now from }
{
    if from >= list.len() {
        return from;
    }
    let base = word_of(shape, q, 0);
    let span = shape.capacity * shape.block;
    if alone(shape, q, base, span, list, from) {
        return mark_few(meta, shape, q, base, span, list, from, from + 1);
    }
    mark_by(meta, shape, q, base, span, list, from)
}

// The same of a whole list whose words are meant for one run. It is not `mark_run` so that `mark_by` has two callers and stands for itself, and
// `mark_run`, being short then, is taken into the loop of a mixed list (docs/BACKEND.md).
pub fn mark_here(meta: &mut [u32], shape: Shape, q: u32, list: &[u64]) -> usize
    requires { FieldPre meta.old shape q }
    ensures { MarkedIn result meta.new meta.old shape q list.now 0 }
{
    let base = word_of(shape, q, 0);
    let span = shape.capacity * shape.block;
    mark_by(meta, shape, q, base, span, list, 0)
}

// How many words of marks a run of the class has.
pub fn marks_of(shape: Shape) -> u32
    requires { Sound shape }
    ensures { result ≡ out_words shape }
{
    (shape.capacity + 31) / 32
}

// The run's first m words of marks are 0; they are gathered to the end, as in `all_of_kind`.
pub fn no_marks(meta: &[u32], q: u32, m: u32) -> bool
    requires { ClearPre meta.now q m }
    ensures { result ≡ no_marks meta.now q m }
{
    let mut any = 0;
    for j in 0..m {
        any |= fields::marks::word(meta, q, j);
    }
    any == 0
}

// They become 0.
pub fn clear_marks(meta: &mut [u32], q: u32, m: u32)
    requires { ClearPre meta.old q m }
    ensures { meta.new ≡ clear_marks meta.old q m }
{
    for j in 0..m {
        fields::marks::set_word(meta, q, j, 0);
    }
}

fn take_word(meta: &mut [u32], q: u32, j: u32)
    requires { Has meta.old (mark q j) }
    ensures { meta.new ≡ take_word meta.old q j }
{
    let marks = fields::marks::word(meta, q, j);
    fields::out::flip(meta, q, j, marks);
    fields::marks::set_word(meta, q, j, 0);
}

// They become 0, and the blocks that were marked are out no longer.
pub fn take_marks(meta: &mut [u32], q: u32, m: u32)
    requires { ClearPre meta.old q m }
    ensures { meta.new ≡ take_marks meta.old q m }
{
    for j in 0..m {
        take_word(meta, q, j);
    }
}
