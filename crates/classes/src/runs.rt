// The shape of a class, from its block size.
ghost use Rattle.std.specs.Prelude.{◌≡◌, ◌≤◌, ◌<◌};
ghost use Rattle.classes.specs.Shape.{inverse, class_count, pool_id, number_of, named_shape, shape_of};

use super::Shape;
use super::sizes::{
    CLASS_COUNT, NUM_CLASSES, PAGE_HEADER, SPAN_HEADER, block_bytes, medium_capacity_for,
    small_capacity_for, span_pages_for,
};
use words::Word;

const GRANULE: u32 = 16;

fn inverse_of(block: u32) -> u64
    requires { 1 ≤ block }
    ensures { result ≡ inverse block }
{
    u64::from(u32::MAX / block) + 1
}

// The number whose shape and limits an id has.
pub fn number_of(id: u32) -> u32
    ensures { result ≡ number_of id }
{
    if id < CLASS_COUNT {
        id
    } else {
        id - CLASS_COUNT
    }
}

// The id of the pool's class with a number.
pub fn pool_id(number: u32) -> u32
    requires { number < class_count }
    ensures { result ≡ pool_id number }
{
    CLASS_COUNT + number
}

// The shape of a class by its number. Past the last class it is the last one's.
fn named_shape(id: u32) -> Shape
    ensures { result ≡ named_shape id }
{
    let size = block_bytes(id);
    let block = size / GRANULE;
    let inverse = inverse_of(block);
    if id < NUM_CLASSES {
        // At most 64 blocks a take. As many empty pages as a rule can allow, so that its rule alone limits them.
        Shape {
            kind: Word::SMALL,
            block,
            header: PAGE_HEADER / GRANULE,
            pages: 1,
            capacity: small_capacity_for(size),
            batch: 64,
            emptypages: 256,
            inverse,
        }
    } else {
        // At most a span's blocks a take, and 128 pages, which is 8 MiB, in empty spans.
        let capacity = medium_capacity_for(size);
        Shape {
            kind: Word::MEDIUM,
            block,
            header: SPAN_HEADER / GRANULE,
            pages: span_pages_for(size),
            capacity,
            batch: capacity,
            emptypages: 128,
            inverse,
        }
    }
}

// The shape of the class with an id.
pub fn shape_of(id: u32) -> Shape
    ensures { result ≡ shape_of id }
{
    named_shape(number_of(id))
}
