// Size classes: the block sizes, the lookups, and what a class's runs look like.
#![tactic(auto)]

mod class_lut;
mod lookup;
mod lookup_tables;
mod medium_lut;
mod near;
mod runs;
mod sizes;

pub use class_lut::small_classes;
pub use lookup::size_class;
pub use lookup_tables::LookupTables;
pub use medium_lut::medium_classes;
pub use runs::{number_of, pool_id, shape_of};
pub use sizes::{
    CLASS_COUNT, CLASS_ROWS, MAX_MEDIUM_SIZE, NUM_CLASSES, NUM_MEDIUM, block_bytes,
    medium_capacity_for, span_pages_for,
};

// The class of a size (document 02, A.6).
#[derive(Clone, Copy, PartialEq, Eq)]
pub enum Sized {
    Small(u32),
    Medium(u32),
    TooLarge,
}

// A class by its numbers: ids 0 to 63 are the small classes, 64 to 75 the medium ones.
// Lengths are in granules of 16 bytes, 4,096 to a page.
#[derive(Clone, Copy)]
pub struct Shape {
    // The kind of its block words: small or medium.
    pub kind: u32,
    // Granules of a block.
    pub block: u32,
    // Granules before the first block.
    pub header: u32,
    // Pages of a run: one, or a span's.
    pub pages: u32,
    // Blocks of a run.
    pub capacity: u32,
    // The most blocks that a take gives.
    pub batch: u32,
    // The most pages in its empty runs, whatever its parking rules allow.
    pub emptypages: u32,
    // 1 / block with 32 bits behind the point, rounded up: what a product is made with instead of a division by a block's granules.
    pub inverse: u64,
}
