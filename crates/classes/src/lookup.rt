// The class of a size (document 02, A.6): a class near it by its step, and one comparison with that class's block size.
ghost use Rattle.std.specs.Prelude.{◌≡◌, ◌≤◌};
ghost use Rattle.classes.specs.Sizes.{max_medium_size};
ghost use Rattle.classes.specs.Lookup.{size_class};
ghost use Rattle.classes.specs.way.Near.{step_of};

use super::Sized;
use super::near::by_step;
use super::sizes::{MAX_MEDIUM_SIZE, NUM_CLASSES, block_bytes};

// The step of a size: of 32 bytes up to 4,096, of 512 from there on. By sums and one shift each: `div_ceil` tests the remainder besides.
fn step_of(size: u32) -> u8
    requires { size ≤ max_medium_size }
    ensures { result ≡ step_of size }
{
    if size <= 4096 {
        ((size + 31) / 32) as u8
    } else {
        ((size + 61951) / 512) as u8
    }
}

// The first class whose blocks hold a size, small or medium.
pub fn size_class(size: u64) -> Sized
    ensures { result ≡ size_class size }
{
    if size > u64::from(MAX_MEDIUM_SIZE) {
        return Sized::TooLarge;
    }
    let size = size as u32;
    let near = u32::from(by_step(step_of(size)));
    // The class near, or the next where its blocks are too short.
    let class = near + u32::from(block_bytes(near) < size);
    if class < NUM_CLASSES {
        Sized::Small(class)
    } else {
        Sized::Medium(class - NUM_CLASSES)
    }
}
