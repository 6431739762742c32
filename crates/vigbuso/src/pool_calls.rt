// One block out, one block back, and a stocked block back to the heap. Any number and any book is taken: numbers 1 to 4 stand before each call, for
// classes 0 to 75 by one number. Three calls read only, and refuse nothing.
ghost use Rattle.std.specs.Prelude.{◌≡◌};
ghost use Rattle.pool.specs.Pool.{alloc, free, trim};
ghost use Rattle.words.specs.Host.{digit};
ghost use Rattle.words.specs.Refusal.{code_of};
ghost use Rattle.stock.specs.way.Ends.{block_left, Granted};
ghost use Rattle.vigbuso.specs.Pool.{pool_on, class_on, granted_on, stocked_on, BlockEnds, FreeEnds};

use crate::faults::{check_class, is_admitted};
use classes::{CLASS_COUNT, CLASS_ROWS, number_of};
use fields::arena::ArenaField;
use fields::fault::arena_size;
use words::refusal::{Refusal, code_of};

// What a call that answers a block returns to C: the block's word is written if there is one.
fn answer(outcome: Result<u64, Refusal>, block: &mut u64) -> u32
    ensures code { result ≡ code_of outcome }
    ensures block_left { block.new ≡ block_left outcome block.old }
{
    match outcome {
        Ok(word) => {
            *block = word;
            0
        }
        Err(refusal) => refusal.number(),
    }
}

fn alloc(meta: &mut [u32], class: u32, host: u32) -> Result<u64, Refusal>
    ensures { Granted (pool_on meta.old class (alloc host)) result meta.new }
{
    let size = check_class(meta, host, CLASS_COUNT, class)?;
    stock::alloc::alloc(meta, size, class, host)
}

#[unsafe(no_mangle)]
pub extern "C" fn vigbuso_alloc(meta: &mut [u32], class: u32, host: u32, block: &mut u64) -> u32
    ensures { BlockEnds (pool_on meta.old class (alloc host)) result meta.new block.old block.new }
{
    answer(alloc(meta, class, host), block)
}

fn free(meta: &mut [u32], class: u32, host: u32, block: u64) -> Result<(), Refusal>
    ensures { FreeEnds (pool_on meta.old class (free host block)) (code_of result) meta.new }
{
    let size = check_class(meta, host, CLASS_COUNT, class)?;
    stock::free::free(meta, size, class, host, block)
}

#[unsafe(no_mangle)]
pub extern "C" fn vigbuso_free(meta: &mut [u32], class: u32, host: u32, block: u64) -> u32
    ensures { FreeEnds (pool_on meta.old class (free host block)) result meta.new }
{
    code_of(free(meta, class, host, block))
}

fn trim(meta: &mut [u32], class: u32, host: u32) -> Result<u64, Refusal>
    ensures { Granted (pool_on meta.old class (trim host)) result meta.new }
{
    let size = check_class(meta, host, CLASS_COUNT, class)?;
    stock::trim::trim(meta, size, class, host)
}

#[unsafe(no_mangle)]
pub extern "C" fn vigbuso_trim(meta: &mut [u32], class: u32, host: u32, block: &mut u64) -> u32
    ensures { BlockEnds (pool_on meta.old class (trim host)) result meta.new block.old block.new }
{
    answer(trim(meta, class, host), block)
}

// The number of the class that has the block's page, the heap's or the pool's; or CLASS_COUNT. No page at or above the frontier has one.
#[unsafe(no_mangle)]
pub extern "C" fn vigbuso_class_of(meta: &[u32], block: u64) -> u32
    ensures { result ≡ class_on meta.now block }
{
    let size = match arena_size(meta) {
        Ok(size) => size,
        Err(_) => return CLASS_COUNT,
    };
    if !fields::fault::head_valid(meta, size) {
        return CLASS_COUNT;
    }
    match trace::acts::class_at(meta, ArenaField::Frontier.get(meta), block) {
        Some(id) if id < CLASS_ROWS => number_of(id),
        _ => CLASS_COUNT,
    }
}

fn granted_on(meta: &[u32], class: u32, block: u64) -> bool
    ensures { result ≡ granted_on meta.now class block }
{
    if is_admitted(meta, class) {
        let size = ArenaField::Size.get(meta);
        return stock::query::granted(meta, size, class, block);
    }
    false
}

// 1 if the block is granted in the class: what a free of it would ask.
#[unsafe(no_mangle)]
pub extern "C" fn vigbuso_granted(meta: &[u32], class: u32, block: u64) -> u32
    ensures { result ≡ digit (granted_on meta.now class block) }
{
    granted_on(meta, class, block) as u32
}

// The blocks that the class has in stock.
#[unsafe(no_mangle)]
pub extern "C" fn vigbuso_stocked(meta: &[u32], class: u32) -> u32
    ensures { result ≡ stocked_on meta.now class }
{
    if is_admitted(meta, class) {
        return stock::query::stocked(meta, class);
    }
    0
}
