// A group release: the numbers in their order, each over both lists, and then the passes. A refusal leaves every word as it was.
ghost use Rattle.words.specs.Refusal.{code_of};
ghost use Rattle.calls.specs.Chunks.{release_chunks};
ghost use Rattle.chunks.specs.way.CallPre.{all_placed, settled_to, pass_fault, test_fault, CallPre, ListedPre, TestPre, PassPre, SettlePre, TakenBy, ChunksAnswered};

use super::gives::give_chunks;
use super::matching::{MAX_CHUNKS, chunks_match};
use super::place::place_chunks;
use super::push::{push_blocks, take_blocks};
use super::quick::try_take;
use super::valid::chunks_valid;
use classes::Shape;
use release::{all_of_kind, out_fault};
use words::Word;
use words::refusal::Refusal;

// The blocks back on their stacks, their pages placed, and the runs that leave the class to the arena.
fn settle_chunks(
    meta: &mut [u32],
    n: u32,
    c: u32,
    shape: Shape,
    host: u32,
    list: &[u64],
    chunks: &[u64],
    fates: &mut [u32],
)
    requires { SettlePre n meta.old c shape host list.now chunks.now fates.old }
    ensures { ChunksAnswered 0 meta.new fates.new (settled_to (all_placed meta.old c shape host list.now chunks.now) shape chunks.now fates.old) }
{
    push_blocks(meta, shape, list);
    place_chunks(meta, c, shape, host, chunks, fates);
    give_chunks(meta, n, shape, chunks, fates);
}

// Numbers 11 and 13; else the listed blocks are out no longer.
fn pass_chunks(
    meta: &mut [u32],
    n: u32,
    c: u32,
    shape: Shape,
    list: &[u64],
    chunks: &[u64],
) -> Result<(), Refusal>
    requires { PassPre n meta.old c shape list.now chunks.now }
    ensures { TakenBy (code_of result) meta.new (pass_fault n meta.old c shape list.now chunks.now) meta.old shape list.now }
{
    if !chunks_match(meta, n, list, chunks) {
        return Err(Refusal::OtherPage);
    }
    if !chunks_valid(meta, n, c, shape, chunks) {
        return Err(Refusal::BookWord);
    }
    take_blocks(meta, n, shape, list);
    Ok(())
}

// Each number over the whole list, from 13 for a mark on.
fn take_tested(
    meta: &mut [u32],
    n: u32,
    c: u32,
    shape: Shape,
    list: &[u64],
    chunks: &[u64],
) -> Result<(), Refusal>
    requires { ListedPre n meta.old c shape list.now chunks.now }
    ensures { TakenBy (code_of result) meta.new (test_fault n meta.old c shape list.now chunks.now) meta.old shape list.now }
{
    out_fault(meta, n, c, shape, list)?;
    pass_chunks(meta, n, c, shape, list, chunks)
}

// The same, at once where that goes.
fn take_listed(
    meta: &mut [u32],
    n: u32,
    c: u32,
    shape: Shape,
    list: &[u64],
    chunks: &[u64],
) -> Result<(), Refusal>
    requires { ListedPre n meta.old c shape list.now chunks.now }
    ensures { TakenBy (code_of result) meta.new (test_fault n meta.old c shape list.now chunks.now) meta.old shape list.now }
{
    if try_take(meta, n, c, shape, list, chunks) {
        return Ok(());
    }
    take_tested(meta, n, c, shape, list, chunks)
}

// The numbers from 13 for a mark on, and the passes.
fn test_chunks(
    meta: &mut [u32],
    n: u32,
    c: u32,
    shape: Shape,
    host: u32,
    list: &[u64],
    chunks: &[u64],
    fates: &mut [u32],
) -> Result<(), Refusal>
    requires { TestPre n meta.old c shape list.now chunks.now fates.old }
    ensures { ChunksAnswered (code_of result) meta.new fates.new (release_chunks n meta.old c shape host list.now chunks.now fates.old) }
{
    take_listed(meta, n, c, shape, list, chunks)?;
    settle_chunks(meta, n, c, shape, host, list, chunks, fates);
    Ok(())
}

// Numbers 7, 8 and 9, and those after them.
pub fn release_chunks(
    meta: &mut [u32],
    n: u32,
    c: u32,
    shape: Shape,
    host: u32,
    list: &[u64],
    chunks: &[u64],
    fates: &mut [u32],
) -> Result<(), Refusal>
    requires { CallPre n meta.old c shape }
    ensures { ChunksAnswered (code_of result) meta.new fates.new (release_chunks n meta.old c shape host list.now chunks.now fates.old) }
{
    if list.is_empty() || chunks.is_empty() {
        return Err(Refusal::EmptyList);
    }
    if chunks.len() > MAX_CHUNKS || fates.len() < chunks.len() {
        return Err(Refusal::Chunks);
    }
    if !all_of_kind(list, shape.kind) || !all_of_kind(chunks, Word::CHUNK) {
        return Err(Refusal::WrongKind);
    }
    test_chunks(meta, n, c, shape, host, list, chunks, fates)
}
