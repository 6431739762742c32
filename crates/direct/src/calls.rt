// The direct calls, from number 6 on: the book is long enough for an arena of `size` pages.
ghost use Rattle.std.specs.Prelude.{◌≡◌, ◌+◌, ◌-◌, ◌≤◌, ◌<◌};
ghost use Rattle.words.specs.Limits.{max_pages};
ghost use Rattle.words.specs.Refusal.{code_of};
ghost use Rattle.model.specs.Heap.{bad_run, bad_growth};
ghost use Rattle.arena.specs.Calls.{commit_call, release_call, grow_call, contains_call};
ghost use Rattle.runs.specs.way.Act.{clamped};
ghost use Rattle.runs.specs.way.Pre.{BookIn};
ghost use Rattle.runs.specs.way.Told.{told_commit};
ghost use Rattle.runs.specs.Answer.{Answers};
ghost use Rattle.direct.specs.Answer.{Releases};
ghost use Rattle.direct.specs.way.Acts.{Grows, Grew, valid_grow, held_release};
ghost use Rattle.direct.specs.way.Told.{told_grow};

use arena::DIRECT;
use fields::arena::ArenaField;
use runs::{ArenaRequest, Run, give, growth, load, owners};
use words::limits::MAX_PAGES;
use words::refusal::Refusal;

fn bad_run(pages: u64) -> bool
    ensures { result ≡ bad_run pages }
{
    pages == 0 || 1 << 48 <= pages
}

// A page more than any arena has stands for every longer run.
fn clamp(pages: u64) -> u32
    ensures { result ≡ clamped pages }
{
    pages.min(MAX_PAGES + 1) as u32
}

pub fn commit(meta: &mut [u32], size: u32, host: u32, pages: u64) -> Result<Option<Run>, Refusal>
    requires { BookIn meta.old size }
    ensures { Answers (told_commit result) meta.new (commit_call size meta.old host pages) }
{
    if bad_run(pages) {
        return Err(Refusal::RunLength);
    }
    runs::commit_for(meta, size, host, clamp(pages), DIRECT)
}

// A run that the direct calls hold.
fn release_held(meta: &mut [u32], size: u32, first: u32, pages: u32) -> Result<(), Refusal>
    requires { BookIn meta.old size × (first + pages ≤ size) }
    ensures { Releases (code_of result) meta.new (held_release size meta.old first pages) }
{
    if give::give_valid(meta, size, pages) {
        give::give(meta, size, first, pages);
        return Ok(());
    }
    Err(Refusal::BookWord)
}

pub fn release(meta: &mut [u32], size: u32, first: u64, pages: u64) -> Result<(), Refusal>
    requires { BookIn meta.old size }
    ensures { Releases (code_of result) meta.new (release_call size meta.old first pages) }
{
    if bad_run(pages) {
        return Err(Refusal::RunLength);
    }
    if owners::held_direct(meta, size, first, pages) {
        return release_held(meta, size, first as u32, pages as u32);
    }
    Err(Refusal::NotHeld)
}

// From number 13 on: whether a run grew that the direct calls hold and that ends at page `end`.
fn grow_held(meta: &mut [u32], size: u32, host: u32, end: u32, pages: u32) -> Result<bool, Refusal>
    requires { BookIn meta.old size × (end ≤ max_pages) × (pages ≤ max_pages + 1) }
    ensures { Grows (told_grow result) meta.new (valid_grow size meta.old host end pages) }
{
    if !growth::grow_valid(meta, size, host, end, pages) {
        return Err(Refusal::BookWord);
    }
    let a = load::load_record(meta);
    let q = ArenaRequest {
        size,
        pages,
        host,
        owner: DIRECT,
        held: ArenaField::Held.get(meta),
    };
    let added = growth::grow_run(meta, a, end, q)?;
    Ok(added.is_some())
}

fn bad_growth(old: u64, new: u64) -> bool
    ensures { result ≡ bad_growth old new }
{
    bad_run(old) || bad_run(new) || new <= old
}

// Whether the run grew.
pub fn grow_frontier(
    meta: &mut [u32],
    size: u32,
    host: u32,
    first: u64,
    old: u64,
    new: u64,
) -> Result<bool, Refusal>
    requires { BookIn meta.old size }
    ensures { Grew (told_grow result) meta.new (grow_call size meta.old host first old new) }
{
    if bad_growth(old, new) {
        return Err(Refusal::RunLength);
    }
    if owners::held_direct(meta, size, first, old) {
        return grow_held(meta, size, host, (first + old) as u32, clamp(new - old));
    }
    Err(Refusal::NotHeld)
}

// Are the bytes the arena's. A sum that does not fit is never made.
pub fn contains(meta: &[u32], size: u32, offset: u64, length: u64) -> bool
    requires { BookIn meta.now size }
    ensures { result ≡ contains_call size meta.now offset length }
{
    if !fields::fault::format_valid(meta) || ArenaField::State.get(meta) != 1 {
        return false;
    }
    let bytes = u64::from(size) * 65_536;
    offset <= bytes && length <= bytes - offset
}
