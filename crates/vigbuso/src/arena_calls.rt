// The calls that go straight to the arena. Any number and any book is taken: numbers 1 to 3 stand before each call.
ghost use Rattle.std.specs.Prelude.{◌≡◌};
ghost use Rattle.words.specs.Host.{digit};
ghost use Rattle.words.specs.Refusal.{code_of};
ghost use Rattle.fields.specs.Outcome.{Did};
ghost use Rattle.direct.specs.Answer.{Releases};
ghost use Rattle.vigbuso.specs.Direct.{open_on, commit_on, CommitEnds, grow_on, GrowEnds, release_on, contains_on, report_on, ReportEnds};

use crate::faults::check_call;
use fields::fault::{arena_size, check_length};
use words::refusal::{Refusal, code_of};

// The first page of no run.
const NO_PAGE: u32 = 4_294_967_295;

// How many figures a report has.
pub const FIGURES: usize = 6;

// Numbers 1 and 2, then 19, 18 and 17.
fn open_book(meta: &mut [u32], pages: u64, rows: &[u32]) -> Result<(), Refusal>
    ensures { Did (code_of result) meta.new (open_on meta.old pages rows.now) }
{
    check_length(pages, meta.len())?;
    rules::rows_fault(rows)?;
    direct::open::open(meta, pages as u32, rows);
    Ok(())
}

#[unsafe(no_mangle)]
pub extern "C" fn vigbuso_open(meta: &mut [u32], pages: u64, rows: &[u32]) -> u32
    ensures { Did result meta.new (open_on meta.old pages rows.now) }
{
    code_of(open_book(meta, pages, rows))
}

#[unsafe(no_mangle)]
pub extern "C" fn vigbuso_commit(
    meta: &mut [u32],
    host: u32,
    pages: u64,
    first: &mut u32,
    fresh: &mut u32,
) -> u32
    ensures { CommitEnds (commit_on meta.old host pages) result meta.new first.old first.new fresh.old fresh.new }
{
    let size = match check_call(meta, host) {
        Ok(size) => size,
        Err(refusal) => return refusal.number(),
    };
    match direct::calls::commit(meta, size, host, pages) {
        Err(refusal) => refusal.number(),
        Ok(Some(run)) => {
            *first = run.first;
            *fresh = u32::from(run.fresh);
            0
        }
        Ok(None) => {
            *first = NO_PAGE;
            *fresh = 0;
            0
        }
    }
}

#[unsafe(no_mangle)]
pub extern "C" fn vigbuso_grow_frontier(
    meta: &mut [u32],
    host: u32,
    first: u64,
    old: u64,
    new: u64,
    grown: &mut u32,
) -> u32
    ensures { GrowEnds (grow_on meta.old host first old new) result meta.new grown.old grown.new }
{
    let size = match check_call(meta, host) {
        Ok(size) => size,
        Err(refusal) => return refusal.number(),
    };
    match direct::calls::grow_frontier(meta, size, host, first, old, new) {
        Err(refusal) => refusal.number(),
        Ok(yes) => {
            *grown = u32::from(yes);
            0
        }
    }
}

#[unsafe(no_mangle)]
pub extern "C" fn vigbuso_release(meta: &mut [u32], host: u32, first: u64, pages: u64) -> u32
    ensures { Releases result meta.new (release_on meta.old host first pages) }
{
    match check_call(meta, host) {
        Ok(size) => code_of(direct::calls::release(meta, size, first, pages)),
        Err(refusal) => refusal.number(),
    }
}

#[unsafe(no_mangle)]
pub extern "C" fn vigbuso_contains(meta: &[u32], offset: u64, length: u64) -> u32
    ensures { result ≡ digit (contains_on meta.now offset length) }
{
    match arena_size(meta) {
        Ok(size) => u32::from(direct::calls::contains(meta, size, offset, length)),
        Err(_) => 0,
    }
}

#[unsafe(no_mangle)]
pub extern "C" fn vigbuso_report(meta: &[u32], figures: &mut [u64; FIGURES]) -> u32
    ensures { ReportEnds (report_on meta.now) result figures.old figures.new }
{
    let size = match arena_size(meta) {
        Ok(size) => size,
        Err(refusal) => return refusal.number(),
    };
    match direct::figures::report(meta, size) {
        Err(refusal) => refusal.number(),
        Ok(f) => {
            *figures = [f.commits, f.reuses, f.abandoned, f.held, f.idle, f.overlap];
            0
        }
    }
}
