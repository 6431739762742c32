// The calls that go straight to the arena, for C.
ghost use Rattle.std.specs.Prelude.{◌≡◌};
ghost use Rattle.words.specs.Host.{digit};
ghost use Rattle.fields.specs.Outcome.{Did};
ghost use Rattle.direct.specs.Answer.{Releases};
ghost use Rattle.vigbuso.specs.Direct.{open_on, commit_on, CommitEnds, grow_on, GrowEnds, release_on, contains_on, report_on, ReportEnds};

use vigbuso::arena_calls::FIGURES;

#[unsafe(no_mangle)]
pub extern "C" fn vigbuso_open(meta: &mut [u32], pages: u64, rows: &[u32]) -> u32
    ensures { Did result meta.new (open_on meta.old pages rows.now) }
{
    vigbuso::arena_calls::vigbuso_open(meta, pages, rows)
}

#[unsafe(no_mangle)]
pub extern "C" fn vigbuso_commit(
    meta: &mut [u32],
    host: u32,
    pages: u64,
    first: &mut u32,
    fresh: &mut u32,
) -> u32
    ensures { CommitEnds (commit_on meta.old host pages) result meta.new first.old first.new fresh.old fresh.new }
{
    vigbuso::arena_calls::vigbuso_commit(meta, host, pages, first, fresh)
}

#[unsafe(no_mangle)]
pub extern "C" fn vigbuso_grow_frontier(
    meta: &mut [u32],
    host: u32,
    first: u64,
    old: u64,
    new: u64,
    grown: &mut u32,
) -> u32
    ensures { GrowEnds (grow_on meta.old host first old new) result meta.new grown.old grown.new }
{
    vigbuso::arena_calls::vigbuso_grow_frontier(meta, host, first, old, new, grown)
}

#[unsafe(no_mangle)]
pub extern "C" fn vigbuso_release(meta: &mut [u32], host: u32, first: u64, pages: u64) -> u32
    ensures { Releases result meta.new (release_on meta.old host first pages) }
{
    vigbuso::arena_calls::vigbuso_release(meta, host, first, pages)
}

#[unsafe(no_mangle)]
pub extern "C" fn vigbuso_contains(meta: &[u32], offset: u64, length: u64) -> u32
    ensures { result ≡ digit (contains_on meta.now offset length) }
{
    vigbuso::arena_calls::vigbuso_contains(meta, offset, length)
}

#[unsafe(no_mangle)]
pub extern "C" fn vigbuso_report(meta: &[u32], figures: &mut [u64; FIGURES]) -> u32
    ensures { ReportEnds (report_on meta.now) result figures.old figures.new }
{
    vigbuso::arena_calls::vigbuso_report(meta, figures)
}
