// The calls that go straight to the arena.
ghost use Rattle.model.specs.Calls as Calls;
ghost use Rattle.witness.specs.Observed.{Opened, CommitObserved, GrowObserved, GiveObserved, ContainsObserved, ReportObserved};

use vigbuso::arena_calls::FIGURES;

pub fn open(meta: &mut [u32], pages: u64, rows: &[u32]) -> u32
    ensures { Opened pages rows.now result meta.old meta.new }
{
    vigbuso::arena_calls::vigbuso_open(meta, pages, rows)
}

pub fn commit(meta: &mut [u32], host: u32, pages: u64, first: &mut u32, fresh: &mut u32) -> u32
    ensures { CommitObserved (Calls.commit host pages) result meta.old meta.new first.old first.new fresh.old fresh.new }
{
    vigbuso::arena_calls::vigbuso_commit(meta, host, pages, first, fresh)
}

pub fn grow_frontier(
    meta: &mut [u32],
    host: u32,
    first: u64,
    old: u64,
    new: u64,
    grown: &mut u32,
) -> u32
    ensures { GrowObserved (Calls.grow_frontier host first old new) result meta.old meta.new grown.old grown.new }
{
    vigbuso::arena_calls::vigbuso_grow_frontier(meta, host, first, old, new, grown)
}

pub fn release(meta: &mut [u32], host: u32, first: u64, pages: u64) -> u32
    ensures { GiveObserved (Calls.release host first pages) result meta.old meta.new }
{
    vigbuso::arena_calls::vigbuso_release(meta, host, first, pages)
}

pub fn contains(meta: &[u32], offset: u64, length: u64) -> u32
    ensures { ContainsObserved (Calls.contains offset length) result meta.now }
{
    vigbuso::arena_calls::vigbuso_contains(meta, offset, length)
}

pub fn report(meta: &[u32], figures: &mut [u64; FIGURES]) -> u32
    ensures { ReportObserved result meta.now figures.old figures.new }
{
    vigbuso::arena_calls::vigbuso_report(meta, figures)
}
