// The record and a hole, written to the words. The record is a local of the function that lends it, to be changed in place, and stores it.
ghost use Rattle.std.specs.Prelude.{◌≡◌, ◌+◌, ◌^◌, ◌<◌, ◌≤◌, length};
ghost use Rattle.words.specs.Limits.{hole_slots};
ghost use Rattle.model.specs.HoleStore.{hole};
ghost use Rattle.arena.specs.Store.{store_hole, store_counts, store_top};
ghost use Rattle.runs.specs.way.Change.{drawn_by, gained_by};
ghost use Rattle.runs.specs.way.Record.{store_record};

use super::record::{Draw, Gain};
use super::{Arena, record};
use fields::arena::{ArenaField, Counter};
use fields::hole::HoleField;

fn store_counts(meta: &mut [u32], a: Arena)
    requires { 40000 ≤ length meta.old }
    ensures { meta.new ≡ store_counts meta.old a.commits a.reuses a.abandoned }
{
    Counter::Commits.set(meta, a.commits);
    Counter::Reuses.set(meta, a.reuses);
    Counter::Abandoned.set(meta, a.abandoned);
}

fn store_top(meta: &mut [u32], a: Arena)
    requires { 40000 ≤ length meta.old }
    ensures { meta.new ≡ store_top meta.old a.state a.frontier a.count a.total }
{
    ArenaField::State.set(meta, a.state);
    ArenaField::Frontier.set(meta, a.frontier);
    ArenaField::Holes.set(meta, a.count);
    ArenaField::HolePages.set(meta, a.total);
}

pub fn store_record(meta: &mut [u32], a: Arena)
    requires { 40000 ≤ length meta.old }
    ensures { meta.new ≡ store_record meta.old a }
{
    store_counts(meta, a);
    store_top(meta, a);
}

// A commit's record.
pub fn store_drawn(meta: &mut [u32], mut a: Arena, d: Draw)
    requires { (40000 ≤ length meta.old) × (a.frontier + d.ahead < 2 ^ 32) × (d.cut ≤ a.total) }
    ensures { meta.new ≡ store_record meta.old (drawn_by d a) }
{
    record::commit(&mut a, d);
    store_record(meta, a);
}

// A give's.
pub fn store_gained(meta: &mut [u32], mut a: Arena, g: Gain)
    requires { (40000 ≤ length meta.old) × (a.total + g.pages < 2 ^ 32) }
    ensures { meta.new ≡ store_record meta.old (gained_by g a) }
{
    record::give(&mut a, g);
    store_record(meta, a);
}

pub fn store_hole(meta: &mut [u32], i: u32, first: u32, pages: u32)
    requires { (40000 ≤ length meta.old) × (i < hole_slots) }
    ensures { meta.new ≡ store_hole meta.old i (hole first pages) }
{
    HoleField::Start.set(meta, i, first);
    HoleField::Pages.set(meta, i, pages);
}
