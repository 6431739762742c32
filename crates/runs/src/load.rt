// The arena's record as the words hold it, and number 13's tests of it.
ghost use Rattle.std.specs.Prelude.{◌≡◌, ◌≤◌, length};
ghost use Rattle.runs.specs.way.Record.{record_of};
ghost use Rattle.words.specs.Limits.{hole_slots};
ghost use Rattle.fields.specs.Field.{arena, holes, get};
ghost use Rattle.arena.specs.Valid.{record_valid, holes_end_valid};

use super::{Arena, plans};
use fields::arena::{ArenaField, Counter};
use words::limits::{HOLE_PAGES_MAX, HOLE_SLOTS};

pub fn load_record(meta: &[u32]) -> Arena
    requires { 40000 ≤ length meta.now }
    ensures { result ≡ record_of meta.now }
{
    Arena {
        state: ArenaField::State.get(meta),
        frontier: ArenaField::Frontier.get(meta),
        count: ArenaField::Holes.get(meta),
        total: ArenaField::HolePages.get(meta),
        commits: Counter::Commits.get(meta),
        reuses: Counter::Reuses.get(meta),
        abandoned: Counter::Abandoned.get(meta),
    }
}

// Is every word of the record in its range, in an arena of so many pages.
pub fn record_valid(meta: &[u32], size: u32) -> bool
    requires { 40000 ≤ length meta.now }
    ensures { result ≡ record_valid size meta.now }
{
    if 2 < ArenaField::State.get(meta) {
        return false;
    }
    if HOLE_SLOTS < ArenaField::Holes.get(meta) {
        return false;
    }
    if HOLE_PAGES_MAX < ArenaField::HolePages.get(meta) {
        return false;
    }
    if fields::fault::head_valid(meta, size) {
        return ArenaField::Held.get(meta) <= size;
    }
    false
}

// Is every hole in a give's range.
pub fn holes_valid(meta: &[u32]) -> bool
    requires { (40000 ≤ length meta.now) × (get meta.now (arena holes) ≤ hole_slots) }
    ensures { result ≡ holes_end_valid meta.now }
{
    plans::all_end_valid(
        meta,
        ArenaField::Holes.get(meta),
        ArenaField::Frontier.get(meta),
    )
}
