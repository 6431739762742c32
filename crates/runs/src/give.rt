// A run goes to the holes, or is abandoned.
ghost use Rattle.std.specs.Prelude.{◌≡◌, ◌+◌, ◌-◌, ◌<◌, ◌≤◌, length};
ghost use Rattle.words.specs.Limits.{hole_slots};
ghost use Rattle.model.specs.HoleStore.{hole, with_before, with_after, with_both};
ghost use Rattle.arena.specs.Load.{load_hole};
ghost use Rattle.arena.specs.Store.{store_hole};
ghost use Rattle.arena.specs.Valid.{give_valid};
ghost use Rattle.arena.specs.Calls.{given};
ghost use Rattle.runs.specs.way.Change.{gains, lost};
ghost use Rattle.runs.specs.way.Act.{both_words, Places, Gives, end_given};
ghost use Rattle.runs.specs.way.Pre.{StoreIn, SlotIn, StoredIn, TouchIn, GiveIn, BackIn};

use super::holes::Edges;
use super::record::Gain;
use super::{Arena, Back, load, owners, plans, store};
use fields::arena::ArenaField;
use fields::hole::HoleField;
use words::limits::{HOLE_PAGES_MAX, HOLE_SLOTS};

// The holes gain pages; the run is lost.
fn gains(count: u32, pages: u32) -> Gain
    ensures { result ≡ gains count pages }
{
    Gain {
        count,
        pages,
        abandoned: false,
    }
}

fn lost(count: u32) -> Gain
    ensures { result ≡ lost count }
{
    Gain {
        count,
        pages: 0,
        abandoned: true,
    }
}

// The run touches no hole: it gets the next slot, or is abandoned where none is free.
fn append(meta: &mut [u32], a: Arena, first: u32, pages: u32) -> Gain
    requires { SlotIn meta.old a pages }
    ensures { Places meta.old a pages first 0 0 meta.new result }
{
    if HOLE_SLOTS <= a.count {
        return lost(a.count);
    }
    store::store_hole(meta, a.count, first, pages);
    gains(a.count + 1, pages)
}

// Hole `i` ends where the run begins.
fn join_before(meta: &mut [u32], a: Arena, i: u32, pages: u32) -> Gain
    requires { SlotIn meta.old a pages × StoredIn meta.old a i }
    ensures { (meta.new ≡ store_hole meta.old i (with_before pages (load_hole meta.old i))) × (result ≡ gains a.count pages) }
{
    let first = HoleField::Start.get(meta, i);
    let before = HoleField::Pages.get(meta, i);
    store::store_hole(meta, i, first, before + pages);
    gains(a.count, pages)
}

// Hole `j` begins where the run ends.
fn join_after(meta: &mut [u32], a: Arena, j: u32, first: u32, pages: u32) -> Gain
    requires { SlotIn meta.old a pages × StoredIn meta.old a j }
    ensures { (meta.new ≡ store_hole meta.old j (with_after pages first (load_hole meta.old j))) × (result ≡ gains a.count pages) }
{
    let after = HoleField::Pages.get(meta, j);
    store::store_hole(meta, j, first, pages + after);
    gains(a.count, pages)
}

// The joined hole comes to `i`, and the last one to `j`.
fn move_last(meta: &mut [u32], a: Arena, i: u32, j: u32, first: u32, pages: u32)
    requires { (40000 ≤ length meta.old) × (a.count ≤ hole_slots) × (i < a.count) × (j < a.count) }
    ensures { meta.new ≡ store_hole (store_hole meta.old i (hole first pages)) j (load_hole meta.old (a.count - 1)) }
{
    let start = HoleField::Start.get(meta, a.count - 1);
    let last = HoleField::Pages.get(meta, a.count - 1);
    store::store_hole(meta, i, first, pages);
    store::store_hole(meta, j, start, last);
}

// Where the last hole is the joined one it comes to `j`.
fn put_both(meta: &mut [u32], a: Arena, i: u32, j: u32, first: u32, pages: u32)
    requires { (40000 ≤ length meta.old) × (a.count ≤ hole_slots) × (i < a.count) × (j < a.count) }
    ensures { meta.new ≡ both_words meta.old a i j (hole first pages) }
{
    if i + 1 == a.count {
        store::store_hole(meta, j, first, pages);
        return;
    }
    move_last(meta, a, i, j, first, pages);
}

// Hole `i` ends where the run begins, and hole `j` begins where it ends.
fn join_both(meta: &mut [u32], a: Arena, i: u32, j: u32, pages: u32) -> Gain
    requires { SlotIn meta.old a pages × StoredIn meta.old a i × StoredIn meta.old a j }
    ensures { (meta.new ≡ both_words meta.old a i j (with_both pages (load_hole meta.old i) (load_hole meta.old j))) × (result ≡ gains (a.count - 1) pages) }
{
    let first = HoleField::Start.get(meta, i);
    let before = HoleField::Pages.get(meta, i);
    let after = HoleField::Pages.get(meta, j);
    put_both(meta, a, i, j, first, before + pages + after);
    gains(a.count - 1, pages)
}

// The holes are written, by the codes of those that the run touches; what that comes to is answered.
fn place(meta: &mut [u32], a: Arena, first: u32, pages: u32, before: u32, after: u32) -> Gain
    requires { SlotIn meta.old a pages × TouchIn meta.old a before × TouchIn meta.old a after }
    ensures { Places meta.old a pages first before after meta.new result }
{
    if before == 0 {
        if after == 0 {
            return append(meta, a, first, pages);
        }
        return join_after(meta, a, after - 1, first, pages);
    }
    if after == 0 {
        return join_before(meta, a, before - 1, pages);
    }
    join_both(meta, a, before - 1, after - 1, pages)
}

// The run is put among the holes, or abandoned.
fn holes_give(meta: &mut [u32], a: Arena, first: u32, pages: u32) -> Gain
    requires { StoreIn meta.old a first pages }
    ensures { Gives meta.old a pages first meta.new result }
{
    if HOLE_PAGES_MAX < a.total + pages {
        return lost(a.count);
    }
    let run = Edges {
        first,
        end: first + pages,
    };
    let t = plans::neighbours(meta, a.count, run);
    place(meta, a, first, pages, t.before, t.after)
}

// The holes, the record, and OWNER where it is to be written.
pub fn give_run(meta: &mut [u32], a: Arena, run: Back)
    requires { BackIn meta.old a run }
    ensures { meta.new ≡ (end_given meta.old a run.pages run.first run.clear).book }
{
    let g = holes_give(meta, a, run.first, run.pages);
    store::store_gained(meta, a, g);
    if run.clear {
        owners::own(meta, run.first, run.pages, 0);
    }
}

// Number 13's test for giving so many pages.
pub fn give_valid(meta: &[u32], size: u32, pages: u32) -> bool
    requires { 40000 ≤ length meta.now }
    ensures { result ≡ give_valid size meta.now pages }
{
    if load::record_valid(meta, size) {
        if pages <= ArenaField::Held.get(meta) {
            return load::holes_valid(meta);
        }
    }
    false
}

// A run below the frontier of an arena of `size` pages is given, where that is valid; it is no longer held.
pub fn give(meta: &mut [u32], size: u32, first: u32, pages: u32)
    requires { GiveIn meta.old size first pages }
    ensures { meta.new ≡ given meta.old first pages }
{
    let a = load::load_record(meta);
    let held = ArenaField::Held.get(meta);
    let run = Back {
        first,
        pages,
        clear: true,
    };
    give_run(meta, a, run);
    ArenaField::Held.set(meta, held - pages);
}
