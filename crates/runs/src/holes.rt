// Holes: loaded, tested, lent as a slice and scanned for the least length that is enough, and set beside a run.
ghost use Rattle.std.specs.Prelude.{◌≡◌, ◌+◌, ◌^◌, ◌<◌, ◌≤◌, length, take, if◌then◌else◌, slice_index_or};
ghost use Rattle.fields.specs.Field.{hole, pages, Has};
ghost use Rattle.arena.specs.Load.{load_hole};
ghost use Rattle.arena.specs.Valid.{hole_ends_valid, hole_valid};
ghost use Rattle.runs.specs.way.Scan.{no_hole, key, better_of, best_of, neighbours_at, neighbours_from};

use fields::hole::HoleField;
use model::Hole;

pub fn hole_at(holes: &[Hole], i: usize) -> Hole
    requires { i < length holes.now }
    ensures { result ≡ slice_index_or holes.now i no_hole }
{
    holes[i]
}

// What a scan has found: the least key, and the code of its hole.
#[derive(Clone, Copy)]
pub struct Best {
    pub key: u64,
    pub code: u32,
}

// Each half of a key is below it.
pub const HALF: u64 = 1 << 32;

// In its upper half the pages beyond the need, which wrap where they are too few and so come after all others, and in its lower half the
// first page. The least key is the lowest page of the least length that is enough.
fn key_of(need: u32, h: Hole) -> u64
    ensures { result ≡ key need h }
{
    let over = h.pages.wrapping_sub(need);
    u64::from(over) * HALF + u64::from(h.first)
}

// The hole at `i`, unless the best of those behind it has a lesser key.
pub fn better(need: u32, i: u32, h: Hole, best: Best) -> Best
    requires { i + 1 < 2 ^ 32 }
    ensures { result ≡ better_of need i h best }
{
    let key = key_of(need, h);
    if best.key < key {
        return best;
    }
    Best { key, code: i + 1 }
}

// The best of the first `count` holes, which stand at the index `from` and on, and of those behind them. The last one is looked at first.
pub fn scan(holes: &[Hole], from: u32, count: u32, need: u32, behind: Best) -> Best
    requires { (count ≤ length holes.now) × (from + count < 2 ^ 32) }
    ensures { result ≡ best_of need from (take count holes.now) behind }
{
    let mut best = behind;
    let mut i = count;
    while 0 < i {
        let j = i - 1;
        let h = hole_at(holes, j as usize);
        best = better(need, from + j, h, best);
        i = j;
    }
    best
}

// A run to be given: its first page, and the one behind its last.
#[derive(Clone, Copy)]
pub struct Edges {
    pub first: u32,
    pub end: u32,
}

// The codes of the holes that touch a run: of the one that ends at its first page, and of the one that starts at its end. 0 is none.
#[derive(Clone, Copy)]
pub struct Neighbours {
    pub before: u32,
    pub after: u32,
}

// The code of index `i`, or else the other one.
fn code_if(so: bool, i: u32, other: u32) -> u32
    requires { i + 1 < 2 ^ 32 }
    ensures { result ≡ (if so then i + 1 else other) }
{
    if so { i + 1 } else { other }
}

// The hole at `i` on the side where it touches the run, before those behind it.
pub fn neighbours_at(run: Edges, i: u32, h: Hole, behind: Neighbours) -> Neighbours
    requires { i + 1 < 2 ^ 32 }
    ensures { result ≡ neighbours_at run i h behind }
{
    let ends = (h.first as u64) + (h.pages as u64) == (run.first as u64);
    let starts = h.first == run.end;
    Neighbours {
        before: code_if(ends, i, behind.before),
        after: code_if(starts, i, behind.after),
    }
}

// The holes that touch a run, the lowest index of each, among the first `count`, which stand at the index `from` and on, and those behind them.
pub fn touch(holes: &[Hole], from: u32, count: u32, run: Edges, behind: Neighbours) -> Neighbours
    requires { (count ≤ length holes.now) × (from + count < 2 ^ 32) }
    ensures { result ≡ neighbours_from run from (take count holes.now) behind }
{
    let mut found = behind;
    let mut i = count;
    while 0 < i {
        let j = i - 1;
        let h = hole_at(holes, j as usize);
        found = neighbours_at(run, from + j, h, found);
        i = j;
    }
    found
}

// The hole that the words hold at `i`.
pub fn hole_from(meta: &[u32], i: u32) -> Hole
    requires { Has meta.now (hole pages i) }
    ensures { result ≡ load_hole meta.now i }
{
    Hole {
        first: HoleField::Start.get(meta, i),
        pages: HoleField::Pages.get(meta, i),
    }
}

// Number 13's test of a hole that a give reads: it has a page, and ends at or below the frontier. It has 32 bits and no branch, so that a
// loop over it takes several holes at a time. One less than no page wraps to the greatest number, which is below none.
pub fn hole_ends_valid(h: Hole, frontier: u32) -> bool
    ensures { result ≡ hole_ends_valid frontier h }
{
    let below = h.first <= frontier;
    let enough = h.pages.wrapping_sub(1) < frontier.wrapping_sub(h.first);
    below & enough
}

// Of one that a commit reads: it has at most `total` pages, too. The sum has 64 bits, so it does not wrap.
pub fn hole_valid(h: Hole, total: u32, frontier: u32) -> bool
    ensures { result ≡ hole_valid total frontier h }
{
    let few = h.pages <= total;
    let some = 1 <= h.pages;
    let below = (h.first as u64) + (h.pages as u64) <= (frontier as u64);
    few & some & below
}
