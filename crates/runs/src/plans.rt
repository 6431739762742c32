// What a commit of some pages, or a give, finds among the holes that the words hold. The last ones are looked at first.
ghost use Rattle.std.specs.Prelude.{◌≡◌, ◌+◌, ◌^◌, ◌<◌, ◌≤◌, length};
ghost use Rattle.facts.specs.Lists.{every};
ghost use Rattle.model.specs.HoleStore.{hole_slots};
ghost use Rattle.arena.specs.Load.{load_holes};
ghost use Rattle.arena.specs.Valid.{hole_ends_valid, hole_valid};
ghost use Rattle.runs.specs.way.Plan.{plan_of, chosen, neighbours_of};
ghost use Rattle.runs.specs.way.Scan.{best_of, code_at, neighbours_from};

use super::holes::{
    Best, Edges, HALF, Neighbours, better, hole_ends_valid, hole_from, hole_valid, neighbours_at,
    scan, touch,
};
use crate::Arena;
use model::Hole;
use words::refusal::Refusal;

// What the least key says: its hole, if that has enough pages. Of one that has not, the pages beyond the need wrapped.
fn code_at(need: u32, best: Best) -> u32
    ensures { result ≡ code_at need best }
{
    if HALF <= best.key / HALF + (need as u64) {
        return 0;
    }
    best.code
}

// Four holes, by value: so many stay in registers.
fn part_at(meta: &[u32], i: u32) -> [Hole; 4]
    requires { (i + 4 ≤ hole_slots) × (40000 ≤ length meta.now) }
    ensures { result ≡ load_holes meta.now i 4 }
{
    let a = hole_from(meta, i);
    let b = hole_from(meta, i + 1);
    let c = hole_from(meta, i + 2);
    let d = hole_from(meta, i + 3);
    [a, b, c, d]
}

fn part_valid(part: [Hole; 4], total: u32, frontier: u32) -> bool
    ensures { result ≡ every (hole_valid total frontier) part }
{
    let a = hole_valid(part[0], total, frontier);
    let b = hole_valid(part[1], total, frontier);
    let c = hole_valid(part[2], total, frontier);
    let d = hole_valid(part[3], total, frontier);
    a & b & c & d
}

// The best of a part, which is lent whole, and of those behind it.
fn scan_part(part: [Hole; 4], i: u32, need: u32, behind: Best) -> Best
    requires { i + 4 < 2 ^ 32 }
    ensures { result ≡ best_of need i part behind }
{
    scan(&part, i, 4, need, behind)
}

// The same of the holes that touch a run.
fn touch_part(part: [Hole; 4], i: u32, run: Edges, behind: Neighbours) -> Neighbours
    requires { i + 4 < 2 ^ 32 }
    ensures { result ≡ neighbours_from run i part behind }
{
    touch(&part, i, 4, run, behind)
}

// The chosen hole's index: the first hole that is out of its range ends it. The holes are looked at in
// parts of four; fewer than four are left at the end, and are weighed one by one, for they would cost as much as four.
pub fn search(
    meta: &[u32],
    count: u32,
    total: u32,
    frontier: u32,
    pages: u32,
) -> Result<Option<u32>, Refusal>
    requires { (count ≤ hole_slots) × (40000 ≤ length meta.now) }
    ensures { result ≡ chosen (plan_of (load_holes meta.now 0 count) total frontier pages) }
{
    let mut best = Best {
        key: u64::MAX,
        code: 0,
    };
    let mut left = count;
    while 4 <= left {
        left -= 4;
        let part = part_at(meta, left);
        if !part_valid(part, total, frontier) {
            return Err(Refusal::BookWord);
        }
        best = scan_part(part, left, pages, best);
    }
    while 0 < left {
        left -= 1;
        let h = hole_from(meta, left);
        if !hole_valid(h, total, frontier) {
            return Err(Refusal::BookWord);
        }
        best = better(pages, left, h, best);
    }
    match code_at(pages, best) {
        0 => Ok(None),
        code => Ok(Some(code - 1)),
    }
}

// With no hole stored none is read.
pub fn plan(meta: &[u32], a: Arena, pages: u32) -> Result<Option<u32>, Refusal>
    requires { (a.count ≤ hole_slots) × (40000 ≤ length meta.now) }
    ensures { result ≡ chosen (plan_of (load_holes meta.now 0 a.count) a.total a.frontier pages) }
{
    if a.count == 0 {
        return Ok(None);
    }
    search(meta, a.count, a.total, a.frontier, pages)
}

// Is every hole in a give's range. None ends the loop, so that it takes several at a time.
pub fn all_end_valid(meta: &[u32], count: u32, frontier: u32) -> bool
    requires { (count ≤ hole_slots) × (40000 ≤ length meta.now) }
    ensures { result ≡ every (hole_ends_valid frontier) (load_holes meta.now 0 count) }
{
    let mut valid = true;
    let mut left = count;
    while 0 < left {
        left -= 1;
        let h = hole_from(meta, left);
        valid = hole_ends_valid(h, frontier) & valid;
    }
    valid
}

// The holes that a run touches, looked for in the parts of a search.
pub fn neighbours(meta: &[u32], count: u32, run: Edges) -> Neighbours
    requires { (count ≤ hole_slots) × (40000 ≤ length meta.now) }
    ensures { result ≡ neighbours_of (load_holes meta.now 0 count) run }
{
    let mut sides = Neighbours {
        before: 0,
        after: 0,
    };
    let mut left = count;
    while 4 <= left {
        left -= 4;
        let part = part_at(meta, left);
        sides = touch_part(part, left, run, sides);
    }
    while 0 < left {
        left -= 1;
        let h = hole_from(meta, left);
        sides = neighbours_at(run, left, h, sides);
    }
    sides
}
