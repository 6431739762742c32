// The arena's record, lent by `&mut`: a commit and a give change it in place, each by what it came to.
ghost use Rattle.std.specs.Prelude.{◌≡◌, ◌+◌, ◌^◌, ◌<◌, ◌≤◌, if◌then◌else◌};
ghost use Rattle.model.specs.Arena.{more};
ghost use Rattle.runs.specs.way.Change.{drawn_by, gained_by};

use crate::Arena;

// What a commit comes to: the state and the number of holes that it leaves, the pages that the frontier moves on by or that the
// holes lose, and whether it is counted, as a commit and as a reuse.
#[derive(Clone, Copy)]
pub struct Draw {
    pub state: u32,
    pub count: u32,
    pub ahead: u32,
    pub cut: u32,
    pub commit: bool,
    pub reuse: bool,
}

// What a give comes to: the number of holes that it leaves, the pages that they gain, and whether the run is abandoned.
#[derive(Clone, Copy)]
pub struct Gain {
    pub count: u32,
    pub pages: u32,
    pub abandoned: bool,
}

// A count and one, kept to 64 bits.
fn more_if(n: u64, so: bool) -> u64
    ensures { result ≡ (if so then more n else n) }
{
    if so { n.wrapping_add(1) } else { n }
}

fn drawn(a: Arena, d: Draw) -> Arena
    requires { (a.frontier + d.ahead < 2 ^ 32) × (d.cut ≤ a.total) }
    ensures { result ≡ drawn_by d a }
{
    Arena {
        state: d.state,
        frontier: a.frontier + d.ahead,
        count: d.count,
        total: a.total - d.cut,
        commits: more_if(a.commits, d.commit),
        reuses: more_if(a.reuses, d.reuse),
        abandoned: a.abandoned,
    }
}

pub fn commit(arena: &mut Arena, d: Draw)
    requires { (arena.old.frontier + d.ahead < 2 ^ 32) × (d.cut ≤ arena.old.total) }
    ensures { arena.new ≡ drawn_by d arena.old }
{
    *arena = drawn(*arena, d);
}

fn gained(a: Arena, p: Gain) -> Arena
    requires { a.total + p.pages < 2 ^ 32 }
    ensures { result ≡ gained_by p a }
{
    Arena {
        state: a.state,
        frontier: a.frontier,
        count: p.count,
        total: a.total + p.pages,
        commits: a.commits,
        reuses: a.reuses,
        abandoned: more_if(a.abandoned, p.abandoned),
    }
}

pub fn give(arena: &mut Arena, p: Gain)
    requires { arena.old.total + p.pages < 2 ^ 32 }
    ensures { arena.new ≡ gained_by p arena.old }
{
    *arena = gained(*arena, p);
}
