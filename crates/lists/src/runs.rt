// Whose the pages of a run are.
ghost use Rattle.std.specs.Prelude.{◌≡◌, ◌+◌};
ghost use Rattle.facts.specs.Lists.{every, below};
ghost use Rattle.pages.specs.Runs.{of_run, whole, name_run};
ghost use Rattle.pages.specs.way.Pre.{OfRunPre, WholePre, RunPre};

use classes::Shape;
use fields::arena::ArenaField;
use fields::page::PageField;

// Page k of the run at q is the class's, and names q.
fn of_run(meta: &[u32], c: u32, q: u32, k: u32) -> bool
    requires { OfRunPre meta.now c q (k + 1) }
    ensures { result ≡ of_run meta.now c q k }
{
    PageField::Owner.get(meta, q + k) == c + 1 && PageField::First.get(meta, q + k) == q
}

// Every page of the run at q is the class's and names q.
fn all_of_run(meta: &[u32], c: u32, q: u32, pages: u32) -> bool
    requires { OfRunPre meta.now c q pages }
    ensures { result ≡ every (of_run meta.now c q) (below pages) }
{
    (0..pages).all(|k| of_run(meta, c, q, k))
}

// The run at q is the class's, wholly below the arena's length n and the frontier; q may be anything.
pub fn whole(meta: &[u32], n: u32, c: u32, shape: Shape, q: u32) -> bool
    requires { WholePre meta.now n c }
    ensures { result ≡ whole n meta.now shape c q }
{
    q <= n
        && shape.pages <= n - q
        && q + shape.pages <= ArenaField::Frontier.get(meta)
        && all_of_run(meta, c, q, shape.pages)
}

// The pages of the run at q name q.
pub fn name_run(meta: &mut [u32], q: u32, pages: u32)
    requires { RunPre meta.old q pages }
    ensures { meta.new ≡ name_run meta.old q q pages }
{
    for x in q..q + pages {
        PageField::First.set(meta, x, q);
    }
}
