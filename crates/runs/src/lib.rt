// The arena on the words: its record and holes are read and tested, one step is done, and what changed is written. The holes are lent as slices, the
// record by `&mut`, as document 01 names them.
#![tactic(auto)]

mod act;
pub mod give;
pub mod growth;
mod holes;
pub mod load;
pub mod owners;
mod plans;
mod record;
mod store;

ghost use Rattle.std.specs.Prelude.{◌≡◌, ◌+◌, ◌≤◌};
ghost use Rattle.words.specs.Limits.{max_pages};
ghost use Rattle.arena.specs.Calls.{commit_for};
ghost use Rattle.runs.specs.way.Pre.{BookIn};
ghost use Rattle.runs.specs.way.Plan.{chosen};
ghost use Rattle.runs.specs.way.Found.{found, Finds};
ghost use Rattle.runs.specs.way.Told.{told_commit};
ghost use Rattle.runs.specs.Answer.{Answers};

use fields::arena::ArenaField;
use words::refusal::Refusal;

// The arena's state, frontier and three counts, with the number of holes and of the pages in them.
#[derive(Clone, Copy)]
pub struct Arena {
    pub state: u32,
    pub frontier: u32,
    pub count: u32,
    pub total: u32,
    pub commits: u64,
    pub reuses: u64,
    pub abandoned: u64,
}

// What is asked of the arena: pages for an owner, in an arena of so many pages; the host word, and HELD as it was.
#[derive(Clone, Copy)]
pub struct ArenaRequest {
    pub size: u32,
    pub pages: u32,
    pub host: u32,
    pub owner: u32,
    pub held: u32,
}

// A run that goes to the holes, and whether its pages are to be nobody's: those of a hole are already.
#[derive(Clone, Copy)]
pub struct Back {
    pub first: u32,
    pub pages: u32,
    pub clear: bool,
}

// A run that a commit found: its first page, and whether it comes from the frontier.
#[derive(Clone, Copy)]
pub struct Run {
    pub first: u32,
    pub fresh: bool,
}

// The hole that a commit takes its run from, where every word that it reads is in its range. Nothing is written.
fn find(meta: &[u32], size: u32, pages: u32) -> Result<Option<u32>, Refusal>
    requires { BookIn meta.now size }
    ensures { result ≡ chosen (found size meta.now pages) }
{
    if load::record_valid(meta, size) {
        let a = load::load_record(meta);
        return plans::plan(meta, a, pages);
    }
    Err(Refusal::BookWord)
}

// Would a commit answer a run, all being granted. It goes by the commit's search: as a second caller of `find` it would keep that out of the commit, and a
// commit with ten holes would take twice its time.
pub fn would_commit(meta: &[u32], size: u32, pages: u32) -> bool
    requires { BookIn meta.now size × (pages ≤ max_pages + 1) }
    ensures { Finds result size meta.now pages }
{
    if load::record_valid(meta, size) {
        let a = load::load_record(meta);
        let Ok(hole) = plans::search(meta, a.count, a.total, a.frontier, pages) else {
            return false;
        };
        if a.state == 2 {
            return false;
        }
        return hole.is_some() || a.frontier + pages <= size;
    }
    false
}

// The run, or none; a refusal comes before anything is written. A run longer than any arena is asked for by one page more than that.
pub fn commit_for(
    meta: &mut [u32],
    size: u32,
    host: u32,
    pages: u32,
    owner: u32,
) -> Result<Option<Run>, Refusal>
    requires { BookIn meta.old size × (pages ≤ max_pages + 1) }
    ensures { Answers (told_commit result) meta.new (commit_for size meta.old host pages owner) }
{
    let hole = find(meta, size, pages)?;
    let q = ArenaRequest {
        size,
        pages,
        host,
        owner,
        held: ArenaField::Held.get(meta),
    };
    let a = load::load_record(meta);
    act::commit_planned(meta, a, hole, q)
}
