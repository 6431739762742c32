// A growth at the frontier: the added pages are settled as a commit of them is.
ghost use Rattle.std.specs.Prelude.{◌≡◌, ◌+◌, ◌≤◌, false};
ghost use Rattle.words.specs.Limits.{max_pages};
ghost use Rattle.words.specs.Host.{commit_granted};
ghost use Rattle.arena.specs.Valid.{grow_gives, grow_valid};
ghost use Rattle.runs.specs.way.Act.{grow_with};
ghost use Rattle.runs.specs.way.Pre.{RecordIn, EndsIn, RequestIn, BookIn};
ghost use Rattle.runs.specs.way.Told.{told_commit};
ghost use Rattle.runs.specs.Answer.{Answers};

use super::{Arena, ArenaRequest, Run, act, load, store};
use fields::arena::ArenaField;
use words::Host;
use words::refusal::Refusal;

// The run that ends at page `end` grows by the request's pages, if the frontier is there and the arena suffices.
pub fn grow_run(
    meta: &mut [u32],
    a: Arena,
    end: u32,
    q: ArenaRequest,
) -> Result<Option<Run>, Refusal>
    requires { RequestIn meta.old q × RecordIn q.size a × (commit_granted q.host ≡ false → a.frontier ≡ end → a.frontier + q.pages ≤ q.size → EndsIn meta.old a) }
    ensures { Answers (told_commit result) meta.new (grow_with q.size meta.old a q.host end q.pages q.owner q.held) }
{
    if a.frontier != end {
        store::store_record(meta, a);
        return Ok(None);
    }
    act::from_frontier(meta, a, a.state, q)
}

// Are the added pages given: the run could grow, and the commit is not granted.
fn grow_gives(meta: &[u32], size: u32, host: u32, end: u32, pages: u32) -> bool
    requires { BookIn meta.now size × (end ≤ max_pages) × (pages ≤ max_pages + 1) }
    ensures { result ≡ grow_gives size meta.now host end pages }
{
    if Host::of(host).commit_granted() {
        return false;
    }
    if ArenaField::Frontier.get(meta) != end {
        return false;
    }
    end + pages <= size
}

// Number 13's test for a growth: the holes are read where the pages are given.
pub fn grow_valid(meta: &[u32], size: u32, host: u32, end: u32, pages: u32) -> bool
    requires { BookIn meta.now size × (end ≤ max_pages) × (pages ≤ max_pages + 1) }
    ensures { result ≡ grow_valid size meta.now host end pages }
{
    if load::record_valid(meta, size) {
        if grow_gives(meta, size, host, end, pages) {
            return load::holes_valid(meta);
        }
        return true;
    }
    false
}
