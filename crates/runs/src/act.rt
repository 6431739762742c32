// A commit: the plan reads and tests, the act writes, and nothing fails in it any more.
ghost use Rattle.std.specs.Prelude.{◌≡◌, ◌+◌, ◌^◌, ◌<◌, ◌≤◌, false, length};
ghost use Rattle.words.specs.Limits.{max_pages};
ghost use Rattle.words.specs.Host.{commit_granted};
ghost use Rattle.fields.specs.Field.{arena, held, put};
ghost use Rattle.arena.specs.Load.{load_hole};
ghost use Rattle.arena.specs.Owners.{own};
ghost use Rattle.runs.specs.way.Record.{store_record};
ghost use Rattle.runs.specs.way.Change.{drawn_by};
ghost use Rattle.runs.specs.way.Plan.{hole_code};
ghost use Rattle.runs.specs.way.Act.{with_state, Draws, end_none, end_given, from_frontier, hole_drawn, commit_drawn, next_state, commit_planned};
ghost use Rattle.runs.specs.way.Pre.{RecordIn, HoleIn, PlanIn, EndsIn, RequestIn, RunIn, BackIn};
ghost use Rattle.runs.specs.way.Told.{told_commit};
ghost use Rattle.runs.specs.Answer.{Answers};

use super::holes::hole_from;
use super::record::Draw;
use super::{Arena, ArenaRequest, Back, Run, give, owners, record, store};
use fields::arena::ArenaField;
use model::Hole;
use words::Host;
use words::refusal::Refusal;

// No run: of the record only the state can change.
fn end_none(meta: &mut [u32], a: Arena, state: u32)
    requires { 40000 ≤ length meta.old }
    ensures { meta.new ≡ (end_none meta.old (with_state state a)).book }
{
    let d = Draw {
        state,
        count: a.count,
        ahead: 0,
        cut: 0,
        commit: false,
        reuse: false,
    };
    store::store_drawn(meta, a, d);
}

// The run is the owner's, and counts as held.
fn end_run(meta: &mut [u32], a: Arena, d: Draw, first: u32, q: ArenaRequest)
    requires { (a.frontier + d.ahead < 2 ^ 32) × (d.cut ≤ a.total) × RunIn meta.old first q }
    ensures { meta.new ≡ put (own (store_record meta.old (drawn_by d a)) first q.pages q.owner) (arena held) (q.held + q.pages) }
{
    store::store_drawn(meta, a, d);
    owners::own(meta, first, q.pages, q.owner);
    ArenaField::Held.set(meta, q.held + q.pages);
}

// The commit is not granted: the run is given.
fn end_given(meta: &mut [u32], mut a: Arena, d: Draw, run: Back)
    requires { (a.frontier + d.ahead < 2 ^ 32) × (d.cut ≤ a.total) × BackIn meta.old (drawn_by d a) run }
    ensures { meta.new ≡ (end_given meta.old (drawn_by d a) run.pages run.first run.clear).book }
{
    record::commit(&mut a, d);
    give::give_run(meta, a, run);
}

// A run at the frontier is fresh; its pages are nobody's if it is given.
pub fn from_frontier(
    meta: &mut [u32],
    a: Arena,
    state: u32,
    q: ArenaRequest,
) -> Result<Option<Run>, Refusal>
    requires { RequestIn meta.old q × RecordIn q.size a × (commit_granted q.host ≡ false → a.frontier + q.pages ≤ q.size → EndsIn meta.old a) }
    ensures { Answers (told_commit result) meta.new (from_frontier q.size meta.old (with_state state a) q.pages q.host q.owner q.held) }
{
    if q.size < a.frontier + q.pages {
        end_none(meta, a, state);
        return Ok(None);
    }
    let granted = Host::of(q.host).commit_granted();
    let d = Draw {
        state,
        count: a.count,
        ahead: q.pages,
        cut: 0,
        commit: granted,
        reuse: false,
    };
    if granted {
        end_run(meta, a, d, a.frontier, q);
        return Ok(Some(Run {
            first: a.frontier,
            fresh: true,
        }));
    }
    let run = Back {
        first: a.frontier,
        pages: q.pages,
        clear: true,
    };
    end_given(meta, a, d, run);
    Ok(None)
}

// The front of hole `i`, which is `x`, is cut off, or the last hole comes into its place; the number of holes afterwards is answered.
fn draw(meta: &mut [u32], a: Arena, i: u32, x: Hole, pages: u32) -> u32
    requires { (40000 ≤ length meta.old) × RecordIn max_pages a × HoleIn a i x pages × (x ≡ load_hole meta.old i) }
    ensures { Draws meta.old a pages i meta.new result }
{
    if pages < x.pages {
        store::store_hole(meta, i, x.first + pages, x.pages - pages);
        return a.count;
    }
    let last = hole_from(meta, a.count - 1);
    store::store_hole(meta, i, last.first, last.pages);
    a.count - 1
}

fn from_hole(
    meta: &mut [u32],
    a: Arena,
    state: u32,
    i: u32,
    q: ArenaRequest,
) -> Result<Option<Run>, Refusal>
    requires { RequestIn meta.old q × RecordIn q.size a × HoleIn a i (load_hole meta.old i) q.pages × EndsIn meta.old a }
    ensures { Answers (told_commit result) meta.new (hole_drawn meta.old (with_state state a) i q.pages q.host q.owner q.held) }
{
    let x = hole_from(meta, i);
    let count = draw(meta, a, i, x, q.pages);
    let granted = Host::of(q.host).commit_granted();
    let d = Draw {
        state,
        count,
        ahead: 0,
        cut: q.pages,
        commit: granted,
        reuse: granted,
    };
    if granted {
        end_run(meta, a, d, x.first, q);
        return Ok(Some(Run {
            first: x.first,
            fresh: false,
        }));
    }
    let run = Back {
        first: x.first,
        pages: q.pages,
        clear: false,
    };
    end_given(meta, a, d, run);
    Ok(None)
}

fn commit_drawn(
    meta: &mut [u32],
    a: Arena,
    state: u32,
    hole: Option<u32>,
    q: ArenaRequest,
) -> Result<Option<Run>, Refusal>
    requires { RequestIn meta.old q × RecordIn q.size a × PlanIn meta.old a (hole_code hole) q.pages × EndsIn meta.old a }
    ensures { Answers (told_commit result) meta.new (commit_drawn q.size meta.old (with_state state a) (hole_code hole) q.pages q.host q.owner q.held) }
{
    match hole {
        None => from_frontier(meta, a, state, q),
        Some(i) => from_hole(meta, a, state, i, q),
    }
}

// The first commit asks for the reservation.
fn next_state(state: u32, host: u32) -> u32
    ensures { result ≡ next_state state host }
{
    if state != 0 {
        return state;
    }
    if Host::of(host).reservation_granted() {
        return 1;
    }
    2
}

// The run comes from this hole; with none, from the frontier.
pub fn commit_planned(
    meta: &mut [u32],
    a: Arena,
    hole: Option<u32>,
    q: ArenaRequest,
) -> Result<Option<Run>, Refusal>
    requires { RequestIn meta.old q × RecordIn q.size a × PlanIn meta.old a (hole_code hole) q.pages × EndsIn meta.old a }
    ensures { Answers (told_commit result) meta.new (commit_planned q.size meta.old a (hole_code hole) q.pages q.host q.owner q.held) }
{
    let s = next_state(a.state, q.host);
    if s == 2 {
        end_none(meta, a, s);
        return Ok(None);
    }
    commit_drawn(meta, a, s, hole, q)
}
