// Takes of blocks, small and medium, from number 5 on: the first source that has a page is made ready, then the list is filled.
ghost use Rattle.std.specs.Prelude.{◌≡◌, ◌+◌, ◌≤◌};
ghost use Rattle.words.specs.Limits.{max_pages};
ghost use Rattle.runs.specs.way.Pre.{BookIn};
ghost use Rattle.classes.specs.Shape.{shape_of};
ghost use Rattle.calls.specs.Take.{take_new, take_blocks, take_call};
ghost use Rattle.take.specs.way.TakePlan.{readied, FirstPre, TakeRunPre, TakeNewPre, SourcePre, CallPre, ListPre, Granted};
ghost use Rattle.take.specs.way.TakeAnswer.{Takes, TakesInto, Serves, Readies, Exceeds, within, take_list, on_run_at};
ghost use Rattle.words.specs.Refusal.{code_of};
ghost use Rattle.take.specs.Answer.{told_take};

use crate::take_fill::fill_from_list;
use crate::take_plan::{first_store, plan_take};
use classes::Shape;
use fields::class::ClassField;
use words::refusal::Refusal;

// How many blocks a take puts into the list, and whether all are virgin.
#[derive(Clone, Copy)]
pub struct Taken {
    pub count: u32,
    pub virgin: bool,
}

// A run that the arena gave, as the partial list's only page.
fn ready_run(meta: &mut [u32], c: u32, shape: Shape, q: u32) -> Taken
    requires { TakeRunPre meta.old c shape q }
    ensures { Serves result meta.new c shape (on_run_at meta.old c shape q) }
{
    lists::new_run(meta, shape, q);
    lists::link_partial(meta, c, q);
    Taken {
        count: shape.batch.min(shape.capacity),
        virgin: true,
    }
}

// A new run's blocks are more than there is room for, and a commit with all granted would answer a run.
fn exceeds(meta: &[u32], n: u32, shape: Shape, room: usize) -> bool
    requires { BookIn meta.now n × (shape.pages ≤ max_pages + 1) }
    ensures { Exceeds result room n meta.now shape }
{
    room < shape.batch.min(shape.capacity) as usize && runs::would_commit(meta, n, shape.pages)
}

// A new run from the arena; none is a take of no block.
fn ready_new(
    meta: &mut [u32],
    n: u32,
    c: u32,
    shape: Shape,
    host: u32,
    room: usize,
) -> Result<Option<Taken>, Refusal>
    requires take_new_pre { TakeNewPre n meta.old c shape }
    requires granted { Granted room shape host }
    ensures { Readies result meta.new c shape (within room meta.old (take_new n meta.old c shape host)) }
{
    if exceeds(meta, n, shape, room) {
        return Err(Refusal::ListTooShort);
    }
    match runs::commit_for(meta, n, host, shape.pages, c + 1)? {
        None => Ok(None),
        Some(run) => Ok(Some(ready_run(meta, c, shape, run.first))),
    }
}

// A parked page heads the partial list, where there is no partial page.
fn unpark_first(meta: &mut [u32], c: u32)
    requires { FirstPre meta.old c }
    ensures { meta.new ≡ readied meta.old c }
{
    if ClassField::Partial.get(meta, c) == 0 {
        let park = first_store(meta, c);
        let q = lists::store_top(meta, c, park) - 1;
        lists::unpark_run(meta, c, park, q);
    }
}

// The page of the source that the plan chose heads the partial list, if there is room for the blocks.
fn make_ready(
    meta: &mut [u32],
    n: u32,
    c: u32,
    shape: Shape,
    host: u32,
    room: usize,
) -> Result<Option<Taken>, Refusal>
    requires source_pre { SourcePre n meta.old c shape }
    requires granted { Granted room shape host }
    ensures { Readies result meta.new c shape (within room meta.old (take_blocks n meta.old c shape host)) }
{
    match plan_take(meta, n, c, shape)? {
        None => ready_new(meta, n, c, shape, host, room),
        Some(taken) => {
            if room < taken.count as usize {
                return Err(Refusal::ListTooShort);
            }
            unpark_first(meta, c);
            Ok(Some(taken))
        }
    }
}

// A class's take from number 5 on, on the book of an arena of n pages. A list that need not be whole, a trace's, has room for the blocks or is refused. The
// count and whether all are virgin go through out-parameters, as the exported takes have them: as a result's value they would go through memory, and a load
// would wait (docs/BACKEND.md).
fn take_within(
    meta: &mut [u32],
    n: u32,
    c: u32,
    host: u32,
    list: &mut [u64],
    whole: bool,
    count: &mut u32,
    virgin: &mut u32,
) -> Result<(), Refusal>
    requires { ListPre whole n meta.old c host }
    ensures { TakesInto (code_of result) meta.new list.new count.old count.new virgin.old virgin.new (take_list whole n meta.old c (shape_of c) host list.old) }
{
    let shape = classes::shape_of(c);
    if whole & (list.len() < shape.batch as usize) {
        return Err(Refusal::ListTooShort);
    }
    match make_ready(meta, n, c, shape, host, list.len())? {
        None => {
            *count = 0;
            *virgin = 0;
        }
        Some(taken) => {
            fill_from_list(meta, c, shape, list, taken.count);
            *count = taken.count;
            *virgin = u32::from(taken.virgin);
        }
    }
    Ok(())
}

pub fn take_into(
    meta: &mut [u32],
    n: u32,
    c: u32,
    host: u32,
    list: &mut [u64],
    count: &mut u32,
    virgin: &mut u32,
) -> Result<(), Refusal>
    requires { CallPre n meta.old c }
    ensures { TakesInto (code_of result) meta.new list.new count.old count.new virgin.old virgin.new (take_call n meta.old c (shape_of c) host list.old) }
{
    take_within(meta, n, c, host, list, true, count, virgin)
}

// The answer as one value.
pub fn take_call(
    meta: &mut [u32],
    n: u32,
    c: u32,
    host: u32,
    list: &mut [u64],
    whole: bool,
) -> Result<Taken, Refusal>
    requires { ListPre whole n meta.old c host }
    ensures { Takes (told_take result) meta.new list.new (take_list whole n meta.old c (shape_of c) host list.old) }
{
    let mut count = 0;
    let mut virgin = 0;
    take_within(meta, n, c, host, list, whole, &mut count, &mut virgin)?;
    Ok(Taken {
        count,
        virgin: virgin == 1,
    })
}
