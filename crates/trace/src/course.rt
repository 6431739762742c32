// A trace's words in turn, up to the first that stops it. The three lent lists are passed one by one: a struct of them that is lent by &mut could be left
// with other lists in it, and each contract would have to rule that out.
ghost use Rattle.std.specs.Prelude.{[], ◌≡◌, ◌≤◌, length};
ghost use Rattle.rules.specs.Rules.{rules_of};
ghost use Rattle.arena.specs.Open.{opened};
ghost use Rattle.trace.specs.way.Steps.{lent};
ghost use Rattle.trace.specs.way.Course.{Coursed, Ran};
ghost use Rattle.trace.specs.way.Pre.{BookPre};

use crate::steps::word;
use crate::tally::Tally;
use crate::word_lists::restore_kinds;

// How many words were carried out, and what they came to.
#[derive(Clone, Copy)]
pub struct Course {
    pub carried: usize,
    pub tally: Tally,
}

pub fn carry_out(
    meta: &mut [u32],
    n: u32,
    trace: &[u32],
    blocks: &mut [u64],
    figures: &mut [u64],
) -> Course
    requires { BookPre n meta.old }
    ensures { Coursed result n (lent meta.old blocks.old figures.old) (lent meta.new blocks.new figures.new) trace.now }
{
    let mut tally = Tally::START;
    for (i, w) in trace.iter().enumerate() {
        let Some(next) = word(meta, n, *w, blocks, figures, tally) else {
            return Course { carried: i, tally };
        };
        tally = next;
    }
    Course {
        carried: trace.len(),
        tally,
    }
}

// An opening without rows.
fn open_plain(meta: &mut [u32], pages: u32)
    requires { 40000 ≤ length meta.old }
    ensures { meta.new ≡ opened pages (rules_of []) meta.old }
{
    let none: [u32; 1] = [0; 1];
    direct::open::open(meta, pages, &none[..0]);
}

// A whole trace: it opens the book, goes on word by word, and leaves the blocks as they were handed out.
pub fn run(
    meta: &mut [u32],
    n: u32,
    trace: &[u32],
    blocks: &mut [u64],
    figures: &mut [u64],
) -> Course
    requires { BookPre n meta.old }
    ensures { Ran result n (lent meta.old blocks.old figures.old) (lent meta.new blocks.new figures.new) trace.now }
{
    open_plain(meta, n);
    let course = carry_out(meta, n, trace, blocks, figures);
    restore_kinds(&mut blocks[..course.tally.at]);
    course
}
