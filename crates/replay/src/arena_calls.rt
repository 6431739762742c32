// The calls that go straight to the arena: each is made with the numbers of its line, and what it answers is put down.
ghost use Rattle.std.specs.Prelude.{◌≡◌, slice_index, slice_set};
ghost use Rattle.words.specs.Host.{digit};
ghost use Rattle.vigbuso.specs.Direct.{commit_on, grow_on, release_on, contains_on, report_on};
ghost use Rattle.replay.specs.way.Line.{low};
ghost use Rattle.replay.specs.way.Calls.{Made, committed, grown, reported};

use super::line::{self, Line, Numbers};
use vigbuso::arena_calls::{
    vigbuso_commit, vigbuso_contains, vigbuso_grow_frontier, vigbuso_release, vigbuso_report,
};

pub fn commit(meta: &mut [u32], line: &Line, answers: &mut Numbers)
    ensures { Made (commit_on meta.old (low (slice_index line.now.numbers 1)) (slice_index line.now.numbers 2)).book (committed (commit_on meta.old (low (slice_index line.now.numbers 1)) (slice_index line.now.numbers 2)) answers.old) meta.new answers.new }
{
    let mut first = line::low(answers[1]);
    let mut fresh = line::low(answers[2]);
    let code = vigbuso_commit(meta, line.word(1), line.numbers[2], &mut first, &mut fresh);
    answers[0] = u64::from(code);
    answers[1] = u64::from(first);
    answers[2] = u64::from(fresh);
}

pub fn grow(meta: &mut [u32], line: &Line, answers: &mut Numbers)
    ensures { Made (grow_on meta.old (low (slice_index line.now.numbers 1)) (slice_index line.now.numbers 2) (slice_index line.now.numbers 3) (slice_index line.now.numbers 4)).book (grown (grow_on meta.old (low (slice_index line.now.numbers 1)) (slice_index line.now.numbers 2) (slice_index line.now.numbers 3) (slice_index line.now.numbers 4)) answers.old) meta.new answers.new }
{
    let mut grown = line::low(answers[1]);
    let n = &line.numbers;
    let code = vigbuso_grow_frontier(meta, line.word(1), n[2], n[3], n[4], &mut grown);
    answers[0] = u64::from(code);
    answers[1] = u64::from(grown);
}

pub fn release(meta: &mut [u32], line: &Line, answers: &mut Numbers)
    ensures { Made (release_on meta.old (low (slice_index line.now.numbers 1)) (slice_index line.now.numbers 2) (slice_index line.now.numbers 3)).book (slice_set answers.old 0 (release_on meta.old (low (slice_index line.now.numbers 1)) (slice_index line.now.numbers 2) (slice_index line.now.numbers 3)).code) meta.new answers.new }
{
    let code = vigbuso_release(meta, line.word(1), line.numbers[2], line.numbers[3]);
    answers[0] = u64::from(code);
}

pub fn contains(meta: &[u32], line: &Line, answers: &mut Numbers)
    ensures { answers.new ≡ slice_set answers.old 0 (digit (contains_on meta.now (slice_index line.now.numbers 1) (slice_index line.now.numbers 2))) }
{
    answers[0] = u64::from(vigbuso_contains(meta, line.numbers[1], line.numbers[2]));
}

pub fn report(meta: &[u32], answers: &mut Numbers)
    ensures { answers.new ≡ reported (report_on meta.now) answers.old }
{
    let mut figures: [u64; 6] = [0; 6];
    answers[0] = u64::from(vigbuso_report(meta, &mut figures));
    answers[1] = figures[0];
    answers[2] = figures[1];
    answers[3] = figures[2];
    answers[4] = figures[3];
    answers[5] = figures[4];
    answers[6] = figures[5];
}
