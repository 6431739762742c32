// Replays stored histories on the compiled heap, and compares every answer with the original's, stored beside the call. The input has
// a call a line, as compare/src/history.rs writes them: a name, the arguments, and after `=` what the call returned and wrote.
#![tactic(auto)]

mod arena_calls;
mod line;
mod named;

ghost use Rattle.std.specs.Prelude.{◌≡◌, ◌≤◌, IfOk, length};

use line::{Line, Numbers};
use named::{Call, Kind};
use std::io;
use std::io::Read;
use vigbuso::arena_calls::vigbuso_open;
use vigbuso::chunk_calls::vigbuso_release_bin_chunks;
use vigbuso::release_calls::{vigbuso_medium_release_blocks, vigbuso_release_blocks};
use vigbuso::take_calls::{vigbuso_medium_take_blocks, vigbuso_take_blocks};

// The calls that lend the heap a part of the line or of the answers: each is made with the numbers of its line, and what it answers is put
// down. Their contracts say only that they are safe and end; the answers are compared with the stored ones.
// An opening has no answer stored: it must return 0. Its rule rows come after their number; a line of two words has none.
fn open(meta: &mut [u32], line: &Line, answers: &mut Numbers) {
    let rows = if line.count < 2 { 0 } else { line.word(2) };
    let e = line::end(3, rows, 4096);
    let words = line.words();
    answers[0] = u64::from(vigbuso_open(meta, line.numbers[1], &words[3..e]));
}

fn take_blocks(meta: &mut [u32], line: &Line, kind: Kind, answers: &mut Numbers) {
    let mut count = line::low(answers[1]);
    let mut virgin = line::low(answers[2]);
    let e = line::end(3, line.word(3), 4096);
    let (class, host) = (line.word(1), line.word(2));
    let list = &mut answers[3..e];
    let code = match kind {
        Kind::Small => vigbuso_take_blocks(meta, class, host, list, &mut count, &mut virgin),
        Kind::Medium => {
            vigbuso_medium_take_blocks(meta, class, host, list, &mut count, &mut virgin)
        }
    };
    answers[0] = u64::from(code);
    answers[1] = u64::from(count);
    answers[2] = u64::from(virgin);
}

fn release_blocks(meta: &mut [u32], line: &Line, kind: Kind, answers: &mut Numbers) {
    let mut fate = line::low(answers[1]);
    let e = line::end(4, line.word(3), 4096);
    let (class, host) = (line.word(1), line.word(2));
    let list = &line.numbers[4..e];
    let code = match kind {
        Kind::Small => vigbuso_release_blocks(meta, class, host, list, &mut fate),
        Kind::Medium => vigbuso_medium_release_blocks(meta, class, host, list, &mut fate),
    };
    answers[0] = u64::from(code);
    answers[1] = u64::from(fate);
}

// The list, the groups, and how many fates there is room for.
fn release_chunks(meta: &mut [u32], line: &Line, answers: &mut Numbers) {
    let a = line::end(4, line.word(3), 4094);
    let b = a + 1;
    let e = line::end(b, line.word(a), 4095);
    let f = line::end(1, line.word(e), 4096);
    let mut fates: [u32; 4096] = [line::low(answers[1]); 4096];
    let code = vigbuso_release_bin_chunks(
        meta,
        line.word(1),
        line.word(2),
        &line.numbers[4..a],
        &line.numbers[b..e],
        &mut fates[1..f],
    );
    fates[0] = code;
    for (answer, fate) in answers.iter_mut().zip(&fates) {
        *answer = u64::from(*fate);
    }
}

// Makes the call of a line. A name that is not known answers what no line tells.
fn call(meta: &mut [u32], line: &Line, answers: &mut Numbers) {
    let Some(call) = Call::named(line.numbers[0]) else {
        *answers = [answers[0].wrapping_add(1); 4096];
        return;
    };
    match call {
        Call::Nothing => {}
        Call::Open => open(meta, line, answers),
        Call::Commit => arena_calls::commit(meta, line, answers),
        Call::Grow => arena_calls::grow(meta, line, answers),
        Call::Release => arena_calls::release(meta, line, answers),
        Call::Contains => arena_calls::contains(meta, line, answers),
        Call::Report => arena_calls::report(meta, answers),
        Call::TakeBlocks(kind) => take_blocks(meta, line, kind, answers),
        Call::ReleaseBlocks(kind) => release_blocks(meta, line, kind, answers),
        Call::ReleaseChunks => release_chunks(meta, line, answers),
    }
}

// Whether the answers are those told after the `=`, up to the place `told`, and the places past them hold what they held.
fn same(line: &Line, told: usize, answers: &Numbers, fill: u64) -> bool {
    for i in line.equals..4095 {
        let due = if i < told { line.numbers[i + 1] } else { fill };
        if answers[i - line.equals] != due {
            return false;
        }
    }
    true
}

// Whether the call of a line answers what the line tells, and leaves the other places for answers, which hold the low half of the last
// argument before it. A line with no `=` tells nothing: all places keep a 0, an opening's return value too.
fn replayed(meta: &mut [u32], line: &Line) -> bool {
    let fill = u64::from(line.word(line.equals.wrapping_sub(1) % 4096));
    let mut answers: Numbers = [fill; 4096];
    call(meta, line, &mut answers);
    let told = if line.equals == 0 { 0 } else { line.count };
    same(line, told, &answers, fill)
}

// The line that is read, how many lines were replayed, and how many answered something else.
#[derive(Drop)]
struct Replay {
    line: Line,
    lines: u64,
    differ: u64,
}

impl Replay {
    // All lines of a text.
    fn of(text: &[u8], meta: &mut [u32]) -> Replay {
        let mut replay = Replay {
            line: Line::new(),
            lines: 0,
            differ: 0,
        };
        for b in text {
            replay.byte(meta, *b);
        }
        replay
    }

    // A byte more; at a line's end its call is made.
    fn byte(&mut self, meta: &mut [u32], b: u8) {
        if b != b'\n' {
            self.line.byte(b);
            return;
        }
        let same = replayed(meta, &self.line);
        self.line.end();
        self.lines = self.lines.wrapping_add(1);
        self.differ = self.differ.wrapping_add(u64::from(!same));
    }
}

// Room for the stored calls. That its length is said lets it be lent as a slice.
fn room() -> [u8; 524288]
    ensures { 524288 ≡ length result }
{
    [0; 524288]
}

// A book for 272 pages, which the history with the fates 2 and 6 opens.
fn book() -> [u32; 1158464]
    ensures { 1158464 ≡ length result }
{
    [0; 1158464]
}

// Reads until the room is full or the input ends, and returns how many bytes it put at the start of the room. A read gives as many as it
// will, so no `for` goes over them.
fn read_full(input: &mut impl Read, text: &mut [u8]) -> io::Result<usize>
    ensures { IfOk result (λ n. n ≤ length text.new) }
{
    let mut done = 0;
    while done < text.len() {
        let n = input.read(&mut text[done..])?;
        if n == 0 {
            break;
        }
        done += n;
    }
    Ok(done)
}

fn main(rt: HostRuntime) -> io::Result<()> {
    let mut text = room();
    let mut meta = book();
    let n = read_full(&mut rt.stdin(), &mut text)?;
    let end = Replay::of(&text[..n], &mut meta);
    println!(rt; "{} lines replayed, {} differ", end.lines, end.differ)
}
