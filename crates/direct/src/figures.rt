// A report: number 13 on what it reads, then its figures.
ghost use Rattle.std.specs.Prelude.{◌≡◌, true, ◌≤◌, length};
ghost use Rattle.model.specs.Heap.{parked_pages};
ghost use Rattle.arena.specs.Valid.{counts_valid, all_counts_valid, report_valid};
ghost use Rattle.arena.specs.Calls.{parked_runs, figures};
ghost use Rattle.runs.specs.way.Pre.{BookIn};
ghost use Rattle.direct.specs.Answer.{report_of};
ghost use Rattle.direct.specs.way.Pre.{RowIn, CountsIn, Parks};
ghost use Rattle.direct.specs.way.Told.{told_report};

use classes::CLASS_ROWS;
use fields::arena::ArenaField;
use fields::class::ClassField;
use model::Figures;
use runs::load;
use words::limits::MAX_PARKED;
use words::refusal::Refusal;

// A class's counts of parked runs are in their range.
fn counts_valid(meta: &[u32], c: u32) -> bool
    requires { RowIn meta.now c }
    ensures { result ≡ counts_valid meta.now c }
{
    ClassField::EmptyCount.get(meta, c) <= MAX_PARKED
        && ClassField::ColdCount.get(meta, c) <= MAX_PARKED
}

fn all_counts_valid(meta: &[u32]) -> bool
    requires { 40000 ≤ length meta.now }
    ensures { result ≡ all_counts_valid meta.now }
{
    (0..CLASS_ROWS).all(|c| counts_valid(meta, c))
}

// The pages of a class's parked runs: at most 256 empty and 256 cold ones of at most 8 pages.
fn parked_of(meta: &[u32], c: u32) -> u32
    requires { RowIn meta.now c × (counts_valid meta.now c ≡ true) }
    ensures { Parks meta.now c result }
{
    let runs = ClassField::EmptyCount.get(meta, c) + ClassField::ColdCount.get(meta, c);
    if runs == 0 {
        return 0;
    }
    runs * classes::shape_of(c).pages
}

// Of all classes: a fixed number of words is read, however long the arena is.
fn parked_pages(meta: &[u32]) -> u32
    requires { CountsIn meta.now }
    ensures { result ≡ parked_pages (parked_runs meta.now) }
{
    let mut sum = 0;
    for c in 0..CLASS_ROWS {
        sum += parked_of(meta, c);
    }
    sum
}

fn figures(meta: &[u32], size: u32) -> Figures
    requires { BookIn meta.now size × (report_valid size meta.now ≡ true) }
    ensures { result ≡ figures size meta.now }
{
    let a = load::load_record(meta);
    let parked = u64::from(parked_pages(meta));
    Figures {
        commits: a.commits,
        reuses: a.reuses,
        abandoned: a.abandoned,
        held: u64::from(ArenaField::Held.get(meta)),
        idle: u64::from(a.total) + u64::from(size - a.frontier) + parked,
        overlap: parked,
    }
}

pub fn report(meta: &[u32], size: u32) -> Result<Figures, Refusal>
    requires { BookIn meta.now size }
    ensures { told_report result ≡ report_of size meta.now }
{
    if !load::record_valid(meta, size) {
        return Err(Refusal::BookWord);
    }
    if all_counts_valid(meta) {
        return Ok(figures(meta, size));
    }
    Err(Refusal::BookWord)
}
