// Opening: 0 in the first 1376 words, then the arena's length, the format and the limits of every class.
ghost use Rattle.std.specs.Prelude.{◌≡◌, ◌≤◌, ◌<◌, length};
ghost use Rattle.words.specs.Limits.{class_rows};
ghost use Rattle.rules.specs.Rules.{rules_of};
ghost use Rattle.arena.specs.Open.{cleared, head_words, limited, ruled, opened};

use classes::{CLASS_COUNT, pool_id};
use fields::arena::ArenaField;
use fields::class::ClassField;
use words::limits::BOOK_FORMAT;

fn clear_head(meta: &mut [u32])
    requires { 40000 ≤ length meta.old }
    ensures { meta.new ≡ cleared meta.old head_words }
{
    for i in 0..1376 {
        meta[i] = 0;
    }
}

// The limits of one class.
fn set_limits(meta: &mut [u32], rows: &[u32], c: u32)
    requires in_bounds { 40000 ≤ length meta.old }
    requires c_lt_class_rows { c < class_rows }
    ensures { meta.new ≡ limited meta.old c (rules_of rows.now c) }
{
    let limits = rules::limits_of(rows, c);
    ClassField::EmptyLimit.set(meta, c, limits.empty);
    ClassField::ColdLimit.set(meta, c, limits.cold);
}

// The heap's classes, then the pool's: two loops, so that neither asks of a class whose it is.
fn set_rules(meta: &mut [u32], rows: &[u32])
    requires { 40000 ≤ length meta.old }
    ensures { meta.new ≡ ruled meta.old (rules_of rows.now) class_rows }
{
    for c in 0..CLASS_COUNT {
        set_limits(meta, rows, c);
    }
    for k in 0..CLASS_COUNT {
        set_limits(meta, rows, pool_id(k));
    }
}

pub fn open(meta: &mut [u32], pages: u32, rows: &[u32])
    requires { 40000 ≤ length meta.old }
    ensures { meta.new ≡ opened pages (rules_of rows.now) meta.old }
{
    clear_head(meta);
    ArenaField::Size.set(meta, pages);
    ArenaField::Format.set(meta, BOOK_FORMAT);
    set_rules(meta, rows);
}
