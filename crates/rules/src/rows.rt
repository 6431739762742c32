// The rule rows that an opening is given, four words each.
ghost use Rattle.std.specs.Prelude.{◌≡◌, map};
ghost use Rattle.words.specs.Refusal.{code_of};
ghost use Rattle.rules.specs.Rules.{plain_limits, rows_in, rows_for, bad_rows, two_rows, no_row, rows_fault, limits_in, rules_of};
ghost use Rattle.rules.specs.way.Rows.{row_of, row_for};

use super::Limits;
use super::row::RuleRow;
use classes::{CLASS_COUNT, NUM_CLASSES, number_of};
use words::refusal::Refusal;

// The whole rows of a list.
fn whole_rows(words: &[u32]) -> &[[u32; 4]]
    ensures { map row_of result.now ≡ rows_in words.now }
{
    let (rows, _) = words.as_chunks::<4>();
    rows
}

fn bad_rows(words: &[u32]) -> bool
    ensures { result ≡ bad_rows words.now }
{
    words.len() % 4 != 0
        || !whole_rows(words)
            .iter()
            .all(|row| RuleRow::from(*row).is_good())
}

// How many rows class c has.
fn rows_for(words: &[u32], c: u32) -> usize
    ensures { result ≡ rows_for words.now c }
{
    whole_rows(words)
        .iter()
        .filter(|row| RuleRow::from(**row).spans(c))
        .count()
}

fn two_rows(words: &[u32]) -> bool
    ensures { result ≡ two_rows words.now }
{
    !words.is_empty() && (0..CLASS_COUNT).any(|c| rows_for(words, c) > 1)
}

// The first row of class c.
fn row_for(words: &[u32], c: u32) -> Option<RuleRow>
    ensures { result ≡ row_for (rows_in words.now) c }
{
    whole_rows(words)
        .iter()
        .map(|row| RuleRow::from(*row))
        .find(|row| row.spans(c))
}

fn no_row(words: &[u32]) -> bool
    ensures { result ≡ no_row words.now }
{
    !words.is_empty() && (0..CLASS_COUNT).any(|c| row_for(words, c).is_none())
}

pub fn rows_fault(words: &[u32]) -> Result<(), Refusal>
    ensures { code_of result ≡ rows_fault words.now }
{
    if bad_rows(words) {
        return Err(Refusal::Rows);
    }
    if two_rows(words) {
        return Err(Refusal::TwoRows);
    }
    if no_row(words) {
        return Err(Refusal::NoRow);
    }
    Ok(())
}

fn plain_limits(c: u32) -> Limits
    ensures { result ≡ plain_limits c }
{
    let empty = if c < NUM_CLASSES { 4 } else { 32 };
    Limits { empty, cold: 256 }
}

// The limits of the class with number c: its row's, and document 01's where it has none.
fn named_limits(words: &[u32], c: u32) -> Limits
    ensures { result ≡ limits_in (rows_in words.now) c }
{
    row_for(words, c).map_or_else(|| plain_limits(c), RuleRow::limits)
}

// The limits of the class with an id.
pub fn limits_of(words: &[u32], id: u32) -> Limits
    ensures { result ≡ rules_of words.now id }
{
    named_limits(words, number_of(id))
}
