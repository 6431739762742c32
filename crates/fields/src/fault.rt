// Numbers 1 and 2 of a refused call: the arena's length, and the book's; and what of number 13 every call tests.
ghost use Rattle.std.specs.Prelude.{◌≡◌, ◌≤◌, IfOk, length};
ghost use Rattle.words.specs.Refusal.{code_of};
ghost use Rattle.fields.specs.Field.{arena, size, get};
ghost use Rattle.fields.specs.Ranges.{length_fault, meta_fault, format_valid, head_valid};

use crate::arena::ArenaField;
use words::limits::{BOOK_FORMAT, MAX_PAGES};
use words::refusal::Refusal;

// For an opening: an arena of so many pages, in a book of so many words.
pub fn check_length(pages: u64, words: usize) -> Result<(), Refusal>
    ensures { code_of result ≡ length_fault pages words }
{
    if pages == 0 || MAX_PAGES < pages {
        return Err(Refusal::ArenaLength);
    }
    if words < 40_000 + 4_112 * pages as usize {
        return Err(Refusal::BookTooShort);
    }
    Ok(())
}

// For any other call: the arena's length, which is the book's first word. An empty book has none, and reads as length 0.
#[tactic(auto, using(crate::proofs::Sound::no_words), unfolding(crate::specs::Ranges::meta_fault, crate::specs::Field::get))]
pub fn arena_size(meta: &[u32]) -> Result<u32, Refusal>
    ensures fault { code_of result ≡ meta_fault meta.now }
    ensures value { IfOk result (λ n. n ≡ get meta.now (arena size)) }
{
    if meta.is_empty() {
        return Err(Refusal::ArenaLength);
    }
    let size = meta[0];
    check_length(u64::from(size), meta.len())?;
    Ok(size)
}

// An opening of this layout made the book.
pub fn format_valid(meta: &[u32]) -> bool
    requires { 40000 ≤ length meta.now }
    ensures { result ≡ format_valid meta.now }
{
    ArenaField::Format.get(meta) == BOOK_FORMAT
}

// And its frontier is within an arena of n pages.
pub fn head_valid(meta: &[u32], n: u32) -> bool
    requires { 40000 ≤ length meta.now }
    ensures { result ≡ head_valid n meta.now }
{
    if format_valid(meta) {
        return ArenaField::Frontier.get(meta) <= n;
    }
    false
}
