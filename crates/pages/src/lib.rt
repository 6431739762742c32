// A class's pages and their blocks on the words: definitions, and the little code that every layer above them shares.
#![tactic(auto)]

ghost use Rattle.std.specs.Prelude.{◌≡◌, ◌^◌, ◌<◌};
ghost use Rattle.words.specs.Word.{page_of};
ghost use Rattle.pages.specs.Stack.{page_at};

use words::Word;

// The stores of pages with no block out.
#[derive(Clone, Copy)]
pub enum Park {
    Empty,
    Cold,
}

// The page that has a word's granule, which may lie beyond every arena.
pub fn page_at(w: u64) -> u64
    ensures { result ≡ page_at w }
{
    Word::of(w).granule() / 4096
}

// The same of a word that lies in an arena.
pub fn page_within(w: u64) -> u32
    requires { page_at w < 2 ^ 32 }
    ensures { result ≡ page_at w }
{
    page_at(w) as u32
}

// A chunk's page, where it is one of an arena.
pub fn chunk_page(chunk: u64) -> u32
    requires { page_of chunk < 2 ^ 32 }
    ensures { result ≡ page_of chunk }
{
    Word::of(chunk).page() as u32
}
