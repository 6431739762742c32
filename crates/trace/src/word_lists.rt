// What a release writes to the list of blocks, and the kinds restored at the end.
ghost use Rattle.std.specs.Prelude.{◌≡◌, true, map};
ghost use Rattle.words.specs.Word.{kind_of, granule_of, pack_block};
ghost use Rattle.trace.specs.Words.{is_block, flip_kind, restore_kind};

use words::Word;

fn kind_of(w: u64) -> u32
    ensures { result ≡ kind_of w }
{
    Word::of(w).kind()
}

pub fn is_block(w: u64) -> bool
    ensures { result ≡ is_block w }
{
    let kind = kind_of(w);
    kind == Word::SMALL || kind == Word::MEDIUM
}

// A word with its kind changed.
fn with_kind(kind: u32, w: u64) -> u64
    ensures { result ≡ pack_block kind (granule_of w) }
{
    let word = Word::block(kind, Word::of(w).granule());
    word.bits
}

// The word of a released block: its kind goes from 1 to 0, from 2 to 3.
pub fn flip_kind(w: u64) -> u64
    requires { is_block w ≡ true }
    ensures { result ≡ flip_kind w }
{
    if kind_of(w) == Word::SMALL {
        return with_kind(Word::NONE, w);
    }
    with_kind(Word::CHUNK, w)
}

// The word of a block as it was handed out: a released one's kind is restored.
fn restore_kind(w: u64) -> u64
    ensures { result ≡ restore_kind w }
{
    match kind_of(w) {
        Word::NONE => with_kind(Word::SMALL, w),
        Word::CHUNK => with_kind(Word::MEDIUM, w),
        _ => w,
    }
}

pub fn restore_kinds(blocks: &mut [u64])
    ensures { blocks.new ≡ map restore_kind blocks.old }
{
    for w in blocks.iter_mut() {
        *w = restore_kind(*w);
    }
}
