// Number 9: the kind of every listed word.
ghost use Rattle.std.specs.Prelude.{◌≡◌, ◌==◌};
ghost use Rattle.facts.specs.Lists.{every};
ghost use Rattle.model.specs.Release.{of_kind};

use words::Word;

// By which bits the word's kind differs.
fn differs(w: u64, kind: u32) -> u32
    ensures { (result == 0) ≡ of_kind kind w }
{
    Word::of(w).kind() ^ kind
}

// The bits are gathered to the list's end: the loop has no other way out.
pub fn all_of_kind(list: &[u64], kind: u32) -> bool
    ensures { result ≡ every (of_kind kind) list.now }
{
    let mut any = 0;
    for w in list {
        any |= differs(*w, kind);
    }
    any == 0
}
