// Who holds each page.
ghost use Rattle.std.specs.Prelude.{◌≡◌, ◌+◌, ◌^◌, ◌<◌, ◌≤◌, length};
ghost use Rattle.fields.specs.Field.{words};
ghost use Rattle.arena.specs.Owners.{own};
ghost use Rattle.arena.specs.Calls.{held_direct, every_direct};
ghost use Rattle.runs.specs.way.Pre.{BookIn};

use arena::DIRECT;
use fields::arena::ArenaField;
use fields::page::PageField;

// The pages from `first` on get an owner.
pub fn own(meta: &mut [u32], first: u32, pages: u32, owner: u32)
    requires { (words (first + pages) ≤ length meta.old) × (first + pages < 2 ^ 32) }
    ensures { meta.new ≡ own meta.old first pages owner }
{
    for p in first..first + pages {
        PageField::Owner.set(meta, p, owner);
    }
}

// Does every page of the run say that the direct calls hold it. The last page is looked at first.
fn all_direct(meta: &[u32], first: u32, pages: u32) -> bool
    requires { (words (first + pages) ≤ length meta.now) × (first + pages < 2 ^ 32) }
    ensures { result ≡ every_direct meta.now first pages }
{
    let mut left = pages;
    while 0 < left {
        left -= 1;
        if PageField::Owner.get(meta, first + left) != DIRECT {
            return false;
        }
    }
    true
}

// Number 12: is the run wholly held by the direct calls, in an arena of `size` pages. No sum is made before it is known to fit.
pub fn held_direct(meta: &[u32], size: u32, first: u64, pages: u64) -> bool
    requires { BookIn meta.now size }
    ensures { result ≡ held_direct size meta.now first pages }
{
    if (size as u64) < pages {
        return false;
    }
    if (size as u64) - pages < first {
        return false;
    }
    if (ArenaField::Frontier.get(meta) as u64) < first + pages {
        return false;
    }
    all_direct(meta, first as u32, pages as u32)
}
