// The calls that a trace's words stand for.
ghost use Rattle.std.specs.Prelude.{◌≡◌, ◌≤◌, length};
ghost use Rattle.words.specs.Host.{host_max};
ghost use Rattle.take.specs.way.TakePlan.{CallPre};
ghost use Rattle.release.specs.way.Act.{Answered};
ghost use Rattle.release.specs.way.Told.{told};
ghost use Rattle.trace.specs.Words.{owner_at, take_now, back_now};
ghost use Rattle.trace.specs.way.Pre.{BookPre, TakesAt, owner_of, fitted};

use classes::CLASS_COUNT;
use fields::page::PageField;
use release::Fate;
use take::call::Taken;
use words::Host;
use words::refusal::Refusal;

// "Host answers are all granted and zeroing".
fn all_granted() -> u32
    ensures { result ≡ host_max }
{
    let host = Host::new(true, true, true, true);
    host.bits
}

// The id of the class that the block's page is of, by OWNER. No page of the arena's own and none beyond the book's pages has one.
pub fn class_at(meta: &[u32], n: u32, w: u64) -> Option<u32>
    requires { BookPre n meta.now }
    ensures { owner_of result ≡ owner_at n meta.now w }
{
    let p = pages::page_at(w);
    if p >= u64::from(n) {
        return None;
    }
    PageField::Owner.get(meta, p as u32).checked_sub(1)
}

// The release of one block, in the class that its page is of. A list is made only where `release_one` does not carry it out.
pub fn back_now(meta: &mut [u32], n: u32, w: u64) -> Result<Fate, Refusal>
    requires { BookPre n meta.old }
    ensures { Answered (told result) meta.new (back_now n meta.old w) }
{
    let Some(c) = class_at(meta, n, w) else {
        return Err(Refusal::NotOut);
    };
    if c >= CLASS_COUNT {
        return Err(Refusal::NotOut);
    }
    if release::release_one(meta, n, c, w) {
        return Ok(Fate::Kept);
    }
    let list = [w];
    release::release_list(meta, n, c, all_granted(), &list)
}

// A take whose blocks come to the list from place `at` on, if there is room for them.
pub fn take_now(
    meta: &mut [u32],
    n: u32,
    c: u32,
    blocks: &mut [u64],
    at: usize,
) -> Result<Taken, Refusal>
    requires call_pre { CallPre n meta.old c }
    requires at_in_bounds { at ≤ length blocks.old }
    ensures { TakesAt result meta.new blocks.new (fitted (take_now n meta.old c) meta.old blocks.old at) blocks.old at }
{
    take::call::take_call(meta, n, c, all_granted(), &mut blocks[at..], false)
}
