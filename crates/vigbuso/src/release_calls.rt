// The releases by list. Any number, any list and any book is taken: numbers 1 to 4 stand before each call.
ghost use Rattle.std.specs.Prelude.{◌+◌, ◌≤◌};
ghost use Rattle.classes.specs.Shape.{class_count};
ghost use Rattle.release.specs.way.Act.{Answered};
ghost use Rattle.release.specs.way.Told.{told};
ghost use Rattle.vigbuso.specs.Blocks.{release_on, ReleaseEnds};

use crate::faults::check_class;
use release::Fate;
use words::refusal::Refusal;

// A release of a class among those of ids `low` to `low + many - 1`.
fn release_on(
    meta: &mut [u32],
    low: u32,
    many: u32,
    class: u32,
    host: u32,
    list: &[u64],
) -> Result<Fate, Refusal>
    requires { low + many ≤ class_count }
    ensures { Answered (told result) meta.new (release_on low many meta.old class host list.now) }
{
    let size = check_class(meta, host, many, class)?;
    release::release_blocks(meta, size, low + class, host, list)
}

#[unsafe(no_mangle)]
pub extern "C" fn vigbuso_release_blocks(
    meta: &mut [u32],
    class: u32,
    host: u32,
    list: &[u64],
    fate: &mut u32,
) -> u32
    ensures { ReleaseEnds (release_on 0 64 meta.old class host list.now) result meta.new fate.old fate.new }
{
    match release_on(meta, 0, 64, class, host, list) {
        Err(refusal) => refusal.number(),
        Ok(f) => {
            *fate = f.number();
            0
        }
    }
}

#[unsafe(no_mangle)]
pub extern "C" fn vigbuso_medium_release_blocks(
    meta: &mut [u32],
    class: u32,
    host: u32,
    list: &[u64],
    fate: &mut u32,
) -> u32
    ensures { ReleaseEnds (release_on 64 12 meta.old class host list.now) result meta.new fate.old fate.new }
{
    match release_on(meta, 64, 12, class, host, list) {
        Err(refusal) => refusal.number(),
        Ok(f) => {
            *fate = f.number();
            0
        }
    }
}
